// Save, restore and drop where table, state and shelf are in order: refusals 21 and 22, and what is then written.
ghost use Rattle.std.specs.Prelude.{◌≡◌, length};
ghost use Rattle.table.specs.Checks.{first_of};
ghost use Rattle.state.specs.Layout.{state_words};
ghost use Rattle.steps.specs.Shelves.{shelf_words};
ghost use Rattle.steps.specs.Points.{change, save_checks, held_checks, saved, restored, dropped};
ghost use Rattle.shelf.specs.Answers.{Changes};

use crate::places::{held_place, is_name, save_place, saved_at, saved_of};
use basis::words::copy;
use table::Refused;

pub fn save_in(state: &[u32], shelf: &mut [u32], name: u32) -> Result<(), Refused>
    requires { (length state.now ≡ state_words) × (length shelf.old ≡ shelf_words) }
    ensures { Changes (change (first_of (save_checks shelf.old name)) shelf.old
        (saved state.now shelf.old name)) result shelf.new }
{
    if !is_name(name) {
        return Err(Refused::NoSuchName);
    }
    let place = save_place(shelf, name).ok_or(Refused::ShelfFull)?;
    let at = saved_at(place);
    let end = at + state::STATE_WORDS;
    copy(state, &mut shelf[at..end]);
    shelf[place] = name;
    Ok(())
}

pub fn restore_in(state: &mut [u32], shelf: &[u32], name: u32) -> Result<(), Refused>
    requires { (length state.old ≡ state_words) × (length shelf.now ≡ shelf_words) }
    ensures { Changes (change (first_of (held_checks shelf.now name)) state.old (restored shelf.now name))
        result state.new }
{
    let place = held_place(shelf, name).ok_or(Refused::NoSuchName)?;
    copy(saved_of(shelf, place), state);
    Ok(())
}

pub fn drop_in(shelf: &mut [u32], name: u32) -> Result<(), Refused>
    requires { length shelf.old ≡ shelf_words }
    ensures { Changes (change (first_of (held_checks shelf.old name)) shelf.old (dropped shelf.old name))
        result shelf.new }
{
    let place = held_place(shelf, name).ok_or(Refused::NoSuchName)?;
    shelf[place] = 0;
    Ok(())
}
