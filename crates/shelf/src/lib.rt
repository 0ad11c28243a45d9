// Points to come back to, for any bytes: a lent shelf holds eight states under names.
#![tactic(auto)]

mod forming; // forming.rt: 9, of a shelf
mod keeping; // keeping.rt: refusals 21 and 22, and what is then written
mod places; // places.rt: names and places

ghost use Rattle.std.specs.Prelude.{length};
ghost use Rattle.steps.specs.Points.{save_of, restore_of, drop_of};
ghost use Rattle.shelf.specs.Answers.{Changes};

use forming::judge_shelf;
use keeping::{drop_in, restore_in, save_in};
use opening::open;
pub use places::SHELF_WORDS;
use table::Refused;

// The state goes to the shelf under a name: to the place that the name holds, or else to the lowest free one.
pub fn save(
    table: &[u8],
    state: &[u32],
    scratch: &mut [u32],
    shelf: &mut [u32],
    name: u32,
) -> Result<(), Refused>
    ensures { Changes (save_of table.now state.now (length scratch.old) shelf.old name)
        result shelf.new }
{
    let opened = open(table, state, shelf.len() == SHELF_WORDS, scratch);
    judge_shelf(opened, shelf)?;
    save_in(state, shelf, name)
}

// The state becomes the one that the shelf holds under a name.
pub fn restore(
    table: &[u8],
    state: &mut [u32],
    scratch: &mut [u32],
    shelf: &[u32],
    name: u32,
) -> Result<(), Refused>
    ensures { Changes (restore_of table.now state.old (length scratch.old) shelf.now name)
        result state.new }
{
    let opened = open(table, state, shelf.len() == SHELF_WORDS, scratch);
    judge_shelf(opened, shelf)?;
    restore_in(state, shelf, name)
}

// The place that a name holds becomes free.
pub fn drop(table: &[u8], scratch: &mut [u32], shelf: &mut [u32], name: u32) -> Result<(), Refused>
    ensures { Changes (drop_of table.now (length scratch.old) shelf.old name) result shelf.new }
{
    let accepted = accept::accept(table, shelf.len() == SHELF_WORDS, scratch);
    judge_shelf(accepted, shelf)?;
    drop_in(shelf, name)
}
