// Whether a shelf's words are well formed for a table: 9, after what was judged before.
ghost use Rattle.std.specs.Prelude.{◌≡◌, ◌<◌, IfOk, length};
ghost use Rattle.table.specs.Fleets.{table_in};
ghost use Rattle.steps.specs.Shelves.{place_limit, shelf_words, place_formed, shelf_formed};
ghost use Rattle.shelf.specs.Shelving.{ShelfJudged};

use crate::places::{NAME_LIMIT, PLACES, place_of, saved_of};
use table::{Fleet, Refused};
use wellformed::well_formed;

#[tactic(auto, unfolding(steps::specs::Shelves::place_formed))]
fn place_formed(fleet: &Fleet, shelf: &[u32], place: usize) -> bool
    requires { (length shelf.now ≡ shelf_words) × (place < place_limit) }
    ensures { result ≡ place_formed shelf.now (table_in fleet.now) place }
{
    let name = shelf[place];
    name == 0
        || name <= NAME_LIMIT
            && place_of(shelf, name) == Some(place)
            && well_formed(fleet.sizes, fleet.kinds, saved_of(shelf, place))
}

fn shelf_formed(fleet: &Fleet, shelf: &[u32]) -> bool
    requires { length shelf.now ≡ shelf_words }
    ensures { result ≡ shelf_formed shelf.now (table_in fleet.now) }
{
    (0..PLACES).all(|place| place_formed(fleet, shelf, place))
}

// What was judged before, and then 9 of the shelf.
pub fn judge_shelf(earlier: Result<Fleet, Refused>, shelf: &[u32]) -> Result<(), Refused>
    requires { IfOk earlier (λ fleet. length shelf.now ≡ shelf_words) }
    ensures { ShelfJudged earlier.entry shelf.now result }
{
    let fleet = earlier?;
    if shelf_formed(&fleet, shelf) {
        Ok(())
    } else {
        Err(Refused::StateNotWellFormed)
    }
}
