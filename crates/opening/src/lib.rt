// What calls on a state begin with, refusals 1 to 9: a table that is accepted, and a state of it that is well formed.
#![tactic(auto)]

ghost use Rattle.opening.specs.Opening.{Opens};

use table::{Fleet, Refused};
use wellformed::well_formed;

// `others_fit`: whether what the call lends beside state and scratch has the lengths that 8 asks.
pub fn open<'a>(
    table: &'a [u8],
    state: &[u32],
    others_fit: bool,
    scratch: &mut [u32],
) -> Result<Fleet<'a>, Refused>
    ensures { Opens others_fit table.now state.now scratch.old scratch.new result }
{
    let fits = others_fit & (state.len() == state::STATE_WORDS);
    let fleet = accept::accept(table, fits, scratch)?;
    if !well_formed(fleet.sizes, fleet.kinds, state) {
        return Err(Refused::StateNotWellFormed);
    }
    Ok(fleet)
}
