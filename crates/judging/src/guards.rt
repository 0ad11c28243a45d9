// Refusal 14: whether every marked guard holds, and the stigmergy keys that they read.
ghost use Rattle.std.specs.Prelude.{◌≡◌, List, ℕ};
ghost use Rattle.table.specs.Fleets.{table_in};
ghost use Rattle.judging.specs.Guards.{GuardsMarked, GuardsGiven, asked_of};

use choice::marking::next_guard;
use evaluation::{holds, keys_read};
use table::{Fleet, Refused};

pub fn ask_guards(fleet: &Fleet, state: &[u32], marks: &[u32], agent: usize) -> Result<u32, Refused>
    requires { GuardsGiven (table_in fleet.now) state.now agent marks.now }
    ensures { (gs : List ℕ) → GuardsMarked (table_in fleet.now) gs marks.now
        → result ≡ asked_of (table_in fleet.now) state.now agent gs }
{
    let mut keys = 0;
    let mut from = 0;
    while let Some(n) = next_guard(fleet.kinds, marks, from) {
        if !holds(fleet, state, agent, agent, n) {
            return Err(Refused::GuardFails);
        }
        keys = keys_read(fleet, n, keys);
        from = n + 1;
    }
    Ok(keys)
}
