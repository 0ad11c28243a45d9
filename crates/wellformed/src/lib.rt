// Whether a state's words are well formed for a table, and the words that load writes.
#![tactic(auto)]

mod agents; // agents.rt: an agent's block, and all of them
mod candidates; // candidates.rt: the words that are checked, and what they are checked for
mod entries; // entries.rt: entries of an agent, and its pending keys
mod loading; // loading.rt: the words that load writes
mod pairs; // pairs.rt: the pairs of a store
mod residuals; // residuals.rt: residuals
mod zeros; // zeros.rt: words that are all 0

ghost use Rattle.std.specs.Prelude.{◌≡◌, List, ℕ};
ghost use Rattle.table.specs.Tables.{table};
ghost use Rattle.state.specs.WellFormed.{well_formed};
ghost use Rattle.wellformed.specs.Given.{CheckGiven};

use candidates::Candidate;
pub use loading::write_loaded;
use state::{AGENTS, CLOCK_LIMIT, Store, block_at, clock_of};
use table::Sizes;
use zeros::all_zero;

// Refusal 9: whether the state is well formed for the table. No fleet: operands are not asked for, nor kinds of a length.
#[tactic(auto, unfolding(state::specs::WellFormed::well_formed))]
pub fn well_formed(sizes: Sizes, kinds: &[u8], state: &[u32]) -> bool
    requires { CheckGiven sizes kinds.now state.now }
    ensures { (operands : List ℕ) → result ≡ well_formed (table sizes kinds.now operands) state.now }
{
    let candidate = Candidate {
        sizes,
        kinds,
        state,
    };
    state[AGENTS] as usize == sizes.agents
        && clock_of(state) <= CLOCK_LIMIT
        && candidate.store_formed(Store::Environment, 1, sizes.environment)
        && candidate.agents_formed()
        && all_zero(&state[block_at(sizes.agents)..])
}
