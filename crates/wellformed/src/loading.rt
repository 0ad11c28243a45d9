// The words that load writes.
ghost use Rattle.std.specs.Prelude.{◌≡◌, List, ℕ};
ghost use Rattle.basis.specs.Numbers.{for_each};
ghost use Rattle.table.specs.Tables.{table};
ghost use Rattle.state.specs.WellFormed.{started, loaded};
ghost use Rattle.wellformed.specs.Given.{LoadGiven};

use basis::words::clear;
use state::{AGENTS, length_at, residual_at};
use table::Sizes;

// Each agent's residual becomes the node that its root names.
fn start(sizes: Sizes, operands: &[u8], state: &mut [u32])
    requires { LoadGiven sizes operands.now state.old }
    ensures { (kinds : List ℕ) → state.new ≡
        for_each (started (table sizes kinds operands.now)) sizes.agents state.old }
{
    let first = sizes.first_root() + sizes.definitions + sizes.stigmergy;
    for agent in 0..sizes.agents {
        state[length_at(agent)] = 1;
        state[residual_at(agent)] = basis::u16_at(operands, 4 * (first + agent)) as u32;
    }
}

// The state becomes what load leaves: A, each agent with the node that its root names, and 0. No fleet: kinds are not
// asked for, nor operands of a length.
pub fn write_loaded(sizes: Sizes, operands: &[u8], state: &mut [u32])
    requires { LoadGiven sizes operands.now state.old }
    ensures { (kinds : List ℕ) → state.new ≡ loaded (table sizes kinds operands.now) }
{
    clear(state, 0);
    start(sizes, operands, state);
    state[AGENTS] = sizes.agents as u32;
}
