// What an act writes: the key, Zc and the residual.
ghost use Rattle.std.specs.Prelude.{◌≡◌, ◌<◌, set, Ok};
ghost use Rattle.table.specs.Tables.{agent_limit};
ghost use Rattle.accept.specs.Accepted.{accepted_table};
ghost use Rattle.state.specs.Layout.{zc_at};
ghost use Rattle.state.specs.Standing.{HasBlocks};
ghost use Rattle.state.specs.WellFormed.{Proper};
ghost use Rattle.steps.specs.Acts.{chosen, acted};
ghost use Rattle.judging.specs.Judging.{Judges};

use crate::gaining::gained;
use crate::leaving::leave;
use crate::setting::set_label;
use accept::Accepted;
use judging::Allowed;
use state::zc_at;

// An agent's Zc becomes a set of keys.
fn set_zc(state: &mut [u32], agent: usize, keys: u32)
    requires { HasBlocks state.old × (agent < agent_limit) }
    ensures { state.new ≡ set state.old (zc_at agent) keys }
{
    state[zc_at(agent)] = keys;
}

// Choice c of an agent is done, as it was judged.
pub fn perform(accepted: &Accepted, state: &mut [u32], agent: usize, c: u64, allowed: Allowed)
    requires proper { Proper (accepted_table accepted.now) state.old }
    requires agent_lt_agents { agent < accepted.now.fleet.sizes.agents }
    requires judges { Judges (accepted_table accepted.now) state.old agent c (Ok allowed) }
    ensures { let t = accepted_table accepted.now in state.new ≡ acted t state.old agent (chosen t state.old agent c) }
{
    let gains = gained(&accepted.fleet, state, agent, allowed);
    set_label(&accepted.fleet, state, agent, allowed);
    set_zc(state, agent, gains);
    leave(accepted, state, agent, c);
}
