// An act judged, in the order of the refusals.
ghost use Rattle.std.specs.Prelude.{◌<◌};
ghost use Rattle.accept.specs.Accepted.{accepted_table};
ghost use Rattle.state.specs.WellFormed.{Proper};
ghost use Rattle.judging.specs.Judging.{Judges};
ghost use Rattle.judging.specs.Residuals.{ResidualGiven};

use crate::Allowed;
use crate::guards::ask_guards;
use crate::outcomes::judge_outcome;
use accept::Accepted;
use residual::choosing::{collect, count_choices};
use state::{length_at, residual_at, zc_at, zp_at};
use table::Refused;

// 12 to 17 of choice c, where no key waits. The words are those of the agent's residual.
fn judge_choice(
    accepted: &Accepted,
    state: &[u32],
    words: &[u32],
    agent: usize,
    c: u64,
) -> Result<Allowed, Refused>
    requires { ResidualGiven (accepted_table accepted.now) state.now agent words.now }
    ensures { Judges (accepted_table accepted.now) state.now agent c result }
{
    let fleet = &accepted.fleet;
    let counted = count_choices(fleet.sizes, accepted.counts, words);
    let choices = counted.ok_or(Refused::ResidualDerivations)?;
    if choices <= c {
        return Err(Refused::NoSuchChoice);
    }
    let mut marks = [0u32; 128];
    let effect = collect(accepted, &mut marks, words, c);
    let keys = ask_guards(fleet, state, &marks, agent)?;
    judge_outcome(fleet, state, agent, effect, keys)
}

// Choice c of an agent. Nothing is written.
pub fn judge(accepted: &Accepted, state: &[u32], agent: usize, c: u64) -> Result<Allowed, Refused>
    requires proper { Proper (accepted_table accepted.now) state.now }
    requires agent_lt_agents { agent < accepted.now.fleet.sizes.agents }
    ensures { Judges (accepted_table accepted.now) state.now agent c result }
{
    if (state[zc_at(agent)] != 0) | (state[zp_at(agent)] != 0) {
        return Err(Refused::KeysPending);
    }
    let size = state[length_at(agent)] as usize;
    let at = residual_at(agent);
    let end = at + size;
    judge_choice(accepted, state, &state[at..end], agent, c)
}
