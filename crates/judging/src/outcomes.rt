// Refusals 15 to 17: the value that an action sets, the clock, and the length of what is left.
ghost use Rattle.table.specs.Fleets.{table_in};
ghost use Rattle.judging.specs.Outcomes.{Doing, Sets, Ended};

use crate::Allowed;
use basis::NodeKind;
use choice::Effect;
use evaluation::value_of;
use state::{RESIDUAL_WORDS, clock_of};
use table::{Fleet, Refused};
use term::Label;

// 15 and 16: the word that what is done sets. A tick has no expression, and sets nothing.
fn word_set(fleet: &Fleet, state: &[u32], agent: usize, label: Label) -> Result<u32, Refused>
    requires { Doing (table_in fleet.now) state.now agent label }
    ensures { Sets (table_in fleet.now) state.now agent label result }
{
    let Label::Acting(node) = label else {
        return Ok(0);
    };
    let value = value_of(fleet, state, agent, agent, fleet.q_at(node));
    let word = value.ok_or(Refused::ExpressionAbsent)?;
    let stamps = fleet.kind_at(node) == NodeKind::SetStigmergy as u8;
    if stamps & (state::CLOCK_LIMIT <= clock_of(state)) {
        return Err(Refused::ClockAtEnd);
    }
    Ok(word)
}

// 15 to 17, of what is done and how many words it leaves.
pub fn judge_outcome(
    fleet: &Fleet,
    state: &[u32],
    agent: usize,
    effect: Effect,
    keys: u32,
) -> Result<Allowed, Refused>
    requires { Doing (table_in fleet.now) state.now agent effect.label }
    ensures { Ended (table_in fleet.now) state.now agent effect.label keys effect.size result }
{
    let label = effect.label;
    let value = word_set(fleet, state, agent, label)?;
    if RESIDUAL_WORDS < effect.size {
        return Err(Refused::ResidualTooLong);
    }
    Ok(Allowed { label, value, keys })
}
