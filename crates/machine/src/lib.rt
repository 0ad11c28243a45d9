// Load, step, preview and run, for any bytes as table, state and schedule.
#![tactic(auto)]

mod checking; // checking.rt: refusals 11 to 18
mod requests; // requests.rt: a step as it is asked for; 10
mod running; // running.rt: 20, and the steps of a schedule
mod schedule; // schedule.rt: a schedule's bytes; 19
mod stepping; // stepping.rt: a step, or its preview, of an accepted table and a well-formed state

ghost use Rattle.std.specs.Prelude.{length};
ghost use Rattle.steps.specs.Steps.{load_of, step_of};
ghost use Rattle.steps.specs.Previews.{preview_of};
ghost use Rattle.steps.specs.Runs.{run_of};
ghost use Rattle.machine.specs.Answers.{Loads, Steps, Runs};

use accept::Accepted;
use opening::open;
use requests::Request;
use running::{judge_schedule, run_steps};
use stepping::{preview_in, step_in};
use steps::Tally;
use table::Refused;
use wellformed::write_loaded;

// How many steps of a run were done and refused, and what they count.
#[derive(Clone, Copy, Default)]
pub struct Totals {
    pub done: u32,
    pub refused: u32,
    pub tally: Tally,
}

// The state becomes that of a fleet which has not stepped yet. Scratch of under two words for each node is refused (8).
pub fn load(table: &[u8], state: &mut [u32], scratch: &mut [u32]) -> Result<(), Refused>
    ensures { Loads (load_of table.now state.old (length scratch.old)) result state.new }
{
    let fleet = accept::accept(table, state.len() == state::STATE_WORDS, scratch)?;
    write_loaded(fleet.sizes, fleet.operands, state);
    Ok(())
}

// One step: act (kind 0; number is a choice), propagate (1) or confirm (2; number is a key).
pub fn step(
    table: &[u8],
    state: &mut [u32],
    scratch: &mut [u32],
    kind: u8,
    agent: u16,
    number: u16,
) -> Result<Tally, Refused>
    ensures { Steps (step_of table.now state.old (length scratch.old) kind agent number) result state.new }
{
    let fleet = open(table, state, true, scratch)?;
    let accepted = Accepted {
        fleet,
        counts: scratch,
    };
    step_in(&accepted, state, Request::new(kind, agent, number))
}

// What the same step would do: the state after it goes to a second buffer, which a refusal leaves as it came. A second
// buffer of another length than a state's is refused (8).
pub fn preview(
    table: &[u8],
    state: &[u32],
    scratch: &mut [u32],
    kind: u8,
    agent: u16,
    number: u16,
    next: &mut [u32],
) -> Result<Tally, Refused>
    ensures { Steps
        (preview_of table.now state.now (length scratch.old) kind agent number next.old)
        result next.new }
{
    let fleet = open(table, state, next.len() == state::STATE_WORDS, scratch)?;
    let accepted = Accepted {
        fleet,
        counts: scratch,
    };
    preview_in(&accepted, state, Request::new(kind, agent, number), next)
}

// The steps of a schedule, each in turn, with an answer byte for each: 0, or its refusal.
pub fn run(
    table: &[u8],
    state: &mut [u32],
    scratch: &mut [u32],
    schedule: &[u8],
    answers: &mut [u8],
) -> Result<Totals, Refused>
    ensures { Runs
        (run_of table.now state.old (length scratch.old) schedule.now answers.old)
        result state.new answers.new }
{
    let fleet = open(table, state, true, scratch)?;
    let schedule = judge_schedule(schedule, answers)?;
    let accepted = Accepted {
        fleet,
        counts: scratch,
    };
    Ok(run_steps(&accepted, state, &schedule, answers))
}
