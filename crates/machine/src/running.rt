// A schedule: refusals 19 and 20, and its steps in turn.
ghost use Rattle.std.specs.Prelude.{◌≡◌, ◌≤◌, length};
ghost use Rattle.accept.specs.Accepted.{accepted_table};
ghost use Rattle.state.specs.WellFormed.{Proper};
ghost use Rattle.steps.specs.Runs.{begun, ran};
ghost use Rattle.machine.specs.Answers.{Reports};
ghost use Rattle.machine.specs.Running.{IsNarrow, Schedules, CanTally, tallied};

use crate::Totals;
use crate::schedule::Schedule;
use crate::stepping::step_in;
use accept::Accepted;
use steps::Tally;
use table::Refused;

// The steps of a schedule, or its refusal.
pub fn judge_schedule<'a>(bytes: &'a [u8], answers: &[u8]) -> Result<Schedule<'a>, Refused>
    ensures { Schedules bytes.now answers.now result }
{
    let schedule = Schedule::try_from(bytes)?;
    if answers.len() < schedule.steps {
        return Err(Refused::AnswersShort);
    }
    Ok(schedule)
}

impl Totals {
    // With one more step.
    fn with(self, stepped: Result<Tally, Refused>) -> Totals
        requires { CanTally self stepped }
        ensures { result ≡ tallied self stepped }
    {
        match stepped {
            Ok(tally) => Totals {
                done: self.done + 1,
                tally: self.tally + tally,
                ..self
            },
            Err(_) => Totals {
                refused: self.refused + 1,
                ..self
            },
        }
    }
}

// All steps of a schedule, each with its answer byte: 0, or its refusal.
pub fn run_steps(
    accepted: &Accepted,
    state: &mut [u32],
    schedule: &Schedule,
    answers: &mut [u8],
) -> Totals
    requires proper { Proper (accepted_table accepted.now) state.old }
    requires bytes { IsNarrow (accepted_table accepted.now).operands }
    requires room { schedule.now.steps ≤ length answers.old }
    ensures { let s = schedule.now in Reports
        (ran (accepted_table accepted.now) s.bytes.now s.steps (begun state.old answers.old))
        result state.new answers.new }
{
    let mut totals = Totals::default();
    for (i, answer) in answers[..schedule.steps].iter_mut().enumerate() {
        let stepped = step_in(accepted, state, schedule.request_at(i));
        *answer = stepped.map_or_else(|refusal| refusal.number(), |_| 0);
        totals = totals.with(stepped);
    }
    totals
}
