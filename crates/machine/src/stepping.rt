// A step of an accepted table and a well-formed state: judged, and then done on the state or on a copy of it.
ghost use Rattle.std.specs.Prelude.{◌≡◌, length};
ghost use Rattle.accept.specs.Accepted.{accepted_table};
ghost use Rattle.state.specs.WellFormed.{Proper};
ghost use Rattle.machine.specs.Answers.{Steps};
ghost use Rattle.machine.specs.Requests.{step_asked};
ghost use Rattle.machine.specs.Stepping.{into, Finishing, Finishes};

use crate::checking::{Planned, judge_step};
use crate::requests::Request;
use accept::Accepted;
use acting::perform;
use basis::words::copy;
use offering::offer;
use steps::Tally;
use table::Refused;

// A step is done on a state, as it was judged.
fn finish(accepted: &Accepted, state: &mut [u32], request: Request, planned: Planned) -> Tally
    requires { Finishing (accepted_table accepted.now) state.old request planned }
    ensures { Finishes (accepted_table accepted.now) state.old request planned result state.new }
{
    let agent = request.agent;
    let number = request.number;
    match planned {
        Planned::Act(allowed) => {
            perform(accepted, state, agent, number as u64, allowed);
            Tally::default()
        }
        Planned::Offer { confirming } => {
            offer(&accepted.fleet, state, agent, number, true, confirming)
        }
    }
}

pub fn step_in(accepted: &Accepted, state: &mut [u32], request: Request) -> Result<Tally, Refused>
    requires { Proper (accepted_table accepted.now) state.old }
    ensures { Steps (step_asked (accepted_table accepted.now) state.old request) result state.new }
{
    let planned = judge_step(accepted, state, request)?;
    Ok(finish(accepted, state, request, planned))
}

// The step is judged on a first state; the second one is written only where it is done.
pub fn preview_in(
    accepted: &Accepted,
    first: &[u32],
    request: Request,
    second: &mut [u32],
) -> Result<Tally, Refused>
    requires proper { Proper (accepted_table accepted.now) first.now }
    requires first_len { length first.now ≡ length second.old }
    ensures { Steps (into second.old (step_asked (accepted_table accepted.now) first.now request)) result second.new }
{
    let planned = judge_step(accepted, first, request)?;
    copy(first, second);
    Ok(finish(accepted, second, request, planned))
}
