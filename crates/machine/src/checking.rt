// A step of an accepted table and a well-formed state is judged before anything is written: refusals 10 to 18.
ghost use Rattle.std.specs.Prelude.{◌≡◌};
ghost use Rattle.accept.specs.Accepted.{accepted_table};
ghost use Rattle.state.specs.declared.Store.TheVariants.{Entries};
ghost use Rattle.state.specs.Standing.{Pair, HasBlocks};
ghost use Rattle.state.specs.WellFormed.{Proper};
ghost use Rattle.machine.specs.Requests.{step_asked};
ghost use Rattle.machine.specs.Stepping.{judged_offer, StepJudged};

use crate::requests::{Kind, Request};
use accept::Accepted;
use judging::{Allowed, judge};
use offering::pending_at;
use table::Refused;

// A step that may be done: an act, as it was judged, or an offer.
#[derive(Clone, Copy)]
pub enum Planned {
    Act(Allowed),
    Offer { confirming: bool },
}

// 18.
fn judge_offer(state: &[u32], request: Request, confirming: bool) -> Result<Planned, Refused>
    requires { HasBlocks state.now × Pair (Entries request.agent) request.number }
    ensures { result ≡ judged_offer state.now request.agent request.number confirming }
{
    let keys = state[pending_at(request.agent, confirming)];
    if basis::has(keys, request.number) {
        Ok(Planned::Offer { confirming })
    } else {
        Err(Refused::KeyNotInSet)
    }
}

// 10 to 18.
pub fn judge_step(accepted: &Accepted, state: &[u32], request: Request) -> Result<Planned, Refused>
    requires { Proper (accepted_table accepted.now) state.now }
    ensures { let t = accepted_table accepted.now in StepJudged t state.now request (step_asked t state.now request) result }
{
    match request.kind_in(&accepted.fleet)? {
        Kind::Act => judge(accepted, state, request.agent, request.number as u64).map(Planned::Act),
        Kind::Propagate => judge_offer(state, request, false),
        Kind::Confirm => judge_offer(state, request, true),
    }
}
