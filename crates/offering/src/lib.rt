// Propagate and confirm: an agent's entry for a key is offered to every other agent.
#![tactic(auto)]

mod offers; // offers.rt: an entry on offer, whom it could touch, and the offer to all
mod responses; // responses.rt: how an agent responds to an entry, what that writes and what it counts

ghost use Rattle.std.specs.Prelude.{◌<◌, cond};
ghost use Rattle.table.specs.Tables.{agent_limit};
ghost use Rattle.table.specs.Fleets.{table_in};
ghost use Rattle.state.specs.Layout.{zc_at, zp_at};
ghost use Rattle.state.specs.Standing.{Standing};
ghost use Rattle.steps.specs.Offers.{offer_tally, sent};
ghost use Rattle.offering.specs.Passing.{Passing, Passed};

use offers::Offer;
use state::{drop_key, entry_of, zc_at, zp_at};
use steps::Tally;
use table::Fleet;

// The set that a step takes its key from: Zc for a confirm, else Zp.
pub fn pending_at(agent: usize, confirming: bool) -> usize
    requires { agent < agent_limit }
    ensures { Standing (cond confirming (zc_at agent) (zp_at agent)) 1 result }
{
    if confirming {
        zc_at(agent)
    } else {
        zp_at(agent)
    }
}

// The agent offers its entry and no longer has to propagate or confirm the key: what the responses count. `counts`:
// whether the key's link counts in this step.
pub fn offer(
    fleet: &Fleet,
    state: &mut [u32],
    agent: usize,
    key: usize,
    counts: bool,
    confirming: bool,
) -> Tally
    requires { Passing (table_in fleet.now) state.old agent key }
    ensures { let t = table_in fleet.now in Passed (offer_tally t state.old agent key counts t.sizes.agents)
        (sent t state.old agent key counts confirming t.sizes.agents) result state.new }
{
    let entry = entry_of(state, agent, key);
    let offer = Offer {
        agent,
        key,
        entry,
        counts,
        confirming,
    };
    let tally = offer.to_all(fleet, state);
    drop_key(state, pending_at(agent, confirming), key);
    tally
}
