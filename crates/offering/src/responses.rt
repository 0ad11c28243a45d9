// How an agent responds to another's entry, what that writes, and what it counts.
ghost use Rattle.std.specs.Prelude.{◌≡◌};
ghost use Rattle.offering.specs.Passing.{response_tally};

use crate::offers::Offer;
use state::{Insertion, add_key, drop_key, entry_of, insertion_of, put_entry, zc_at, zp_at};
use steps::{Response, Tally};

impl Offer {
    ghost use Rattle.std.specs.Prelude.{◌<◌};
    ghost use Rattle.table.specs.Tables.{agent_limit};
    ghost use Rattle.state.specs.Standing.{HasBlocks};
    ghost use Rattle.state.specs.Entries.{entry_of};
    ghost use Rattle.steps.specs.Offers.{take_entry, responded};
    ghost use Rattle.offering.specs.Passing.{response_in};

    // How an agent responds, before anything of it is written: where the link reaches it, it takes the entry by the rule
    // that inserts it, and else has to propagate its own.
    pub fn response(&self, state: &[u32], linked: u32, agent: usize) -> Response
        requires { HasBlocks state.now × (agent < agent_limit) }
        ensures { result ≡ response_in linked self.now.entry (entry_of state.now agent self.now.key) agent }
    {
        if !basis::has(linked, agent) {
            return Response::Ignores;
        }
        match insertion_of(self.entry, entry_of(state, agent, self.key)) {
            Insertion::Discard => Response::Propagates,
            rule => Response::Takes(rule),
        }
    }

    // An agent takes the entry: it no longer has to confirm the key, and has to propagate it.
    #[tactic(auto, unfolding(steps::specs::Offers::take_entry))]
    fn take(&self, state: &mut [u32], agent: usize)
        requires { HasBlocks state.old × (agent < agent_limit) }
        ensures { state.new ≡ take_entry self.now.key self.now.entry agent state.old }
    {
        put_entry(state, agent, self.key, self.entry);
        drop_key(state, zc_at(agent), self.key);
        add_key(state, zp_at(agent), self.key);
    }

    // What an agent's response writes.
    #[tactic(auto, unfolding(steps::specs::Offers::responded))]
    pub fn write(&self, state: &mut [u32], agent: usize, response: Response)
        requires { HasBlocks state.old × (agent < agent_limit) }
        ensures { state.new ≡ responded self.now.key self.now.entry agent response state.old }
    {
        match response {
            Response::Takes(_) => self.take(state, agent),
            Response::Propagates => add_key(state, zp_at(agent), self.key),
            Response::Ignores => {}
        }
    }
}

// What a response counts. No `From`: both types are those of a crate below.
pub fn tally_of(response: Response) -> Tally
    ensures { result ≡ response_tally response }
{
    match response {
        Response::Takes(Insertion::Add) => Tally {
            added: 1,
            replaced: 0,
        },
        Response::Takes(Insertion::Update) => Tally {
            added: 0,
            replaced: 1,
        },
        Response::Takes(Insertion::Discard) | Response::Propagates | Response::Ignores => {
            Tally::default()
        }
    }
}
