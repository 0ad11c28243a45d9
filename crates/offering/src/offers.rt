// An entry on offer: who could be touched, whom of them the link reaches, and then what is written.
ghost use Rattle.std.specs.Prelude.{◌<◌};
ghost use Rattle.state.specs.Layout.{key_limit};

use crate::responses::tally_of;
use basis::plus_if;
use evaluation::links_hold;
use state::{Entry, entry_of, newer};
use steps::Tally;
use table::Fleet;

// An agent's entry for a key. `counts`: whether the key's link counts in this step.
#[derive(Clone, Copy)]
pub struct Offer {
    pub agent: usize,
    pub key: usize,
    pub entry: Entry,
    pub counts: bool,
    pub confirming: bool,
    pub ghost there: { key < key_limit },
}

impl Offer {
    ghost use Rattle.std.specs.Prelude.{◌≡◌, ◌≤◌};
    ghost use Rattle.table.specs.Tables.{agent_limit};
    ghost use Rattle.table.specs.Fleets.{table_in};
    ghost use Rattle.state.specs.Entries.{entry_of};
    ghost use Rattle.state.specs.Standing.{HasBlocks};
    ghost use Rattle.steps.specs.Offers.{offer_tally, offered};
    ghost use Rattle.offering.specs.Passing.{Passing, Passed, touches, touched};

    // Whether it could touch an agent with this entry: an older one, or in a confirm a newer one.
    fn touches(&self, theirs: Entry) -> bool
        ensures { let o = self.now in result ≡ touches o.entry theirs o.counts o.confirming }
    {
        self.counts & (newer(self.entry, theirs) | (self.confirming & newer(theirs, self.entry)))
    }

    // The agents whom it could touch.
    fn receivers(&self, state: &[u32], agents: usize) -> u32
        requires { HasBlocks state.now × (agents ≤ agent_limit) }
        ensures { let o = self.now in result ≡ touched o.entry state.now o.key o.counts o.confirming agents }
    {
        let mut touched = 0;
        for other in 0..agents {
            let theirs = entry_of(state, other, self.key);
            touched = plus_if(touched, other, self.touches(theirs));
        }
        touched
    }

    // Offers it to every other agent: what the responses count. The link is judged once, before anything is written, and
    // for those only who could be touched.
    pub fn to_all(&self, fleet: &Fleet, state: &mut [u32]) -> Tally
        requires passing { Passing (table_in fleet.now) state.old self.now.agent self.now.key }
        requires own { self.now.entry ≡ entry_of state.old self.now.agent self.now.key }
        ensures { let t = table_in fleet.now in let o = self.now in Passed
            (offer_tally t state.old o.agent o.key o.counts t.sizes.agents)
            (offered t state.old o.agent o.key o.counts o.confirming t.sizes.agents) result state.new }
    {
        let mut tally = Tally::default();
        let asked = self.receivers(state, fleet.sizes.agents);
        if asked == 0 {
            return tally;
        }
        let linked = links_hold(fleet, state, self.key, self.agent, asked);
        for other in 0..fleet.sizes.agents {
            let response = self.response(state, linked, other);
            self.write(state, other, response);
            tally = tally + tally_of(response);
        }
        tally
    }
}
