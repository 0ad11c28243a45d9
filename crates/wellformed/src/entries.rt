// Entries: the writer of one is an agent, that of none is 0, and every pending key has an entry.
ghost use Rattle.std.specs.Prelude.{◌≡◌};
ghost use Rattle.state.specs.WellFormed.{writer_formed};

use super::candidates::Candidate;
use basis::has;
use state::{Entry, entry_of, zc_at, zp_at};
use table::KEYS;

// The writer of an entry is one of so many agents; that of none is 0.
#[tactic(auto, unfolding(state::specs::WellFormed::writer_formed))]
fn writer_formed(agents: usize, entry: Entry) -> bool
    ensures { result ≡ writer_formed agents entry }
{
    if entry.stamp == 0 {
        entry.writer == 0
    } else {
        (entry.writer as usize) < agents
    }
}

impl<'a> Candidate<'a> {
    ghost use Rattle.std.specs.Prelude.{◌<◌};
    ghost use Rattle.basis.specs.Numbers.{every};
    ghost use Rattle.table.specs.Tables.{agent_limit};
    ghost use Rattle.state.specs.Layout.{key_limit};
    ghost use Rattle.state.specs.WellFormed.{entry_formed};

    // An agent's entry for a key: its writer, and that it is there if the key is pending.
    #[tactic(auto, unfolding(state::specs::WellFormed::entry_formed, state::specs::WellFormed::pending_formed))]
    fn entry_formed(&self, agent: usize, key: usize) -> bool
        requires { (agent < agent_limit) × (key < key_limit) }
        ensures { result ≡ entry_formed self.now.state.now self.now.sizes.agents agent key }
    {
        let waits = has(self.state[zc_at(agent)], key) | has(self.state[zp_at(agent)], key);
        let entry = entry_of(self.state, agent, key);
        writer_formed(self.sizes.agents, entry) & (!waits | (0 < entry.stamp))
    }

    // All entries of an agent.
    pub fn entries_formed(&self, agent: usize) -> bool
        requires { agent < agent_limit }
        ensures { result ≡ every (entry_formed self.now.state.now self.now.sizes.agents agent) key_limit }
    {
        (0..KEYS).all(|key| self.entry_formed(agent, key))
    }
}
