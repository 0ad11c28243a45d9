// An agent's block, and those of all agents.
use super::candidates::Candidate;
use state::{ALL_KEYS, Store, clock_of, zc_at, zp_at};

impl<'a> Candidate<'a> {
    ghost use Rattle.std.specs.Prelude.{◌≡◌, List, ℕ, ◌<◌};
    ghost use Rattle.basis.specs.Numbers.{every};
    ghost use Rattle.table.specs.Tables.{table, agent_limit};
    ghost use Rattle.state.specs.WellFormed.{agent_formed};

    // An agent's pairs, entries, pending keys and residual.
    #[tactic(auto, unfolding(state::specs::WellFormed::agent_formed))]
    fn agent_formed(&self, agent: usize) -> bool
        requires { agent < agent_limit }
        ensures { (operands : List ℕ) → result ≡ agent_formed (table self.now.sizes self.now.kinds.now operands) self.now.state.now agent }
    {
        let clock = clock_of(self.state);
        self.store_formed(Store::Attributes(agent), 1, self.sizes.attributes)
            && self.store_formed(Store::Entries(agent), clock, self.sizes.stigmergy)
            && self.state[zc_at(agent)] <= ALL_KEYS
            && self.state[zp_at(agent)] <= ALL_KEYS
            && self.entries_formed(agent)
            && self.residual_formed(agent)
    }

    // All agents.
    pub fn agents_formed(&self) -> bool
        ensures { (operands : List ℕ) →
            result ≡ every (agent_formed (table self.now.sizes self.now.kinds.now operands) self.now.state.now) self.now.sizes.agents }
    {
        (0..self.sizes.agents).all(|agent| self.agent_formed(agent))
    }
}
