// Residuals: one whole term, and 0 after it.
use super::candidates::Candidate;
use super::zeros::all_zero;
use residual::reading::whole_term;
use state::{RESIDUAL_WORDS, length_at, residual_at};

impl<'a> Candidate<'a> {
    ghost use Rattle.std.specs.Prelude.{◌≡◌, List, ℕ, ◌<◌};
    ghost use Rattle.table.specs.Tables.{table, agent_limit};
    ghost use Rattle.state.specs.WellFormed.{residual_formed};

    // The residual of an agent.
    #[tactic(auto, unfolding(state::specs::WellFormed::residual_formed))]
    pub fn residual_formed(&self, agent: usize) -> bool
        requires { agent < agent_limit }
        ensures { (operands : List ℕ) → result ≡ residual_formed (table self.now.sizes self.now.kinds.now operands) self.now.state.now agent }
    {
        let size = self.state[length_at(agent)] as usize;
        let start = residual_at(agent);
        let words = &self.state[start..start + RESIDUAL_WORDS];
        let Some((term, rest)) = words.split_at_checked(size) else {
            return false;
        };
        whole_term(self.sizes, self.kinds, term) && all_zero(rest)
    }
}
