// The value of an expression, by recursion on the falling node number.
ghost use Rattle.std.specs.Prelude.{◌≡◌, ◌<◌};
ghost use Rattle.table.specs.Tables.{agent_limit};
ghost use Rattle.table.specs.Fleets.{table_in};
ghost use Rattle.state.specs.Evaluation.{value_of};
ghost use Rattle.evaluation.specs.Situated.{Situated};
ghost use Rattle.evaluation.specs.Parties.{Party};

use super::senders::Sender;
use basis::NodeKind;
use state::Store;
use table::Fleet;
use value::Value;

// The agent whom a party names.
fn agent_of(party: usize, sender: usize, receiver: usize) -> usize
    requires { (sender < agent_limit) × (receiver < agent_limit) }
    ensures { Party sender receiver party result }
{
    if party == 2 { receiver } else { sender }
}

impl<'a> Sender<'a> {
    ghost use Rattle.std.specs.Prelude.{◌≤◌};
    ghost use Rattle.state.specs.Walks.{value_below};

    // The value of a node below the limit; absent where it is not below.
    #[tactic(auto, using(crate::proofs::Steps::value_out, crate::proofs::Steps::value_at_lem), unfolding(state::specs::Evaluation::value_step))]
    pub fn value_below(&self, receiver: usize, limit: usize, node: usize) -> Value
        requires { (receiver < agent_limit) × (limit ≤ self.now.fleet.sizes.nodes) }
        ensures { result ≡ value_below (table_in self.now.fleet) self.now.state.now self.now.agent receiver limit node }
    {
        if limit <= node {
            return None;
        }
        let p = self.fleet.p_at(node);
        let q = self.fleet.q_at(node);
        let agent = agent_of(q, self.agent, receiver);
        match self.fleet.node_kind(node) {
            Ok(NodeKind::Constant) => Some(self.fleet.constant_at(node)),
            Ok(NodeKind::Attribute) => state::value_in(self.state, Store::Attributes(agent), p),
            Ok(NodeKind::Stigmergy) => state::value_in(self.state, Store::Entries(agent), p),
            Ok(NodeKind::Environment) => state::value_in(self.state, Store::Environment, p),
            _ => {
                let a = self.value_below(receiver, node, p);
                let b = self.value_below(receiver, node, q);
                value::operate(self.fleet.kind_at(node), a, b)
            }
        }
    }
}

// The value of an expression.
pub fn value_of(fleet: &Fleet, state: &[u32], sender: usize, receiver: usize, node: usize) -> Value
    requires { Situated state.now sender receiver }
    ensures { result ≡ value_of (table_in fleet.now) state.now sender receiver node }
{
    let from = Sender {
        fleet: *fleet,
        state,
        agent: sender,
    };
    from.value_below(receiver, fleet.sizes.nodes, node)
}
