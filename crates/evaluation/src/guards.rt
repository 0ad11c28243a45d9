// What a guard comes to, by recursion on the falling node number, for many receivers at once; and links.
ghost use Rattle.std.specs.Prelude.{◌≡◌, ◌&&◌, ℕ, ◌<◌};
ghost use Rattle.basis.specs.KeySets.{has as has_agent};
ghost use Rattle.table.specs.Fleets.{table_in};
ghost use Rattle.state.specs.Evaluation.{holds as holds_of, link_holds};
ghost use Rattle.evaluation.specs.Situated.{Situated, Placed};
ghost use Rattle.evaluation.specs.Sets.{Connects};

use super::AgentSets;
use super::members::Members;
use super::senders::Sender;
use basis::{NodeKind, plus_if};
use table::Fleet;

// Kinds below that of not are read as comparisons, as the definition reads them.
const TRUE: u8 = NodeKind::True as u8;

const NOT: u8 = NodeKind::Not as u8;

const NOBODY: AgentSets = AgentSets {
    defined: 0,
    holding: 0,
};

// Not, and, or on what their parts come to.
fn connect_all(kind: u8, a: AgentSets, b: AgentSets) -> AgentSets
    ensures { Connects kind a b result }
{
    match NodeKind::try_from(kind) {
        Ok(NodeKind::Not) => AgentSets {
            defined: a.defined,
            holding: a.defined ^ (a.defined & a.holding),
        },
        Ok(NodeKind::And) => AgentSets {
            defined: a.defined & b.defined,
            holding: a.holding & b.holding,
        },
        Ok(NodeKind::Or) => AgentSets {
            defined: a.defined & b.defined,
            holding: a.holding | b.holding,
        },
        _ => NOBODY,
    }
}

impl<'a> Sender<'a> {
    ghost use Rattle.std.specs.Prelude.{◌≤◌};
    ghost use Rattle.state.specs.Walks.{truth_below};
    ghost use Rattle.evaluation.specs.Sets.{comparison, Found};

    // A comparison for each agent of a set. Not inlined, so that its locals take no room in each level of a guard's walk.
    #[inline(never)]
    fn compare_all(&self, agents: u32, node: usize) -> AgentSets
        requires { node < self.now.fleet.sizes.nodes }
        ensures { Found agents
            (λ y. comparison (table_in self.now.fleet) self.now.state.now self.now.agent y node) result }
    {
        let nodes = self.fleet.sizes.nodes;
        let kind = self.fleet.kind_at(node);
        let p = self.fleet.p_at(node);
        let q = self.fleet.q_at(node);
        let mut found = NOBODY;
        for agent in Members(agents) {
            let a = self.value_below(agent, nodes, p);
            let b = self.value_below(agent, nodes, q);
            let truth = value::compare_values(kind, a, b);
            found.defined = plus_if(found.defined, agent, truth.defined);
            found.holding = plus_if(found.holding, agent, truth.holds);
        }
        found
    }

    // What a node below the limit comes to for each agent of a set; undefined where it is not below.
    fn truths_below(&self, agents: u32, limit: usize, node: usize) -> AgentSets
        requires { limit ≤ self.now.fleet.sizes.nodes }
        ensures { Found agents
            (λ y. truth_below (table_in self.now.fleet) self.now.state.now self.now.agent y limit node) result }
    {
        if limit <= node {
            return NOBODY;
        }
        let kind = self.fleet.kind_at(node);
        if kind == TRUE {
            return AgentSets {
                defined: agents,
                holding: agents,
            };
        }
        if kind < NOT {
            return self.compare_all(agents, node);
        }
        let a = self.truths_below(agents, node, self.fleet.p_at(node));
        if kind == NOT {
            return connect_all(kind, a, a);
        }
        let b = self.truths_below(agents, node, self.fleet.q_at(node));
        connect_all(kind, a, b)
    }
}

// Whether a guard holds.
#[tactic(auto, using(crate::proofs::Sets::alone))]
pub fn holds(fleet: &Fleet, state: &[u32], sender: usize, receiver: usize, node: usize) -> bool
    requires { Situated state.now sender receiver }
    ensures { result ≡ holds_of (table_in fleet.now) state.now sender receiver node }
{
    let from = Sender {
        fleet: *fleet,
        state,
        agent: sender,
    };
    let asked = basis::plus(0, receiver);
    let found = from.truths_below(asked, fleet.sizes.nodes, node);
    basis::has(found.holding, receiver)
}

// The agents of a set to whom the link of a key holds from a sender.
pub fn links_hold(fleet: &Fleet, state: &[u32], key: usize, sender: usize, agents: u32) -> u32
    requires { Placed state.now sender × (key < fleet.now.sizes.stigmergy) }
    ensures { (y : ℕ) → has_agent result y ≡ (has_agent agents y && link_holds (table_in fleet.now) state.now key sender y) }
{
    let from = Sender {
        fleet: *fleet,
        state,
        agent: sender,
    };
    let found = from.truths_below(agents, fleet.sizes.nodes, fleet.link_at(key));
    found.holding
}
