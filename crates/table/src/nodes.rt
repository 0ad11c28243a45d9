// One node: whether its fields fit, and which nodes it names.
ghost use Rattle.std.specs.Prelude.{◌≡◌, ◌<◌, false, MatchOption};
ghost use Rattle.table.specs.Fleets.{table_in};
ghost use Rattle.table.specs.Nodes.{fits, fitting};
ghost use Rattle.table.specs.Marks.{Looked};

use super::kinds::{is_expression, is_guard, is_process};
use super::{Field, Fleet, Look};

// Whether x fits a field of a node.
#[tactic(auto, unfolding(crate::specs::Nodes::fits))]
fn suits(fleet: &Fleet, node: usize, field: Field, x: usize) -> bool
    requires { node < fleet.now.sizes.nodes }
    ensures { result ≡ fits (table_in fleet.now) node field x }
{
    match field {
        Field::Never => false,
        Field::Zero => x == 0,
        Field::Attribute => x < fleet.sizes.attributes,
        Field::Stigmergy => x < fleet.sizes.stigmergy,
        Field::Environment => x < fleet.sizes.environment,
        Field::Party => x <= 2,
        Field::Definition => x < fleet.sizes.definitions,
        Field::Process => x < node && is_process(fleet.kind_at(x)),
        Field::Guard => x < node && is_guard(fleet.kind_at(x)),
        Field::Expression => x < node && is_expression(fleet.kind_at(x)),
        Field::Value => true,
    }
}

// The nodes that a node names, if its fields fit.
#[tactic(auto, unfolding(crate::specs::Nodes::fitting))]
pub fn look_at(fleet: &Fleet, node: usize) -> Option<Look>
    requires { node < fleet.now.sizes.nodes }
    ensures { MatchOption result (fitting (table_in fleet.now) node ≡ false) (λ l. Looked (table_in fleet.now) node l) }
{
    let fields = fleet.fields_at(node);
    let p = fleet.p_at(node);
    let q = fleet.q_at(node);
    let fit = suits(fleet, node, fields.p, p) && suits(fleet, node, fields.q, q);
    let left = fields.p.is_node().then_some(p);
    let right = fields.q.is_node().then_some(q);
    fit.then_some(Look { left, right })
}
