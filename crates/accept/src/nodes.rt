// A visit of a node: its counts, from those of the nodes and the definitions that it names, or what is to be counted
// first.
ghost use Rattle.std.specs.Prelude.{true, ◌≡◌, ◌+◌, ◌*◌, ◌<◌, length};
ghost use Rattle.basis.specs.NodeKinds.{number_of};
ghost use Rattle.table.specs.Tables.{first_root};
ghost use Rattle.table.specs.Fleets.{table_in};
ghost use Rattle.accept.specs.Counts.{Capped};
ghost use Rattle.accept.specs.Scratch.{pair_at, is_counted, Held};
ghost use Rattle.accept.specs.Calls.{pair_visit, Visits};

use crate::Visit;
use crate::sums::{ACTION, NONE, TICK, joined};
use crate::words::{counted, pair};
use basis::NodeKind;
use table::Fleet;

// A sequence, a choice or a parallel. The right of a sequence is exposed where the left can tick.
#[tactic(auto, unfolding(crate::specs::Calls::pair_visit))]
fn visit_pair(scratch: &[u32], kind: NodeKind, p: usize, q: usize) -> Visit
    requires p_in_bounds { (2 * p + 1 < length scratch.now) × (2 * q + 1 < length scratch.now) }
    requires capped { is_counted scratch.now p ≡ true → Capped (pair_at scratch.now p) }
    requires capped_2 { is_counted scratch.now q ≡ true → Capped (pair_at scratch.now q) }
    ensures { result ≡ pair_visit scratch.now (number_of kind) p q }
{
    let Some(left) = counted(scratch, p) else {
        return Visit::Part(p);
    };
    if kind == NodeKind::Sequence && left.ticks == 0 {
        return Visit::Done(left);
    }
    let Some(right) = counted(scratch, q) else {
        return Visit::Part(q);
    };
    Visit::Done(joined(kind, left, right))
}

// Node n, where the definitions below a level may be called.
pub fn visit(fleet: &Fleet, scratch: &[u32], level: usize, n: usize) -> Visit
    requires held { Held (table_in fleet.now) level scratch.now }
    requires n_bound { n < first_root (table_in fleet.now) }
    ensures { Visits (table_in fleet.now) level scratch.now n result }
{
    let p = fleet.p_at(n);
    let q = fleet.q_at(n);
    match fleet.node_kind(n) {
        Ok(NodeKind::Tick) => Visit::Done(TICK),
        Ok(NodeKind::SetAttribute | NodeKind::SetStigmergy | NodeKind::SetEnvironment) => {
            Visit::Done(ACTION)
        }
        Ok(kind @ (NodeKind::Sequence | NodeKind::Choice | NodeKind::Parallel)) => {
            visit_pair(scratch, kind, p, q)
        }
        Ok(NodeKind::Guarded) => match counted(scratch, q) {
            Some(c) => Visit::Done(c),
            None => Visit::Part(q),
        },
        Ok(NodeKind::Call) if p < level => Visit::Done(pair(scratch, fleet.body_at(p))),
        Ok(NodeKind::Call) => Visit::High,
        _ => Visit::Done(NONE),
    }
}
