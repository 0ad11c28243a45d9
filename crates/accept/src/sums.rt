// Sums and products of counts, held at 65,536.
ghost use Rattle.std.specs.Prelude.{◌≡◌, ◌*◌, ◌≤◌};
ghost use Rattle.basis.specs.NodeKinds.{number_of};
ghost use Rattle.accept.specs.Counts.{capped, Capped, choice_counts, seq_counts, par_counts};
ghost use Rattle.accept.specs.Calls.{joined_counts};

use crate::Counts;
use basis::NodeKind;

// What a count is held at.
pub const COUNT_LIMIT: u32 = 65536;

pub const NONE: Counts = Counts {
    actions: 0,
    ticks: 0,
};

pub const TICK: Counts = Counts {
    actions: 0,
    ticks: 1,
};

pub const ACTION: Counts = Counts {
    actions: 1,
    ticks: 0,
};

fn cap(x: u64) -> u64
    ensures { result ≡ capped x }
{
    x.min(COUNT_LIMIT.into())
}

fn times(x: u64, y: u64) -> u64
    requires { (x ≤ 65536) × (y ≤ 65536) }
    ensures { (result ≡ x * y) × (result ≤ 4294967296) }
{
    x * y
}

#[tactic(auto, unfolding(crate::specs::Counts::choice_counts))]
pub fn choice(p: Counts, q: Counts) -> Counts
    requires fact_1 { Capped p }
    requires fact_2 { Capped q }
    ensures { result ≡ choice_counts p q }
{
    let actions = cap(p.actions + q.actions);
    let ticks = cap(p.ticks + q.ticks);
    Counts { actions, ticks }
}

// The right part counts once for each tick of the left.
#[tactic(auto, unfolding(crate::specs::Counts::seq_counts))]
pub fn sequence(p: Counts, q: Counts) -> Counts
    requires fact_1 { Capped p }
    requires fact_2 { Capped q }
    ensures { result ≡ seq_counts p q }
{
    let actions = cap(p.actions + times(p.ticks, q.actions));
    let ticks = cap(times(p.ticks, q.ticks));
    Counts { actions, ticks }
}

// Each part counts, and once more for each tick of the other.
#[tactic(auto, unfolding(crate::specs::Counts::par_counts))]
pub fn parallel(p: Counts, q: Counts) -> Counts
    requires fact_1 { Capped p }
    requires fact_2 { Capped q }
    ensures { result ≡ par_counts p q }
{
    let joined = times(p.ticks, q.actions) + times(q.ticks, p.actions);
    let actions = cap(p.actions + (q.actions + joined));
    let ticks = cap(times(p.ticks, q.ticks) + times(q.ticks, p.ticks));
    Counts { actions, ticks }
}

// Of a sequence, a choice or a parallel, by its kind.
#[tactic(auto, unfolding(crate::specs::Calls::joined_counts))]
pub fn joined(kind: NodeKind, p: Counts, q: Counts) -> Counts
    requires fact_1 { Capped p }
    requires fact_2 { Capped q }
    ensures { result ≡ joined_counts (number_of kind) p q }
{
    match kind {
        NodeKind::Sequence => sequence(p, q),
        NodeKind::Choice => choice(p, q),
        _ => parallel(p, q),
    }
}
