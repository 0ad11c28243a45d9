// Which part of a sequence or a parallel a choice is of, by the counts of the parts.
ghost use Rattle.std.specs.Prelude.{◌≡◌, ◌≤◌};
ghost use Rattle.accept.specs.Counts.{Capped};
ghost use Rattle.choice.specs.Picks.{acting_of, total_of, pick_of};

use crate::Pick;
use accept::Counts;
use term::Mode;

// The actions among the derivations of a mode.
pub fn acting(mode: Mode, c: Counts) -> u64
    ensures { result ≡ acting_of mode c }
{
    match mode {
        Mode::Any | Mode::Actions => c.actions,
        Mode::Ticks => 0,
    }
}

// The derivations of a mode.
pub fn total(mode: Mode, c: Counts) -> u64
    requires { Capped c }
    ensures { (result ≡ total_of mode c) × (result ≤ 131072) }
{
    match mode {
        Mode::Any => c.actions + c.ticks,
        Mode::Actions => c.actions,
        Mode::Ticks => c.ticks,
    }
}

// Derivation c of a sequence or a parallel; `beside` actions of the right part come before the joined ones: none in a
// sequence.
pub fn pick(mode: Mode, c: u64, beside: u64, left: Counts, right: Counts) -> Pick
    requires left { Capped left }
    requires right { Capped right }
    ensures { result ≡ pick_of mode c beside left right }
{
    let first = acting(mode, left);
    if c < first {
        return Pick::LeftActs(c);
    }
    let second = c - first;
    if second < beside {
        return Pick::RightActs(second);
    }
    let third = second - beside;
    let n = total(mode, right);
    let joined = left.ticks * n;
    if third < joined {
        return Pick::LeftTicks {
            tick: third / n,
            choice: third % n,
        };
    }
    // past the last derivation k may be 0
    let fourth = third - joined;
    let k = total(mode, left);
    Pick::RightTicks {
        tick: fourth.checked_div(k).unwrap_or(0),
        choice: fourth.checked_rem(k).unwrap_or(fourth),
    }
}
