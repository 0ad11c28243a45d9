// A node's words: its actions at word 2n and its ticks at word 2n + 1. Where it is not counted, word 2n is above 65,536
// and leads back to a node. The C interface lends plain words, so no array of counts stands there.
ghost use Rattle.std.specs.Prelude.{false, ◌≡◌, ℕ, ◌+◌, ◌*◌, ◌≤◌, ◌<◌, length, get_or};
ghost use Rattle.std.specs.Bool.{then_some};
ghost use Rattle.table.specs.Sound.{Limits};
ghost use Rattle.term.specs.Acceptance.{scratch_words};
ghost use Rattle.accept.specs.Counts.{count_limit, Capped};
ghost use Rattle.accept.specs.Scratch.{pair_at, stored, is_counted, back, led};

use crate::Counts;
use crate::sums::COUNT_LIMIT;
use table::Sizes;

// How many words a table needs.
pub fn scratch_words(sizes: Sizes) -> usize
    requires { Limits sizes }
    ensures { result ≡ scratch_words sizes }
{
    2 * sizes.nodes
}

pub fn pair(scratch: &[u32], n: usize) -> Counts
    requires { 2 * n + 1 < length scratch.now }
    ensures { result ≡ pair_at scratch.now n }
{
    Counts {
        actions: scratch[2 * n].into(),
        ticks: scratch[2 * n + 1].into(),
    }
}

pub fn store(scratch: &mut [u32], n: usize, c: Counts)
    requires { (2 * n + 1 < length scratch.old) × (Capped c) }
    ensures { scratch.new ≡ stored scratch.old n c }
{
    scratch[2 * n] = c.actions as u32;
    scratch[2 * n + 1] = c.ticks as u32;
}

pub fn is_counted(scratch: &[u32], n: usize) -> bool
    requires { 2 * n + 1 < length scratch.now }
    ensures { result ≡ is_counted scratch.now n }
{
    scratch[2 * n] <= COUNT_LIMIT
}

// The counts of node n, if it is counted.
pub fn counted(scratch: &[u32], n: usize) -> Option<Counts>
    requires { 2 * n + 1 < length scratch.now }
    ensures { result ≡ then_some (is_counted scratch.now n) (pair_at scratch.now n) }
{
    is_counted(scratch, n).then(|| pair(scratch, n))
}

// Node m, which is not counted, leads back to node n.
pub fn lead(scratch: &mut [u32], m: usize, n: usize)
    requires { (2 * m + 1 < length scratch.old) × (n < 4096) }
    ensures { scratch.new ≡ led scratch.old m n }
{
    scratch[2 * m] = COUNT_LIMIT + 1 + n as u32;
}

// The node that node m leads back to.
pub fn leads_to(scratch: &[u32], m: usize) -> usize
    requires { (2 * m + 1 < length scratch.now) × (count_limit < get_or scratch.now (2 * m) 0) }
    ensures { back result ≡ get_or scratch.now (2 * m) 0 }
{
    (scratch[2 * m] - COUNT_LIMIT - 1) as usize
}

// No node below `roots` is counted. Both words of a node are written, so that the words stand in a row.
pub fn discard(scratch: &mut [u32], roots: usize)
    requires { 2 * roots ≤ length scratch.old }
    ensures { (k : ℕ) → k < roots → is_counted scratch.new k ≡ false }
{
    scratch[..2 * roots].fill(COUNT_LIMIT + 1);
}
