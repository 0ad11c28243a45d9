// The counts of the term that begins at a place, and where it ends.
ghost use Rattle.std.specs.Prelude.{◌≡◌, ◌+◌, ◌≤◌, leb, length};
ghost use Rattle.term.specs.Processes.{derivation_limit};
ghost use Rattle.accept.specs.Counts.{Capped};
ghost use Rattle.residual.specs.Measures.{leaf_counts, operator_counts, Pairs, Found};

use crate::reading::is_operator;
use crate::{Cursor, Measured};
use accept::{Counts, NONE, TICK, pair, parallel, sequence};

// The counts of a word that is a term by itself.
fn leaf(roots: usize, counts: &[u32], word: u32) -> Counts
    requires { Pairs roots counts.now }
    ensures { result ≡ leaf_counts roots counts.now word }
{
    if word == term::TICK_WORD {
        return TICK;
    }
    let n = word as usize;
    if n < roots { pair(counts, n) } else { NONE }
}

// The counts of an operator's term, from those of its parts.
fn combined(word: u32, left: Counts, right: Counts) -> Counts
    requires left { Capped left }
    requires right { Capped right }
    ensures { result ≡ operator_counts word left right }
{
    if word == term::SEQ_WORD {
        return sequence(left, right);
    }
    parallel(left, right)
}

// At most 65,535 derivations.
fn few(c: Counts) -> bool
    requires { Capped c }
    ensures { result ≡ leb (c.actions + c.ticks) derivation_limit }
{
    c.actions + c.ticks <= term::DERIVATIONS
}

// Nothing where some subterm has too many derivations, and at the end of the words.
// Counts, and no accepted table: `count_choices` is asked without kinds and operands.
pub fn measure(roots: usize, counts: &[u32], words: &[u32], from: Cursor) -> Option<Measured>
    requires pairs { Pairs roots counts.now }
    requires at_in_bounds { from.at ≤ length words.now }
    ensures { Found roots counts.now words.now from.at result }
{
    let (word, next) = from.read(words)?;
    if !is_operator(word) {
        let counts = leaf(roots, counts, word);
        return Some(Measured { counts, next });
    }
    let left = measure(roots, counts, words, next)?;
    let right = measure(roots, counts, words, left.next)?;
    let counts = combined(word, left.counts, right.counts);
    let next = right.next;
    few(counts).then_some(Measured { counts, next })
}
