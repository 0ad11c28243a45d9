// What is asked of a residual: its choices, a choice's guards and what it does, and what it leaves in its place.
ghost use Rattle.std.specs.Prelude.{◌≡◌, ◌≤◌, length, take};
ghost use Rattle.table.specs.Tables.{Table};
ghost use Rattle.term.specs.Terms.{words as words_of};
ghost use Rattle.term.specs.Processes.{derivation_at, process};
ghost use Rattle.accept.specs.Prepared.{Prepared};
ghost use Rattle.accept.specs.Accepted.{accepted_table};
ghost use Rattle.choice.specs.Marking.{WalkMarks};
ghost use Rattle.choice.specs.Outcomes.{Walked};
ghost use Rattle.residual.specs.Wholes.{residual_term, Whole, Taking, Offered, limit_of, Rewritten};

use crate::counting::measure;
use crate::marking::mark_tick_at;
use crate::steps::{step_at, whole};
use crate::writing::place;
use crate::{Cursor, Step};
use accept::Accepted;
use basis::words::clear;
use choice::marking::mark_node;
use choice::picks::total;
use choice::{Effect, Gap};
use table::Sizes;
use term::{Label, Mode};

// How many derivations the residual has; nothing where some subterm has too many (refusals 12 and 13).
// Sizes and counts, and no accepted table: the kinds and operands are not asked for.
pub fn count_choices(sizes: Sizes, counts: &[u32], words: &[u32]) -> Option<u64>
    requires { (t : Table) × (t.sizes ≡ sizes) × Prepared t counts.now }
    ensures { (t : Table) → t.sizes ≡ sizes → Prepared t counts.now →
        Whole t words.now → Offered t (residual_term words.now) result }
{
    let all = measure(sizes.first_root(), counts, words, Cursor::default())?;
    Some(total(Mode::Any, all.counts))
}

// Marks the guards of choice c of the residual, and tells what it does and how many words it leaves. `place` walks in
// the same way: as with choice's two walks, one for both would be longer.
pub fn collect(accepted: &Accepted, marks: &mut [u32], words: &[u32], c: u64) -> Effect
    requires whole { Whole (accepted_table accepted.now) words.now }
    requires taking { Taking (accepted_table accepted.now) (residual_term words.now) c }
    requires walk_marks { WalkMarks (accepted_table accepted.now) marks.old }
    ensures { let t = accepted_table accepted.now in
        Walked t (derivation_at (process t (residual_term words.now)) c)
        (limit_of t (residual_term words.now)) marks.old result marks.new }
{
    let mut target = whole(0, c);
    let mut more: usize = 0;
    loop {
        match step_at(accepted, words, target) {
            Step::Ticked => {
                let label = Label::Ticking;
                let size = 1 + more;
                return Effect { label, size };
            }
            Step::Leaf { goal } => return mark_node(accepted, marks, goal).grown(more),
            Step::Acts { part, after } => {
                more += part.from.at - target.from.at + after;
                target = part;
            }
            Step::Joins { part, tick, .. } => {
                mark_tick_at(accepted, marks, words, tick);
                target = part;
            }
        }
    }
}

// The residual is so many of the words. It becomes what its choice c leaves, with 0 after it; the answer is its new
// length.
pub fn rewrite(accepted: &Accepted, words: &mut [u32], size: usize, c: u64) -> usize
    requires size_in_bounds { size ≤ length words.old }
    requires whole { Whole (accepted_table accepted.now) (take size words.old) }
    requires taking { Taking (accepted_table accepted.now) (residual_term (take size words.old)) c }
    requires c_in_bounds { let T = residual_term (take size words.old) in
        length (words_of (derivation_at (process (accepted_table accepted.now) T) c).leaving) ≤ length words.old }
    ensures { let T = residual_term (take size words.old) in
        Rewritten (words_of (derivation_at (process (accepted_table accepted.now) T) c).leaving)
        words.old result words.new }
{
    let at = words.len() - size;
    words.copy_within(..size, at);
    let Gap { front, back } = place(accepted, words, at, c);
    let n = words.len() - back;
    words.copy_within(back.., front);
    clear(words, front + n);
    front + n
}
