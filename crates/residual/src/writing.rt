// What a residual's choice leaves, written in its place.
ghost use Rattle.std.specs.Prelude.{◌≤◌, length, drop};
ghost use Rattle.term.specs.Terms.{words as words_of};
ghost use Rattle.term.specs.Processes.{derivation_at, process};
ghost use Rattle.accept.specs.Accepted.{accepted_table};
ghost use Rattle.residual.specs.Wholes.{residual_term, Whole, Taking, Placed};

use crate::steps::{step_at, whole};
use crate::{Cursor, Step};
use accept::Accepted;
use choice::writing::{put_last, write_node};
use choice::{Gap, Goal};

// The residual is the words from a place on. What stands before and after the gap then is what its choice c leaves.
pub fn place(accepted: &Accepted, words: &mut [u32], at: usize, c: u64) -> Gap
    requires at_in_bounds { at ≤ length words.old }
    requires whole { Whole (accepted_table accepted.now) (drop at words.old) }
    requires taking { Taking (accepted_table accepted.now) (residual_term (drop at words.old)) c }
    requires c_in_bounds { let T = residual_term (drop at words.old) in
        length (words_of (derivation_at (process (accepted_table accepted.now) T) c).leaving) ≤ length words.old }
    ensures { let T = residual_term (drop at words.old) in
        Placed (words_of (derivation_at (process (accepted_table accepted.now) T) c).leaving)
        (length words.old) result words.new }
{
    let mut front: usize = 0;
    let mut target = whole(at, c);
    loop {
        let from = target.from.at;
        let back = from + 1;
        let gap = Gap { front, back };
        match step_at(accepted, words, target) {
            Step::Ticked => return put_last(words, gap, term::IDLE_WORD),
            Step::Leaf { goal } => return write_node(accepted, words, gap, goal),
            Step::Acts { part, .. } => {
                let end = part.from.at;
                let n = end - from;
                words.copy_within(from..end, front);
                front += n;
                target = part;
            }
            Step::Joins {
                part,
                size,
                after,
                ..
            } => {
                let next = part.from.at;
                let to = next + after;
                words.copy_within(next..next + size, to);
                let from = Cursor { at: to };
                target = Goal { from, ..part };
            }
        }
    }
}
