// The guards of a residual's tick, as marks.
ghost use Rattle.term.specs.Terms.{Term};
ghost use Rattle.accept.specs.Accepted.{accepted_table};
ghost use Rattle.choice.specs.Marking.{WalkMarks, Marked};
ghost use Rattle.residual.specs.Steps.{going, Stands};

use crate::steps::step_at;
use crate::{Step, Target};
use accept::Accepted;
use choice::marking::mark_tick;

// Where a tick of one part joins a tick of the other, the guards of both.
pub fn mark_tick_at(accepted: &Accepted, marks: &mut [u32], words: &[u32], target: Target)
    requires stands { (T : Term) × Stands (accepted_table accepted.now) T target words.now }
    requires walk_marks { WalkMarks (accepted_table accepted.now) marks.old }
    ensures { let t = accepted_table accepted.now in
        (T : Term) → Stands t T target words.now → Marked t (going t T target).guards marks.old marks.new }
{
    match step_at(accepted, words, target) {
        Step::Ticked => {}
        Step::Leaf { goal } => mark_tick(accepted, marks, goal),
        Step::Acts { part, .. } => mark_tick_at(accepted, marks, words, part),
        Step::Joins { part, tick, .. } => {
            mark_tick_at(accepted, marks, words, tick);
            mark_tick_at(accepted, marks, words, part);
        }
    }
}
