// A residual's words: whole terms, counts, choices, and what a choice does and leaves.
#![tactic(auto)]

pub mod reading; // reading.rt: reading words from the front; whole terms
mod counting; // counting.rt: the counts of a term; refusal 12
mod steps; // steps.rt: one step from a residual towards its choice
mod marking; // marking.rt: the guards of a residual's tick, as marks
mod writing; // writing.rt: what a residual's choice leaves, written in its place
pub mod choosing; // choosing.rt: what is asked of a whole residual

use accept::Counts;
use choice::Goal;

// A place among words.
#[derive(Clone, Copy, Default)]
pub struct Cursor {
    pub at: usize,
}

// Of the term that begins at a cursor: its counts, and the cursor after it.
#[derive(Clone, Copy)]
struct Measured {
    counts: Counts,
    next: Cursor,
}

// The derivation that a walk goes to: a choice among those of a mode of the term at a cursor.
type Target = Goal<Cursor>;

// One step towards a target: a lone tick; a node; an action of a part, around which the words up to it and so many
// after it stay; or a derivation of a part, of so many words with so many after it, that a tick of the other part
// joins: the part's words alone stay.
#[derive(Clone, Copy)]
enum Step {
    Ticked,
    Leaf {
        goal: Goal<usize>,
    },
    Acts {
        part: Target,
        after: usize,
    },
    Joins {
        part: Target,
        size: usize,
        after: usize,
        tick: Target,
    },
}
