// One step from a residual towards its choice.
ghost use Rattle.std.specs.Prelude.{◌≡◌, ◌≤◌};
ghost use Rattle.term.specs.Terms.{Term};
ghost use Rattle.accept.specs.Accepted.{accepted_table};
ghost use Rattle.choice.specs.Turns.{goal_of};
ghost use Rattle.residual.specs.Steps.{whole_of, beside_of, pick_step, Stands, Stepped};

use crate::counting::measure;
use crate::reading::is_operator;
use crate::{Cursor, Step, Target};
use accept::{Accepted, Counts};
use choice::picks::{acting, pick};
use choice::{Goal, Pick};
use term::Mode;

// Choice c of all derivations of the term at a place.
pub fn whole(at: usize, c: u64) -> Target
    ensures { result ≡ whole_of at c }
{
    Goal::new(Cursor { at }, Mode::Any, c)
}

// How many actions of the right part come before the joined derivations: none in a sequence.
fn beside(word: u32, mode: Mode, right: Counts) -> u64
    ensures { result ≡ beside_of word mode right }
{
    if word == term::SEQ_WORD {
        return 0;
    }
    acting(mode, right)
}

// At an operator's term, by the cursors of its parts and of its end.
fn toward(mode: Mode, left: Cursor, right: Cursor, end: Cursor, pick: Pick) -> Step
    requires { (left.at ≤ right.at) × (right.at ≤ end.at) }
    ensures { result ≡ pick_step mode left right end pick }
{
    let left_size = right.at - left.at;
    let right_size = end.at - right.at;
    match pick {
        Pick::LeftActs(i) => Step::Acts {
            part: Goal::new(left, Mode::Actions, i),
            after: right_size,
        },
        Pick::RightActs(i) => Step::Acts {
            part: Goal::new(right, Mode::Actions, i),
            after: 0,
        },
        Pick::LeftTicks { tick, choice } => Step::Joins {
            part: Goal::new(right, mode, choice),
            size: right_size,
            after: 0,
            tick: Goal::new(left, Mode::Ticks, tick),
        },
        Pick::RightTicks { tick, choice } => Step::Joins {
            part: Goal::new(left, mode, choice),
            size: left_size,
            after: right_size,
            tick: Goal::new(right, Mode::Ticks, tick),
        },
    }
}

// Where no term with that choice stands, any step will do. No `?`: a step in an Option is copied out of it, and an act
// took longer.
pub fn step_at(accepted: &Accepted, words: &[u32], target: Target) -> Step
    ensures { (T : Term) → Stands (accepted_table accepted.now) T target words.now →
        Stepped (accepted_table accepted.now) T target result }
{
    let Goal { from, mode, choice } = target;
    let Some((word, next)) = from.read(words) else {
        return Step::Ticked;
    };
    if is_operator(word) {
        let roots = accepted.fleet.first_root();
        let Some(left) = measure(roots, accepted.counts, words, next) else {
            return Step::Ticked;
        };
        let Some(right) = measure(roots, accepted.counts, words, left.next) else {
            return Step::Ticked;
        };
        let more = beside(word, mode, right.counts);
        let which = pick(mode, choice, more, left.counts, right.counts);
        return toward(mode, next, left.next, right.next, which);
    }
    if word == term::TICK_WORD {
        return Step::Ticked;
    }
    let goal = Goal::new(word as usize, mode, choice);
    Step::Leaf { goal }
}
