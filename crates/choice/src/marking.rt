// The guards of a node's choice, as marks: one bit for each node, 32 in a word.
ghost use Rattle.std.specs.Prelude.{◌≡◌, ◌-◌, ◌*◌, ◌%◌, ◌<◌, ◌≤◌, length};
ghost use Rattle.accept.specs.Accepted.{accepted_table};
ghost use Rattle.choice.specs.Turns.{chosen_at, side_guards, Reached, Sided};
ghost use Rattle.choice.specs.Outcomes.{most, Walked};
ghost use Rattle.choice.specs.Marking.{only_tick, has_mark, WithMark, zeros_after, marked_guard, Next};
ghost use Rattle.choice.specs.Marking.{WalkMarks, Marked};

use crate::turns::turn_at;
use crate::{Effect, Goal, Side, Turn};
use accept::{Accepted, Counts};
use basis::{has, plus};
use table::is_guard;
use term::Mode;

fn mark(marks: &mut [u32], n: usize)
    requires { n < 32 * length marks.old }
    ensures { WithMark marks.old n marks.new }
{
    marks[n / 32] = plus(marks[n / 32], n % 32);
}

pub fn has_mark(marks: &[u32], n: usize) -> bool
    requires { n < 32 * length marks.now }
    ensures { result ≡ has_mark marks.now n }
{
    has(marks[n / 32], n % 32)
}

// The zeros in the word of node n's mark after it, up to the next 1.
fn zeros_after(marks: &[u32], n: usize) -> u32
    requires { n < 32 * length marks.now }
    ensures { result ≡ zeros_after marks.now n }
{
    ((marks[n / 32] >> (n % 32)) / 2).trailing_zeros()
}

// Nodes after n that have no mark: no more than up to the next that has one, or to the end of the word.
fn unmarked_after(marks: &[u32], n: usize) -> usize
    requires { n < 32 * length marks.now }
    ensures { (result ≤ zeros_after marks.now n) × (result ≤ 31 - n % 32) }
{
    (zeros_after(marks, n) as usize).min(31 - n % 32)
}

// The lowest marked guard from a node on, if there is one.
pub fn next_guard(kinds: &[u8], marks: &[u32], from: usize) -> Option<usize>
    requires { length kinds.now ≤ 32 * length marks.now }
    ensures { Next (marked_guard kinds.now marks.now) (length kinds.now) from result }
{
    let mut n = from;
    while n < kinds.len() {
        if is_guard(kinds[n]) && has_mark(marks, n) {
            return Some(n);
        }
        // no `for`: it would look at each node, and few have a mark
        n += 1 + unmarked_after(marks, n);
    }
    None
}

// A tick is looked for, and there is exactly one.
fn only_tick(mode: Mode, c: Counts) -> bool
    ensures { result ≡ only_tick mode c }
{
    mode == Mode::Ticks && c.ticks == 1
}

// Marks the guards that a turn collects besides. What marks keep is asked of them here and below, and is no struct's
// ghost field: a struct would have to be built anew after each mark.
#[cycle(mark)]
fn mark_side(accepted: &Accepted, marks: &mut [u32], side: Side)
    requires sided { Sided (accepted_table accepted.now) side }
    requires walk_marks { WalkMarks (accepted_table accepted.now) marks.old }
    ensures { let t = accepted_table accepted.now in Marked t (side_guards t side) marks.old marks.new }
{
    match side {
        Side::Alone => {}
        Side::Under { guard } => mark(marks, guard),
        Side::After { tick } => mark_tick(accepted, marks, tick),
    }
}

// Marks the guards of a tick that joins, with those of each tick that joins it. A node whose only tick has been
// walked is marked, and not walked again.
#[cycle(mark)]
pub fn mark_tick(accepted: &Accepted, marks: &mut [u32], goal: Goal<usize>)
    requires reached { Reached (accepted_table accepted.now) goal }
    requires walk_marks { WalkMarks (accepted_table accepted.now) marks.old }
    ensures { let t = accepted_table accepted.now in Marked t (chosen_at t goal).guards marks.old marks.new }
{
    let n = goal.from;
    let once = only_tick(goal.mode, accepted.counts_at(n));
    if once && has_mark(marks, n) {
        return;
    }
    if let Turn::On { next, side, .. } = turn_at(accepted, goal) {
        mark_side(accepted, marks, side);
        mark_tick(accepted, marks, next);
    }
    if once {
        mark(marks, n);
    }
}

// Marks the guards step by step, with those of each tick that joins, and tells what is done and how many words are
// left. `write_node` walks in the same way: one walk that takes what is done at a turn would need a trait for what that
// asks and keeps, longer than both loops.
pub fn mark_node(accepted: &Accepted, marks: &mut [u32], goal: Goal<usize>) -> Effect
    requires reached { Reached (accepted_table accepted.now) goal }
    requires walk_marks { WalkMarks (accepted_table accepted.now) marks.old }
    ensures { let t = accepted_table accepted.now in
        Walked t (chosen_at t goal) (most t.sizes.definitions t.sizes.nodes) marks.old result marks.new }
{
    let mut at = goal;
    let mut size: usize = 1;
    loop {
        match turn_at(accepted, at) {
            Turn::End { label, .. } => return Effect { label, size },
            Turn::On { next, side, kept } => {
                mark_side(accepted, marks, side);
                size += kept.words();
                // field by field: a copy of the whole waits until each part is stored, a tenth of the walk
                let Goal { from, mode, choice } = next;
                at = Goal { from, mode, choice };
            }
        }
    }
}
