// What a node's choice leaves, written between two places of a residual's words.
ghost use Rattle.std.specs.Prelude.{◌≡◌, [], ◌∷◌};
ghost use Rattle.term.specs.Terms.{words as words_of};
ghost use Rattle.accept.specs.Accepted.{accepted_table};
ghost use Rattle.choice.specs.Turns.{kept_before, kept_after, kept_size, chosen_at};
ghost use Rattle.choice.specs.Writing.{Room, RoomFor, Written, Narrowed};

use crate::turns::turn_at;
use crate::{Gap, Goal, Kept, Turn};
use accept::Accepted;

// One word is all that is left.
pub fn put_last(words: &mut [u32], gap: Gap, w: u32) -> Gap
    requires { RoomFor words.old gap 1 }
    ensures { Written words.old gap.front gap.back (w ∷ []) result words.new }
{
    let Gap { front, back } = gap;
    words[front] = w;
    Gap {
        front: front + 1,
        back,
    }
}

// What stays goes to the ends of the gap.
fn put_kept(words: &mut [u32], gap: Gap, kept: Kept) -> Gap
    requires { RoomFor words.old gap (kept_size kept) }
    ensures { Narrowed words.old gap (kept_before kept) (kept_after kept) result words.new }
{
    let Gap { front, back } = gap;
    match kept {
        Kept::Nothing => gap,
        Kept::Right { operator, node } => {
            let last = back - 1;
            words[front] = operator;
            words[last] = node;
            Gap {
                front: front + 1,
                back: last,
            }
        }
        Kept::Left { node } => {
            words[front] = term::PAR_WORD;
            words[front + 1] = node;
            Gap {
                front: front + 2,
                back,
            }
        }
    }
}

pub fn write_node(accepted: &Accepted, words: &mut [u32], gap: Gap, goal: Goal<usize>) -> Gap
    requires { Room (accepted_table accepted.now) goal gap words.old }
    ensures { let t = accepted_table accepted.now in
        Written words.old gap.front gap.back (words_of (chosen_at t goal).leaving) result words.new }
{
    let mut rest = gap;
    let mut at = goal;
    loop {
        match turn_at(accepted, at) {
            Turn::End { word, .. } => return put_last(words, rest, word),
            Turn::On { next, kept, .. } => {
                rest = put_kept(words, rest, kept);
                // field by field: a copy of the whole waits until each part is stored
                let Goal { from, mode, choice } = next;
                at = Goal { from, mode, choice };
            }
        }
    }
}
