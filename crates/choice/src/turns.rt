// One step from a node towards its choice.
ghost use Rattle.std.specs.Prelude.{◌≡◌, ◌<◌};
ghost use Rattle.accept.specs.Accepted.{accepted_table};
ghost use Rattle.choice.specs.declared.Kept.TheVariants.{Nothing};
ghost use Rattle.choice.specs.declared.Turn.TheVariants.{On};
ghost use Rattle.choice.specs.Turns.{goal_of, pick_turn, choice_turn, Reached, Turned};

use crate::picks::{acting, pick, total};
use crate::{Goal, Kept, Pick, Side, Turn};
use accept::Accepted;
use term::{Label, Mode};

// On to a node, with the same mode and nothing kept.
fn on_to(node: usize, mode: Mode, choice: u64, side: Side) -> Turn
    ensures { result ≡ On (goal_of node mode choice) side Nothing }
{
    let next = Goal::new(node, mode, choice);
    let kept = Kept::Nothing;
    Turn::On { next, side, kept }
}

// At a sequence or a parallel of nodes p and q, by its operator's word.
fn part(operator: u32, mode: Mode, p: usize, q: usize, pick: Pick) -> Turn
    requires { (p < 65536) × (q < 65536) }
    ensures { result ≡ pick_turn operator mode p q pick }
{
    match pick {
        Pick::LeftActs(i) => {
            let node = q as u32;
            Turn::On {
                next: Goal::new(p, Mode::Actions, i),
                side: Side::Alone,
                kept: Kept::Right { operator, node },
            }
        }
        Pick::RightActs(i) => {
            let node = p as u32;
            Turn::On {
                next: Goal::new(q, Mode::Actions, i),
                side: Side::Alone,
                kept: Kept::Left { node },
            }
        }
        Pick::LeftTicks { tick, choice } => {
            let tick = Goal::new(p, Mode::Ticks, tick);
            on_to(q, mode, choice, Side::After { tick })
        }
        Pick::RightTicks { tick, choice } => {
            let tick = Goal::new(q, Mode::Ticks, tick);
            on_to(p, mode, choice, Side::After { tick })
        }
    }
}

// At a choice of nodes p and q, where p has k derivations.
fn either(mode: Mode, c: u64, p: usize, q: usize, k: u64) -> Turn
    ensures { result ≡ choice_turn mode c p q k }
{
    if c < k {
        return on_to(p, mode, c, Side::Alone);
    }
    on_to(q, mode, c - k, Side::Alone)
}

// A call goes on in the body of its definition. By the kind's byte: walks that went by its NodeKind took a quarter more
// time.
pub fn turn_at(accepted: &Accepted, goal: Goal<usize>) -> Turn
    requires { Reached (accepted_table accepted.now) goal }
    ensures { Turned (accepted_table accepted.now) goal result }
{
    let fleet = &accepted.fleet;
    let n = goal.from;
    let mode = goal.mode;
    let c = goal.choice;
    let p = fleet.p_at(n);
    let q = fleet.q_at(n);
    match fleet.kind_at(n) {
        basis::kinds::TICK => Turn::End {
            label: Label::Ticking,
            word: term::IDLE_WORD,
        },
        basis::kinds::SEQUENCE => {
            let which = pick(mode, c, 0, accepted.counts_at(p), accepted.counts_at(q));
            part(term::SEQ_WORD, mode, p, q, which)
        }
        basis::kinds::CHOICE => either(mode, c, p, q, total(mode, accepted.counts_at(p))),
        basis::kinds::GUARDED => on_to(q, mode, c, Side::Under { guard: p }),
        basis::kinds::PARALLEL => {
            let right = accepted.counts_at(q);
            let which = pick(mode, c, acting(mode, right), accepted.counts_at(p), right);
            part(term::PAR_WORD, mode, p, q, which)
        }
        basis::kinds::CALL => on_to(fleet.body_at(p), mode, c, Side::Alone),
        _ => Turn::End {
            label: Label::Acting(n),
            word: term::TICK_WORD,
        },
    }
}
