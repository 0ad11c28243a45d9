// Choice c of a process node, found by counting: what it does, under which guards, and what it leaves.
#![tactic(auto)]

mod goals; // goals.rt: where a walk goes to
pub mod picks; // picks.rt: which part of a sequence or a parallel a choice is of
pub mod turns; // turns.rt: one step from a node towards its choice
pub mod writing; // writing.rt: what a node's choice leaves, written between two places
pub mod outcomes; // outcomes.rt: what a derivation does, and how many words it leaves
pub mod marking; // marking.rt: the walk to a node's choice: its guards, as marks, and what it does

use term::{Label, Mode};

// Of a sequence or a parallel: an action of the left part, or of the right; or a tick of the left part that joins a
// derivation of the right, or a tick of the right part that joins a derivation of the left.
#[derive(Clone, Copy)]
pub enum Pick {
    LeftActs(u64),
    RightActs(u64),
    LeftTicks { tick: u64, choice: u64 },
    RightTicks { tick: u64, choice: u64 },
}

// The derivation that a walk goes to: a choice among those of a mode of what it begins from, a node or a place among
// words.
#[derive(Clone, Copy)]
pub struct Goal<P> {
    pub from: P,
    pub mode: Mode,
    pub choice: u64,
}

// Whose guards are collected besides: nobody's, one guard, or those of a tick that joins.
#[derive(Clone, Copy)]
pub enum Side {
    Alone,
    Under { guard: usize },
    After { tick: Goal<usize> },
}

// The words that stay around what is left: none; the operator before it and its right node after it; or a parallel and
// its left node before it.
#[derive(Clone, Copy)]
pub enum Kept {
    Nothing,
    Right { operator: u32, node: u32 },
    Left { node: u32 },
}

// One step towards a goal: it ends there, with what is done and the one word that is left; else it goes on.
#[derive(Clone, Copy)]
pub enum Turn {
    End {
        label: Label,
        word: u32,
    },
    On {
        next: Goal<usize>,
        side: Side,
        kept: Kept,
    },
}

// What a derivation does, and how many words it leaves.
#[derive(Clone, Copy)]
pub struct Effect {
    pub label: Label,
    pub size: usize,
}

// The words from front up to back are free: those before and those from back on, put together, are a residual.
#[derive(Clone, Copy)]
pub struct Gap {
    pub front: usize,
    pub back: usize,
}
