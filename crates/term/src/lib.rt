// Processes, derivations, counts, choices, residuals.
#![tactic(auto)]

// Which derivations of a process are counted: all of them, its actions, or its ticks.
#[derive(Clone, Copy, PartialEq, Eq)]
pub enum Mode {
    Any,
    Actions,
    Ticks,
}

// What a derivation does: it ticks, or does the action at a node. No Option: a tick is something that is done.
#[derive(Clone, Copy)]
pub enum Label {
    Ticking,
    Acting(usize),
}

// Derivations that a process may have at most.
pub const DERIVATIONS: u64 = 65535;

// The words of a residual that are no nodes.
pub const SEQ_WORD: u32 = 65535;

pub const PAR_WORD: u32 = 65534;

pub const TICK_WORD: u32 = 65533;

pub const IDLE_WORD: u32 = 65532;
