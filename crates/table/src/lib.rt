// Reading a fleet table: its sizes, kinds and operands, and refusals 1 to 5.
#![tactic(auto)]

mod bad;
mod fleets;
mod header;
mod kinds;
mod marks;
mod nodes;
mod refusals;
mod wrong;

pub use bad::lowest_bad;
pub use fleets::Fleet;
pub use header::{AGENTS, HEADER_BYTES, KEYS, measure};
pub use kinds::{is_guard, is_process};
pub use refusals::Refused;
pub use wrong::lowest_wrong;

// The six sizes of a table.
#[derive(Clone, Copy)]
pub struct Sizes {
    pub nodes: usize,
    pub definitions: usize,
    pub agents: usize,
    pub attributes: usize,
    pub stigmergy: usize,
    pub environment: usize,
}

// What an operand field holds. Nothing fits `Never`.
#[derive(Clone, Copy)]
pub enum Field {
    Never,
    Zero,
    Attribute,
    Stigmergy,
    Environment,
    Party,
    Definition,
    Process,
    Guard,
    Expression,
    Value,
}

// What p and q hold.
#[derive(Clone, Copy)]
pub struct Fields {
    pub p: Field,
    pub q: Field,
}

// The nodes that a node's p and q name.
#[derive(Clone, Copy)]
struct Look {
    left: Option<usize>,
    right: Option<usize>,
}

// Whether a process, and whether a link, reaches a node.
#[derive(Clone, Copy)]
struct Reached {
    process: bool,
    link: bool,
}
