// The state's words: where things stand, and how they are read and changed. Words come as a slice, agents and keys as
// numbers: an array of STATE_WORDS, or types with a bound, would ask more of callers than a state that has all blocks.
#![tactic(auto)]

mod layout; // layout.rt: where things stand
mod stores; // stores.rt: values of keys, and changes of them and of sets of keys
mod entries; // entries.rt: entries of agents, and the clock

pub use entries::{clock_of, entry_of, insertion_of, newer, put_entry, set_clock};
pub use layout::{
    AGENTS, ALL_KEYS, CLOCK_LIMIT, RESIDUAL_WORDS, STATE_WORDS, block_at, length_at, mark_at,
    residual_at, value_at, zc_at, zp_at,
};
pub use stores::{add_key, drop_key, put, value_in};

// A store of 16 keys: the environment's, or an agent's attributes or stigmergy entries.
#[derive(Clone, Copy)]
pub enum Store {
    Environment,
    Attributes(usize),
    Entries(usize),
}

// An agent's entry for a stigmergy key: its value, its stamp, and the agent that wrote it. Stamp 0, and not an Option, is
// where there is none: `entry_of` and `newer` in specs/Entries say so.
#[derive(Clone, Copy)]
pub struct Entry {
    pub value: u32,
    pub stamp: u32,
    pub writer: u32,
}

// By which rule of LAbS's Table 1 an entry is inserted: the key has no entry, an older one, or neither.
#[derive(Clone, Copy)]
pub enum Insertion {
    Add,
    Update,
    Discard,
}
