// An act is judged before anything is written: refusals 11 to 17.
#![tactic(auto)]

mod acts; // acts.rt: 11 to 13, and the order of all
mod guards; // guards.rt: 14
mod outcomes; // outcomes.rt: 15 to 17

pub use acts::judge;
use term::Label;

// An act that is allowed: what it does, the word that it sets (0 for a tick) and the stigmergy keys that its guards
// read.
#[derive(Clone, Copy)]
pub struct Allowed {
    pub label: Label,
    pub value: u32,
    pub keys: u32,
}
