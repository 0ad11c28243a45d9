// Values of expressions, guards and links over the state's words, and the stigmergy keys that they read.
#![tactic(auto)]

mod guards; // guards.rt: what a guard comes to; links
mod members; // members.rt: the agents of a set, one by one
mod reading; // reading.rt: the stigmergy keys that a node reads
mod senders; // senders.rt: whom expressions and guards are judged from
mod values; // values.rt: the value of an expression

pub use guards::{holds, links_hold};
pub use reading::keys_read;
pub use values::value_of;

// Of a set of agents: those for whom a guard is well defined, and those for whom it holds.
#[derive(Clone, Copy)]
struct AgentSets {
    defined: u32,
    holding: u32,
}
