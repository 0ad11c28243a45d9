// What an agent's act writes, once it is judged.
#![tactic(auto)]

mod gaining; // gaining.rt: the keys that Zc gains
mod leaving; // leaving.rt: the residual
mod setting; // setting.rt: the key that an action sets
mod writing; // writing.rt: all that an act writes

pub use writing::perform;
