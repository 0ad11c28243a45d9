// Values of keys in a store, and changes of one and of a set of keys.
ghost use Rattle.std.specs.Prelude.{◌≡◌, ◌<◌, length};
ghost use Rattle.table.specs.Tables.{agent_limit};
ghost use Rattle.state.specs.Layout.{value_in, put as put_in, add_key, drop_key};
ghost use Rattle.state.specs.Standing.{store_agent, Pair, HasBlocks};

use super::Store;
use super::layout::{mark_at, value_at};
use table::KEYS;
use value::Value;

// The value of a key: absent where there is none, or no such key.
#[tactic(auto, unfolding(crate::specs::Layout::value_in))]
pub fn value_in(state: &[u32], store: Store, key: usize) -> Value
    requires { HasBlocks state.now × (store_agent store < agent_limit) }
    ensures { result ≡ value_in state.now store key }
{
    if key < KEYS && state[mark_at(store, key)] != 0 {
        Some(state[value_at(store, key)])
    } else {
        None
    }
}

// A key of a store gets a value and a mark.
#[tactic(auto, unfolding(crate::specs::Layout::put))]
pub fn put(state: &mut [u32], store: Store, key: usize, value: u32, mark: u32)
    requires { HasBlocks state.old × Pair store key }
    ensures { state.new ≡ put_in store key value mark state.old }
{
    state[value_at(store, key)] = value;
    state[mark_at(store, key)] = mark;
}

// The set of keys at a place gets a key. This and the next are one line each: a closure for the change would be longer.
#[tactic(auto, unfolding(crate::specs::Layout::add_key))]
pub fn add_key(state: &mut [u32], at: usize, key: usize)
    requires { (at < length state.old) × (key < 32) }
    ensures { state.new ≡ add_key at key state.old }
{
    state[at] = basis::plus(state[at], key);
}

// It loses one.
#[tactic(auto, unfolding(crate::specs::Layout::drop_key))]
pub fn drop_key(state: &mut [u32], at: usize, key: usize)
    requires { (at < length state.old) × (key < 32) }
    ensures { state.new ≡ drop_key at key state.old }
{
    state[at] = basis::minus(state[at], key);
}
