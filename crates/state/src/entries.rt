// Entries of agents, and the clock.
ghost use Rattle.std.specs.Prelude.{◌≡◌, ◌<◌, length};
ghost use Rattle.state.specs.declared.Store.TheVariants.{Entries};
ghost use Rattle.state.specs.Layout.{clock_at};
ghost use Rattle.state.specs.Entries.{entry_of, newer as newer_of, insertion, put_entry, clock_of, set_clock};
ghost use Rattle.state.specs.Standing.{Pair, HasBlocks};

use super::layout::{CLOCK, mark_at, value_at, writer_at};
use super::stores::put;
use super::{Entry, Insertion, Store};

// An agent's entry for a key; its stamp is 0 where there is none.
pub fn entry_of(state: &[u32], agent: usize, key: usize) -> Entry
    requires { HasBlocks state.now × Pair (Entries agent) key }
    ensures { result ≡ entry_of state.now agent key }
{
    Entry {
        value: state[value_at(Store::Entries(agent), key)],
        stamp: state[mark_at(Store::Entries(agent), key)],
        writer: state[writer_at(agent, key)],
    }
}

// Whether the first entry is newer than the second.
pub fn newer(first: Entry, second: Entry) -> bool
    ensures { result ≡ newer_of first second }
{
    second.stamp < first.stamp
}

// By which rule an entry is inserted where another is.
pub fn insertion_of(entry: Entry, there: Entry) -> Insertion
    ensures { result ≡ insertion entry there }
{
    if !newer(entry, there) {
        Insertion::Discard
    } else if there.stamp == 0 {
        Insertion::Add
    } else {
        Insertion::Update
    }
}

// An agent's entry for a key is set.
pub fn put_entry(state: &mut [u32], agent: usize, key: usize, entry: Entry)
    requires { HasBlocks state.old × Pair (Entries agent) key }
    ensures { state.new ≡ put_entry agent key entry state.old }
{
    put(state, Store::Entries(agent), key, entry.value, entry.stamp);
    state[writer_at(agent, key)] = entry.writer;
}

// The clock.
pub fn clock_of(state: &[u32]) -> u32
    requires { clock_at < length state.now }
    ensures { result ≡ clock_of state.now }
{
    state[CLOCK]
}

// The clock becomes a stamp.
pub fn set_clock(state: &mut [u32], stamp: u32)
    requires { clock_at < length state.old }
    ensures { state.new ≡ set_clock stamp state.old }
{
    state[CLOCK] = stamp;
}
