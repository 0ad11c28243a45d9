// Where things stand in the state's words.
ghost use Rattle.std.specs.Prelude.{◌<◌, ◌≤◌};
ghost use Rattle.table.specs.Tables.{agent_limit};
ghost use Rattle.state.specs.declared.Store.TheVariants.{Entries};
ghost use Rattle.state.specs.Layout.{residual_words, block_at, zc_at, zp_at, length_at, residual_at, mark_at, value_at, writer_at};
ghost use Rattle.state.specs.Standing.{Pair, Standing, key_at, key_words};

use super::Store;
use table::KEYS;

// The clock, and A.
pub const CLOCK: usize = 0;

pub const AGENTS: usize = 1;

// Words of a pair of the environment or of the attributes, of an entry, and of a residual.
pub const PAIR_WORDS: usize = 2;

pub const ENTRY_WORDS: usize = 3;

pub const RESIDUAL_WORDS: usize = 63;

// Where the environment and the first block stand.
const ENVIRONMENT: usize = 2;

const BLOCKS: usize = ENVIRONMENT + KEYS * PAIR_WORDS;

// Where things stand in a block, its words, and those of a state.
const ENTRIES: usize = KEYS * PAIR_WORDS;

const ZC: usize = ENTRIES + KEYS * ENTRY_WORDS;

const ZP: usize = ZC + 1;

const LENGTH: usize = ZP + 1;

const RESIDUAL: usize = LENGTH + 1;

const BLOCK_WORDS: usize = RESIDUAL + RESIDUAL_WORDS;

pub const STATE_WORDS: usize = BLOCKS + table::AGENTS * BLOCK_WORDS;

// The highest stamp, and the set of all keys.
pub const CLOCK_LIMIT: u32 = 65535;

pub const ALL_KEYS: u32 = 65535;

// The first word of an agent's block; after the last agent's, the end.
pub fn block_at(agent: usize) -> usize
    requires { agent ≤ agent_limit }
    ensures { Standing (block_at agent) 0 result }
{
    BLOCKS + BLOCK_WORDS * agent
}

// An agent's set of keys to confirm. This and the three below are one sum each, named as their definitions are: a
// constant parameter for the place in the block would say no less.
pub fn zc_at(agent: usize) -> usize
    requires { agent < agent_limit }
    ensures { Standing (zc_at agent) 1 result }
{
    block_at(agent) + ZC
}

// An agent's set of keys to propagate.
pub fn zp_at(agent: usize) -> usize
    requires { agent < agent_limit }
    ensures { Standing (zp_at agent) 1 result }
{
    block_at(agent) + ZP
}

// The length of an agent's residual.
pub fn length_at(agent: usize) -> usize
    requires { agent < agent_limit }
    ensures { Standing (length_at agent) 1 result }
{
    block_at(agent) + LENGTH
}

// An agent's residual.
pub fn residual_at(agent: usize) -> usize
    requires { agent < agent_limit }
    ensures { Standing (residual_at agent) residual_words result }
{
    block_at(agent) + RESIDUAL
}

// The first word of a key.
fn key_at(store: Store, key: usize) -> usize
    requires { Pair store key }
    ensures { Standing (key_at store key) (key_words store) result }
{
    match store {
        Store::Environment => ENVIRONMENT + PAIR_WORDS * key,
        Store::Attributes(agent) => block_at(agent) + PAIR_WORDS * key,
        Store::Entries(agent) => block_at(agent) + ENTRIES + ENTRY_WORDS * key,
    }
}

// The word of a key that says whether there is a value.
pub fn mark_at(store: Store, key: usize) -> usize
    requires { Pair store key }
    ensures { Standing (mark_at store key) 1 result }
{
    match store {
        Store::Entries(_) => key_at(store, key) + 1,
        _ => key_at(store, key),
    }
}

// The word of a key that holds the value.
pub fn value_at(store: Store, key: usize) -> usize
    requires { Pair store key }
    ensures { Standing (value_at store key) 1 result }
{
    match store {
        Store::Entries(_) => key_at(store, key),
        _ => key_at(store, key) + 1,
    }
}

// The word of an entry that holds its writer.
pub fn writer_at(agent: usize, key: usize) -> usize
    requires { Pair (Entries agent) key }
    ensures { Standing (writer_at agent key) 1 result }
{
    key_at(Store::Entries(agent), key) + 2
}
