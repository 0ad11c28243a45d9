// The lines of a store's values that are present, and of an agent's pending keys.
#![tactic(auto, using(crate::proofs::Pages::writes_nothing), unfolding(crate::proofs::Parts::members))]

ghost use Rattle.std.specs.Prelude.{◌<◌};
ghost use Rattle.table.specs.Tables.{agent_limit, key_limit};
ghost use Rattle.state.specs.Standing.{Pair, store_agent};
ghost use Rattle.lines.specs.Lines.{value_line, key_line, store_lines, member_line, pending_lines};
ghost use Rattle.lines.specs.Writing.{Fleet};
ghost use Rattle.lines.specs.Pages.{HasRoom, Writes};

use crate::page::Page;
use crate::rows::{attribute_line, entry_line, environment_line, pending_line};
use state::{Store, entry_of, value_in};
use table::KEYS;

// A state that can be printed.
#[derive(Clone, Copy)]
pub struct State<'a> {
    pub words: &'a [u32],
    pub ghost fleet: { Fleet words.now },
}

// The line of a value.
fn value_line(page: &mut Page, state: &State, store: Store, key: usize, word: u32)
    requires { Pair store key × HasRoom (value_line state.now.words.now store key word) page.old }
    ensures { Writes (value_line state.now.words.now store key word) page.old page.new }
{
    match store {
        Store::Environment => environment_line(page, key, word),
        Store::Attributes(agent) => attribute_line(page, agent, key, word),
        Store::Entries(agent) => entry_line(page, agent, key, entry_of(state.words, agent, key)),
    }
}

// The line of a key that is present.
fn key_line(page: &mut Page, state: &State, store: Store, key: usize)
    requires { Pair store key × HasRoom (key_line state.now.words.now store key) page.old }
    ensures { Writes (key_line state.now.words.now store key) page.old page.new }
{
    if let Some(word) = value_in(state.words, store, key) {
        value_line(page, state, store, key, word);
    }
}

pub fn store_lines(page: &mut Page, state: &State, store: Store)
    requires { (store_agent store < agent_limit) × HasRoom (store_lines state.now.words.now store) page.old }
    ensures { Writes (store_lines state.now.words.now store) page.old page.new }
{
    for key in 0..KEYS {
        key_line(page, state, store, key);
    }
}

// The line of a key that a set has.
fn member_line(page: &mut Page, name: &[u8], agent: usize, keys: u32, key: usize)
    requires { (key < key_limit) × HasRoom (member_line name.now agent keys key) page.old }
    ensures { Writes (member_line name.now agent keys key) page.old page.new }
{
    if basis::has(keys, key) {
        pending_line(page, name, agent, key);
    }
}

pub fn pending_lines(page: &mut Page, name: &[u8], agent: usize, keys: u32)
    requires { HasRoom (pending_lines name.now agent keys) page.old }
    ensures { Writes (pending_lines name.now agent keys) page.old page.new }
{
    for key in 0..KEYS {
        member_line(page, name, agent, keys, key);
    }
}
