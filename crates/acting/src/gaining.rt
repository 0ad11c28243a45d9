// The keys that Zc gains: those that the guards and the action's expression read and that have an entry.
ghost use Rattle.std.specs.Prelude.{◌≡◌, ◌^◌, ◌<◌};
ghost use Rattle.basis.specs.KeySets.{plus_all};
ghost use Rattle.table.specs.Tables.{agent_limit};
ghost use Rattle.table.specs.Fleets.{table_in};
ghost use Rattle.state.specs.Layout.{key_limit};
ghost use Rattle.state.specs.Standing.{HasBlocks};
ghost use Rattle.evaluation.specs.Reading.{Adds};
ghost use Rattle.steps.specs.Acts.{label_reads};
ghost use Rattle.acting.specs.Gaining.{has_entry, LabelKey, Gaining, Gains};

use basis::{has, plus_if};
use evaluation::keys_read;
use judging::Allowed;
use state::entry_of;
use table::{Fleet, KEYS};
use term::Label;

// Of a set of keys, those that have an entry of an agent.
fn with_entry(state: &[u32], agent: usize, keys: u32) -> u32
    requires { HasBlocks state.now × (agent < agent_limit) }
    ensures { result ≡ plus_all (has_entry state.now agent keys) key_limit 0 }
{
    let mut found = 0;
    for key in 0..KEYS {
        let entry = entry_of(state, agent, key);
        found = plus_if(found, key, has(keys, key) & (0 < entry.stamp));
    }
    found
}

// The set with the keys that an action's expression reads; a tick has none.
fn label_keys(fleet: &Fleet, label: Label, keys: u32) -> u32
    requires { LabelKey (table_in fleet.now) label × (keys < 2 ^ key_limit) }
    ensures { Adds (label_reads (table_in fleet.now) label) keys result }
{
    match label {
        Label::Ticking => keys,
        Label::Acting(node) => keys_read(fleet, fleet.q_at(node), keys),
    }
}

// What Zc gains in an act, from the state before and the keys that its guards read.
pub fn gained(fleet: &Fleet, state: &[u32], agent: usize, allowed: Allowed) -> u32
    requires { Gaining (table_in fleet.now) state.now agent allowed }
    ensures { Gains (table_in fleet.now) state.now agent allowed result }
{
    let keys = label_keys(fleet, allowed.label, allowed.keys);
    with_entry(state, agent, keys)
}
