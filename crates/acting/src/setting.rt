// The key that an action sets.
ghost use Rattle.std.specs.Prelude.{◌≡◌, ℕ};
ghost use Rattle.table.specs.Fleets.{table_in};
ghost use Rattle.term.specs.declared.Label.TheVariants.{Acting};
ghost use Rattle.term.specs.Accepted.{ActionNode};
ghost use Rattle.steps.specs.Acts.{store_of, entered, set_key};
ghost use Rattle.acting.specs.Acting.{Entering, Setting};

use basis::NodeKind;
use judging::Allowed;
use state::{Entry, Store, add_key, clock_of, put, put_entry, set_clock, zp_at};
use table::Fleet;
use term::Label;

// The store in which an action of an agent sets its key.
fn store_set(fleet: &Fleet, agent: usize, node: usize) -> Store
    requires { ActionNode (table_in fleet.now) node }
    ensures { result ≡ store_of (table_in fleet.now) agent node }
{
    match fleet.node_kind(node) {
        Ok(NodeKind::SetAttribute) => Store::Attributes(agent),
        Ok(NodeKind::SetStigmergy) => Store::Entries(agent),
        _ => Store::Environment,
    }
}

// An agent's entry takes the next stamp, which becomes the clock; its writer is the agent; and its key waits to be
// propagated.
fn write_entry(state: &mut [u32], agent: usize, key: usize, value: u32)
    requires { Entering state.old agent key }
    ensures { state.new ≡ entered state.old agent key value }
{
    let stamp = clock_of(state) + 1;
    let entry = Entry {
        value,
        stamp,
        writer: agent as u32,
    };
    put_entry(state, agent, key, entry);
    add_key(state, zp_at(agent), key);
    set_clock(state, stamp);
}

// An action's key is set.
fn set_key(fleet: &Fleet, state: &mut [u32], agent: usize, node: usize, value: u32)
    requires { Setting (table_in fleet.now) state.old agent node value }
    ensures { state.new ≡ set_key (table_in fleet.now) state.old agent (Acting node) }
{
    let key = fleet.p_at(node);
    match store_set(fleet, agent, node) {
        Store::Entries(_) => write_entry(state, agent, key, value),
        store => put(state, store, key, value, 1),
    }
}

// The key of an act is set; a tick has none.
pub fn set_label(fleet: &Fleet, state: &mut [u32], agent: usize, allowed: Allowed)
    requires { (n : ℕ) → allowed.label ≡ Acting n → Setting (table_in fleet.now) state.old agent n allowed.value }
    ensures { state.new ≡ set_key (table_in fleet.now) state.old agent allowed.label }
{
    if let Label::Acting(node) = allowed.label {
        set_key(fleet, state, agent, node, allowed.value);
    }
}
