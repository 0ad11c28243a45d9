// The stigmergy keys that a node reads, by recursion on the falling node number: one walk for all keys.
ghost use Rattle.std.specs.Prelude.{◌≡◌, ◌^◌, ◌<◌, ◌≤◌};
ghost use Rattle.basis.specs.KeySets.{plus_all};
ghost use Rattle.table.specs.Fleets.{table_in};
ghost use Rattle.state.specs.Layout.{key_limit};
ghost use Rattle.state.specs.Evaluation.{reads};
ghost use Rattle.evaluation.specs.Reading.{Adds, reads_below, is_key};

use basis::NodeKind;
use table::{Fleet, KEYS};

// The set with the key that a node is, if it is one.
#[tactic(auto, using(crate::proofs::Adding::key_none, crate::proofs::Adding::key_past, crate::proofs::Adding::key_there))]
fn own_key(fleet: &Fleet, node: usize, keys: u32) -> u32
    requires { node < fleet.now.sizes.nodes }
    ensures { Adds (is_key (table_in fleet.now) node) keys result }
{
    if fleet.kind_at(node) != NodeKind::Stigmergy as u8 {
        return keys;
    }
    let key = fleet.p_at(node);
    if key < KEYS {
        basis::plus(keys, key)
    } else {
        keys
    }
}

// The set with the keys that a node below the limit reads: its own, then those of its parts. An `if` for each part, since
// a loop over two options would first have to make them.
fn keys_below(fleet: &Fleet, limit: usize, node: usize, keys: u32) -> u32
    requires { limit ≤ fleet.now.sizes.nodes }
    ensures { Adds (reads_below (table_in fleet.now) limit node) keys result }
{
    if limit <= node {
        return keys;
    }
    let fields = fleet.fields_at(node);
    let mut found = own_key(fleet, node, keys);
    if fields.p.is_node() {
        found = keys_below(fleet, node, fleet.p_at(node), found);
    }
    if fields.q.is_node() {
        found = keys_below(fleet, node, fleet.q_at(node), found);
    }
    found
}

// The set with the stigmergy keys that a node reads.
#[tactic(auto, using(crate::proofs::Adding::adds_all))]
pub fn keys_read(fleet: &Fleet, node: usize, keys: u32) -> u32
    requires { keys < 2 ^ key_limit }
    ensures { result ≡ plus_all (reads (table_in fleet.now) node) key_limit keys }
{
    keys_below(fleet, fleet.sizes.nodes, node, keys)
}
