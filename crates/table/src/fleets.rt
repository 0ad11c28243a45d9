// A fleet's table by its parts.
ghost use Rattle.table.specs.Tables.{table};
ghost use Rattle.table.specs.Sound.{Shaped};

use super::kinds::{NOTHING, fields_of};
use super::{Field, Fields, Sizes};
use basis::{NodeKind, UnknownKind};

// The sizes, a kind for each node, and an operand of four bytes for each node.
#[derive(Clone, Copy)]
pub struct Fleet<'a> {
    pub sizes: Sizes,
    pub kinds: &'a [u8],
    pub operands: &'a [u8],
    pub ghost shaped: { Shaped (table sizes kinds.now operands.now) },
}

impl<'a> Fleet<'a> {
    ghost use Rattle.std.specs.Prelude.{◌≡◌, ◌<◌};
    ghost use Rattle.table.specs.Tables.{kind_at, p_at, q_at, constant_at, first_root, body_at, link_at};
    ghost use Rattle.table.specs.Nodes.{fields_at};
    ghost use Rattle.table.specs.Reach.{link_root};
    ghost use Rattle.table.specs.Fleets.{table_in};
    ghost use Rattle.basis.specs.NodeKinds.{Names};

    // The kind of a node.
    pub fn kind_at(&self, node: usize) -> u8
        requires { node < self.now.sizes.nodes }
        ensures { result ≡ kind_at (table_in self.now) node }
    {
        self.kinds[node]
    }

    // The kind of a node, where its byte names one.
    pub fn node_kind(&self, node: usize) -> Result<NodeKind, UnknownKind>
        requires { node < self.now.sizes.nodes }
        ensures { Names (kind_at (table_in self.now) node) result }
    {
        NodeKind::try_from(self.kinds[node])
    }

    // The first half of a node's operand.
    pub fn p_at(&self, node: usize) -> usize
        requires { node < self.now.sizes.nodes }
        ensures is { result ≡ p_at (table_in self.now) node }
        ensures small { result < 65536 }
    {
        basis::u16_at(self.operands, 4 * node)
    }

    // The second half.
    pub fn q_at(&self, node: usize) -> usize
        requires { node < self.now.sizes.nodes }
        ensures is { result ≡ q_at (table_in self.now) node }
        ensures small { result < 65536 }
    {
        basis::u16_at(self.operands, 4 * node + 2)
    }

    // Both halves, a constant.
    pub fn constant_at(&self, node: usize) -> u32
        requires { node < self.now.sizes.nodes }
        ensures { result ≡ constant_at (table_in self.now) node }
    {
        basis::u32_at(self.operands, 4 * node)
    }

    // The first of the last D + S + A nodes.
    pub fn first_root(&self) -> usize
        ensures { result ≡ first_root (table_in self.now) }
    {
        self.sizes.first_root()
    }

    // Whether a node is the root of a link.
    pub fn is_link_root(&self, node: usize) -> bool
        ensures { result ≡ link_root (table_in self.now) node }
    {
        let links = self.first_root() + self.sizes.definitions;
        links <= node && node < links + self.sizes.stigmergy
    }

    // What a node's fields hold: the last nodes, and no others, are roots.
    #[tactic(auto, unfolding(crate::specs::Nodes::fields_here))]
    pub fn fields_at(&self, node: usize) -> Fields
        requires { node < self.now.sizes.nodes }
        ensures { result ≡ fields_at (table_in self.now) node }
    {
        let kind = self.kind_at(node);
        if node < self.first_root() {
            return fields_of(kind);
        }
        if kind != NodeKind::Root as u8 {
            return NOTHING;
        }
        let p = if self.is_link_root(node) {
            Field::Guard
        } else {
            Field::Process
        };
        Fields { p, q: Field::Zero }
    }

    // The node that is the body of a definition.
    pub fn body_at(&self, definition: usize) -> usize
        requires { definition < self.now.sizes.definitions }
        ensures { result ≡ body_at (table_in self.now) definition }
    {
        self.p_at(self.first_root() + definition)
    }

    // The node that is the link of a stigmergy key.
    pub fn link_at(&self, key: usize) -> usize
        requires { key < self.now.sizes.stigmergy }
        ensures { result ≡ link_at (table_in self.now) key }
    {
        self.p_at(self.first_root() + self.sizes.definitions + key)
    }
}
