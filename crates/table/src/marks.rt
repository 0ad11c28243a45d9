// A word for each node among lent ones, by its bits: the C interface lends plain words, so no array of structs stands
// there.
ghost use Rattle.std.specs.Prelude.{◌≡◌, ◌<◌, IfSome, length};
ghost use Rattle.table.specs.Tables.{kind_at, q_at};
ghost use Rattle.table.specs.Fleets.{table_in};
ghost use Rattle.table.specs.Nodes.{left_node, right_node};
ghost use Rattle.table.specs.Reach.{process_node, link_root};
ghost use Rattle.table.specs.Marks.{first_word, own_bits, word_of, risen, doubted, Mark, TwoMarks};

use super::kinds::is_process;
use super::wrong::{is_key, wrong_here};
use super::{Fleet, Look, Reached};
use basis::{has, plus, plus_if};

// The bits: another node names it; its p, its q is a node; a process, a link reaches it; it reaches a key that a
// process, that a link must not reach.
const NAMED: usize = 0;

pub const LEFT: usize = 1;

pub const RIGHT: usize = 2;

pub const PROCESS: usize = 3;

pub const LINK: usize = 4;

const NOT_PROCESS: usize = 5;

const NOT_LINK: usize = 6;

// The last two as a set: they rise to a node from those that it names.
const RISING: u32 = 1 << NOT_PROCESS | 1 << NOT_LINK;

impl Reached {
    pub const NOT: Reached = Reached {
        process: false,
        link: false,
    };

    pub const BY_PROCESS: Reached = Reached {
        process: true,
        link: false,
    };

    pub const BY_LINK: Reached = Reached {
        process: false,
        link: true,
    };
}

// The word of a node, if there is one.
fn word_of(words: &[u32], node: Option<usize>) -> u32
    requires { IfSome node (λ x. x < length words.now) }
    ensures { result ≡ word_of words.now node }
{
    node.map_or(0, |x| words[x])
}

// The bits that a node has by itself: keys have some.
#[tactic(auto, unfolding(basis::specs::KeySets::plus_if))]
pub fn own_bits(fleet: &Fleet, node: usize) -> u32
    requires { node < fleet.now.sizes.nodes }
    ensures { let t = table_in fleet.now in result ≡ own_bits (kind_at t node) (q_at t node) }
{
    let kind = fleet.kind_at(node);
    if !is_key(kind) {
        return 0;
    }
    let party = fleet.q_at(node);
    let bits = plus_if(0, NOT_PROCESS, wrong_here(kind, party, Reached::BY_PROCESS));
    plus_if(bits, NOT_LINK, wrong_here(kind, party, Reached::BY_LINK))
}

// The bits that a node has from those that it names.
pub fn rising(words: &[u32], look: Look) -> u32
    requires left { IfSome look.left (λ x. x < length words.now) }
    requires right { IfSome look.right (λ x. x < length words.now) }
    ensures { result ≡ risen words.now look }
{
    RISING & (word_of(words, look.left) | word_of(words, look.right))
}

// What reaches a node by itself: it is a process node, the root of a link.
pub fn starts(fleet: &Fleet, node: usize) -> Reached
    requires { node < fleet.now.sizes.nodes }
    ensures process { result.process ≡ process_node (table_in fleet.now) node }
    ensures link { result.link ≡ link_root (table_in fleet.now) node }
{
    Reached {
        process: is_process(fleet.kind_at(node)),
        link: fleet.is_link_root(node),
    }
}

// Whether, by its word, a process node or the root of a link reaches what it must not.
pub fn is_doubted(by: Reached, word: u32) -> bool
    ensures { result ≡ doubted by.process by.link word }
{
    by.process && has(word, NOT_PROCESS) || by.link && has(word, NOT_LINK)
}

// The word of a node before anything is handed on: whether p and q are nodes, whether it is a process node, a link's
// root.
pub fn first_word(fleet: &Fleet, node: usize) -> u32
    requires { node < fleet.now.sizes.nodes }
    ensures { let t = table_in fleet.now in
        result ≡ first_word (left_node t node) (right_node t node) (process_node t node) (link_root t node) }
{
    let fields = fleet.fields_at(node);
    let by = starts(fleet, node);
    let left = plus_if(0, LEFT, fields.p.is_node());
    let right = plus_if(left, RIGHT, fields.q.is_node());
    let process = plus_if(right, PROCESS, by.process);
    plus_if(process, LINK, by.link)
}

// Marks a node, if there is one, as named by a node that a process, a link reaches, and says whether it was named
// before.
fn mark(words: &mut [u32], node: Option<usize>, by: Reached) -> bool
    requires { IfSome node (λ x. x < length words.old) }
    ensures { Mark by.process by.link words.old words.new node result }
{
    let Some(x) = node else {
        return false;
    };
    let old = words[x];
    words[x] = plus_if(
        plus_if(plus(old, NAMED), PROCESS, by.process),
        LINK,
        by.link,
    );
    has(old, NAMED)
}

// Marks the left and then the right, and says whether one was named before.
pub fn mark_both(words: &mut [u32], look: Look, by: Reached) -> bool
    requires left { IfSome look.left (λ x. x < length words.old) }
    requires right { IfSome look.right (λ x. x < length words.old) }
    ensures { TwoMarks by.process by.link words.old words.new look.left look.right result }
{
    let a = mark(words, look.left, by);
    let b = mark(words, look.right, by);
    a | b
}
