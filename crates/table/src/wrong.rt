// Refusal 5, where it is in doubt: the nodes in descending order, which hand on to those that they name what reaches
// them. Fleet and words are no struct that keeps the words long enough: its methods would have to promise besides that
// the fleet stays.
ghost use Rattle.std.specs.Prelude.{◌≡◌, false, [], ◌∷◌, ℕ, ◌<◌, ◌≤◌, length};
ghost use Rattle.table.specs.Fleets.{table_in};
ghost use Rattle.table.specs.Checks.{refuse_at, first_of};
ghost use Rattle.table.specs.Refusals.{result_check};
ghost use Rattle.basis.specs.Numbers.{lowest};
ghost use Rattle.table.specs.Nodes.{is_key_kind, bad_node};
ghost use Rattle.table.specs.Reach.{wrong_here, wrong_key};
ghost use Rattle.table.specs.Marks.{Shown, Descends, Visit, LowestOf};

use super::marks::{LEFT, LINK, PROCESS, RIGHT, first_word, mark_both};
use super::{Fleet, Look, Reached, Refused};
use basis::{NodeKind, has};

// The first and the last kind of keys.
const ATTRIBUTE: u8 = NodeKind::Attribute as u8;

const ENVIRONMENT: u8 = NodeKind::Environment as u8;

// Whether a kind is that of a key.
pub fn is_key(kind: u8) -> bool
    ensures { result ≡ is_key_kind kind }
{
    matches!(kind, ATTRIBUTE..=ENVIRONMENT)
}

// Whether a node of this kind and party is wrong, by whether a process and whether a link reaches it.
pub fn wrong_here(kind: u8, party: usize, by: Reached) -> bool
    ensures { result ≡ wrong_here kind party by.process by.link }
{
    is_key(kind) && (by.process && party != 0 || by.link && (kind == ENVIRONMENT || party == 0))
}

// Hands on what reaches a node, and says whether it is wrong.
fn visit(fleet: &Fleet, words: &mut [u32], node: usize) -> bool
    requires { Descends (table_in fleet.now) words.old node }
    ensures { Visit (table_in fleet.now) words.new node result }
{
    let word = words[node];
    let by = Reached {
        process: has(word, PROCESS),
        link: has(word, LINK),
    };
    let p = fleet.p_at(node);
    let q = fleet.q_at(node);
    let look = Look {
        left: has(word, LEFT).then_some(p),
        right: has(word, RIGHT).then_some(q),
    };
    mark_both(words, look, by);
    wrong_here(fleet.kind_at(node), q, by)
}

// The words show which fields are nodes, and where processes and links start.
fn show_starts(fleet: &Fleet, scratch: &mut [u32])
    requires { fleet.now.sizes.nodes ≤ length scratch.old }
    ensures { Shown (table_in fleet.now) scratch.new fleet.now.sizes.nodes }
{
    for node in 0..fleet.sizes.nodes {
        scratch[node] = first_word(fleet, node);
    }
}

// The lowest wrong key node.
fn descend(fleet: &Fleet, scratch: &mut [u32]) -> Option<usize>
    requires long { fleet.now.sizes.nodes ≤ length scratch.old }
    requires fine { (k : ℕ) → k < fleet.now.sizes.nodes → bad_node (table_in fleet.now) k ≡ false }
    requires shown { Shown (table_in fleet.now) scratch.old fleet.now.sizes.nodes }
    ensures { LowestOf (wrong_key (table_in fleet.now)) fleet.now.sizes.nodes result }
{
    let mut lowest = None;
    for node in (0..fleet.sizes.nodes).rev() {
        if visit(fleet, scratch, node) {
            lowest = Some(node);
        }
    }
    lowest
}

// Refuses the lowest key node with a wrong party, or with an environment key that a link reaches. No node of the table
// is bad. Where it is not doubtful whether there is one, there is none.
pub fn lowest_wrong(fleet: &Fleet, scratch: &mut [u32], doubtful: bool) -> Result<(), Refused>
    requires long { fleet.now.sizes.nodes ≤ length scratch.old }
    requires fine { (k : ℕ) → k < fleet.now.sizes.nodes → bad_node (table_in fleet.now) k ≡ false }
    requires sure { doubtful ≡ false → (k : ℕ) → k < fleet.now.sizes.nodes → wrong_key (table_in fleet.now) k ≡ false }
    ensures { let t = table_in fleet.now in
        result_check result ≡ first_of (refuse_at 5 t.sizes.nodes (lowest (wrong_key t) t.sizes.nodes) ∷ []) }
{
    if !doubtful {
        return Ok(());
    }
    show_starts(fleet, scratch);
    match descend(fleet, scratch) {
        Some(node) => Err(Refused::WrongParty(node)),
        None => Ok(()),
    }
}
