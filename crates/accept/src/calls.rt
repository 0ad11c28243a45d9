// Nodes are settled: counted where each call that they expose is below a level. Refusals 6 and 7.
// Fleet, words and level are no struct with `Held` as its ghost field: the level rises while the words are lent, so each
// method by `&mut self` would have to promise besides that fleet and level stay, as the parameters now do by their types.
ghost use Rattle.std.specs.Prelude.{true, ◌≡◌, ℕ, ◌≤◌, ◌<◌, length};
ghost use Rattle.table.specs.Tables.{first_root};
ghost use Rattle.table.specs.Fleets.{table_in};
ghost use Rattle.table.specs.Sound.{Sound};
ghost use Rattle.term.specs.Acceptance.{scratch_words};
ghost use Rattle.accept.specs.Scratch.{is_counted, Held};
ghost use Rattle.accept.specs.Calls.{Settles, CallsJudged, CountsAt, NodesJudged};

use crate::nodes::visit;
use crate::words::{counted, discard, is_counted, lead, leads_to, store};
use crate::{Counts, Visit};
use table::{Fleet, Refused};

// Counts node top, if each call that it exposes is below a level, and says so. The exposed nodes under it are counted
// first: from a node the way goes down to a part that is not counted yet, and from a node that is counted now back to
// where it came from. No node is counted twice.
fn settle(fleet: &Fleet, scratch: &mut [u32], level: usize, top: usize) -> bool
    requires held { Held (table_in fleet.now) level scratch.old }
    requires top_bound { top < first_root (table_in fleet.now) }
    ensures { Settles (table_in fleet.now) level top scratch.old scratch.new result }
{
    if is_counted(scratch, top) {
        return true;
    }
    let mut n = top;
    loop {
        match visit(fleet, scratch, level, n) {
            Visit::Done(c) => {
                let before = leads_to(scratch, n);
                store(scratch, n, c);
                if n == top {
                    return true;
                }
                n = before;
            }
            Visit::Part(m) => {
                lead(scratch, m, n);
                n = m;
            }
            Visit::High => {
                return false;
            }
        }
    }
}

// Node n is counted, if a visit finds its counts.
fn try_count(fleet: &Fleet, scratch: &mut [u32], level: usize, n: usize)
    requires held { Held (table_in fleet.now) level scratch.old }
    requires n_bound { n < first_root (table_in fleet.now) }
    ensures { Held (table_in fleet.now) level scratch.new }
{
    if let Visit::Done(c) = visit(fleet, scratch, level, n) {
        store(scratch, n, c);
    }
}

// The same for the nodes from one up to another, in turn: most bodies are counted so, each node once.
fn count_up(fleet: &Fleet, scratch: &mut [u32], level: usize, from: usize, to: usize)
    requires held { Held (table_in fleet.now) level scratch.old }
    requires to_bound { to < first_root (table_in fleet.now) }
    ensures { Held (table_in fleet.now) level scratch.new }
{
    for n in from..=to {
        try_count(fleet, scratch, level, n);
    }
}

// Refuses the lowest definition that exposes a call that is not lower. Each body is settled in turn, after the nodes up
// to it have been tried.
pub fn lowest_bad_call(fleet: &Fleet, scratch: &mut [u32]) -> Result<(), Refused>
    requires { Sound (table_in fleet.now) × (scratch_words fleet.now.sizes ≤ length scratch.old) }
    ensures { CallsJudged (table_in fleet.now) scratch.new result }
{
    discard(scratch, fleet.first_root());
    let mut next = 0;
    for d in 0..fleet.sizes.definitions {
        let body = fleet.body_at(d);
        count_up(fleet, scratch, d, next, body);
        next = next.max(body + 1);
        if !settle(fleet, scratch, d, body) {
            return Err(Refused::ExposedCall(d));
        }
    }
    Ok(())
}

// Counts node n, if it is not counted yet. The nodes below it and the bodies of all definitions are, so that a visit
// finds its counts.
fn count_at(fleet: &Fleet, scratch: &mut [u32], n: usize) -> Counts
    requires held { Held (table_in fleet.now) fleet.now.sizes.definitions scratch.old }
    requires n_bound { n < first_root (table_in fleet.now) }
    requires by_index { (k : ℕ) → k < n → is_counted scratch.old k ≡ true }
    ensures { CountsAt (table_in fleet.now) n scratch.old scratch.new result }
{
    if let Some(c) = counted(scratch, n) {
        return c;
    }
    let Visit::Done(c) = visit(fleet, scratch, fleet.sizes.definitions, n) else {
        unreachable!()
    };
    store(scratch, n, c);
    c
}

// Refuses the lowest node with over 65,535 derivations. Each node is counted in turn.
pub fn lowest_overfull(fleet: &Fleet, scratch: &mut [u32]) -> Result<(), Refused>
    requires { Held (table_in fleet.now) fleet.now.sizes.definitions scratch.old }
    ensures { NodesJudged (table_in fleet.now) scratch.new result }
{
    for n in 0..fleet.first_root() {
        let c = count_at(fleet, scratch, n);
        if term::DERIVATIONS < c.actions + c.ticks {
            return Err(Refused::NodeDerivations(n));
        }
    }
    Ok(())
}
