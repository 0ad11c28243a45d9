// Which tables are accepted: how many derivations each node has, refusals 6 and 7, and all refusals of a table in
// order.
#![tactic(auto)]

mod calls;
mod nodes;
mod prepared;
mod sums;
mod words;

ghost use Rattle.std.specs.Prelude.{◌∷◌, ◌≤◌, length};
ghost use Rattle.table.specs.Sound.{Sound};
ghost use Rattle.table.specs.Fleets.{table_in};
ghost use Rattle.term.specs.Acceptance.{scratch_words};
ghost use Rattle.term.specs.Parts.{term_checks, content_checks};
ghost use Rattle.accept.specs.Answers.{lent_line, Judged, Accepts};

use calls::{lowest_bad_call, lowest_overfull};
pub use prepared::Accepted;
pub use sums::{NONE, TICK, parallel, sequence};
use table::{Fleet, Refused, lowest_bad, lowest_wrong, measure};
pub use words::pair;
use words::scratch_words;

// How many actions and ticks a process has. 65,536 stands for any larger number too. That none is larger is no ghost
// field here, since definitions make counts of any two numbers (`pair_at`).
#[derive(Clone, Copy)]
pub struct Counts {
    pub actions: u64,
    pub ticks: u64,
}

// What a visit of a node finds: its counts, an exposed part that is not counted yet, or a call that is not below the
// level.
#[derive(Clone, Copy)]
pub enum Visit {
    Done(Counts),
    Part(usize),
    High,
}

// Refusals 6 and 7.
fn judge_terms(fleet: &Fleet, scratch: &mut [u32]) -> Result<(), Refused>
    requires { Sound (table_in fleet.now) × (scratch_words fleet.now.sizes ≤ length scratch.old) }
    ensures { let t = table_in fleet.now in Judged t (term_checks t) scratch.new result }
{
    lowest_bad_call(fleet, scratch)?;
    lowest_overfull(fleet, scratch)
}

// Refusals 4 to 7.
fn judge(fleet: &Fleet, scratch: &mut [u32]) -> Result<(), Refused>
    requires { scratch_words fleet.now.sizes ≤ length scratch.old }
    ensures { let t = table_in fleet.now in Judged t (content_checks t) scratch.new result }
{
    let doubtful = lowest_bad(fleet, scratch)?;
    lowest_wrong(fleet, scratch, doubtful)?;
    judge_terms(fleet, scratch)
}

// Refusal 8, where another lent buffer does not fit or the words are too few, and then 4 to 7.
fn judge_lent(fleet: &Fleet, fits: bool, scratch: &mut [u32]) -> Result<(), Refused>
    ensures { let t = table_in fleet.now in
        Judged t (lent_line t.sizes fits (length scratch.old) ∷ content_checks t) scratch.new result }
{
    if !fits || scratch.len() < scratch_words(fleet.sizes) {
        return Err(Refused::BufferLength);
    }
    judge(fleet, scratch)
}

// Judges a table, with lent words, and told whether the call's other buffers have their lengths: refusals 1, 2, 3, 8,
// 4, 5, 6 and 7, in this order. Where it is accepted, the words hold the counts of its nodes.
pub fn accept<'a>(table: &'a [u8], fits: bool, scratch: &mut [u32]) -> Result<Fleet<'a>, Refused>
    ensures { Accepts table.now fits scratch.old scratch.new result }
{
    let fleet = measure(table)?;
    judge_lent(&fleet, fits, scratch)?;
    Ok(fleet)
}
