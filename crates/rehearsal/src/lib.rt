// The machine and the shelf with one number for an answer: each function calls theirs and packs what it answers; a
// run's totals go to a lent buffer. rehearsal_c exports them for C and Rust, so the buffers stay parameters as in
// include/rehearsal.h.
#![tactic(auto)]

mod packing; // packing.rt: answers as one number
mod results; // results.rt: result numbers in a lent buffer

ghost use Rattle.std.specs.Prelude.{length};
ghost use Rattle.steps.specs.Steps.{load_of, step_of};
ghost use Rattle.steps.specs.Previews.{preview_of};
ghost use Rattle.steps.specs.Runs.{run_of};
ghost use Rattle.steps.specs.Points.{save_of, restore_of, drop_of};
ghost use Rattle.rehearsal.specs.Packing.{LoadPacked, StepPacked, RunPacked, ChangePacked};

use packing::{pack, pack_tally};
use results::write_totals;

// The state becomes that of a fleet which has not stepped yet. Reports 0.
pub fn labs_load(table: &[u8], state: &mut [u32], scratch: &mut [u32]) -> u64
    ensures { LoadPacked (load_of table.now state.old (length scratch.old)) result state.new }
{
    pack(machine::load(table, state, scratch), |_| 0)
}

// One step: act (kind 0; number is a choice), propagate (1) or confirm (2; number is a key). Reports how many agents
// took the entry: those that had none, and those that had an older one.
pub fn labs_step(
    table: &[u8],
    state: &mut [u32],
    scratch: &mut [u32],
    kind: u8,
    agent: u16,
    number: u16,
) -> u64
    ensures { StepPacked (step_of table.now state.old (length scratch.old) kind agent number)
        result state.new }
{
    pack(
        machine::step(table, state, scratch, kind, agent, number),
        pack_tally,
    )
}

// What the same step would do: the state after it goes to a second buffer, which a refusal leaves as it came. Reports
// what the step would.
pub fn labs_preview(
    table: &[u8],
    state: &[u32],
    scratch: &mut [u32],
    kind: u8,
    agent: u16,
    number: u16,
    next: &mut [u32],
) -> u64
    ensures { StepPacked
        (preview_of table.now state.now (length scratch.old) kind agent number next.old)
        result next.new }
{
    pack(
        machine::preview(table, state, scratch, kind, agent, number, next),
        pack_tally,
    )
}

// The steps of a schedule, each in turn, with an answer byte for each: 0, or its refusal. The totals go to a buffer,
// as many as it has room for: done, refused, added, replaced; all 0 where the run is refused. Reports 0.
pub fn labs_run(
    table: &[u8],
    state: &mut [u32],
    scratch: &mut [u32],
    schedule: &[u8],
    answers: &mut [u8],
    totals: &mut [u32],
) -> u64
    ensures { RunPacked
        (run_of table.now state.old (length scratch.old) schedule.now answers.old)
        totals.old result state.new answers.new totals.new }
{
    let answer = machine::run(table, state, scratch, schedule, answers);
    write_totals(totals, answer.unwrap_or_default());
    pack(answer, |_| 0)
}

// The state goes to the shelf under a name, 1 to 255: to the place that the name holds, or else to the lowest free one.
// Reports 0.
pub fn labs_save(
    table: &[u8],
    state: &[u32],
    scratch: &mut [u32],
    shelf: &mut [u32],
    name: u32,
) -> u64
    ensures { ChangePacked
        (save_of table.now state.now (length scratch.old) shelf.old name) result shelf.new }
{
    pack(shelf::save(table, state, scratch, shelf, name), |_| 0)
}

// The state becomes the one that the shelf holds under a name. Reports 0.
pub fn labs_restore(
    table: &[u8],
    state: &mut [u32],
    scratch: &mut [u32],
    shelf: &[u32],
    name: u32,
) -> u64
    ensures { ChangePacked
        (restore_of table.now state.old (length scratch.old) shelf.now name) result state.new }
{
    pack(shelf::restore(table, state, scratch, shelf, name), |_| 0)
}

// The place that a name holds becomes free: its name word becomes 0, and no other word changes. Reports 0.
pub fn labs_drop(table: &[u8], scratch: &mut [u32], shelf: &mut [u32], name: u32) -> u64
    ensures { ChangePacked (drop_of table.now (length scratch.old) shelf.old name) result shelf.new }
{
    pack(shelf::drop(table, scratch, shelf, name), |_| 0)
}
