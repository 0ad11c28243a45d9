// The functions of rehearsal for C and Rust, under the same names and with the same clauses. A slice is a pointer and a
// count; parameters and answers are those of include/rehearsal.h, and so stay as they are.
#![tactic(auto)]

ghost use Rattle.std.specs.Prelude.{length};
ghost use Rattle.steps.specs.Steps.{load_of, step_of};
ghost use Rattle.steps.specs.Previews.{preview_of};
ghost use Rattle.steps.specs.Runs.{run_of};
ghost use Rattle.steps.specs.Points.{save_of, restore_of, drop_of};
ghost use Rattle.rehearsal.specs.Packing.{LoadPacked, StepPacked, RunPacked, ChangePacked};

#[unsafe(no_mangle)]
pub extern "C" fn labs_load(table: &[u8], state: &mut [u32], scratch: &mut [u32]) -> u64
    ensures { LoadPacked (load_of table.now state.old (length scratch.old)) result state.new }
{
    rehearsal::labs_load(table, state, scratch)
}

#[unsafe(no_mangle)]
pub extern "C" fn labs_step(
    table: &[u8],
    state: &mut [u32],
    scratch: &mut [u32],
    kind: u8,
    agent: u16,
    number: u16,
) -> u64
    ensures { StepPacked (step_of table.now state.old (length scratch.old) kind agent number)
        result state.new }
{
    rehearsal::labs_step(table, state, scratch, kind, agent, number)
}

#[unsafe(no_mangle)]
pub extern "C" fn labs_preview(
    table: &[u8],
    state: &[u32],
    scratch: &mut [u32],
    kind: u8,
    agent: u16,
    number: u16,
    next: &mut [u32],
) -> u64
    ensures { StepPacked
        (preview_of table.now state.now (length scratch.old) kind agent number next.old)
        result next.new }
{
    rehearsal::labs_preview(table, state, scratch, kind, agent, number, next)
}

#[unsafe(no_mangle)]
pub extern "C" fn labs_run(
    table: &[u8],
    state: &mut [u32],
    scratch: &mut [u32],
    schedule: &[u8],
    answers: &mut [u8],
    totals: &mut [u32],
) -> u64
    ensures { RunPacked
        (run_of table.now state.old (length scratch.old) schedule.now answers.old)
        totals.old result state.new answers.new totals.new }
{
    rehearsal::labs_run(table, state, scratch, schedule, answers, totals)
}

#[unsafe(no_mangle)]
pub extern "C" fn labs_save(
    table: &[u8],
    state: &[u32],
    scratch: &mut [u32],
    shelf: &mut [u32],
    name: u32,
) -> u64
    ensures { ChangePacked
        (save_of table.now state.now (length scratch.old) shelf.old name) result shelf.new }
{
    rehearsal::labs_save(table, state, scratch, shelf, name)
}

#[unsafe(no_mangle)]
pub extern "C" fn labs_restore(
    table: &[u8],
    state: &mut [u32],
    scratch: &mut [u32],
    shelf: &[u32],
    name: u32,
) -> u64
    ensures { ChangePacked
        (restore_of table.now state.old (length scratch.old) shelf.now name) result state.new }
{
    rehearsal::labs_restore(table, state, scratch, shelf, name)
}

#[unsafe(no_mangle)]
pub extern "C" fn labs_drop(table: &[u8], scratch: &mut [u32], shelf: &mut [u32], name: u32) -> u64
    ensures { ChangePacked (drop_of table.now (length scratch.old) shelf.old name) result shelf.new }
{
    rehearsal::labs_drop(table, scratch, shelf, name)
}
