// The input's table and schedule; load, then run; and what is printed of that.
ghost use Rattle.std.specs.Prelude.{◌++◌, length};
ghost use Rattle.lines.specs.Lines.{shown, totals_line, state_lines};
ghost use Rattle.lines.specs.Writing.{Fleet};
ghost use Rattle.lines.specs.Pages.{HasRoomForAll, Writes};
ghost use Rattle.labs_show.specs.Input.{TableEnd};
ghost use Rattle.labs_show.specs.Rehearsal.{Rehearses, rehearsed, rehearsed_input};

use lines::{Page, refused_line, state_lines, totals_line};
use machine::Totals;
use state::STATE_WORDS;
use table::{HEADER_BYTES, Refused};

// What the machine is lent.
#[derive(Drop)]
pub struct Lent {
    pub state: [u32; STATE_WORDS],
    pub scratch: [u32; 8192],
    pub answers: [u8; 8192],
}

// Where the table ends and the schedule begins.
fn table_end(input: &[u8]) -> usize
    ensures { TableEnd input.now result }
{
    if input.len() < HEADER_BYTES {
        return input.len();
    }
    let size = HEADER_BYTES + 5 * basis::u16_at(input, 0);
    size.min(input.len())
}

// Load, and where it is done run.
fn rehearse(table: &[u8], schedule: &[u8], lent: &mut Lent) -> Result<Totals, Refused>
    ensures { Rehearses (rehearsed table.now schedule.now lent.old.state (length lent.old.scratch) lent.old.answers)
        result lent.new.state lent.new.answers }
{
    machine::load(table, &mut lent.state, &mut lent.scratch)?;
    machine::run(
        table,
        &mut lent.state,
        &mut lent.scratch,
        schedule,
        &mut lent.answers,
    )
}

// The same for a table and a schedule that stand one after the other.
fn rehearse_input(input: &[u8], lent: &mut Lent) -> Result<Totals, Refused>
    ensures { Rehearses (rehearsed_input input.now lent.old.state (length lent.old.scratch) lent.old.answers)
        result lent.new.state lent.new.answers }
{
    let (table, schedule) = input.split_at(table_end(input));
    rehearse(table, schedule, lent)
}

// The lines of a done run.
fn run_lines(page: &mut Page, totals: Totals, state: &[u32])
    requires { Fleet state.now × (HasRoomForAll page.old) }
    ensures { Writes (totals_line totals ++ state_lines state.now) page.old page.new }
{
    totals_line(page, totals);
    state_lines(page, state);
}

// The lines of a rehearsal.
#[tactic(auto, using(lines::proofs::Sizes::refusal_fits))]
pub fn show_rehearsal(page: &mut Page, input: &[u8], lent: &mut Lent)
    requires { HasRoomForAll page.old }
    ensures { Writes
        (shown (rehearsed_input input.now lent.old.state (length lent.old.scratch) lent.old.answers))
        page.old page.new }
{
    match rehearse_input(input, lent) {
        Ok(totals) => run_lines(page, totals, &lent.state),
        Err(refused) => refused_line(page, refused.number(), refused.place()),
    }
}
