// Result numbers in the first words of a lent buffer, as many as it has room for.
ghost use Rattle.std.specs.Prelude.{◌≡◌, set};
ghost use Rattle.rehearsal.specs.Results.{written, total_numbers};

use machine::Totals;

// One number, where there is room for it.
fn write_number(out: &mut [u32], at: usize, number: u32)
    ensures { out.new ≡ set out.old at number }
{
    if at < out.len() {
        out[at] = number;
    }
}

// The four totals, written one after another: an array of them would be one that a run keeps.
pub fn write_totals(out: &mut [u32], totals: Totals)
    ensures { out.new ≡ written (total_numbers totals) out.old }
{
    let tally = totals.tally;
    write_number(out, 0, totals.done);
    write_number(out, 1, totals.refused);
    write_number(out, 2, tally.added);
    write_number(out, 3, tally.replaced);
}
