// Rehearses the fleet on standard input, a table and then a schedule, and prints the run's totals and the state that it
// leaves, or the refusal.
#![tactic(auto)]

mod rehearsal; // rehearsal.rt: where the table ends; load, then run; the lines of that
mod stdin; // stdin.rt: standard input, read to its end

ghost use Rattle.std.specs.Prelude.{◌≡◌, length};
ghost use Rattle.lines.specs.Pages.{HasRoomForAll, Writes};
ghost use Rattle.labs_show.specs.Input.{input_bytes};
ghost use Rattle.labs_show.specs.Printed.{printed};

use lines::{Page, output_buffer};
use rehearsal::{Lent, show_rehearsal};
use stdin::read_input;

const INPUT_BYTES: usize = 61455;

// One byte more than the longest input that can be done: a table of 4,096 nodes and a schedule of 8,192 steps,
// 12 + 5 * 4,096 + 2 + 5 * 8,192 bytes. What follows need not be read, since it changes nothing (proofs/Enough). Where
// N is over 4,096 the table is refused with 2 whatever its length is; else the table is read whole, and the schedule,
// of which over 2 + 5 * 8,192 bytes are read, is refused with 19, as all of it would be.
fn input_buffer() -> [u8; INPUT_BYTES]
    ensures { input_bytes ≡ length result }
{
    [0; INPUT_BYTES]
}

// What is printed of an input.
fn show(page: &mut Page, input: &[u8])
    requires { HasRoomForAll page.old }
    ensures { Writes (printed input.now) page.old page.new }
{
    let mut lent = Lent {
        state: [0; state::STATE_WORDS],
        scratch: [0; 8192],
        answers: [0; 8192],
    };
    show_rehearsal(page, input, &mut lent);
}

// Writes it to standard output.
fn print(rt: &(impl Print + Eprint), input: &[u8]) {
    let mut out = output_buffer();
    let mut page = Page {
        bytes: &mut out,
        len: 0,
    };
    show(&mut page, input);
    let Page { bytes, len } = page;
    if rt.write_all(&bytes[..len]).is_err() {
        let _ = rt.eprint("labs_show: cannot write\n");
    }
}

fn main(rt: HostRuntime) {
    let mut input = input_buffer();
    let Ok(size) = read_input(&mut rt.stdin(), &mut input) else {
        let _ = rt.eprint("labs_show: cannot read standard input\n");
        return;
    };
    print(&rt, &input[..size]);
}
