// What labs_show prints, rendered into a lent buffer: a line for each total, value, entry and pending key.
#![tactic(auto)]

mod page; // page.rt: a lent buffer; bytes, numbers, the end of a line
mod rows; // rows.rt: a line of each kind
mod stores; // stores.rt: the lines of a store's values and of pending keys
mod fleet; // fleet.rt: the lines of agents and of a state

ghost use Rattle.std.specs.Prelude.{◌≡◌, length};
ghost use Rattle.lines.specs.Sizes.{shown_bytes};

pub use fleet::state_lines;
pub use page::Page;
pub use rows::{refused_line, totals_line};

const SHOWN_BYTES: usize = 73210;

// As many bytes as suffice for all that is printed.
pub fn output_buffer() -> [u8; SHOWN_BYTES]
    ensures { shown_bytes ≡ length result }
{
    [0; SHOWN_BYTES]
}
