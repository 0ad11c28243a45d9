// An accepted table with the counts of its nodes.
ghost use Rattle.table.specs.Fleets.{table_in};
ghost use Rattle.accept.specs.Prepared.{Prepared};

use super::Counts;
use super::words::pair;
use table::Fleet;

// The fleet's table, and the words that hold its nodes' counts.
#[derive(Clone, Copy)]
pub struct Accepted<'a> {
    pub fleet: Fleet<'a>,
    pub counts: &'a [u32],
    pub ghost prepared: { Prepared (table_in fleet) counts.now },
}

impl<'a> Accepted<'a> {
    ghost use Rattle.std.specs.Prelude.{◌≡◌, ◌<◌};
    ghost use Rattle.table.specs.Tables.{first_root};
    ghost use Rattle.accept.specs.Scratch.{pair_at};
    ghost use Rattle.accept.specs.Accepted.{accepted_table};

    // How many actions and ticks a node has.
    pub fn counts_at(&self, node: usize) -> Counts
        requires { node < first_root (accepted_table self.now) }
        ensures { result ≡ pair_at self.now.counts.now node }
    {
        pair(self.counts, node)
    }
}
