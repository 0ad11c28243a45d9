// Refusal 4, and whether 5 is in doubt: the nodes in ascending order, with marks for those that lower nodes name, and
// for the keys that they reach.
ghost use Rattle.std.specs.Prelude.{◌≤◌, length};
ghost use Rattle.table.specs.Fleets.{table_in};
ghost use Rattle.table.specs.Marks.{Bad};

use super::marks::{is_doubted, mark_both, own_bits, rising, starts};
use super::nodes::look_at;
use super::{Fleet, Reached, Refused};

// Refuses the lowest node with a bad kind or operand. Where there is none, a key may be wrong only where that is
// doubtful, since each node has been told what the nodes reach that it names.
pub fn lowest_bad(fleet: &Fleet, scratch: &mut [u32]) -> Result<bool, Refused>
    requires { fleet.now.sizes.nodes ≤ length scratch.old }
    ensures { Bad (table_in fleet.now) result }
{
    let first = fleet.first_root();
    let mut doubtful = false;
    for node in 0..fleet.sizes.nodes {
        let look = look_at(fleet, node).ok_or(Refused::BadNode(node))?;
        let word = own_bits(fleet, node) | rising(scratch, look);
        scratch[node] = word;
        doubtful |= is_doubted(starts(fleet, node), word);
        let inner = node < first;
        if inner && mark_both(scratch, look, Reached::NOT) {
            return Err(Refused::BadNode(node));
        }
    }
    Ok(doubtful)
}
