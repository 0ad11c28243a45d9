// Answers as one number.
ghost use Rattle.std.specs.Prelude.{ℕ, ◌≡◌, ◌≤◌, MatchResult};
ghost use Rattle.table.specs.Checks.{place_of};
ghost use Rattle.table.specs.Refusals.{check_of, result_check};
ghost use Rattle.rehearsal.specs.Packing.{packed, packed_tally};

use steps::Tally;
use table::Refused;

// 2^63, which marks a refusal.
const REFUSED: u64 = 0x8000_0000_0000_0000;

// A refusal and its place: the same whatever a call reports.
fn pack_refusal(refused: Refused) -> u64
    requires { place_of (check_of refused) ≤ 4096 }
    ensures { (report : ℕ) → result ≡ packed (check_of refused) report }
{
    REFUSED + 65536 * refused.place() as u64 + u64::from(refused.number())
}

// What a call answers: what is reported where it is done, or the refusal.
pub fn pack<T, F: FnOnce(T) -> u64>(answer: Result<T, Refused>, report: F) -> u64
    requires reports { F.IsAlwaysCallable report }
    requires near { place_of (result_check answer) ≤ 4096 }
    ensures { MatchResult answer (λ done. F.post report done result)
        (λ refused. (report : ℕ) → result ≡ packed (check_of refused) report) }
{
    answer.map_or_else(pack_refusal, report)
}

// What a step reports.
pub fn pack_tally(tally: Tally) -> u64
    ensures { result ≡ packed_tally tally }
{
    u64::from(tally.added) + 65536 * u64::from(tally.replaced)
}
