// The counts of a round that closes.
ghost use Rattle.std.specs.Prelude.{◌≡◌, ◌+◌, ◌-◌, ◌<◌, ◌≤◌, ◌^◌, ℕ, length};
ghost use Rattle.fib_worker_crew.specs.Results.{results_of};
ghost use Rattle.fib_rounds.specs.Summaries.{with_end, with_ends};
ghost use Rattle.fib_rounds.specs.Counts.{IsSmall};

use crate::summary::Summary;
use fib_core_results::Record;
use fib_resolve::End;

// One more packet of that end.
fn count_end(counts: &mut Summary, end: &End)
    requires { IsSmall (2 ^ 64 - 2) counts.old }
    ensures counts { counts.new ≡ with_end counts.old end.now }
{
    match end {
        End::Drop => counts.drops += 1,
        End::Receive => counts.receives += 1,
        End::Glean(_) => counts.gleans += 1,
        End::Hop { mac: None, .. } => counts.incompletes += 1,
        End::Hop { mac: Some(_), .. } => counts.adjs += 1,
    }
}

/// Counts the ends of these results, each of which stands with its packet's number.
pub fn count_ends(counts: &mut Summary, results: &[(u32, Record)])
    requires small { (n : ℕ) × IsSmall n counts.old × (n + length (results_of results.now) < 2 ^ 64 - 1) }
    ensures counts { counts.new ≡ with_ends counts.old (results_of results.now) }
    ensures small { (n : ℕ) → IsSmall n counts.old → IsSmall (n + length (results_of results.now)) counts.new }
{
    for kept in results {
        count_end(counts, &kept.1.end);
    }
}
