// One search of a graph's rows.
ghost use Rattle.std.specs.Prelude.{◌≡◌, ◌≢◌, ℕ, ◌<◌, ◌↔◌, length, IsTrue, Contains};
ghost use Rattle.std.specs.Bool.{OnTrue, OnFalse};
ghost use Rattle.fib_reach.specs.Walks.{Reaches};
ghost use Rattle.fib_reach.specs.Graphs.{Edge, IsClosed};
ghost use Rattle.fib_reach.specs.inner.Visits.{GrowsFrom};

use crate::visit::Search;
use fib_base_list::List;

/// Notes each of the targets, up to the one that is looked for. Tells whether that is among them.
fn note_all(targets: &[u32], search: &mut Search, to: u32) -> bool
    requires { (y : ℕ) → Contains targets.now y → y < search.old.nodes }
    ensures nodes { search.new.nodes ≡ search.old.nodes }
    ensures done { search.new.done ≡ search.old.done }
    ensures grown { GrowsFrom search.old.seen targets.now search.new.seen }
    ensures found { OnTrue result (Contains targets.now to) }
    ensures missed { OnFalse result ((y : ℕ) → Contains targets.now y → (y ≢ to) × Contains search.new.seen y) }
{
    for target in targets {
        if *target == to {
            return true;
        }
        search.note(*target);
    }
    false
}

/// Whether a walk of one or more edges leads there.
pub fn reaches(rows: &[List<u32>], search: &mut Search, from: u32, to: u32) -> bool
    requires closed { IsClosed rows.now }
    requires nodes { search.old.nodes ≡ length rows.now }
    requires from_in { from < length rows.now }
    ensures nodes { search.new.nodes ≡ search.old.nodes }
    ensures walk { IsTrue result ↔ Reaches (Edge rows.now) from to }
{
    search.begin(from);
    while let Some(node) = search.next() {
        let targets = rows[node as usize].as_slice();
        if note_all(targets, search, to) {
            return true;
        }
    }
    false
}
