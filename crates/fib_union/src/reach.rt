// The search behind `would_cycle`.
ghost use Rattle.std.specs.Prelude.{◌≡◌, ◌≢◌, ℕ, ◌+◌, ◌*◌, ◌<◌, ◌≤◌, ◌↔◌, length, map, IsTrue, Some, Contains};
ghost use Rattle.std.specs.List.{All};
ghost use Rattle.std.specs.Bool.{OnTrue, OnFalse};
ghost use Rattle.fib_reach.specs.Walks.{Reaches};
ghost use Rattle.fib_union.specs.Unions.{owner, edge_at};
ghost use Rattle.fib_union.specs.inner.Fields.{plain, CellRuns, CopyRuns, Runs, IsGrown, IsLinked, IsWithin};

use crate::newest::Newest;
use crate::retired::RetiredEdge;
use fib_reach::Search;

/// Notes where an edge leads, if there is one and it isn't what is looked for.
fn note_edge(edge: Option<u32>, search: &mut Search, to: u32) -> bool
    requires { (y : ℕ) → edge ≡ Some y → y < search.old.nodes }
    ensures nodes { search.new.nodes ≡ search.old.nodes }
    ensures done { search.new.done ≡ search.old.done }
    ensures grown { IsGrown (λ y. edge ≡ Some y) search.old.seen search.new.seen }
    ensures found { OnTrue result (edge ≡ Some to) }
    ensures missed { OnFalse result ((y : ℕ) → edge ≡ Some y → (y ≢ to) × Contains search.new.seen y) }
{
    let Some(target) = edge else {
        return false;
    };
    if target == to {
        return true;
    }
    search.note(target);
    false
}

/// Notes the targets of a node's current edges, up to the one that is looked for.
fn note_cells(edges: &[Option<u32>], search: &mut Search, node: u32, to: u32) -> bool
    requires node { 16 * node + 16 ≤ length edges.now }
    requires targets { (k y : ℕ) → edge_at edges.now k ≡ Some y → y < search.old.nodes }
    ensures nodes { search.new.nodes ≡ search.old.nodes }
    ensures done { search.new.done ≡ search.old.done }
    ensures grown { IsGrown (CellRuns edges.now node) search.old.seen search.new.seen }
    ensures found { OnTrue result (CellRuns edges.now node to) }
    ensures missed { OnFalse result ((y : ℕ) → CellRuns edges.now node y → (y ≢ to) × Contains search.new.seen y) }
{
    for slot in 0..16 {
        if note_edge(edges[16 * node as usize + slot], search, to) {
            return true;
        }
    }
    false
}

/// Notes the targets of a node's retired edges, newest first, up to the one that is looked for.
fn note_copies(
    retired: &[RetiredEdge],
    newest: &Newest,
    search: &mut Search,
    node: u32,
    to: u32,
) -> bool
    requires linked { IsLinked (length newest.now) newest.now retired.now }
    requires node { node < length newest.now }
    requires targets { All (λ (c : ℕ × ℕ). c.1 < search.old.nodes) (map plain retired.now) }
    ensures nodes { search.new.nodes ≡ search.old.nodes }
    ensures done { search.new.done ≡ search.old.done }
    ensures grown { IsGrown (CopyRuns (map plain retired.now) node) search.old.seen search.new.seen }
    ensures found { OnTrue result (CopyRuns (map plain retired.now) node to) }
    ensures missed { OnFalse result ((y : ℕ) → CopyRuns (map plain retired.now) node y → (y ≢ to) × Contains search.new.seen y) }
{
    let mut at = newest.of(node as usize);
    while at > 0 {
        let old = retired[at as usize - 1];
        if old.to == to {
            return true;
        }
        search.note(old.to);
        at = at.saturating_sub(old.back);
    }
    false
}

/// Whether a walk of one or more edges leads there.
pub fn reaches(
    edges: &[Option<u32>],
    retired: &[RetiredEdge],
    newest: &Newest,
    search: &mut Search,
    from: u32,
    to: u32,
) -> bool
    requires linked { IsLinked (length newest.now) newest.now retired.now }
    requires within { IsWithin (length newest.now) edges.now (map plain retired.now) }
    requires nodes { search.old.nodes ≡ length newest.now }
    requires from_in { from < length newest.now }
    ensures nodes { search.new.nodes ≡ search.old.nodes }
    ensures walk { IsTrue result ↔ Reaches (Runs edges.now (map plain retired.now)) from to }
{
    search.begin(from);
    while let Some(node) = search.next() {
        if note_cells(edges, search, node, to) {
            return true;
        }
        if note_copies(retired, newest, search, node, to) {
            return true;
        }
    }
    false
}

/// Whether one of the node's current edges leads there.
pub fn holds(edges: &[Option<u32>], node: u32, to: u32) -> bool
    requires { 16 * node + 16 ≤ length edges.now }
    ensures { IsTrue result ↔ CellRuns edges.now node to }
{
    for slot in 0..16 {
        if edges[16 * node as usize + slot] == Some(to) {
            return true;
        }
    }
    false
}
