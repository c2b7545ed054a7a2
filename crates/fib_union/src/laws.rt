//! Laws of the union: what a store and a look keep. Each holds of any union that a `Union` can have.
ghost use Rattle.std.specs.Prelude.{◌≡◌, ◌≢◌, ℕ, ◌+◌, ◌<◌, ◌≤◌, ◌↔◌, ◌⊎◌, true, Some, length};
ghost use Rattle.fib_reach.specs.Walks.{Leads, IsAcyclic};
ghost use Rattle.fib_union.specs.Marks.{passed, mark_after, IsOver};
ghost use Rattle.fib_union.specs.Unions.{owner, Edge, HasEdge, HasIn, one, into, must_retire, stored, left_at_once, scanned, gone_to, times};

use crate::Union;

/// A store into a cell retires the edge that it replaces exactly where the cell's object is object 0 or an edge leads to it.
pub fn retires_where_entered(union: &Union, cell: u64)
    ensures { (must_retire union.now.union cell ≡ true) ↔ ((owner cell ≡ 0) ⊎ HasIn union.now.union (owner cell)) }
{}

/// An object's count of edges is above 0 exactly where an edge leads to it.
pub fn counts_tell(union: &Union, object: u64)
    ensures { (0 < into union.now.union object) ↔ HasIn union.now.union object }
{}

/// In a union without a cycle an edge beside a current one, from the same object to the same target, closes none.
pub fn another_edge_closes_no_cycle(union: &Union, from: u64, to: u64)
    ensures { IsAcyclic (Edge union.now.union) → HasEdge union.now.union from to → Leads (Edge union.now.union) to from → ⊥ }
{}

/// A store keeps the union acyclic where the new edge's target doesn't lead back to its object.
pub fn store_keeps_acyclic(union: &Union, cell: u64, to: Option<u32>)
    ensures { IsAcyclic (Edge union.now.union)
        → ((y : ℕ) → to ≡ Some y → Leads (Edge union.now.union) y (owner cell) → ⊥)
        → IsAcyclic (Edge (stored union.now.workers union.now.union cell to)) }
{}

/// A look keeps the union acyclic.
pub fn look_keeps_acyclic(union: &Union, worker: u64, word: u64)
    ensures { IsAcyclic (Edge union.now.union) → IsAcyclic (Edge (scanned worker word union.now.union)) }
{}

/// After a store an object counts one edge more where the new one leads to it, and one less where that which left at once did.
pub fn store_counts(union: &Union, cell: u64, to: Option<u32>, object: u64)
    requires { cell < length union.now.union.edges }
    ensures { into (stored union.now.workers union.now.union cell to) object + one object (left_at_once union.now.union cell)
        ≡ into union.now.union object + one object to }
{}

/// After a look an object counts as many edges less as leave that led to it.
pub fn look_counts(union: &Union, worker: u64, word: u64, object: u64)
    ensures { into (scanned worker word union.now.union) object + times object (gone_to worker word union.now.union)
        ≡ into union.now.union object }
{}

/// A retired edge is passed for a worker exactly where a look since its retirement found an even word, or another one than the first.
pub fn passed_when_over(words: &[u64])
    ensures { (mark_after words.now ≡ passed) ↔ IsOver words.now }
{}
