// Laws of unions, passes and walks. Each is the contract of a call without a body.
ghost use Rattle.std.specs.Prelude.{ℕ, List, true, length, slice_index, ◌*◌, ◌<◌, ◌≡◌};
ghost use Rattle.fib_reach.specs.Walks.{AllDiffer, IsAcyclic};
ghost use Rattle.fib_union.specs.Marks.{fresh};
ghost use Rattle.fib_union.specs.Unions as edges;
ghost use Rattle.fib_core.specs.Words.{goes, target};
ghost use Rattle.fib_core.specs.Walk.{Arrives, root, walk};
ghost use Rattle.fib_core.specs.Union.{AreEdges, Edge, Union, Usable, edge_in, edges_of, must_retire, scanned, stored};
ghost use Rattle.fib_core.specs.Trails.{Load, Walked, visited};

/// A pass of worker n with the pass word p, each edge of which is current or a retired copy that it may still use,
/// visits no object twice: the union has no cycle.
pub fn passes_visit_no_object_twice()
    ensures { (u : Union) (n p : ℕ) (loads : List Load)
        → IsAcyclic (Edge u) → Walked (Usable u n p) loads → AllDiffer (visited loads) }
{}

/// Over cells without a cycle the walk is where its steps end, and not where a limit cuts it: it has no more edges than
/// there are objects.
pub fn walks_have_an_end()
    ensures { (u : Union) (objects a h : ℕ) → 0 < objects → length u.cells ≡ 16 * objects
        → ((k w : ℕ) → goes w ≡ true → slice_index u.cells k ≡ w → target w < objects)
        → IsAcyclic (Edge u) → Arrives u.cells a h root (walk u.cells a h) }
{}

/// A store of a word is a store of its edge, or of none, in the union of edges between objects.
pub fn stores_are_those_of_edges()
    ensures { (workers : ℕ) (u : Union) (k w : ℕ)
        → edges_of (stored (must_retire u k) (fresh workers) u k w) ≡ edges.stored workers (edges_of u) k (edge_in w) }
{}

/// A look at a pass word is a look in the union of edges between objects.
pub fn looks_are_those_at_edges()
    ensures { (u : Union) (n w : ℕ) → edges_of (scanned u n w) ≡ edges.scanned n w (edges_of u) }
{}

/// The union of words has a cycle exactly where that of edges between objects has one.
pub fn cycles_are_those_of_edges()
    ensures { (u : Union) → AreEdges u.retired
        → (IsAcyclic (Edge u) → IsAcyclic (edges.Edge (edges_of u))) × (IsAcyclic (edges.Edge (edges_of u)) → IsAcyclic (Edge u)) }
{}
