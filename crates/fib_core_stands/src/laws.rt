// Laws of cells that stand for tables. Each is the contract of a call without a body.
ghost use Rattle.std.specs.Prelude.{ℕ, List, [], Contains, Some, true, length, slice_get, slice_index, ◌*◌, ◌<◌, ◌≡◌};
ghost use Rattle.fib_addr.specs.Prefixes.{IsPrefix, Prefix};
ghost use Rattle.fib_reach.specs.Walks.{IsAcyclic};
ghost use Rattle.fib_resolve.specs.Pairs.{entries};
ghost use Rattle.fib_resolve.specs.Resolution.{resolve};
ghost use Rattle.fib_resolve.specs.Tables.{IsSound};
ghost use Rattle.fib_resolve.specs.declared.types.Tables.{Tables};
ghost use Rattle.fib_core.specs.Words.{decoded, goes, target};
ghost use Rattle.fib_core.specs.Walk.{EndsIn, IsFlow, walk};
ghost use Rattle.fib_core.specs.Union.{Edge, Union};
ghost use Rattle.fib_core.specs.Trails.{IsEndOf};
ghost use Rattle.fib_core.specs.StandsFor.{StandsFor, Thing};

/// Where cells stand for well-formed tables, the walk over them is resolution, for every address and hash. Nothing else is
/// asked of the cells, but that there are sixteen an object: they have no cycle, and lead to objects alone.
pub fn walks_are_resolution()
    ensures { (u : Union) (objects : ℕ) (names : Thing → ℕ) (tables : Tables)
        → StandsFor u.cells names tables → IsSound tables
        → ((e : Prefix) → Contains (entries tables) e → IsPrefix e)
        → length u.cells ≡ 16 * objects
        → (a h : ℕ) → IsFlow a h → walk u.cells a h ≡ resolve tables a h }
{}

/// Cells that stand for well-formed tables, with nothing retired, have no cycle, and each of their edges leads to an
/// object.
pub fn cells_that_stand_have_no_cycle()
    ensures { (u : Union) (objects : ℕ) (names : Thing → ℕ) (tables : Tables)
        → StandsFor u.cells names tables → IsSound tables → length u.cells ≡ 16 * objects → u.retired ≡ []
        → IsAcyclic (Edge u) × ((k w : ℕ) → goes w ≡ true → slice_index u.cells k ≡ w → target w < objects) }
{}

/// And each end that a cell says, or leads to by its adjacency, is a possible end of those tables.
pub fn stored_ends_are_possible()
    ensures { (cells : List ℕ) (names : Thing → ℕ) (tables : Tables) (history : List Tables) (j objects : ℕ)
        → StandsFor cells names tables → slice_get history j ≡ Some tables → length cells ≡ 16 * objects
        → (k : ℕ) → EndsIn (IsEndOf history j j) cells (decoded (slice_index cells k)) }
{}
