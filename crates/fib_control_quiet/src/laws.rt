// Laws of a control plane at rest, and of its versions, each the contract of a function that does nothing.
ghost use Rattle.std.specs.Prelude.{◌≡◌, ◌-◌, ◌<◌, ◌≤◌, ◌||◌, ℕ, List, Some, length, slice_get};
ghost use Rattle.fib_addr.specs.Prefixes.{Prefix};
ghost use Rattle.fib_resolve.specs.Resolution.{resolve};
ghost use Rattle.fib_resolve.specs.Sizes.{size};
ghost use Rattle.fib_resolve.specs.Tables.{IsSound, fresh};
ghost use Rattle.fib_resolve.specs.Touched.{is_touched};
ghost use Rattle.fib_resolve.specs.declared.types.Tables.{Tables};
ghost use Rattle.fib_core.specs.StandsFor.{Stands};
ghost use Rattle.fib_core.specs.Walk.{IsFlow, walk};
ghost use Rattle.fib_pool.specs.Objects.{free_in};
ghost use Rattle.fib_core_board.specs.Boards.{board_begun, board_settled};
ghost use Rattle.fib_plane.specs.Planes.{Plane};
ghost use Rattle.fib_plane.specs.Sound.{IsPlane};
ghost use Rattle.fib_stack_queue.specs.Queues.{rank_in};
ghost use Rattle.fib_stack_queue.specs.declared.order.Queued.{Queued};
ghost use Rattle.fib_plane_view.specs.Promise.{Promise};
ghost use Rattle.fib_plane_view.specs.View.{View};
ghost use Rattle.fib_plane.specs.Views.{promise_of, view_of};
ghost use Rattle.fib_stack.specs.Joined.{Joined, Parts, queued_in};
ghost use Rattle.fib_control_quiet.specs.Rest.{IsAccounted, IsAtRest, IsBeginning, IsDrained, IsSeen};

/// Once nothing is queued, deferred or retired, the plane's words stand for the tables: each ply, balance and adjacency that their size counts
/// has a number and its words, and every other object is free.
pub fn what_is_at_rest_stands_for_the_tables()
    ensures { (S : Tables) (rank : Prefix → ℕ) (p : Promise) (q : Plane) (s : Parts) → IsPlane q → IsSeen q
        → IsAtRest S rank p (view_of q) s → Stands q.board.union S }
{}

/// So the walk of every address and hash over the cells is resolution over the tables.
pub fn walks_at_rest_are_resolution()
    ensures { (S : Tables) (rank : Prefix → ℕ) (p : Promise) (q : Plane) (s : Parts) → IsPlane q → IsSeen q
        → IsAtRest S rank p (view_of q) s → (a h : ℕ) → IsFlow a h → walk q.board.union.cells a h ≡ resolve S a h }
{}

/// And as many objects are used as that size says.
pub fn as_many_are_used_as_the_size_says()
    ensures { (S : Tables) (rank : Prefix → ℕ) (p : Promise) (q : Plane) (s : Parts) → IsPlane q → IsSeen q
        → IsAtRest S rank p (view_of q) s → length q.objects - free_in q.objects ≡ size S }
{}

/// Already once nothing is queued, whatever is deferred or retired, each object in use is one that the size counts, or an edge of the union leads to
/// it. What is counted is in use, under numbers that differ.
pub fn what_is_used_is_counted_or_led_to()
    ensures { (S : Tables) (rank : Prefix → ℕ) (p : Promise) (q : Plane) (s : Parts) → IsPlane q → IsSeen q
        → IsDrained S rank p (view_of q) s → IsAccounted S q }
{}

/// At rest the last version may be settled: what stands between the plane, the prefix table, the stack and the queue stands then too.
pub fn settling_keeps_what_stands()
    ensures { (S : Tables) (rank : Prefix → ℕ) (q : Plane) (s : Parts) → IsPlane q → IsSeen q
        → IsAtRest S rank (promise_of q.board) (view_of q) s
        → slice_get q.board.log.history q.board.log.version.applied ≡ Some S
        → Joined S rank (promise_of (board_settled q.board)) (view_of q) s }
{}

/// A version is begun with other tables, and what the change touches is queued, each prefix under its new rank: the same stands of the new
/// tables.
pub fn a_change_keeps_what_stands()
    ensures { (S T : Tables) (rank new : Prefix → ℕ) (q : Plane) (s : Parts) (queue : List Queued) → IsPlane q
        → Joined S rank (promise_of q.board) (view_of q) s → 0 < q.board.log.version.applied → IsSound T
        → ((e : Prefix) → queued_in (record s { queue = queue }) e ≡ queued_in s e || is_touched S T e)
        → ((e : Prefix) (k : ℕ) → rank_in queue e ≡ Some k → k ≡ new e)
        → Joined T new (promise_of (board_begun q.board T)) (view_of q) (record s { queue = queue }) }
{}

/// So does the first change, which is begun at rest.
pub fn so_does_the_first_change()
    ensures { (S T : Tables) (rank new : Prefix → ℕ) (q : Plane) (s : Parts) (queue : List Queued) → IsPlane q → IsSeen q
        → IsAtRest S rank (promise_of q.board) (view_of q) s
        → slice_get q.board.log.history q.board.log.version.applied ≡ Some S → q.board.log.version.applied ≡ 0 → IsSound T
        → ((e : Prefix) → queued_in (record s { queue = queue }) e ≡ queued_in s e || is_touched S T e)
        → ((e : Prefix) (k : ℕ) → rank_in queue e ≡ Some k → k ≡ new e)
        → Joined T new (promise_of (board_begun q.board T)) (view_of q) (record s { queue = queue }) }
{}

/// Workers that leave and come home change neither versions nor the plane: what stands stays.
pub fn so_do_workers()
    ensures { (S : Tables) (rank : Prefix → ℕ) (p q : Promise) (v : View) (s : Parts) → Joined S rank p v s
        → q.settled ≡ p.settled → q.applied ≡ p.applied → q.versions ≡ p.versions → Joined S rank q v s }
{}

/// A control begins so: with the entries that all tables have, at balances that drop, what stands between all stands of the fresh tables.
pub fn what_begins_stands()
    ensures { (rank : Prefix → ℕ) (p : Promise) (v : View) (s : Parts) → IsBeginning p v s → Joined fresh rank p v s }
{}
