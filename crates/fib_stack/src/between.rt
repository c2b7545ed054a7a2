// What others do between two calls of the stack, each a law that is the contract of a function that does nothing.
ghost use Rattle.std.specs.Prelude.{◌≡◌, ◌+◌, ◌≤◌, ℕ};
ghost use Rattle.fib_addr.specs.Prefixes.{Prefix};
ghost use Rattle.fib_resolve.specs.Sizes.{size};
ghost use Rattle.fib_resolve.specs.declared.types.Tables.{Tables};
ghost use Rattle.fib_base_ordered.specs.Sets.{Order};
ghost use Rattle.fib_ply.specs.Tables.{Table};
ghost use Rattle.fib_stack_queue.specs.declared.order.Queued.{Queued};
ghost use Rattle.fib_plane_view.specs.Promise.{IsBegun, Promise};
ghost use Rattle.fib_plane_view.specs.View.{HasRoom, IsPlane, IsScanned, View};
ghost use Rattle.fib_stack.specs.Joined.{Joined, Parts, state_in};
ghost use Rattle.fib_stack.specs.Room.{HasRoomLeft, Took};
ghost use Rattle.fib_stack.specs.States.{State};
ghost use Rattle.fib_stack.specs.Moments.{parts_of};
ghost use Rattle.fib_stack.specs.declared.stack.Stack.{Stack};

/// A scan keeps what stands between the plane, the prefix table, the stack and the queue.
pub fn a_scan_keeps_what_stands()
    ensures { (S : Tables) (rank : Prefix → ℕ) (p : Promise) (u v : View) (t : Table) (s : Stack) (q : Order Queued) (left : ℕ) → IsPlane v
        → Joined S rank p u (parts_of t s q) → IsScanned u v left → Joined S rank p v (parts_of t s q) }
{}

/// So does room.
pub fn so_does_room()
    ensures { (S : Tables) (rank : Prefix → ℕ) (p : Promise) (u v : View) (t : Table) (s : Stack) (q : Order Queued) → IsPlane v
        → Joined S rank p u (parts_of t s q) → HasRoom u v → Joined S rank p v (parts_of t s q) }
{}

/// As the tables change there is room for all turns until they change again, where as many objects are free as the size of the new tables says.
pub fn where_the_size_fits_there_is_room()
    ensures { (S : Tables) (rank : Prefix → ℕ) (p : Promise) (v : View) (s : Parts) → Joined S rank p v s → IsBegun p
        → size S ≤ v.free → HasRoomLeft S v.free (state_in v s) }
{}

/// What takes no object, and changes neither the prefix table nor what is known of prefixes, leaves that room.
pub fn what_takes_no_object_leaves_room()
    ensures { (S : Tables) (u v : View) (s t : Parts) → t.rows ≡ s.rows → t.known ≡ s.known → u.free ≤ v.free
        → HasRoomLeft S u.free (state_in u s) → HasRoomLeft S v.free (state_in v t) }
{}

/// Such a step takes nothing.
pub fn such_a_step_takes_nothing()
    ensures { (S : Tables) (u v : View) (s t : Parts) → t.rows ≡ s.rows → t.known ≡ s.known → u.free ≤ v.free
        → Took S (state_in u s) (state_in v t) u.free v.free }
{}

/// What steps take adds up.
pub fn what_steps_take_adds_up()
    ensures { (S : Tables) (s t r : State) (f g h : ℕ) → Took S s t f g → Took S t r g h → Took S s r f h }
{}

/// Once the tables have changed, steps take and keep twenty objects less than the size says: five entries are in the prefix table always, and
/// fifteen plies on the way to them.
pub fn steps_take_twenty_less_than_the_size()
    ensures { (S : Tables) (rank : Prefix → ℕ) (p : Promise) (u v : View) (s t : Parts) → Joined S rank p u s → IsBegun p
        → Took S (state_in u s) (state_in v t) u.free v.free → u.free + 20 ≤ v.free + size S }
{}
