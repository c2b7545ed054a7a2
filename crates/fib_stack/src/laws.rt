// Laws of restacking, each the contract of a function that does nothing.
ghost use Rattle.std.specs.Prelude.{◌≡◌, ℕ, ◌<◌, ◌≤◌, ◌∷◌, [], Bool, true, false, List, Contains};
ghost use Rattle.fib_addr.specs.Prefixes.{Prefix};
ghost use Rattle.fib_resolve.specs.Forwarding.{forwards};
ghost use Rattle.fib_resolve.specs.Tables.{IsSound};
ghost use Rattle.fib_resolve.specs.declared.types.Tables.{Tables};
ghost use Rattle.fib_resolve_changes.specs.Ranks.{IsRanked, has_entry, wakes};
ghost use Rattle.fib_stack.specs.States.{IsQuiet, Kept, State};
ghost use Rattle.fib_stack.specs.Steps.{Applied, IsLeast, Removed, Restacked, Retried, StandsFor};
ghost use Rattle.fib_stack.specs.Steadiness.{IsSteady};
ghost use Rattle.fib_stack.specs.Orders.{InOrder, did_also};

/// A turn of an entry of the least rank keeps what stands of the prefixes.
pub fn a_turn_keeps_the_state()
    ensures { (S : Tables) (rank : Prefix → ℕ) (e : Prefix) (o : ℕ) (s t : State) → IsRanked S rank → Kept S s
        → IsLeast rank s e → has_entry S e ≡ true → Restacked S e o s t → Kept S t }
{}

/// So does a turn of a prefix that left the entries.
pub fn so_does_one_of_a_prefix_that_left()
    ensures { (S : Tables) (rank : Prefix → ℕ) (e : Prefix) (s t : State) → IsRanked S rank → Kept S s
        → s.queued e ≡ true → has_entry S e ≡ false → Removed e s t → Kept S t }
{}

/// So does a change of the tables, where what it touches is queued.
pub fn so_does_a_change()
    ensures { (S T : Tables) (s t : State) → IsSound T → Kept S s → Applied S T s t → Kept T t }
{}

/// And so does a retry.
pub fn and_so_does_a_retry()
    ensures { (S : Tables) (s t : State) → Kept S s → Retried s t → Kept S t }
{}

/// An entry below all that is queued forwarded at its last turn exactly where it forwards by the tables.
pub fn what_is_below_the_queue_forwards_as_the_tables_say()
    ensures { (S : Tables) (rank : Prefix → ℕ) (s : State) (r : ℕ) (e : Prefix) → IsRanked S rank → Kept S s
        → ((d : Prefix) → s.queued d ≡ true → r ≤ rank d) → rank e < r → s.was e ≡ forwards S e }
{}

/// Where nothing is queued or deferred, the buckets are those of the tables.
pub fn a_quiet_state_stands_for_the_tables()
    ensures { (S : Tables) (rank : Prefix → ℕ) (s : State) → IsRanked S rank → Kept S s → IsQuiet s → StandsFor S s }
{}

/// No prefix has two turns between two changes, and what has its turn is behind all that had one.
pub fn a_turn_keeps_the_order()
    ensures { (S : Tables) (rank : Prefix → ℕ) (e : Prefix) (o : ℕ) (s t : State) (did : Prefix → Bool) → IsRanked S rank
        → InOrder rank s did → IsLeast rank s e → Restacked S e o s t → InOrder rank t (did_also e did) }
{}

/// Nor does a prefix that left.
pub fn so_does_a_turn_of_a_prefix_that_left()
    ensures { (rank : Prefix → ℕ) (e : Prefix) (s t : State) (did : Prefix → Bool)
        → InOrder rank s did → IsLeast rank s e → Removed e s t → InOrder rank t (did_also e did) }
{}

/// Where all entries that had no turn since the last change are queued, a turn queues nothing new.
pub fn turns_wake_what_waits()
    ensures { (S : Tables) (rank : Prefix → ℕ) (s : State) (did : Prefix → Bool) (e : Prefix) → IsRanked S rank
        → InOrder rank s did → IsLeast rank s e
        → ((d : Prefix) → has_entry S d ≡ true → s.queued d ≡ false → did d ≡ true)
        → (d : Prefix) → wakes S d e ≡ true → s.queued d ≡ true }
{}

/// A turn of an entry keeps steady buckets, where its tables are one of the versions.
pub fn a_turn_keeps_steady_buckets()
    ensures { (J : List Tables) (S : Tables) (e : Prefix) (o : ℕ) (s t : State) → Contains J S → IsSteady J s
        → Restacked S e o s t → IsSteady J t }
{}

/// So does a turn of a prefix that left the entries.
pub fn one_of_a_prefix_that_left_keeps_them()
    ensures { (J : List Tables) (S : Tables) (rank : Prefix → ℕ) (e : Prefix) (s t : State) → Contains J S → IsRanked S rank
        → has_entry S e ≡ false → IsSteady J s → Removed e s t → IsSteady J t }
{}

/// So does a change: one version more asks less.
pub fn a_change_keeps_them()
    ensures { (J K : List Tables) (S T : Tables) (s t : State) → ((V : Tables) → Contains J V → Contains K V)
        → IsSteady J s → Applied S T s t → IsSteady K t }
{}

/// So does a retry.
pub fn a_retry_keeps_them()
    ensures { (J : List Tables) (s t : State) → IsSteady J s → Retried s t → IsSteady J t }
{}

/// A state that stands for the tables is steady for them alone.
pub fn settling_begins_anew()
    ensures { (S : Tables) (rank : Prefix → ℕ) (s : State) → IsRanked S rank → IsQuiet s → StandsFor S s
        → IsSteady (S ∷ []) s }
{}
