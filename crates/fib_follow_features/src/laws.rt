//! What is kept by features tells of all entries that have them, each law the contract of a function that does nothing.

ghost use Rattle.std.specs.Prelude.{◌≡◌, ◌≢◌, ◌⊎◌, ◌<◌, ◌≤◌, ◌^◌, true, ℕ, List, Contains, filter, map};
ghost use Rattle.std.specs.List.{AllZip};
ghost use Rattle.fib_addr.specs.Prefixes.{Prefix, contains, host};
ghost use Rattle.fib_cover.specs.Covers.{is_inside};
ghost use Rattle.fib_resolve.specs.Pairs.{chosen, cover, recursive_hops};
ghost use Rattle.fib_resolve.specs.Sizes.{adjacencies_of};
ghost use Rattle.fib_resolve.specs.declared.pairs.Adjacency.{Adjacency};
ghost use Rattle.fib_resolve.specs.declared.pairs.Pair.{Pair};
ghost use Rattle.fib_resolve.specs.declared.types.Need.TheVariants as needs;
ghost use Rattle.fib_resolve.specs.declared.types.Path.{Path};
ghost use Rattle.fib_resolve.specs.declared.types.PathKind.TheVariants as kinds;
ghost use Rattle.fib_resolve.specs.declared.types.Route.{Route};
ghost use Rattle.fib_resolve.specs.declared.types.Tables.{Tables};
ghost use Rattle.fib_resolve_changes.specs.Looked.{IsHosted};
ghost use Rattle.fib_entries_rows.specs.Known.{IsHeld, Known, PathKept, StandsFor, prefix_of};
ghost use Rattle.fib_entries_rows.specs.Rows.{Row};
ghost use Rattle.fib_follow_features.specs.FoundBy.{AreNoted, AreExact, HasStayed, IsWritten, cover_among, pair_features, row_features};
ghost use Rattle.fib_follow_features.specs.Holders.{Holders, IsFound, Forgets, NotesSome, holders};
ghost use Rattle.fib_follow_features.specs.declared.feature.Feature.{Feature};
ghost use Rattle.fib_follow_features.specs.declared.feature.Feature.TheVariants as features;

/// Each entry with a path over an interface in its chosen list is found by that interface.
pub fn over_is_found()
    ensures attached { (v : Known) (S : Tables) (sets : List Holders) → StandsFor v S
        → AreNoted v.lists (map prefix_of v.rows) v.rows sets →
        (e : Prefix) (p : Path) (i : ℕ) → Contains (chosen S e) p → p.kind ≡ kinds.Attached i → IsFound sets (features.Over i) e }
    ensures hop { (v : Known) (S : Tables) (sets : List Holders) → StandsFor v S
        → AreNoted v.lists (map prefix_of v.rows) v.rows sets →
        (e : Prefix) (p : Path) (a i : ℕ) → Contains (chosen S e) p → p.kind ≡ kinds.Hop a i → IsFound sets (features.Over i) e }
{}

/// Each entry with a Hop end in its chosen list is found by that.
pub fn end_is_found()
    ensures { (v : Known) (S : Tables) (sets : List Holders) → StandsFor v S
        → AreNoted v.lists (map prefix_of v.rows) v.rows sets →
        (e : Prefix) (x : Adjacency) → Contains (adjacencies_of S e) x → IsFound sets (features.End x) e }
{}

/// Each entry of which a path of the chosen list needs something of its next hop is found by that.
pub fn need_is_found()
    ensures { (v : Known) (S : Tables) (sets : List Holders) → StandsFor v S
        → AreNoted v.lists (map prefix_of v.rows) v.rows sets →
        (e : Prefix) (p : Path) (a : ℕ) → Contains (chosen S e) p → p.kind ≡ kinds.Recursive a → p.need ≢ needs.Any
        → IsFound sets (features.Needs a) e }
{}

/// Each host with a pair that its cover makes is found by its cover, and is among those inside each prefix that contains it.
pub fn host_is_found()
    ensures all { (v : Known) (S : Tables) (sets : List Holders) → StandsFor v S
        → AreNoted v.lists (map prefix_of v.rows) v.rows sets →
        (a : ℕ) → IsHosted S a → IsFound sets (features.Under (cover S a)) (host a) }
    ensures inside { (v : Known) (S : Tables) (sets : List Holders) → StandsFor v S
        → AreNoted v.lists (map prefix_of v.rows) v.rows sets →
        (a : ℕ) (q : Prefix) → IsHosted S a → q.len ≤ 32 → contains q a ≡ true
        → Contains (filter (is_inside q) (holders sets (features.Under (cover S a)))) (host a) }
{}

/// Each prefix of a route, chosen or hidden, is found by the route's next hops.
pub fn via_is_found()
    ensures { (v : Known) (S : Tables) (sets : List Holders) → StandsFor v S
        → AreNoted v.lists (map prefix_of v.rows) v.rows sets →
        (r : Route) (a : ℕ) → Contains S.routes r → Contains (recursive_hops r) a → IsFound sets (features.Via a) r.prefix }
{}

/// The cover that the rows tell of an address is that of the tables.
pub fn cover_is_told()
    ensures { (v : Known) (S : Tables) (a : ℕ) → StandsFor v S → a < 2 ^ 32 → cover_among (map prefix_of v.rows) (host a) ≡ cover S a }
{}

/// The row of an entry has the features that its pairs and its cover tell.
pub fn pairs_tell_features()
    ensures { (lists : List PathKept) (order : List Prefix) (r : Row) (cover : Prefix) (pairs : List Pair)
        → AllZip (IsHeld lists) r.pairs pairs → (r.prefix.len ≡ 32 → cover ≡ cover_among order r.prefix)
        → row_features lists order r ≡ pair_features r.prefix cover pairs }
{}

/// Rows are noted that are all of what is found; where more is noted; where no features go but those that the entry hasn't; and where each
/// row that was written is found by what it has, and each other has the features that it had.
pub fn noted_stays()
    ensures exact { (lists : List PathKept) (order : List Prefix) (rows : List Row) (sets : List Holders) → AreExact lists order rows sets
        → AreNoted lists order rows sets }
    ensures more { (lists : List PathKept) (order : List Prefix) (rows : List Row) (old new : List Holders) (e : Prefix) (fs : List Feature)
        → NotesSome old new e fs → AreNoted lists order rows old → AreNoted lists order rows new }
    ensures less { (lists : List PathKept) (order : List Prefix) (rows : List Row) (old new : List Holders) (e : Prefix)
        (olds news : List Feature) → Forgets old new e olds news
        → ((r : Row) (f : Feature) → Contains rows r → r.prefix ≡ e → Contains (row_features lists order r) f → Contains news f)
        → AreNoted lists order rows old → AreNoted lists order rows new }
    ensures written { (lists later : List PathKept) (order after : List Prefix) (rows new : List Row) (sets : List Holders)
        → ((r : Row) → Contains new r → IsWritten later after r sets ⊎ HasStayed lists later order after rows r)
        → AreNoted lists order rows sets → AreNoted later after new sets }
{}
