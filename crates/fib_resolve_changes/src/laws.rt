//! Laws on what changes touch, each the contract of a function that does nothing.

ghost use Rattle.std.specs.Prelude.{◌≡◌, ◌⊎◌, ◌↔◌, ◌≤◌, ◌<◌, ◌+◌, ◌^◌, ℕ, List, [], ◌∷◌, Bool, true, false, Contains, length, filter};
ghost use Rattle.std.specs.List.{IsDistinct};
ghost use Rattle.std.specs.Set.{is_member};
ghost use Rattle.fib_reach.specs.Walks.{Reaches, Leads, Next};
ghost use Rattle.fib_addr.specs.Prefixes.{Prefix, IsPrefix, host, same_prefix};
ghost use Rattle.fib_resolve.specs.declared.types.Tables.{Tables};
ghost use Rattle.fib_resolve.specs.declared.types.Edit.{Edit};
ghost use Rattle.fib_resolve.specs.declared.types.Edit.TheVariants as edits;
ghost use Rattle.fib_resolve.specs.Loops.{looped, targets, Kept};
ghost use Rattle.fib_resolve.specs.Pairs.{entries, cover};
ghost use Rattle.fib_resolve.specs.Sizes.{size};
ghost use Rattle.fib_resolve.specs.declared.pairs.Adjacency.{Adjacency};
ghost use Rattle.fib_resolve.specs.Tables.{IsSound};
ghost use Rattle.fib_resolve.specs.Edits.{edited};
ghost use Rattle.fib_resolve.specs.Touched.{is_touched, differ};
ghost use Rattle.fib_resolve_changes.specs.Sources.{ArePrefixes, HoldsPrefixes, SameSources, SamePairs, SameEntry, BaseCaught, HopsCaught, NeighborsCaught};
ghost use Rattle.fib_resolve_changes.specs.Causes.{IsCaught, IsThrough, Cause, Within};
ghost use Rattle.fib_resolve_changes.specs.Affected.{affected_by};
ghost use Rattle.fib_resolve_changes.specs.Differ.{Differ, change_of};
ghost use Rattle.fib_resolve_changes.specs.Ranks.{Falls, has_entry, IsRanked};
ghost use Rattle.fib_resolve_changes.specs.Wanted.{aim_by};
ghost use Rattle.fib_resolve_changes.specs.declared.change.Change.{Change};
ghost use Rattle.fib_resolve_changes.specs.Named.{own_in, hop_in, near_in};
ghost use Rattle.fib_resolve_changes.specs.Looked.{IsHosted, IsPassed, AreLooked, AreAddresses};
ghost use Rattle.fib_resolve_changes.specs.Reached.{IsReached, HoldsTouched};
ghost use Rattle.fib_resolve_changes.specs.Moves.{AreMoves, there_of};
ghost use Rattle.fib_resolve.specs.Aims.{aim, marked_list};
ghost use Rattle.fib_resolve.specs.Forwarding.{forwards};

/// The entries of tables whose values are of the Rust types are prefixes: no bit past the length is set.
pub fn entries_are_prefixes()
    ensures { (S : Tables) → HoldsPrefixes S → (e : Prefix) → Contains (entries S) e → IsPrefix e }
{}

/// Tables and what an edit makes of them agree but at the one place that the edit changes.
pub fn edits_differ_there()
    ensures { (S : Tables) (e : Edit) → IsSound S → Differ (change_of S e ∷ []) S (edited S e) }
{}

/// A prefix has the same pairs where its sources are the same: its own base pairs, and for a host how its cover attaches it, on which
/// interfaces it is a neighbor, and whether it is a next hop.
pub fn sources_decide()
    ensures { (S T : Tables) (e : Prefix) → SameSources S T e → SamePairs S T e }
{}

/// An edit makes other entries of the affected prefixes alone.
pub fn edits_affect()
    ensures { (S : Tables) (e : Edit) → IsSound S → IsSound (edited S e) → ArePrefixes (edited S e) →
        IsCaught S (edited S e) (affected_by S e) }
{}

/// A touched prefix has a cause, where the test `changed` holds of each prefix whose entry is another.
pub fn touched_for_a_cause()
    ensures { (S T : Tables) (changed : Prefix → Bool) (e : Prefix) → IsSound S → IsSound T →
        IsCaught S T changed → is_touched S T e ≡ true → Cause S T changed e }
{}

/// Each prefix that an edit touches has a cause in the prefixes that it affects.
pub fn edits_touch_for_a_cause()
    ensures { (S : Tables) (e : Edit) (q : Prefix) → IsSound S → IsSound (edited S e) →
        ArePrefixes (edited S e) → is_touched S (edited S e) q ≡ true → Cause S (edited S e) (affected_by S e) q }
{}

/// A new interface touches nothing.
pub fn interfaces_touch_nothing()
    ensures { (S : Tables) (name : List ℕ) (q : Prefix) → IsSound S →
        IsSound (edited S (edits.CreateInterface name)) → is_touched S (edited S (edits.CreateInterface name)) q ≡ true → ⊥ }
{}

/// The mark of a recursive path changes only where a changed entry lies on the cycle, before or after.
pub fn marks_change_on_cycles()
    ensures { (S T : Tables) (changed : Prefix → Bool) → IsSound S → IsSound T → IsCaught S T changed →
        (e : Prefix) (a : ℕ) → differ (looped S e a) (looped T e a) ≡ true → IsThrough S changed e a ⊎ IsThrough T changed e a }
{}

/// An entry to which none has an edge lies on no cycle.
pub fn who_has_no_dependant_is_on_no_cycle()
    ensures { (S : Tables) (x : Prefix) → ((d : Prefix) → Contains (targets S d) x → ⊥) →
        Reaches (Next (targets S)) x x → ⊥ }
{}

/// A part of the entries that is closed under edges decides which of its edges lie on cycles.
pub fn closed_parts_decide()
    ensures { (S : Tables) (part : Prefix → Bool) → ((x y : Prefix) → part x ≡ true →
        Contains (targets S x) y → part y ≡ true) → (x y : Prefix) → part x ≡ true → Leads (Next (targets S)) x y
        ↔ Leads (Within part (Next (targets S))) x y }
{}

/// Each edge leads to an entry.
pub fn edges_lead_to_entries()
    ensures { (S : Tables) (e t : Prefix) → Contains (targets S e) t → Contains (entries S) t }
{}

/// Any rank that falls along the edges that are left without looped paths has what a restack by rank rests on.
pub fn falling_ranks_are_ranked()
    ensures { (S : Tables) (rank : Prefix → ℕ) → Falls S rank → IsRanked S rank }
{}

/// What an entry wants of a bucket is told by its marked list and by which entries forward.
pub fn marks_decide_aims()
    ensures { (S : Tables) (e : Prefix) (bucket : ℕ) → aim S e bucket ≡ aim_by (forwards S) (marked_list S e) bucket }
{}

/// A prefix that a change doesn't touch keeps its marked list.
pub fn untouched_keeps_marks()
    ensures { (S T : Tables) (e : Prefix) → IsSound T → is_touched S T e ≡ false → marked_list S e ≡ marked_list T e }
{}

/// It stays an entry, or stays none.
pub fn untouched_stays()
    ensures there { (S T : Tables) (e : Prefix) → is_touched S T e ≡ false → has_entry S e ≡ true → has_entry T e ≡ true }
    ensures back { (S T : Tables) (e : Prefix) → is_touched S T e ≡ false → has_entry T e ≡ true → has_entry S e ≡ true }
{}

/// Ranks that are others in the part to which changed entries lead alone, and fall from its entries, fall along all edges that are left
/// without looped paths, where no entry of before is raised to which an edge leads from beside the part.
pub fn lowered_ranks_fall()
    ensures { (S T : Tables) (changed part : Prefix → Bool) (old new : Prefix → ℕ) → IsSound S → IsSound T →
        IsReached S T changed part → Falls S old → ((e : Prefix) → part e ≡ false → new e ≡ old e) →
        ((x e : Prefix) → part x ≡ false → Contains (targets T x) e → Contains (entries S) e → new e ≤ old e) →
        ((e t : Prefix) → part e ≡ true → Kept T e t → new t < new e) → Falls T new }
{}

/// Of two lists of prefixes without repeats that differ inside a third alone, that third tells how much longer one is.
pub fn lengths_move_inside()
    ensures { (us vs xs : List Prefix) → IsDistinct same_prefix us → IsDistinct same_prefix vs → IsDistinct same_prefix xs →
        ((q : Prefix) → is_member same_prefix xs q ≡ false → is_member same_prefix us q ≡ is_member same_prefix vs q) →
        length vs + length (filter (is_member same_prefix us) xs) ≡ length us + length (filter (is_member same_prefix vs) xs) }
{}

/// An address that a change passes by (`IsPassed`) keeps its pairs, and its cover where a pair of it depends on that.
pub fn unlooked_keeps_pairs()
    ensures { (S T : Tables) (a : ℕ) → a < 2 ^ 32 → ArePrefixes S → ArePrefixes T → IsPassed S T a →
        SamePairs S T (host a) × (IsHosted S a → cover S a ≡ cover T a) }
{}

/// Beside what a change can touch nothing is touched, and each entry is the same.
pub fn nothing_is_touched_beside()
    ensures { (S T : Tables) (changed part written : Prefix → Bool) → IsSound S → IsSound T → HoldsTouched S T changed part written →
        (e : Prefix) → written e ≡ false → (is_touched S T e ≡ false) × SameEntry S T e }
{}

/// What changes name are all prefixes whose base pairs, and all addresses whose next hops or neighbors, can be others.
pub fn changes_name_sources()
    ensures { (list : List Change) (S T : Tables) → Differ list S T →
        BaseCaught S T (own_in list) × HopsCaught S T (hop_in list S T) × NeighborsCaught S T (near_in list) }
{}

/// What is looked at, as the changes and the covers name it, has each entry that is another.
pub fn looks_catch_changes()
    ensures { (list : List Change) (S T : Tables) (looked changed : Prefix → Bool) → IsSound S → IsSound T → Differ list S T →
        ArePrefixes S → ArePrefixes T → AreAddresses S T → AreLooked list S T looked changed → IsCaught S T changed }
{}

/// How much larger tables are after a change is told by what comes, goes and changes: by how many of these are objects of each.
pub fn sizes_move_with_entries()
    ensures { (S T : Tables) (moved on_way changed : List Prefix) (ends : List Adjacency) → AreMoves S T moved on_way changed ends →
        size T + there_of S moved on_way ends ≡ size S + there_of T moved on_way ends }
{}
