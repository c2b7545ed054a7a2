//! Laws of the definitions, each the contract of a function that does nothing.

ghost use Rattle.std.specs.Prelude.{◌≡◌, ℕ, ◌+◌, ◌<◌, ◌≤◌, ◌^◌, ◌↔◌, ◌⊎◌, List, Option, None, IsTrue, true, false, Contains, filter, length};
ghost use Rattle.std.specs.List.{IsDistinct, list_any};
ghost use Rattle.fib_reach.specs.Walks.{IsAcyclic};
ghost use Rattle.fib_addr.specs.Prefixes.{Prefix, IsPrefix, same_prefix};
ghost use Rattle.fib_addr.specs.Longest.{IsLongest};
ghost use Rattle.fib_resolve.specs.declared.pairs.Pair.{Pair};
ghost use Rattle.fib_resolve.specs.declared.types.Path.{Path};
ghost use Rattle.fib_resolve.specs.declared.types.Tables.{Tables};
ghost use Rattle.fib_resolve.specs.declared.types.Edit.{Edit};
ghost use Rattle.fib_resolve.specs.Pairs.{pairs, entries, chosen, cover, best, is_short, attached_by, attached_of, same_pair};
ghost use Rattle.fib_resolve.specs.Loops.{Looped, looped, looped_kind, Kept, kind_targets};
ghost use Rattle.fib_resolve.specs.Forwarding.{forwards, forwards_in, limit, usable};
ghost use Rattle.fib_resolve.specs.Buckets.{wanted, IsShort};
ghost use Rattle.fib_resolve.specs.Resolution.{follow, resolve, ends};
ghost use Rattle.fib_resolve.specs.Sizes.{plies, adjacencies, same_adjacency, size};
ghost use Rattle.fib_resolve.specs.Tables.{IsSound, fresh};
ghost use Rattle.fib_resolve.specs.Edits.{edited};
ghost use Rattle.fib_resolve.specs.Refusals.{refused};
ghost use Rattle.fib_resolve.specs.Reachable.{IsWritten, IsReachable};
ghost use Rattle.fib_resolve.specs.Touched.{is_touched, touched};

use crate::types::End;

/// The tables begin well formed.
pub fn fresh_is_sound()
    ensures { IsSound fresh }
{}

/// An edit as commands write it that isn't refused, whatever the room, keeps tables well formed.
pub fn edits_keep_sound()
    ensures { (S : Tables) (room : ℕ) (e : Edit) → IsSound S → IsWritten e → refused S room e ≡ None → IsSound (edited S e) }
{}

/// The tables that unrefused edits give are well formed.
pub fn reachable_is_sound()
    ensures { (S : Tables) → IsReachable S → IsSound S }
{}

/// A prefix has one list from a source.
pub fn one_list_a_source()
    ensures { (S : Tables) → IsSound S → (x y : Pair) → Contains (pairs S) x → Contains (pairs S) y → x.prefix ≡ y.prefix
        → x.source ≡ y.source → x.paths ≡ y.paths }
{}

/// Sixteen buckets can be shared among every chosen list: it has at most 16 paths, each of a weight of at least 1.
pub fn chosen_lists_are_short()
    ensures { (S : Tables) → IsSound S → (e : Prefix) → IsShort (chosen S e) }
{}

/// The best entry is the longest effective prefix that contains the address.
pub fn best_is_longest()
    ensures { (S : Tables) (a : ℕ) → a < 2 ^ 32 → IsLongest a (entries S) (best S a) }
{}

/// The cover is the longest effective prefix of length below 32 that contains the address.
pub fn cover_is_longest()
    ensures { (S : Tables) (a : ℕ) → a < 2 ^ 32 → IsLongest a (filter is_short (entries S)) (cover S a) }
{}

/// Best entries and covers depend on the prefixes alone: tables with the same entries have the same.
pub fn prefixes_decide()
    ensures { (S T : Tables) (a : ℕ) → a < 2 ^ 32 → ((q : Prefix) → Contains (entries S) q → IsPrefix q)
        → ((q : Prefix) → Contains (entries S) q ↔ Contains (entries T) q) → (best S a ≡ best T a) × (cover S a ≡ cover T a) }
{}

/// An address is attached to an interface where its cover's chosen list is one Attached path over it.
pub fn attached_by_the_cover()
    ensures { (S : Tables) (a : ℕ) → IsSound S → attached_by S a ≡ attached_of (chosen S (cover S a)) }
{}

/// The test for looped paths says whether a walk of edges leads back.
pub fn looped_is_a_walk()
    ensures { (S : Tables) (e : Prefix) (a : ℕ) → IsTrue (looped S e a) ↔ Looped S e a }
{}

/// Without the looped paths no walk of edges returns to its start.
pub fn kept_edges_are_acyclic()
    ensures { (S : Tables) → IsSound S → IsAcyclic (Kept S) }
{}

/// More rounds than entries change nothing.
pub fn forwards_is_steady()
    ensures { (S : Tables) (n : ℕ) (e : Prefix) → limit S ≤ n → forwards_in S n e ≡ forwards S e }
{}

/// An entry forwards exactly where a path of its chosen list is usable.
pub fn forwarding_is_a_usable_path()
    ensures { (S : Tables) (e : Prefix) → forwards S e ≡ list_any (usable S e) (chosen S e) }
{}

/// A looped path is in no list of wanted paths.
pub fn looped_paths_are_not_wanted()
    ensures { (S : Tables) (e : Prefix) (p : Path) → Contains (wanted S e) p → looped_kind S e p.kind ≡ false }
{}

/// Where the longest match has no usable path the packet is dropped, and doesn't fall to a shorter prefix.
pub fn entry_without_usable_path_drops()
    ensures { (S : Tables) (a h : ℕ) → forwards S (best S a) ≡ false → resolve S a h ≡ End.Drop }
{}

/// The way of a packet never comes to its limit: any greater one gives the same.
pub fn follow_is_steady()
    ensures { (S : Tables) (n : ℕ) (e : Prefix) (h : ℕ) → IsSound S → limit S ≤ n → follow S n e h ≡ follow S (limit S) e h }
{}

/// Every answer is one of the possible ends.
pub fn answers_are_possible_ends()
    ensures { (S : Tables) (a h : ℕ) → Contains (ends S) (resolve S a h) }
{}

/// Nothing is listed twice: no pair, ply, entry or Hop end. The size is the length of the last three lists.
pub fn listings_are_distinct()
    ensures pairs { (S : Tables) → IsDistinct same_pair (pairs S) }
    ensures plies { (S : Tables) → IsDistinct same_prefix (plies S) }
    ensures entries { (S : Tables) → IsDistinct same_prefix (entries S) }
    ensures adjacencies { (S : Tables) → IsDistinct same_adjacency (adjacencies S) }
    ensures size { (S : Tables) → size S ≡ length (plies S) + length (entries S) + length (adjacencies S) }
{}

/// The tables take 20 objects as they begin: 15 plies and 5 entries.
pub fn fresh_size_is_twenty()
    ensures { size fresh ≡ 20 }
{}

/// The list of touched prefixes has exactly these, each of which is effective before or after.
pub fn touched_is_listed()
    ensures listed { (S T : Tables) (e : Prefix) → Contains (touched S T) e ↔ (is_touched S T e ≡ true) }
    ensures effective { (S T : Tables) (e : Prefix) → is_touched S T e ≡ true → Contains (entries S) e ⊎ Contains (entries T) e }
{}

/// A prefix that isn't touched has the same pairs before and after.
pub fn untouched_keeps_pairs()
    ensures { (S T : Tables) (e : Prefix) (x : Pair) → is_touched S T e ≡ false → e ≡ x.prefix → Contains (pairs S) x
        ↔ Contains (pairs T) x }
{}

/// If moreover each entry to which a path of its chosen list leads forwards in both or in neither, the same paths are wanted.
pub fn untouched_keeps_wanted()
    ensures { (S T : Tables) (e : Prefix) → IsSound T → is_touched S T e ≡ false
        → ((p : Path) (to : Prefix) → Contains (chosen S e) p → Contains (kind_targets S e p.kind) to
        → forwards S to ≡ forwards T to) → wanted S e ≡ wanted T e }
{}
