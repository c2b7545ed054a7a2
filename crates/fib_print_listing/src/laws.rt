//! Laws of the listings, each the contract of a call without a body.
ghost use Rattle.std.specs.Prelude.{◌≡◌, List, map};
ghost use Rattle.std.specs.Set.{unique_keys};
ghost use Rattle.fib_addr.specs.Prefixes.{Prefix};
ghost use Rattle.fib_resolve.specs.declared.pairs.Adjacency.{Adjacency};
ghost use Rattle.fib_resolve.specs.declared.types.Path.{Path};
ghost use Rattle.fib_resolve.specs.declared.types.Tables.{Tables};
ghost use Rattle.fib_resolve.specs.Pairs.{pairs, entries};
ghost use Rattle.fib_resolve.specs.Sizes.{adjacencies};
ghost use Rattle.fib_print_listing.specs.Order.{IsListed, in_order, prefix_before, adjacency_before, list_before};
ghost use Rattle.fib_print_listing.specs.PathLists.{same_list, list_of};

/// Each listing has its elements in order.
pub fn listings_are_in_order()
    ensures entries { (S : Tables) → IsListed prefix_before (entries S) (in_order prefix_before (entries S)) }
    ensures adjacencies { (S : Tables) → IsListed adjacency_before (adjacencies S) (in_order adjacency_before (adjacencies S)) }
    ensures lists { (S : Tables) → let all = unique_keys same_list (map list_of (pairs S)) in IsListed list_before all
        (in_order list_before all) }
{}

/// No other list is sorted as a listing is and has the same members.
pub fn listings_are_the_only_ones()
    ensures entries { (S : Tables) (es : List Prefix) → IsListed prefix_before (entries S) es → es ≡ in_order prefix_before (entries S) }
    ensures adjacencies { (S : Tables) (xs : List Adjacency) → IsListed adjacency_before (adjacencies S) xs
        → xs ≡ in_order adjacency_before (adjacencies S) }
    ensures lists { (S : Tables) (ls : List (List Path))
        → let all = unique_keys same_list (map list_of (pairs S)) in IsListed list_before all ls → ls ≡ in_order list_before all }
{}
