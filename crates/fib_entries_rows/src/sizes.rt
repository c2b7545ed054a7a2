// The size of tables, by their entries in order: each makes the plies on its way that aren't on the way to the one before it.
ghost use Rattle.std.specs.Prelude.{◌≡◌, ◌<◌, ◌≤◌, ◌^◌, ◌-◌, ◌∷◌, IfOk, Contains, length, flat_map, min, ◌↔◌};
ghost use Rattle.std.specs.Set.{unique_keys};
ghost use Rattle.fib_addr.specs.Prefixes.{Prefix as PrefixValue, same_prefix};
ghost use Rattle.fib_addr.specs.Longest.{everything};
ghost use Rattle.fib_cover.specs.Covers.{IsAscending, ArePrefixes};
ghost use Rattle.fib_resolve.specs.Pairs.{entries};
ghost use Rattle.fib_resolve.specs.Sizes.{plies_of, plies, size};
ghost use Rattle.fib_entries_rows.specs.inner.Plies.{before_of};

use crate::plies::own_plies;
use fib_addr::Prefix;
use fib_resolve_pairs::Meaning;
use std::alloc::{AllocError, Global};

/// The prefix before that place, if there is one.
fn before(order: &[Prefix], place: usize) -> Option<Prefix>
    ensures { result ≡ before_of order.now place }
{
    match place.checked_sub(1) {
        Some(last) => order.get(last).copied(),
        None => None,
    }
}

/// How many plies the prefixes make, and that of all addresses.
fn plies_in(order: &[Prefix], count: u32) -> usize
    requires count { count ≡ length order.now }
    requires ascending { IsAscending order.now }
    requires prefixes { ArePrefixes order.now }
    ensures { result ≡ length (unique_keys same_prefix (everything ∷ flat_map plies_of order.now)) }
{
    let mut plies = 1usize;
    for place in 0..count {
        let at = place as usize;
        plies += own_plies(order[at], &before(order, at), &None) as usize;
    }
    plies
}

/// How many plies the tables make, where these are their entries.
fn plies_of(meaning: &Meaning<'_>, order: &[Prefix], count: u32) -> usize
    requires count { count ≡ length order.now }
    requires ascending { IsAscending order.now }
    requires prefixes { ArePrefixes order.now }
    requires same { (e : PrefixValue) → Contains order.now e ↔ Contains (entries meaning.now) e }
    ensures { result ≡ length (plies meaning.now) }
{
    // Only clauses name the meaning.
    let _meaning = meaning;
    plies_in(order, count)
}

/// The size of the tables with these entries, or 4,294,967,295 where it is greater.
#[tactic(auto, unfolding(fib_resolve::specs::Sizes::size))]
pub fn size_of(alloc: Global, meaning: &Meaning<'_>, order: &[Prefix]) -> Result<u32, AllocError>
    requires ascending { IsAscending order.now }
    requires prefixes { ArePrefixes order.now }
    requires same { (e : PrefixValue) → Contains order.now e ↔ Contains (entries meaning.now) e }
    ensures { IfOk result (λ n. n ≡ min (size meaning.now) (2 ^ 32 - 1)) }
{
    let Ok(count) = u32::try_from(order.len()) else {
        return Err(AllocError);
    };
    let plies = plies_of(meaning, order, count);
    let entries = meaning.entries().len();
    let ends = meaning.adjacencies(alloc)?.len();
    let total = plies.saturating_add(entries).saturating_add(ends);
    Ok(total.min(u32::MAX as usize) as u32)
}
