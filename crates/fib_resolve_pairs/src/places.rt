// Places in lists, found by what stands there.
ghost use Rattle.std.specs.Prelude.{◌≡◌, ◌<◌, IfOk, IfSome, Some, length, position, slice_get};
ghost use Rattle.std.specs.HashMap.{get};
ghost use Rattle.fib_resolve.specs.Pairs.{better};
ghost use Rattle.fib_resolve.specs.declared.pairs.Pair.{Pair as PairValue};
ghost use Rattle.fib_resolve_pairs.specs.inner.Places.{pair_at, AreBest};

use fib_addr::Prefix;
use fib_resolve::Pair;
use std::alloc::{AllocError, Global};
use std::collections::HashMap;
use std::hash::Hash;

/// The first place of each item.
pub fn first_places<T: Copy + Eq + Hash + Drop>(
    alloc: Global,
    items: &[T],
) -> Result<HashMap<T, usize>, AllocError>
    ensures { IfOk result (λ m. (x : T) → get T.eq m x ≡ position (T.eq x) items.now) }
{
    let mut places = HashMap::with_capacity(alloc, items.len())?;
    for i in (0..items.len()).rev() {
        places.insert(items[i], i)?;
    }
    Ok(places)
}

/// The place of the better of two pairs, the first where they are of one source.
fn better_place(pairs: &[Pair], first: usize, other: Option<usize>) -> usize
    requires first { first < length pairs.now }
    requires other { IfSome other (λ k. k < length pairs.now) }
    ensures inside { result < length pairs.now }
    ensures better { (x : PairValue) → slice_get pairs.now first ≡ Some x
        → slice_get pairs.now result ≡ Some (better x (pair_at pairs.now other)) }
{
    match other {
        Some(place) if pairs[place].source.rank() < pairs[first].source.rank() => place,
        _ => first,
    }
}

/// For each prefix, the place of its pair of the best source.
pub fn best_places(alloc: Global, pairs: &[Pair]) -> Result<HashMap<Prefix, usize>, AllocError>
    ensures { IfOk result (λ m. AreBest pairs.now m) }
{
    let mut places = HashMap::with_capacity(alloc, pairs.len())?;
    for i in (0..pairs.len()).rev() {
        let prefix = pairs[i].prefix;
        let found = places.get(&prefix).copied();
        places.insert(prefix, better_place(pairs, i, found))?;
    }
    Ok(places)
}
