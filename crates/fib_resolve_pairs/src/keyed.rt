// Pairs without repeats.
ghost use Rattle.std.specs.Prelude.{◌≡◌, ◌++◌, ◌+◌, ◌<◌, IfOk, Some, length, slice_get};
ghost use Rattle.std.specs.Set.{unique_keys};
ghost use Rattle.fib_resolve.specs.Pairs.{same_pair};

use crate::paths;
use fib_base_list::Duplicate;
use fib_resolve::{Pair, keys};
use std::alloc::{AllocError, Global};
use std::collections::HashSet;
use std::hash::{Hash, Hasher};
use std::marker::Model;

/// Whether both have one prefix, source and list.
pub fn is_same_pair(x: &Pair, y: &Pair) -> bool
    ensures { result ≡ same_pair x.now y.now }
{
    x.prefix == y.prefix
        && keys::is_same_source(x.source, y.source)
        && paths::is_same_list(x.paths.as_slice(), y.paths.as_slice())
}

/// A pair as a key of a set.
#[derive(Drop)]
struct PairKey<'a>(&'a Pair);

impl<'a> Model for PairKey<'a> {
    ghost use Rattle.fib_resolve.specs.declared.pairs.Pair.{Pair as PairValue};

    ghost Value = { PairValue };

    ghost view = { λ s. s.0.now };
}

impl PartialEq for PairKey<'_> {
    ghost use Rattle.std.specs.Cmp.{partial_equiv_from_equiv};
    ghost use Rattle.fib_resolve.proofs.Touching.{same_pair_equiv};

    ghost eq = { same_pair };

    ghost laws = { partial_equiv_from_equiv same_pair_equiv };

    fn eq(&self, other: &PairKey<'_>) -> bool {
        is_same_pair(self.0, other.0)
    }
}

impl Eq for PairKey<'_> {
    ghost use Rattle.fib_resolve.proofs.Touching.{same_pair_equiv};

    ghost laws = { same_pair_equiv };
}

/// Pairs of one prefix and source differ in their first path, but for those of routes, of which there is one.
impl Hash for PairKey<'_> {
    ghost use Rattle.std.proofs.Common.{ap};
    ghost use Rattle.fib_resolve.proofs.Touching.{same_pair-Decides};
    ghost use Rattle.fib_resolve_pairs.specs.inner.Places.{pair_hash};

    ghost hash_input = { pair_hash };

    ghost respects_eq = { λ x y h. ap pair_hash ((same_pair-Decides x y).0 h) };

    fn hash<H: Hasher>(&self, state: &mut H) {
        state.write_u32(self.0.prefix.bits().0);
        state.write_u8(self.0.prefix.len());
        state.write_u8(self.0.source.rank());
        if let Some(path) = self.0.paths.as_slice().first() {
            let key = keys::key_of(path);
            state.write_u32(key.next_hop);
            state.write_u32(key.interface);
        }
    }
}

/// The pair at that place of the first list, or behind it of the other.
fn pair_at<'a>(pairs: &'a [Pair], more: &'a [Pair], place: usize) -> &'a Pair
    requires { place < length pairs.now + length more.now }
    ensures { slice_get (pairs.now ++ more.now) place ≡ Some result.now }
{
    match pairs.get(place) {
        Some(pair) => pair,
        None => &more[place - pairs.len()],
    }
}

/// The pairs of both lists, each once: of those that are equal the last stays. Costs one look-up a pair, and a copy of each that stays.
pub fn distinct_pairs(alloc: Global, pairs: &[Pair], more: &[Pair]) -> Result<Vec<Pair>, AllocError>
    ensures { IfOk result (λ v. v.items ≡ unique_keys same_pair (pairs.now ++ more.now)) }
{
    let Some(count) = pairs.len().checked_add(more.len()) else {
        return Err(AllocError);
    };
    let mut seen = HashSet::with_capacity(alloc, count)?;
    let mut out = Vec::new(alloc);
    for i in (0..count).rev() {
        let pair = pair_at(pairs, more, i);
        if seen.insert(PairKey(pair))? {
            out.push(pair.duplicate(alloc)?)?;
        }
    }
    out.reverse();
    Ok(out)
}
