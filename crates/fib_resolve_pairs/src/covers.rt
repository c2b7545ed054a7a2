// The prefixes that can be covers, and what the covers attach.
ghost use Rattle.std.specs.Prelude.{◌≡◌, IfOk, filter, map};
ghost use Rattle.fib_resolve.specs.Pairs.{base_pairs, attached_by, attached_of, cover, is_short, prefix_of};
ghost use Rattle.fib_resolve.specs.Tables.{IsSound};

use crate::base;
use crate::ranked::Ranked;
use fib_addr::{Addr, Prefix};
use fib_cover::PrefixSet;
use fib_resolve::{Pair, Path, PathKind, Tables};
use std::alloc::{AllocError, Global};
use std::marker::Model;

/// Tables with the pairs that depend on no cover, and the prefixes that can be covers. Contracts see the tables.
pub struct Covers<'a> {
    tables: &'a Tables,
    base: Ranked,
    short: PrefixSet,
}

// The prover follows what a drop does here, once, and not at every way out past an owner.
impl Drop for Covers<'_> {
    fn drop(self) {
        let Covers {
            tables: _,
            base: _,
            short: _,
        } = self;
    }
}

impl<'a> Model for Covers<'a> {
    ghost use Rattle.fib_resolve.specs.declared.types.Tables.{Tables as TablesValue};
    ghost use Rattle.fib_resolve_pairs.specs.inner.Kept.{AreCovers};

    ghost Value = { TablesValue };

    ghost view = { λ s. s.tables.now };

    ghost invariant = { λ s. AreCovers s.tables.now s.base s.short };
}

/// Those of the pairs' prefixes that are shorter than 32.
fn short_ones(alloc: Global, pairs: &[Pair]) -> Result<Vec<Prefix>, AllocError>
    ensures { IfOk result (λ v. v.items ≡ filter is_short (map prefix_of pairs.now)) }
{
    pairs
        .iter()
        .map(|x| x.prefix)
        .filter(|p| p.len() < 32)
        .collect(alloc)
}

/// The interface, where the list is one Attached path.
pub fn attached_of(paths: &[Path]) -> Option<u32>
    ensures { result ≡ attached_of paths.now }
{
    match paths {
        [only] => only.kind.attached(),
        _ => None,
    }
}

impl<'a> Covers<'a> {
    /// The covers of the tables.
    #[tactic(auto, unfolding(fib_resolve::specs::Pairs::short_prefixes))]
    pub fn of(alloc: Global, tables: &'a Tables) -> Result<Covers<'a>, AllocError>
        requires { IsSound tables.now }
        ensures { IfOk result (λ s. s ≡ tables.now) }
    {
        let pairs = base::base_pairs(alloc, tables)?;
        let prefixes = short_ones(alloc, pairs.as_slice())?;
        let short = PrefixSet::of(alloc, prefixes.as_slice())?;
        let base = Ranked::of(alloc, pairs)?;
        Ok(Covers {
            tables,
            base,
            short,
        })
    }

    /// The tables.
    pub fn tables(&self) -> &'a Tables
        ensures tables { result.now ≡ self.now }
        ensures sound { IsSound self.now }
    {
        self.tables
    }

    /// The pairs that depend on no cover, with repeats.
    pub fn base_pairs(&self) -> &[Pair]
        ensures { result.now ≡ base_pairs self.now }
    {
        self.base.pairs()
    }

    /// The longest prefix below 32 that contains the address.
    #[tactic(auto, unfolding(fib_resolve::specs::Pairs::cover))]
    pub fn cover(&self, addr: Addr) -> Prefix
        ensures { result ≡ cover self.now addr }
    {
        // Read so that the proof knows the address's range, and that members are prefixes.
        let _number = addr.0;
        let _count = self.short.len();
        match self.short.cover(addr) {
            Some(prefix) => prefix,
            None => Prefix::masked(Addr(0), 0),
        }
    }

    /// The interface to which the address is attached by its cover.
    #[tactic(auto, unfolding(fib_resolve::specs::Pairs::attached_by))]
    pub fn attached_by(&self, addr: Addr) -> Option<u32>
        ensures { result ≡ attached_by self.now addr }
    {
        attached_of(self.base.best_paths(self.cover(addr)))
    }
}
