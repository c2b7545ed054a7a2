// The entries by their numbers.
ghost use Rattle.std.specs.Prelude.{◌≡◌, ◌<◌, ◌^◌, IfOk, IfSome, length, option_copied};
ghost use Rattle.fib_resolve.specs.Pairs.{pairs, entries, chosen, best_pair, is_derived, cover};
ghost use Rattle.fib_resolve.specs.Loops.{kind_targets};
ghost use Rattle.fib_resolve.specs.Tables.{IsSound};
ghost use Rattle.fib_resolve_pairs.specs.Numbers.{number_in, goal_of};

use crate::covers::Covers;
use crate::ranked::Ranked;
use crate::repeats::distinct;
use crate::{effective, places};
use fib_addr::{Addr, Prefix};
use fib_resolve::{Pair, Path, PathKind, Tables};
use std::alloc::{AllocError, Global};
use std::collections::HashMap;
use std::marker::Model;

/// Tables with their covers, pairs and entries. Contracts see the tables.
pub struct Known<'a> {
    covers: Covers<'a>,
    pairs: Ranked,
    entries: Vec<Prefix>,
    numbers: HashMap<Prefix, usize>,
}

// The prover follows what a drop does here, once, and not at every way out past an owner.
impl Drop for Known<'_> {
    fn drop(self) {
        let Known {
            covers: _,
            pairs: _,
            entries: _,
            numbers: _,
        } = self;
    }
}

impl<'a> Model for Known<'a> {
    ghost use Rattle.fib_resolve.specs.declared.types.Tables.{Tables as TablesValue};
    ghost use Rattle.fib_resolve_pairs.specs.inner.Kept.{IsKnown};

    ghost Value = { TablesValue };

    ghost view = { λ s. s.covers };

    ghost invariant = { λ s. IsKnown s.covers s.pairs s.entries.items s.numbers };
}

/// The effective prefixes, each once.
#[tactic(auto, unfolding(fib_resolve::specs::Pairs::entries))]
fn entries_of(alloc: Global, tables: &Tables, all: &[Pair]) -> Result<Vec<Prefix>, AllocError>
    requires { all.now ≡ pairs tables.now }
    ensures { IfOk result (λ v. v.items ≡ entries tables.now) }
{
    let prefixes = effective::prefixes_of(alloc, all)?;
    distinct(alloc, prefixes.as_slice())
}

impl<'a> Known<'a> {
    /// What is known of these tables. Tables with 2^32 entries or more want more memory than there is.
    pub fn of(alloc: Global, tables: &'a Tables) -> Result<Known<'a>, AllocError>
        requires { IsSound tables.now }
        ensures { IfOk result (λ s. s ≡ tables.now) }
    {
        let covers = Covers::of(alloc, tables)?;
        let pairs = effective::pairs(alloc, &covers)?;
        let pairs = Ranked::of(alloc, pairs)?;
        let entries = entries_of(alloc, tables, pairs.pairs())?;
        if entries.len() > u32::MAX as usize {
            return Err(AllocError);
        }
        let numbers = places::first_places(alloc, entries.as_slice())?;
        Ok(Known {
            covers,
            pairs,
            entries,
            numbers,
        })
    }

    /// The tables.
    pub fn tables(&self) -> &'a Tables
        ensures tables { result.now ≡ self.now }
        ensures sound { IsSound self.now }
    {
        self.covers.tables()
    }

    /// The effective pairs, each once.
    pub fn pairs(&self) -> &[Pair]
        ensures { result.now ≡ pairs self.now }
    {
        self.pairs.pairs()
    }

    /// The effective entries, each once.
    pub fn entries(&self) -> &[Prefix]
        ensures entries { result.now ≡ entries self.now }
        ensures few { length result.now < 2 ^ 32 }
    {
        self.entries.as_slice()
    }

    /// The number of an entry.
    pub fn number(&self, prefix: Prefix) -> Option<usize>
        ensures value { result ≡ number_in self.now prefix }
        ensures below { IfSome result (λ k. k < length (entries self.now)) }
    {
        self.numbers.get(&prefix).copied()
    }

    /// The pair of the best source.
    pub fn best_pair(&self, prefix: Prefix) -> Option<&Pair>
        ensures { option_copied result ≡ best_pair prefix (pairs self.now) }
    {
        self.pairs.best(prefix)
    }

    /// The chosen list, empty where the prefix is no entry.
    #[tactic(auto, unfolding(fib_resolve::specs::Pairs::chosen))]
    pub fn chosen(&self, e: Prefix) -> &[Path]
        ensures { result.now ≡ chosen self.now e }
    {
        self.pairs.best_paths(e)
    }

    /// Whether the best source is recursive resolution.
    #[tactic(auto, unfolding(fib_resolve::specs::Pairs::is_derived))]
    pub fn is_derived(&self, e: Prefix) -> bool
        ensures { result ≡ is_derived self.now e }
    {
        match self.best_pair(e) {
            Some(x) => x.source.is_derived(),
            None => false,
        }
    }

    /// The longest prefix below 32 that contains the address.
    pub fn cover(&self, addr: Addr) -> Prefix
        ensures { result ≡ cover self.now addr }
    {
        self.covers.cover(addr)
    }

    /// The entry to which a path leads.
    pub fn goal(&self, e: Prefix, kind: PathKind) -> Option<Prefix>
        ensures { result ≡ goal_of self.now e kind }
    {
        match kind {
            PathKind::Recursive(a) => Some(Prefix::host(a)),
            PathKind::Cover => Some(self.cover(e.bits())),
            _ => None,
        }
    }
}
