// All that tables mean, made once.
ghost use Rattle.std.specs.Prelude.{◌≡◌, ◌^◌, ◌-◌, IfOk, min};
ghost use Rattle.fib_resolve.specs.Pairs.{pairs, entries, chosen, cover, best};
ghost use Rattle.fib_resolve.specs.Loops.{looped_at};
ghost use Rattle.fib_resolve.specs.Forwarding.{usable_at};
ghost use Rattle.fib_resolve.specs.Buckets.{wanted};
ghost use Rattle.fib_resolve.specs.Resolution.{resolve, ends};
ghost use Rattle.fib_resolve.specs.Touched.{touched};
ghost use Rattle.fib_resolve.specs.Sizes.{size};
ghost use Rattle.fib_resolve.specs.Tables.{IsSound};

use crate::facts::PathFacts;
use crate::{facts, possible, rounds, touching, view, ways};
use fib_addr::{Addr, Prefix};
use fib_base_list::List;
use fib_resolve::{End, Pair, Path, Tables};
use fib_resolve_pairs::{Known, Meaning};
use std::alloc::{AllocError, Global};
use std::marker::Model;

/// All that tables mean, made once, so that many answers share it. Contracts see the tables.
///
/// Making it takes a look-up or two for each pair, path and edge, and as many rounds over all paths as the longest chain of recursion
/// has entries.
pub struct Snapshot<'a> {
    meaning: Meaning<'a>,
    pub(crate) rows: Vec<List<PathFacts>>,
    pub(crate) marks: Vec<bool>,
}

// The prover follows what a drop does here, once, and not at every way out past an owner.
impl Drop for Snapshot<'_> {
    fn drop(self) {
        let Snapshot {
            meaning: _,
            rows: _,
            marks: _,
        } = self;
    }
}

impl<'a> Model for Snapshot<'a> {
    ghost use Rattle.fib_resolve.specs.declared.types.Tables.{Tables as TablesValue};

    ghost Value = { TablesValue };

    ghost use Rattle.test_plain.specs.inner.Snapshots.{IsSnapshot};

    ghost view = { λ s. s.meaning };

    ghost invariant = { λ s. IsSnapshot s.meaning s.rows.items s.marks.items };
}

impl<'a> Snapshot<'a> {
    /// What these tables mean. Tables with 2^32 entries or more want more memory than there is.
    pub fn new(alloc: Global, tables: &'a Tables) -> Result<Snapshot<'a>, AllocError>
        requires { IsSound tables.now }
        ensures { IfOk result (λ s. s ≡ tables.now) }
    {
        let meaning = Meaning::of(alloc, tables)?;
        let rows = facts::rows(alloc, &meaning)?;
        let marks = rounds::marks(alloc, tables, rows.as_slice())?;
        Ok(Snapshot {
            meaning,
            rows,
            marks,
        })
    }

    /// What the tables mean, but for which entries forward.
    pub fn meaning(&self) -> &Meaning<'a>
        ensures { result.now ≡ self.now }
    {
        &self.meaning
    }

    /// What is known of the entries.
    pub(crate) fn known(&self) -> &Known<'a>
        ensures { result.now ≡ self.now }
    {
        self.meaning.known()
    }

    /// The tables.
    pub fn tables(&self) -> &'a Tables
        ensures { result.now ≡ self.now }
    {
        self.known().tables()
    }

    /// The effective pairs, each once.
    pub fn pairs(&self) -> &[Pair]
        ensures { result.now ≡ pairs self.now }
    {
        self.known().pairs()
    }

    /// The effective entries, each once.
    pub fn entries(&self) -> &[Prefix]
        ensures { result.now ≡ entries self.now }
    {
        self.known().entries()
    }

    /// The chosen list of an entry, empty where the prefix is none.
    pub fn chosen(&self, e: Prefix) -> &[Path]
        ensures { result.now ≡ chosen self.now e }
    {
        self.known().chosen(e)
    }

    /// The cover of an address: the longest effective prefix below 32 that contains it.
    pub fn cover(&self, addr: Addr) -> Prefix
        ensures { result ≡ cover self.now addr }
    {
        self.known().cover(addr)
    }

    /// The longest effective prefix that contains the address.
    pub fn best(&self, addr: Addr) -> Prefix
        ensures { result ≡ best self.now addr }
    {
        self.meaning.best(addr)
    }

    /// Whether the path at that place of the entry's chosen list is there and looped.
    pub fn is_looped(&self, e: Prefix, place: usize) -> bool
        ensures { result ≡ looped_at self.now e place }
    {
        view::is_looped(self, e, place)
    }

    /// Whether the path at that place of the entry's chosen list is there and usable.
    pub fn is_usable(&self, e: Prefix, place: usize) -> bool
        ensures { result ≡ usable_at self.now e place }
    {
        view::is_usable(self, e, place)
    }

    /// The sixteen wanted paths of an entry, or none where it doesn't forward.
    pub fn wanted(&self, alloc: Global, e: Prefix) -> Result<Vec<Path>, AllocError>
        ensures { IfOk result (λ v. v.items ≡ wanted self.now e) }
    {
        view::wanted(alloc, self, e)
    }

    /// Where a packet for the address with that hash ends.
    pub fn resolve(&self, alloc: Global, addr: Addr, hash: u32) -> Result<End, AllocError>
        ensures { IfOk result (λ end. end ≡ resolve self.now addr hash) }
    {
        ways::resolve(alloc, self, addr, hash)
    }

    /// The possible ends: Drop, and those of all usable paths that go on nowhere, with repeats.
    pub fn ends(&self, alloc: Global) -> Result<Vec<End>, AllocError>
        ensures { IfOk result (λ v. v.items ≡ ends self.now) }
    {
        possible::ends(alloc, self)
    }

    /// The prefixes that the change from these tables to others touches, each once.
    pub fn touched(&self, alloc: Global, after: &Snapshot<'_>) -> Result<Vec<Prefix>, AllocError>
        ensures { IfOk result (λ v. v.items ≡ touched self.now after.now) }
    {
        touching::touched(alloc, self, after)
    }

    /// The size of the tables, or 4,294,967,295 where it is greater.
    pub fn size(&self, alloc: Global) -> Result<u32, AllocError>
        ensures { IfOk result (λ n. n ≡ min (size self.now) (2 ^ 32 - 1)) }
    {
        self.known().size(alloc)
    }
}
