// Entries that stand for tables.
ghost use Rattle.std.specs.Prelude.{◌-◌, ◌≡◌, ◌<◌, ◌↔◌, IfOk, IfSome, IsSome, Some, ℕ, [], length, map, option_copied, slice_get, Contains};
ghost use Rattle.fib_reach.specs.Walks.{AllDiffer};
ghost use Rattle.fib_addr.specs.Prefixes.{Prefix as PrefixValue};
ghost use Rattle.fib_resolve.specs.Aims.{marked_list};
ghost use Rattle.fib_resolve.specs.Pairs.{cover};
ghost use Rattle.fib_resolve.specs.Loops.{targets, looped_at};
ghost use Rattle.fib_resolve.specs.Sizes.{size};
ghost use Rattle.fib_resolve.specs.Tables.{IsSound, fresh};
ghost use Rattle.fib_resolve.specs.declared.types.Tables.{Tables as TablesValue};
ghost use Rattle.fib_entries_rows.specs.Known.{StandsFor, ArePairs, row_of, rank_of, chosen_of, prefix_of};
ghost use Rattle.fib_resolve.specs.declared.types.FibSource.{FibSource as Source};
ghost use Rattle.fib_base_interned.specs.Interned.{kept_of};
ghost use Rattle.fib_entries_rows.specs.inner.Compare.{AreKept};

use fib_addr::{Addr, Prefix};
use fib_base_blocks::Blocks;
use fib_cover::PrefixSet;
use fib_entries_rows::build::take_all;
use fib_entries_rows::look::row;
use fib_entries_rows::rows::Row;
use fib_entries_rows::sizes::size_of;
use fib_entries_rows::whole;
use fib_follow_features::Features;
use fib_paths::{PathListId, PathLists};
use fib_resolve::{FibSource, Marked, Path, Tables};
use fib_resolve_pairs::Meaning;
use std::alloc::{AllocError, Global};
use std::marker::Model;

/// The effective entries of tables. Contracts see their rows in order, with the interned path-lists; `StandsFor` says of which tables
/// they are.
pub struct Entries {
    pub(crate) rows: Blocks<Row>,
    pub(crate) lists: PathLists,
    pub(crate) order: PrefixSet,
    /// By what entries are found.
    pub(crate) features: Features,
    pub(crate) objects: u32,
    pub(crate) alloc: Global,
}

// The prover follows what a drop does here, once, and not at every way out past an owner.
impl Drop for Entries {
    fn drop(self) {
        let Entries {
            rows: _,
            lists: _,
            order: _,
            features: _,
            objects: _,
            alloc: _,
        } = self;
    }
}

impl Model for Entries {
    ghost use Rattle.fib_entries_rows.specs.Known.{Known};

    ghost Value = { Known };

    ghost view = { λ s. record { rows = s.rows; lists = s.lists; objects = s.objects } };

    ghost use Rattle.fib_entries.specs.inner.Kept.{AreKept};

    ghost invariant = { λ s. AreKept s.rows s.lists s.order s.features };
}

impl Entries {
    /// The entries of the tables as they begin: the five prefixes that every table has.
    pub fn new(alloc: Global) -> Result<Entries, AllocError>
        ensures { IfOk result (λ v. StandsFor v fresh) }
    {
        Entries::of(alloc, &Tables::fresh(alloc))
    }

    /// The entries of the tables, made anew.
    pub fn of(alloc: Global, tables: &Tables) -> Result<Entries, AllocError>
        requires { IsSound tables.now }
        ensures { IfOk result (λ v. StandsFor v tables.now) }
    {
        let meaning = Meaning::of(alloc, tables)?;
        let listed = meaning.listed(alloc)?;
        let mut lists = PathLists::new(alloc);
        let ids = take_all(alloc, &mut lists, meaning.pairs())?;
        // The count tells that the lists are interned: each is there once, and has a user.
        let _count = lists.count();
        let made = whole::rows_anew(alloc, &meaning, &lists, ids.as_slice(), listed.as_slice())?;
        let rows = Blocks::of(alloc, made)?;
        let objects = size_of(alloc, &meaning, listed.as_slice())?;
        let order = meaning.into_entries();
        let features = Features::of(alloc, &lists, &order, &rows)?;
        Ok(Entries {
            rows,
            lists,
            order,
            features,
            objects,
            alloc,
        })
    }

    pub(crate) fn allocator(&self) -> Global {
        self.alloc
    }

    /// The prefix's row, whose lists are kept.
    pub(crate) fn row_of(&self, prefix: Prefix) -> Option<&Row>
        ensures value { option_copied result ≡ row_of self.now.rows prefix }
        ensures held { IfSome result (λ r. AreKept self.now.lists r.now.pairs) }
    {
        row(&self.rows, prefix)
    }

    /// The row at that place.
    pub(crate) fn row_at(&self, place: usize) -> &Row
        requires { place < length self.now.rows }
        ensures named { slice_get (map prefix_of self.now.rows) place ≡ Some result.now.prefix }
        ensures found { row_of self.now.rows result.now.prefix ≡ Some result.now }
        ensures held { AreKept self.now.lists result.now.pairs }
    {
        &self.rows[place]
    }

    /// The number of effective entries.
    pub fn len(&self) -> usize
        ensures { result ≡ length self.now.rows }
    {
        self.rows.len()
    }

    /// The entry at that place, in order of bits, then length. Its calls tell that it is a prefix.
    pub fn at(&self, place: usize) -> Prefix
        requires { place < length self.now.rows }
        ensures { slice_get (map prefix_of self.now.rows) place ≡ Some result }
    {
        self.rows[place].prefix
    }

    /// The size of the tables, in objects: plies, entries and Hop ends; or 4,294,967,295 where it is greater.
    pub fn size(&self) -> u32
        ensures { result ≡ self.now.objects }
    {
        self.objects
    }

    /// The interned path-lists.
    pub fn lists(&self) -> &PathLists
        ensures { result.now ≡ self.now.lists }
    {
        &self.lists
    }

    /// The prefix's sources with the numbers of their lists, the best first; empty where the prefix isn't effective.
    pub fn pairs(&self, prefix: Prefix) -> &[(FibSource, PathListId)]
        ensures pairs { (S : TablesValue) → StandsFor self.now S → ArePairs self.now.lists S prefix result.now }
        ensures kept { (p : Source × ℕ) → Contains result.now p → IsSome (kept_of self.now.lists p.1) }
    {
        match row(&self.rows, prefix) {
            Some(r) => r.pairs(),
            None => &[],
        }
    }

    /// The chosen list: that of the best source. None exactly where the prefix isn't effective.
    pub fn chosen(&self, prefix: Prefix) -> Option<&[Path]>
        ensures { (S : TablesValue) → StandsFor self.now S → option_copied result ≡ chosen_of S prefix }
    {
        match row(&self.rows, prefix) {
            Some(r) => match r.pairs().first() {
                Some((_, id)) => Some(self.lists.content(*id)),
                None => None,
            },
            None => None,
        }
    }

    /// Whether the path at that place of the chosen list is there and looped.
    pub fn looped(&self, prefix: Prefix, place: usize) -> bool
        ensures { (S : TablesValue) → StandsFor self.now S → result ≡ looped_at S prefix place }
    {
        match row(&self.rows, prefix) {
            Some(r) => match r.looped().get(place) {
                Some(mark) => *mark,
                None => false,
            },
            None => false,
        }
    }

    /// What the paths of the chosen list are for, and whether they count; empty where the prefix isn't effective.
    pub fn marked(&self, prefix: Prefix) -> &[Marked]
        ensures { (S : TablesValue) → StandsFor self.now S → result.now ≡ marked_list S prefix }
    {
        match row(&self.rows, prefix) {
            Some(r) => r.marked(),
            None => &[],
        }
    }

    /// The prefixes with an edge to it, looped or not, each once.
    pub fn dependants(&self, prefix: Prefix) -> &[Prefix]
        ensures once { (S : TablesValue) → StandsFor self.now S → AllDiffer result.now }
        ensures all { (S : TablesValue) → StandsFor self.now S → (d : PrefixValue) →
            Contains result.now d ↔ Contains (targets S d) prefix }
    {
        match row(&self.rows, prefix) {
            Some(r) => r.dependants().as_slice(),
            None => &[],
        }
    }

    /// The cover of an address: the longest effective prefix below 32 that contains it.
    pub fn cover(&self, addr: Addr) -> Prefix
        ensures { (S : TablesValue) → StandsFor self.now S → result ≡ cover S addr }
    {
        // Read so that the proof knows its range.
        let _number = addr.0;
        match self.order.cover(addr) {
            Some(prefix) => prefix,
            None => Prefix::masked(Addr(0), 0),
        }
    }

    /// A number that falls along each edge that isn't looped, as `StandsFor` says of `rank_of`; 0 where the prefix isn't effective.
    pub fn rank(&self, prefix: Prefix) -> u32
        ensures { result ≡ rank_of self.now.rows prefix }
    {
        match row(&self.rows, prefix) {
            Some(r) => r.rank(),
            None => 0,
        }
    }
}
