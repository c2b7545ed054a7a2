// The entries before a change.
ghost use Rattle.std.specs.Prelude.{◌≡◌, map, option_copied, IfOk, IfSome};
ghost use Rattle.fib_cover.specs.Covers.{IsAscending};
ghost use Rattle.fib_resolve.specs.Pairs.{chosen, is_derived};
ghost use Rattle.fib_resolve.specs.declared.types.Tables.{Tables as TablesValue};
ghost use Rattle.fib_resolve_changes.specs.Ranks.{has_entry};
ghost use Rattle.fib_resolve_pairs.specs.Numbers.{goal_of};
ghost use Rattle.fib_entries_rows.specs.Known.{StandsFor, prefix_of, row_of};
ghost use Rattle.fib_entries_rows.specs.inner.Building.{AreHeld};
ghost use Rattle.fib_entries_rows.specs.inner.Compare.{AreKept};
ghost use Rattle.fib_follow_view.specs.inner.Told.{chosen_row, cover_row, derived_row, goals_row, is_row};

use crate::parts;
use fib_addr::Prefix;
use fib_base_blocks::Blocks;
use fib_cover::PrefixSet;
use fib_entries_rows::Row;
use fib_entries_rows::look::row;
use fib_paths::PathLists;
use fib_resolve::Path;
use std::alloc::{AllocError, Global};
use std::marker::Model;

/// The entries before a change: their rows, the path-lists that these name, their prefixes, and the size of the tables. Contracts see the
/// rows, the lists and the size; `StandsFor` says of which tables they are.
pub struct Before<'a> {
    rows: &'a Blocks<Row>,
    lists: &'a PathLists,
    order: &'a PrefixSet,
    objects: u32,
}

// The prover follows what a drop does here, once, and not at every way out past an owner.
impl Drop for Before<'_> {
    fn drop(self) {
        let Before {
            rows: _,
            lists: _,
            order: _,
            objects: _,
        } = self;
    }
}

impl<'a> Model for Before<'a> {
    ghost use Rattle.fib_entries_rows.specs.Known.{Known};
    ghost use Rattle.fib_follow_view.specs.inner.Told.{AreBefore};

    ghost Value = { Known };

    ghost view = { λ s. record { rows = s.rows.now; lists = s.lists.now; objects = s.objects } };

    ghost invariant = { λ s. AreBefore s.rows.now s.lists.now s.order.now };
}

impl<'a> Before<'a> {
    /// These rows, which name these lists and stand in the order of these prefixes, and that size.
    pub fn new(
        rows: &'a Blocks<Row>,
        lists: &'a PathLists,
        order: &'a PrefixSet,
        objects: u32,
    ) -> Before<'a>
        requires held { AreHeld rows.now lists.now }
        requires ordered { IsAscending (map prefix_of rows.now) }
        requires same { order.now ≡ map prefix_of rows.now }
        ensures { result ≡ record { rows = rows.now; lists = lists.now; objects = objects } }
    {
        Before {
            rows,
            lists,
            order,
            objects,
        }
    }

    /// The rows of the entries before, in order of bits, then length.
    pub fn rows(&self) -> &'a Blocks<Row>
        ensures rows { result.now ≡ self.now.rows }
        ensures held { AreHeld self.now.rows self.now.lists }
        ensures ordered { IsAscending (map prefix_of self.now.rows) }
    {
        self.rows
    }

    /// The path-lists that the rows name.
    pub fn lists(&self) -> &'a PathLists
        ensures { result.now ≡ self.now.lists }
    {
        self.lists
    }

    /// The prefixes of the rows.
    pub fn order(&self) -> &'a PrefixSet
        ensures same { result.now ≡ map prefix_of self.now.rows }
        ensures ordered { IsAscending (map prefix_of self.now.rows) }
    {
        self.order
    }

    /// The size of the tables in objects, or 4,294,967,295 where it is greater.
    pub fn objects(&self) -> u32
        ensures { result ≡ self.now.objects }
    {
        self.objects
    }

    /// The prefix's row, whose lists are kept.
    pub fn row(&self, e: Prefix) -> Option<&'a Row>
        ensures value { option_copied result ≡ row_of self.now.rows e }
        ensures held { IfSome result (λ r. AreKept self.now.lists r.now.pairs) }
    {
        row(self.rows, e)
    }

    /// Whether the prefix was an entry.
    pub fn is_entry(&self, e: Prefix) -> bool
        ensures value { result ≡ is_row (row_of self.now.rows e) }
        ensures before { (S : TablesValue) → StandsFor self.now S → result ≡ has_entry S e }
    {
        match self.row(e) {
            Some(_) => true,
            None => false,
        }
    }

    /// The chosen list that the prefix had, empty where it was no entry.
    pub fn chosen(&self, e: Prefix) -> &'a [Path]
        ensures value { result.now ≡ chosen_row self.now.lists (row_of self.now.rows e) }
        ensures before { (S : TablesValue) → StandsFor self.now S → result.now ≡ chosen S e }
    {
        match self.row(e) {
            Some(r) => parts::first_list(self.lists, r.pairs()),
            None => &[],
        }
    }

    /// Whether the prefix's best source was recursive resolution.
    pub fn is_derived(&self, e: Prefix) -> bool
        ensures value { result ≡ derived_row (row_of self.now.rows e) }
        ensures before { (S : TablesValue) → StandsFor self.now S → result ≡ is_derived S e }
    {
        match self.row(e) {
            Some(r) => parts::is_first_derived(r.pairs()),
            None => false,
        }
    }

    /// Where each path of the chosen list that the prefix had led.
    pub fn goals(&self, alloc: Global, e: Prefix) -> Result<Vec<Option<Prefix>>, AllocError>
        ensures value { IfOk result (λ v. v.items ≡ goals_row (row_of self.now.rows e)) }
        ensures before { IfOk result (λ v. (S : TablesValue) → StandsFor self.now S
            → v.items ≡ map (λ p. goal_of S e p.kind) (chosen S e)) }
    {
        match self.row(e) {
            Some(r) => parts::aim_goals(alloc, r.marked()),
            None => Ok(Vec::new(alloc)),
        }
    }

    /// The cover to which a path of the prefix's chosen list led, if one did.
    pub fn cover(&self, e: Prefix) -> Option<Prefix>
        ensures { result ≡ cover_row (row_of self.now.rows e) }
    {
        match self.row(e) {
            Some(r) => parts::cover_in(r.marked()),
            None => None,
        }
    }
}
