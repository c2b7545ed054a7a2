// The tables as the listing of entries reads them.
ghost use Rattle.std.specs.Prelude.{◌≡◌, ◌<◌, IfOk, Some, length, map, slice_get};
ghost use Rattle.fib_resolve.specs.Pairs.{entries, chosen, cover};
ghost use Rattle.fib_resolve.specs.Loops.{looped_at};
ghost use Rattle.fib_resolve.specs.Forwarding.{usable_at};
ghost use Rattle.fib_entries_rows.specs.Known.{StandsFor};
ghost use Rattle.fib_print_listing.specs.Order.{in_order, prefix_before};
ghost use Rattle.fib_print_listing.specs.Entries.{sources_at};
ghost use Rattle.fib_print_listing.specs.inner.Views.{source_in};

use crate::forwarding::{forwarding, is_usable};
use fib_addr::{Addr, Prefix};
use fib_entries::Entries;
use fib_paths::PathListId;
use fib_resolve::{FibSource, Path, Tables};
use std::alloc::{AllocError, Global};
use std::collections::HashSet;
use std::marker::Model;

/// Tables with what is known of their entries, and those that forward. Contracts see the tables.
pub struct View<'a> {
    tables: &'a Tables,
    entries: &'a Entries,
    forwarding: HashSet<Prefix>,
}

// The prover follows what a drop does here, once, and not at every way out past an owner.
impl Drop for View<'_> {
    fn drop(self) {
        let View {
            tables: _,
            entries: _,
            forwarding: _,
        } = self;
    }
}

impl<'a> Model for View<'a> {
    ghost use Rattle.fib_resolve.specs.declared.types.Tables.{Tables as TablesValue};
    ghost use Rattle.fib_print_listing.specs.inner.Views.{IsView};

    ghost Value = { TablesValue };

    ghost view = { λ s. s.tables.now };

    ghost invariant = { λ s. IsView s.tables.now s.entries.now s.forwarding.keys };
}

impl<'a> View<'a> {
    /// The tables with their entries; finds those that forward.
    pub fn new(
        alloc: Global,
        tables: &'a Tables,
        entries: &'a Entries,
    ) -> Result<View<'a>, AllocError>
        requires { StandsFor entries.now tables.now }
        ensures { IfOk result (λ v. v ≡ tables.now) }
    {
        let forwarding = forwarding(alloc, entries)?;
        Ok(View {
            tables,
            entries,
            forwarding,
        })
    }

    /// The tables.
    pub fn tables(&self) -> &'a Tables
        ensures { result.now ≡ self.now }
    {
        self.tables
    }

    /// The number of entries.
    pub fn count(&self) -> usize
        ensures { result ≡ length (in_order prefix_before (entries self.now)) }
    {
        self.entries.len()
    }

    /// The entry at that place of the listing.
    pub fn entry(&self, place: usize) -> Prefix
        requires { place < length (in_order prefix_before (entries self.now)) }
        ensures { slice_get (in_order prefix_before (entries self.now)) place ≡ Some result }
    {
        self.entries.at(place)
    }

    /// Its sources, the best first, each with the number of a path-list.
    pub fn sources(&self, e: Prefix) -> &[(FibSource, PathListId)]
        ensures { map source_in result.now ≡ sources_at self.now e }
    {
        self.entries.pairs(e)
    }

    /// Its chosen list; empty where the prefix is no entry.
    pub fn chosen(&self, e: Prefix) -> &[Path]
        ensures { result.now ≡ chosen self.now e }
    {
        match self.entries.chosen(e) {
            Some(paths) => paths,
            None => &[],
        }
    }

    /// The cover of an address.
    pub fn cover(&self, addr: Addr) -> Prefix
        ensures { result ≡ cover self.now addr }
    {
        self.entries.cover(addr)
    }

    /// Whether the path at that place of the entry's chosen list is there and looped.
    pub fn is_looped(&self, e: Prefix, place: usize) -> bool
        ensures { result ≡ looped_at self.now e place }
    {
        self.entries.looped(e, place)
    }

    /// Whether it is there and usable.
    pub fn is_usable(&self, e: Prefix, place: usize) -> bool
        ensures { result ≡ usable_at self.now e place }
    {
        match self.entries.marked(e).get(place) {
            Some(mark) => is_usable(&self.forwarding, *mark),
            None => false,
        }
    }
}
