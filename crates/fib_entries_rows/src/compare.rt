// Which prefixes a change touches, by the rows before and after.
ghost use Rattle.std.specs.Prelude.{◌≡◌, ◌↔◌, IsTrue, IsSome, Some};
ghost use Rattle.std.specs.List.{list_any, list_all};
ghost use Rattle.fib_base_interned.specs.Interned.{kept_of};
ghost use Rattle.fib_entries_rows.specs.inner.Compare.{AreKept, is_that, has_that, all_there, AreAlike};

use crate::rows::Row;
use fib_paths::{PathListId, PathLists};
use fib_resolve::{FibSource, Marked, Path, keys};

/// Whether it is the source with that list.
fn is_that(
    lists: &PathLists,
    source: FibSource,
    paths: &[Path],
    held: (FibSource, PathListId),
) -> bool
    requires { IsSome (kept_of lists.now held.1) }
    ensures { result ≡ is_that lists.now source paths.now held }
{
    keys::is_same_source(held.0, source)
        && fib_resolve_pairs::is_same_list(lists.content(held.1), paths)
}

/// Whether the source with that list is among them.
fn has_that(
    lists: &PathLists,
    held: &[(FibSource, PathListId)],
    source: FibSource,
    paths: &[Path],
) -> bool
    requires { AreKept lists.now held.now }
    ensures { result ≡ has_that lists.now held.now source (Some paths.now) }
{
    for place in 0..held.len() {
        if is_that(lists, source, paths, held[place]) {
            return true;
        }
    }
    false
}

/// Whether each pair of the first is one of the second.
fn all_there(
    lists: &PathLists,
    held: &[(FibSource, PathListId)],
    others: &PathLists,
    there: &[(FibSource, PathListId)],
) -> bool
    requires held { AreKept lists.now held.now }
    requires there { AreKept others.now there.now }
    ensures { result ≡ all_there lists.now held.now others.now there.now }
{
    for place in 0..held.len() {
        let (source, id) = held[place];
        if !has_that(others, there, source, lists.content(id)) {
            return false;
        }
    }
    true
}

fn same_bools(xs: &[bool], ys: &[bool]) -> bool
    ensures { IsTrue result ↔ (xs.now ≡ ys.now) }
{
    xs == ys
}

fn same_marks(xs: &[Marked], ys: &[Marked]) -> bool
    ensures { IsTrue result ↔ (xs.now ≡ ys.now) }
{
    xs == ys
}

/// Whether both rows have the same pairs, and their paths are marked alike.
pub fn are_alike(lists: &PathLists, r: &Row, others: &PathLists, s: &Row) -> bool
    requires before { AreKept lists.now r.now.pairs }
    requires after { AreKept others.now s.now.pairs }
    ensures { IsTrue result ↔ AreAlike lists.now others.now r.now s.now }
{
    if !all_there(lists, r.pairs(), others, s.pairs()) {
        return false;
    }
    if !all_there(others, s.pairs(), lists, r.pairs()) {
        return false;
    }
    if !same_bools(r.looped(), s.looped()) {
        return false;
    }
    if !same_bools(r.met(), s.met()) {
        return false;
    }
    same_marks(r.marked(), s.marked())
}
