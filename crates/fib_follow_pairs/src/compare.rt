// What rows have of a prefix, compared with what tables have of it.
ghost use Rattle.std.specs.Prelude.{◌≡◌, ◌↔◌, ◌<◌, Contains, IfSome, IsSome, IsTrue, map, option_copied};
ghost use Rattle.std.specs.List.{AllZip, list_all};
ghost use Rattle.fib_base_interned.specs.Interned.{kept_of};
ghost use Rattle.fib_cover.specs.Covers.{IsAscending};
ghost use Rattle.fib_resolve.specs.declared.types.Tables.{Tables as TablesValue};
ghost use Rattle.fib_resolve_changes.specs.Looked.{attached_at};
ghost use Rattle.fib_resolve_changes.specs.Sources.{SameEntry};
ghost use Rattle.fib_entries_rows.specs.Known.{IsHeld, Known as KnownRows, StandsFor, prefix_of, row_of};
ghost use Rattle.fib_entries_rows.specs.inner.Building.{AreHeld};
ghost use Rattle.fib_entries_rows.specs.inner.Compare.{AreKept, is_that};
ghost use Rattle.fib_follow_pairs.specs.Fresh.{IsFresh, prefix_in};
ghost use Rattle.fib_follow_pairs.specs.inner.Compared.{aim_stays, all_held, entry_stays, is_that_cover, paths_held, row_stays};

use crate::fresh::{Fresh, FreshEntry};
use fib_addr::Prefix;
use fib_entries_rows::Row;
use fib_entries_rows::look::row;
use fib_paths::{PathListId, PathLists};
use fib_resolve::{Aim, Blocks, FibSource, Marked, Pair, Path, keys};
use fib_resolve_pairs::{attached_of, is_same_list};

/// Whether the source with its list is the pair.
fn is_that(lists: &PathLists, held: (FibSource, PathListId), pair: &Pair) -> bool
    requires { IsSome (kept_of lists.now held.1) }
    ensures { result ≡ is_that lists.now pair.now.source pair.now.paths held }
{
    keys::is_same_source(held.0, pair.source)
        && is_same_list(lists.content(held.1), pair.paths.as_slice())
}

fn all_held(lists: &PathLists, held: &[(FibSource, PathListId)], pairs: &[Pair]) -> bool
    requires { AreKept lists.now held.now }
    ensures { result ≡ all_held lists.now held.now pairs.now }
{
    match held {
        [p, ps @ ..] => match pairs {
            [x, xs @ ..] => is_that(lists, *p, x) && all_held(lists, ps, xs),
            [] => false,
        },
        [] => match pairs {
            [_, ..] => false,
            [] => true,
        },
    }
}

/// Whether the sources with their lists are those pairs in that order, by what the lists have.
#[tactic(auto, using(crate::proofs::Compared::all_held_is))]
pub fn are_same(lists: &PathLists, held: &[(FibSource, PathListId)], pairs: &[Pair]) -> bool
    requires { AreKept lists.now held.now }
    ensures { IsTrue result ↔ AllZip (IsHeld lists.now) held.now pairs.now }
{
    all_held(lists, held, pairs)
}

fn is_that_cover(cover: &Option<Prefix>, prefix: Prefix) -> bool
    ensures { result ≡ is_that_cover cover.now prefix }
{
    match cover {
        Some(found) => *found == prefix,
        None => false,
    }
}

/// Whether a path that leads to a prefix shorter than 32 leads to that cover.
fn aim_stays(cover: &Option<Prefix>, aim: Aim) -> bool
    ensures { result ≡ aim_stays cover.now aim }
{
    match aim {
        Aim::Ends(_) => true,
        Aim::On(prefix) => prefix.len() >= 32 || is_that_cover(cover, prefix),
    }
}

fn aims_stay(cover: &Option<Prefix>, marked: &[Marked]) -> bool
    ensures { result ≡ list_all (λ m. aim_stays cover.now m.aim) marked.now }
{
    match marked {
        [m, ms @ ..] => aim_stays(cover, m.aim) && aims_stay(cover, ms),
        [] => true,
    }
}

fn entry_stays(lists: &PathLists, r: &Row, entry: &FreshEntry) -> bool
    requires { AreKept lists.now r.now.pairs }
    ensures { result ≡ entry_stays lists.now r.now entry.now }
{
    all_held(lists, r.pairs(), entry.pairs.as_slice()) && aims_stay(&entry.cover, r.marked())
}

fn row_stays(lists: &PathLists, found: Option<&Row>, fresh: &Fresh) -> bool
    requires { IfSome (option_copied found) (λ r. AreKept lists.now r.pairs) }
    ensures { result ≡ row_stays lists.now (option_copied found.entry) fresh.now }
{
    match fresh {
        Fresh::Entry(entry) => match found {
            Some(r) => entry_stays(lists, r, entry),
            None => false,
        },
        Fresh::Gone(_) => found.is_none(),
    }
}

/// Whether the entry is the same as the prefix's row has it, or neither has it: the same pairs, and the same cover where its path leads
/// there. The row is of tables before a change, and what is compared with it of those after it.
pub fn is_as_found(lists: &PathLists, found: Option<&Row>, fresh: &Fresh) -> bool
    requires { IfSome (option_copied found) (λ r. AreKept lists.now r.pairs) }
    ensures { (v : KnownRows) (S T : TablesValue) → v.lists ≡ lists.now → option_copied found.entry ≡ row_of v.rows (prefix_in fresh.now)
        → StandsFor v S → IsFresh T fresh.now → IsTrue result ↔ SameEntry S T (prefix_in fresh.now) }
{
    row_stays(lists, found, fresh)
}

/// The same of the row that the prefix has among these.
pub fn is_unchanged(rows: &Blocks<Row>, lists: &PathLists, fresh: &Fresh) -> bool
    requires ordered { IsAscending (map prefix_of rows.now) }
    requires held { AreHeld rows.now lists.now }
    ensures { (v : KnownRows) (S T : TablesValue) → v.rows ≡ rows.now → v.lists ≡ lists.now → StandsFor v S → IsFresh T fresh.now
        → IsTrue result ↔ SameEntry S T (prefix_in fresh.now) }
{
    is_as_found(lists, row(rows, fresh.prefix()), fresh)
}

/// The chosen list, by the row's pairs.
fn paths_held<'a>(lists: &'a PathLists, held: &[(FibSource, PathListId)]) -> &'a [Path]
    requires { AreKept lists.now held.now }
    ensures { result.now ≡ paths_held lists.now held.now }
{
    match held {
        [p, ..] => lists.content(p.1),
        [] => &[],
    }
}

/// The interface to which the row's prefix, which is shorter than 32, attaches the addresses that it covers, if it does.
pub fn attached_in(lists: &PathLists, r: &Row) -> Option<u32>
    requires { AreKept lists.now r.now.pairs }
    ensures { (v : KnownRows) (S : TablesValue) → v.lists ≡ lists.now → StandsFor v S → Contains v.rows r.now → r.now.prefix.len < 32
        → result ≡ attached_at S r.now.prefix }
{
    attached_of(paths_held(lists, r.pairs()))
}
