// Whether a prefix is touched, by its row before and what it has after a change.
ghost use Rattle.std.specs.Prelude.{◌≡◌, IfSome, IsSome, option_copied};
ghost use Rattle.std.specs.List.{list_all};
ghost use Rattle.fib_base_interned.specs.Interned.{kept_of};
ghost use Rattle.fib_entries_rows.specs.inner.Compare.{AreKept, is_that};
ghost use Rattle.fib_follow_view.specs.inner.Told.{are_some};
ghost use Rattle.fib_follow_told.specs.inner.Tests.{has_pair, is_alike, is_held, made_touched, row_touched, same_bits, same_marks};
ghost use Rattle.fib_follow_told.specs.inner.Tests.{same_pairs, touched_by};

use crate::body::Body;
use fib_entries_rows::Row;
use fib_follow_view::View;
use fib_paths::{PathListId, PathLists};
use fib_resolve::{FibSource, Marked, Pair, keys};
use fib_resolve_pairs::is_same_list;

/// Whether the source with its list is the pair.
fn is_that(lists: &PathLists, held: (FibSource, PathListId), pair: &Pair) -> bool
    requires { IsSome (kept_of lists.now held.1) }
    ensures { result ≡ is_that lists.now pair.now.source pair.now.paths held }
{
    keys::is_same_source(held.0, pair.source)
        && is_same_list(lists.content(held.1), pair.paths.as_slice())
}

/// Whether the source with its list is one of the pairs.
fn has_pair(lists: &PathLists, pairs: &[Pair], held: (FibSource, PathListId)) -> bool
    requires { IsSome (kept_of lists.now held.1) }
    ensures { result ≡ has_pair lists.now pairs.now held }
{
    pairs.iter().any(|pair| is_that(lists, held, pair))
}

/// Whether each of the sources with its list is one of the pairs.
fn all_there(lists: &PathLists, held: &[(FibSource, PathListId)], pairs: &[Pair]) -> bool
    requires { AreKept lists.now held.now }
    ensures { result ≡ list_all (has_pair lists.now pairs.now) held.now }
{
    match held {
        [first, others @ ..] => has_pair(lists, pairs, *first) && all_there(lists, others, pairs),
        [] => true,
    }
}

/// Whether the pair is one of the sources with its list.
fn is_held(lists: &PathLists, held: &[(FibSource, PathListId)], pair: &Pair) -> bool
    requires { AreKept lists.now held.now }
    ensures { result ≡ is_held lists.now held.now pair.now }
{
    match held {
        [first, others @ ..] => is_that(lists, *first, pair) || is_held(lists, others, pair),
        [] => false,
    }
}

/// Whether each of the pairs is one of the sources with its list.
fn are_held(lists: &PathLists, held: &[(FibSource, PathListId)], pairs: &[Pair]) -> bool
    requires { AreKept lists.now held.now }
    ensures { result ≡ list_all (is_held lists.now held.now) pairs.now }
{
    pairs.iter().all(|pair| is_held(lists, held, pair))
}

/// Whether the sources with their lists are those pairs, in whatever order.
fn same_pairs(lists: &PathLists, held: &[(FibSource, PathListId)], pairs: &[Pair]) -> bool
    requires { AreKept lists.now held.now }
    ensures { result ≡ same_pairs lists.now held.now pairs.now }
{
    all_there(lists, held, pairs) && are_held(lists, held, pairs)
}

fn same_bits(xs: &[bool], ys: &[bool]) -> bool
    ensures { result ≡ same_bits xs.now ys.now }
{
    xs == ys
}

fn same_marks(xs: &[Marked], ys: &[Marked]) -> bool
    ensures { result ≡ same_marks xs.now ys.now }
{
    xs == ys
}

/// Whether the row's paths are marked as they are after the change.
fn is_alike(r: &Row, body: &Body) -> bool
    ensures { result ≡ is_alike r.now body.now }
{
    same_bits(r.looped(), body.looped.as_slice())
        && same_bits(r.met(), body.met.as_slice())
        && same_marks(r.marked(), body.marked.as_slice())
}

/// Whether a prefix is touched whose pairs stay.
fn is_row_touched(found: Option<&Row>, body: &Body) -> bool
    ensures { result ≡ row_touched (option_copied found.entry) body.now }
{
    match found {
        Some(r) => !is_alike(r, body),
        None => false,
    }
}

/// Whether there is a pair.
fn are_some(pairs: &[Pair]) -> bool
    ensures { result ≡ are_some pairs.now }
{
    match pairs {
        [_, ..] => true,
        [] => false,
    }
}

/// Whether a prefix is touched that was made anew.
fn is_made_touched(lists: &PathLists, found: Option<&Row>, pairs: &[Pair], body: &Body) -> bool
    requires { IfSome (option_copied found) (λ r. AreKept lists.now r.pairs) }
    ensures { result ≡ made_touched lists.now (option_copied found.entry) pairs.now body.now }
{
    match found {
        Some(r) => !(same_pairs(lists, r.pairs(), pairs) && is_alike(r, body)),
        None => are_some(pairs),
    }
}

/// Whether the prefix is touched of which that is the body after the change.
pub fn is_touched(view: &View<'_>, body: &Body) -> bool
    ensures { result ≡ touched_by view.now body.now }
{
    let found = view.before().row(body.prefix);
    match view.made(body.prefix) {
        Some(x) => is_made_touched(view.before().lists(), found, x.pairs.as_slice(), body),
        None => is_row_touched(found, body),
    }
}
