// Whether entries lie below a ply.
ghost use Rattle.std.specs.Prelude.{◌≡◌, ◌≤◌, length, map, true};
ghost use Rattle.fib_addr.specs.Prefixes.{IsPrefix};
ghost use Rattle.fib_cover.specs.Covers.{IsAscending};
ghost use Rattle.fib_entries_rows.specs.Known.{prefix_of};
ghost use Rattle.fib_follow_view.specs.Views.{anew_prefix};
ghost use Rattle.fib_follow_view.specs.inner.Told.{entry_in};
ghost use Rattle.fib_follow_sized.specs.inner.Below.{IsPast, any_below, is_below};

use fib_addr::Prefix;
use fib_base_blocks::Blocks;
use fib_entries_rows::Row;
use fib_entries_rows::look::is_same;
use fib_follow_view::{Anew, View};

/// Whether the second prefix lies in the first and is longer.
fn is_below(q: Prefix, e: Prefix) -> bool
    ensures value { result ≡ is_below q e }
    ensures ply { IsPrefix q }
    ensures entry { IsPrefix e }
{
    q.len() < e.len() && is_same(q, Prefix::masked(e.bits(), q.len()))
}

/// The place of the first row behind the prefix.
fn row_past(rows: &Blocks<Row>, q: Prefix) -> usize
    requires { IsAscending (map prefix_of rows.now) }
    ensures bound { result ≤ length rows.now }
    ensures past { IsPast (map prefix_of rows.now) q result }
{
    // Read so that the proof knows its range.
    let _count = rows.len();
    match rows.search(&q) {
        Ok(place) => place + 1,
        Err(place) => place,
    }
}

/// That of the first of what was made anew.
fn made_past(changed: &Blocks<Anew>, q: Prefix) -> usize
    requires { IsAscending (map anew_prefix changed.now) }
    ensures bound { result ≤ length changed.now }
    ensures past { IsPast (map anew_prefix changed.now) q result }
{
    // Read so that the proof knows its range.
    let _count = changed.len();
    match changed.search(&q) {
        Ok(place) => place + 1,
        Err(place) => place,
    }
}

/// Whether an entry of before lies below the ply.
pub fn is_over_row(rows: &Blocks<Row>, q: Prefix) -> bool
    requires { IsAscending (map prefix_of rows.now) }
    ensures { result ≡ any_below (λ e. true) (map prefix_of rows.now) q }
{
    match rows.get(row_past(rows, q)) {
        Some(row) => is_below(q, row.prefix),
        None => false,
    }
}

/// Whether an entry of before lies below the ply and stays. Passes over those that go alone.
pub fn is_over_kept(view: &View<'_>, rows: &Blocks<Row>, q: Prefix) -> bool
    requires { IsAscending (map prefix_of rows.now) }
    ensures { result ≡ any_below (entry_in view.now) (map prefix_of rows.now) q }
{
    let start = row_past(rows, q);
    'rows: for place in start..rows.len() {
        let e = rows[place].prefix;
        if !is_below(q, e) {
            return false;
        }
        if view.is_entry(e) {
            return true;
        }
    }
    false
}

/// Whether an entry that was made anew lies below the ply. Passes over those alone that are none any more.
pub fn is_over_made(view: &View<'_>, changed: &Blocks<Anew>, q: Prefix) -> bool
    requires { IsAscending (map anew_prefix changed.now) }
    ensures { result ≡ any_below (entry_in view.now) (map anew_prefix changed.now) q }
{
    let start = made_past(changed, q);
    'changed: for place in start..changed.len() {
        let e = changed[place].prefix;
        if !is_below(q, e) {
            return false;
        }
        if view.is_entry(e) {
            return true;
        }
    }
    false
}
