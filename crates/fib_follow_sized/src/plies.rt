// Which plies on the way to entries that come or go are there, before and after.
ghost use Rattle.std.specs.Prelude.{◌≡◌, filter, length, map};
ghost use Rattle.fib_cover.specs.Covers.{IsAscending};
ghost use Rattle.fib_addr.specs.Prefixes.{same_prefix};
ghost use Rattle.fib_addr.specs.Longest.{everything};
ghost use Rattle.fib_entries_rows.specs.Known.{prefix_of};
ghost use Rattle.fib_follow_sized.specs.inner.Below.{is_ply, was_ply};

use crate::below::{is_over_kept, is_over_made, is_over_row};
use fib_addr::{Addr, Prefix};
use fib_base_blocks::Blocks;
use fib_entries_rows::Row;
use fib_entries_rows::look::is_same;
use fib_follow_view::View;

/// Whether it is the ply of all addresses, which is always there.
fn is_root(q: Prefix) -> bool
    ensures { result ≡ same_prefix q everything }
{
    is_same(q, Prefix::masked(Addr(0), 0))
}

fn was_ply(rows: &Blocks<Row>, q: Prefix) -> bool
    requires { IsAscending (map prefix_of rows.now) }
    ensures { result ≡ was_ply rows.now q }
{
    is_root(q) || is_over_row(rows, q)
}

fn is_ply(view: &View<'_>, rows: &Blocks<Row>, q: Prefix) -> bool
    requires { IsAscending (map prefix_of rows.now) }
    ensures { result ≡ is_ply view.now rows.now q }
{
    is_root(q) || is_over_kept(view, rows, q) || is_over_made(view, view.changed(), q)
}

/// How many of the plies the entries before make.
pub fn plies_before(rows: &Blocks<Row>, plies: &[Prefix]) -> usize
    requires { IsAscending (map prefix_of rows.now) }
    ensures { result ≡ length (filter (was_ply rows.now) plies.now) }
{
    plies.iter().filter(|q| was_ply(rows, **q)).count()
}

/// How many of them those after make.
pub fn plies_after(view: &View<'_>, rows: &Blocks<Row>, plies: &[Prefix]) -> usize
    requires { IsAscending (map prefix_of rows.now) }
    ensures { result ≡ length (filter (is_ply view.now rows.now) plies.now) }
{
    plies.iter().filter(|q| is_ply(view, rows, **q)).count()
}
