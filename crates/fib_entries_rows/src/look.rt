// Rows by their prefixes.
ghost use Rattle.std.specs.Prelude.{◌≡◌, map, length, option_copied, option_and_then, slice_get, IfSome, ◌<◌};
ghost use Rattle.fib_addr.specs.Prefixes.{same_prefix};
ghost use Rattle.fib_cover.specs.Covers.{IsAscending};
ghost use Rattle.fib_entries_rows.specs.Known.{prefix_of, row_of};

use crate::rows::Row;
use fib_addr::Prefix;
use fib_base_blocks::{Blocks, Sought};
use std::cmp::Ordering;

impl Sought<Row> for Prefix {
    ghost use Rattle.fib_cover.specs.Covers.{prefix_cmp};

    ghost order = { λ p r. prefix_cmp r.prefix p };

    fn compare(&self, row: &Row) -> Ordering {
        row.prefix.cmp(self)
    }
}

pub fn is_same(p: Prefix, q: Prefix) -> bool
    ensures { result ≡ same_prefix p q }
{
    p == q
}

/// The place of the prefix's row.
pub fn place_of(rows: &Blocks<Row>, prefix: Prefix) -> Option<usize>
    requires { IsAscending (map prefix_of rows.now) }
    ensures value { option_and_then (slice_get rows.now) result ≡ row_of rows.now prefix }
    ensures inside { IfSome result (λ k. k < length rows.now) }
{
    match rows.search(&prefix) {
        Ok(place) => Some(place),
        Err(_) => None,
    }
}

/// The prefix's row.
pub fn row<'a>(rows: &'a Blocks<Row>, prefix: Prefix) -> Option<&'a Row>
    requires { IsAscending (map prefix_of rows.now) }
    ensures { option_copied result ≡ row_of rows.now prefix }
{
    match place_of(rows, prefix) {
        Some(place) => rows.get(place),
        None => None,
    }
}
