// The lists of rows that get other pairs or go lose their users.
ghost use Rattle.std.specs.Prelude.{ℕ, flat_map, map, List as Items};
ghost use Rattle.fib_cover.specs.Covers.{IsAscending};
ghost use Rattle.fib_resolve.specs.declared.types.Path.{Path as PathValue};
ghost use Rattle.fib_entries_rows.specs.Known.{prefix_of};
ghost use Rattle.fib_follow_write.specs.Written.{AreKept, GivesPairs, IsSpent, pairs_at, paired_prefix};

use crate::lists::give_pairs;
use crate::plan::Paired;
use fib_addr::Prefix;
use fib_base_blocks::Blocks;
use fib_entries_rows::Row;
use fib_entries_rows::look::row;
use fib_paths::PathLists;

/// Each list that the prefix's row names loses a user for it. Takes no memory.
fn give_row(rows: &Blocks<Row>, lists: &mut PathLists, prefix: Prefix)
    requires ordered { IsAscending (map prefix_of rows.now) }
    requires kept { AreKept lists.old (pairs_at rows.now prefix) }
    requires counted { (g : Items PathValue → ℕ) × IsSpent g lists.old (pairs_at rows.now prefix) }
    ensures { (g : Items PathValue → ℕ) → IsSpent g lists.old (pairs_at rows.now prefix) → GivesPairs g lists.old lists.new }
{
    match row(rows, prefix) {
        Some(row) => give_pairs(lists, row.pairs()),
        None => {}
    }
}

/// The same of each of the prefixes. Takes no memory.
pub fn give_rows(rows: &Blocks<Row>, lists: &mut PathLists, prefixes: &[Prefix])
    requires ordered { IsAscending (map prefix_of rows.now) }
    requires kept { AreKept lists.old (flat_map (pairs_at rows.now) prefixes.now) }
    requires counted { (g : Items PathValue → ℕ) × IsSpent g lists.old (flat_map (pairs_at rows.now) prefixes.now) }
    ensures { (g : Items PathValue → ℕ) → IsSpent g lists.old (flat_map (pairs_at rows.now) prefixes.now)
        → GivesPairs g lists.old lists.new }
{
    'rows: for place in 0..prefixes.len() {
        give_row(rows, lists, prefixes[place]);
    }
}

/// The same of each of the entries. Takes no memory.
pub fn give_paired(rows: &Blocks<Row>, lists: &mut PathLists, paired: &[Paired])
    requires ordered { IsAscending (map prefix_of rows.now) }
    requires kept { AreKept lists.old (flat_map (pairs_at rows.now) (map paired_prefix paired.now)) }
    requires counted { (g : Items PathValue → ℕ)
        × IsSpent g lists.old (flat_map (pairs_at rows.now) (map paired_prefix paired.now)) }
    ensures { (g : Items PathValue → ℕ) → IsSpent g lists.old (flat_map (pairs_at rows.now) (map paired_prefix paired.now))
        → GivesPairs g lists.old lists.new }
{
    'rows: for place in 0..paired.len() {
        give_row(rows, lists, paired[place].prefix);
    }
}
