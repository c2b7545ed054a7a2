// What rows get: pairs, and marks with ranks.
ghost use Rattle.std.specs.Prelude.{◌≡◌, ℕ, IfOk, Some, map};
ghost use Rattle.std.specs.List.{AllZip};
ghost use Rattle.fib_cover.specs.Covers.{IsAscending};
ghost use Rattle.fib_entries_rows.specs.Known.{content_of, prefix_of};
ghost use Rattle.fib_entries_rows.specs.inner.Coming.{with_pairs};
ghost use Rattle.fib_follow_write.specs.Written.{AreFound, IsNumbered, IsSourced, changed, lists_of, marked, sourced, with_marks};

use crate::plan::{Listed, Marks, Paired, Sourced};
use fib_base_blocks::Blocks;
use fib_base_list::List;
use fib_entries_rows::Row;
use fib_entries_rows::look::place_of;
use fib_paths::{PathListId, PathLists};
use fib_resolve::FibSource;
use std::alloc::{AllocError, Global};

/// The number of the pair's list, which is kept.
fn number(lists: &PathLists, pair: &Listed) -> (FibSource, PathListId)
    requires { (id : ℕ) × (content_of lists.now id ≡ Some pair.now.paths) }
    ensures { IsNumbered lists.now pair.now result }
{
    match lists.find(pair.paths.as_slice()) {
        Some(id) => (pair.source, id),
        None => unreachable!(),
    }
}

/// The pairs with the numbers of their lists, which are kept.
fn numbers(
    alloc: Global,
    lists: &PathLists,
    pairs: &[Listed],
) -> Result<List<(FibSource, PathListId)>, AllocError>
    requires { AreFound lists.now pairs.now }
    ensures { IfOk result (λ v. AllZip (IsNumbered lists.now) pairs.now v) }
{
    let mut out = Vec::new(alloc);
    'pairs: for place in 0..pairs.len() {
        out.push(number(lists, &pairs[place]))?;
    }
    Ok(List::from_vec(out))
}

/// What the entries get, with the numbers of their lists, which are kept.
pub fn with_numbers(
    alloc: Global,
    lists: &PathLists,
    paired: &[Paired],
) -> Result<Vec<Sourced>, AllocError>
    requires { AreFound lists.now (lists_of paired.now) }
    ensures { IfOk result (λ v. AllZip (IsSourced lists.now) paired.now v.items) }
{
    let mut out = Vec::new(alloc);
    'paired: for place in 0..paired.len() {
        let entry = &paired[place];
        let pairs = numbers(alloc, lists, entry.pairs.as_slice())?;
        out.push(Sourced {
            prefix: entry.prefix,
            pairs,
        })?;
    }
    Ok(out)
}

/// The row gets the pairs.
fn set_pairs(row: &mut Row, pairs: List<(FibSource, PathListId)>)
    ensures { row.new ≡ with_pairs pairs row.old }
{
    row.body.pairs = pairs;
}

/// The entry's row gets its pairs.
fn pair(rows: &mut Blocks<Row>, entry: Sourced)
    requires { IsAscending (map prefix_of rows.old) }
    ensures { rows.new ≡ map (sourced entry) rows.old }
{
    let Sourced { prefix, pairs } = entry;
    match place_of(rows, prefix) {
        Some(place) => set_pairs(&mut rows[place], pairs),
        None => {}
    }
}

/// The rows of these entries get their pairs. Takes no memory.
pub fn pair_all(rows: &mut Blocks<Row>, entries: Vec<Sourced>)
    requires { IsAscending (map prefix_of rows.old) }
    ensures { rows.new ≡ map (changed sourced entries.items) rows.old }
{
    for entry in entries {
        pair(rows, entry);
    }
}

/// The row gets the marks and the rank.
fn set_marks(row: &mut Row, marks: Marks)
    ensures { row.new ≡ with_marks marks row.old }
{
    let Marks {
        prefix: _,
        looped,
        met,
        marked,
        rank,
    } = marks;
    row.body.looped = looped;
    row.body.met = met;
    row.body.marked = marked;
    row.body.rank = rank;
}

/// The entry's row gets its marks and its rank.
fn mark(rows: &mut Blocks<Row>, marks: Marks)
    requires { IsAscending (map prefix_of rows.old) }
    ensures { rows.new ≡ map (marked marks) rows.old }
{
    match place_of(rows, marks.prefix) {
        Some(place) => set_marks(&mut rows[place], marks),
        None => {}
    }
}

/// The rows of these entries get their marks and their ranks. Takes no memory.
pub fn mark_all(rows: &mut Blocks<Row>, entries: Vec<Marks>)
    requires { IsAscending (map prefix_of rows.old) }
    ensures { rows.new ≡ map (changed marked entries.items) rows.old }
{
    for entry in entries {
        mark(rows, entry);
    }
}
