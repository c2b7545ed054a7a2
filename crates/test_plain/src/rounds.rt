// Which entries forward: rounds over marks, until nothing changes.
ghost use Rattle.std.specs.Bool.{OnTrue};
ghost use Rattle.std.specs.Prelude.{◌≡◌, ◌+◌, ◌≤◌, ℕ, false, IfOk, map, slice_get, length};
ghost use Rattle.std.specs.List.{list_any};
ghost use Rattle.fib_resolve.specs.Pairs.{entries};
ghost use Rattle.fib_resolve.specs.Forwarding.{forwards, forwards_in};
ghost use Rattle.test_plain.specs.inner.Rows.{marked, target_marked, usable_now, rows_of};

use crate::facts::PathFacts;
use fib_base_list::List;
use fib_resolve::Tables;
use std::alloc::{AllocError, Global};

fn is_marked(marks: &[bool], number: u32) -> bool
    ensures { result ≡ marked (slice_get marks.now number) }
{
    match marks.get(number as usize) {
        Some(mark) => *mark,
        None => false,
    }
}

/// Whether the path is usable where the marks say which entries forward.
pub fn usable_now(marks: &[bool], x: &PathFacts) -> bool
    ensures { result ≡ usable_now marks.now x.now }
{
    x.ready
        && match x.target {
            Some(number) => is_marked(marks, number),
            None => true,
        }
}

fn forwards_now(marks: &[bool], row: &[PathFacts]) -> bool
    ensures { result ≡ list_any (usable_now marks.now) row.now }
{
    row.iter().any(|x| usable_now(marks, x))
}

/// The marks of the next round.
fn next_marks(
    alloc: Global,
    rows: &[List<PathFacts>],
    marks: &[bool],
) -> Result<Vec<bool>, AllocError>
    ensures { IfOk result (λ v. v.items ≡ map (λ row. list_any (usable_now marks.now) row) rows.now) }
{
    let mut out = Vec::new(alloc);
    for row in rows {
        out.push(forwards_now(marks, row.as_slice()))?;
    }
    Ok(out)
}

/// Whether both are the same marks.
fn is_same(xs: &[bool], ys: &[bool]) -> bool
    ensures { OnTrue result (xs.now ≡ ys.now) }
{
    xs == ys
}

fn no_marks(alloc: Global, rows: &[List<PathFacts>]) -> Result<Vec<bool>, AllocError>
    ensures { IfOk result (λ v. v.items ≡ map (λ _. false) rows.now) }
{
    rows.iter().map(|_row| false).collect(alloc)
}

/// A mark for each entry that forwards.
pub fn marks(
    alloc: Global,
    tables: &Tables,
    rows: &[List<PathFacts>],
) -> Result<Vec<bool>, AllocError>
    requires { rows.now ≡ rows_of tables.now }
    ensures { IfOk result (λ v. v.items ≡ map (forwards tables.now) (entries tables.now)) }
{
    let mut marks = no_marks(alloc, rows)?;
    for _n in 0..rows.len() + 1 {
        let next = next_marks(alloc, rows, marks.as_slice())?;
        if is_same(marks.as_slice(), next.as_slice()) {
            return Ok(next);
        }
        marks = next;
    }
    Ok(marks)
}
