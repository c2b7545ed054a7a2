// A plan is written into rows of which there are none yet, and a second one takes back what the first one wrote.
ghost use Rattle.std.specs.Prelude.{◌≡◌, ◌∷◌, [], IfOk, map, List as Items};
ghost use Rattle.fib_reach.specs.Walks.{AllDiffer};
ghost use Rattle.fib_entries_rows.specs.Rows.{Row as RowValue};
ghost use Rattle.fib_follow_write.specs.Plans.{IsPlan};
ghost use Rattle.fib_follow_write.specs.Written.{paired_prefix};

use fib_addr::{Addr, Prefix};
use fib_base_blocks::Blocks;
use fib_base_list::List;
use fib_cover::PrefixSet;
use fib_entries_rows::Row;
use fib_follow_write::{Edge, Listed, Marks, Paired, Plan, write};
use fib_paths::PathLists;
use fib_resolve::{FibSource, Need, Path, PathKind};
use std::alloc::{AllocError, Global};
use std::test::Fail;

/// 10.0.0.7/32.
fn leader() -> Prefix {
    Prefix::host(Addr(0x0a00_0007))
}

fn one(alloc: Global, prefix: Prefix) -> Result<List<Prefix>, AllocError>
    ensures { IfOk result (λ l. l ≡ prefix ∷ []) }
{
    let mut list = List::new(alloc);
    list.push(prefix)?;
    Ok(list)
}

/// The one path of a route that drops.
fn drops(alloc: Global) -> Result<List<Path>, AllocError> {
    let mut paths = List::new(alloc);
    paths.push(Path {
        kind: PathKind::Drop,
        need: Need::Any,
        weight: 1,
        preference: 0,
    })?;
    Ok(paths)
}

/// The entry with a route of the command line that drops.
fn dropped(alloc: Global, prefix: Prefix) -> Result<List<Paired>, AllocError>
    ensures { IfOk result (λ l. map paired_prefix l ≡ prefix ∷ []) }
{
    let mut pairs = List::new(alloc);
    pairs.push(Listed {
        source: FibSource::Cli,
        paths: drops(alloc)?,
    })?;
    let mut paired = List::new(alloc);
    paired.push(Paired { prefix, pairs })?;
    Ok(paired)
}

/// The entry's rank is 5, and its path is neither looped nor in need.
fn marked(alloc: Global, prefix: Prefix) -> Result<List<Marks>, AllocError> {
    let mut looped = List::new(alloc);
    looped.push(false)?;
    let mut met = List::new(alloc);
    met.push(true)?;
    let mut marks = List::new(alloc);
    marks.push(Marks {
        prefix,
        looped,
        met,
        marked: List::new(alloc),
        rank: 5,
    })?;
    Ok(marks)
}

fn edge(alloc: Global, to: Prefix) -> Result<List<Edge>, AllocError>
    ensures { IfOk result (λ l. AllDiffer l) }
{
    let mut edges = List::new(alloc);
    edges.push(Edge { from: leader(), to })?;
    Ok(edges)
}

/// The prefix becomes an entry to which another leads.
fn coming(alloc: Global, prefix: Prefix) -> Result<Plan, AllocError>
    ensures { IfOk result (λ p. IsPlan [] p) }
{
    let came = one(alloc, prefix)?;
    let paired = dropped(alloc, prefix)?;
    let marks = marked(alloc, prefix)?;
    let gone = List::new(alloc);
    let edges_in = edge(alloc, prefix)?;
    let edges_out = List::new(alloc);
    Ok(Plan {
        came,
        paired,
        marks,
        gone,
        edges_in,
        edges_out,
    })
}

/// It goes again.
fn going(alloc: Global, prefix: Prefix) -> Result<Plan, AllocError>
    ensures { IfOk result (λ p. (rows : Items RowValue) → IsPlan rows p) }
{
    let came = List::new(alloc);
    let paired = List::new(alloc);
    let marks = List::new(alloc);
    let gone = one(alloc, prefix)?;
    let edges_in = List::new(alloc);
    let edges_out = edge(alloc, prefix)?;
    Ok(Plan {
        came,
        paired,
        marks,
        gone,
        edges_in,
        edges_out,
    })
}

/// Whether there is one row, with one pair, the marks, the rank and the dependant.
fn has_come(rows: &Blocks<Row>, lists: &PathLists, order: &PrefixSet) -> bool {
    let Some(row) = rows.get(0) else {
        return false;
    };
    let has_marks = row.looped() == [false].as_slice() && row.met() == [true].as_slice();
    let has_all = row.pairs().len() == 1 && has_marks && row.rank() == 5;
    has_all && row.dependants().has(leader()) && lists.count() == 1 && order.contains(row.prefix)
}

fn comes_and_goes(alloc: Global) -> Result<bool, AllocError> {
    let prefix = Prefix::masked(Addr(0x1400_0000), 8);
    let mut rows = Blocks::new(alloc);
    let mut lists = PathLists::new(alloc);
    let mut order = PrefixSet::new(alloc);
    let first = coming(alloc, prefix)?;
    write(alloc, &mut rows, &mut lists, &mut order, first)?;
    let came = has_come(&rows, &lists, &order);
    let second = going(alloc, prefix)?;
    write(alloc, &mut rows, &mut lists, &mut order, second)?;
    Ok(came && rows.is_empty() && lists.count() == 0 && order.is_empty())
}

#[test]
fn an_entry_comes_and_goes(rt: HostRuntime) -> Result<(), Fail> {
    if !comes_and_goes(rt.alloc())? {
        return Err("a plan was written otherwise".into());
    }
    Ok(())
}
