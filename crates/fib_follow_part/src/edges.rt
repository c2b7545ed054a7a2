// The edges of a part: which of them lie on cycles, and which are left.
ghost use Rattle.std.specs.Prelude.{◌≡◌, ◌<◌, ◌^◌, ◌||◌, ◌&&◌, [], OnOk, IfOk, Contains, filter, length};
ghost use Rattle.fib_addr.specs.Prefixes.{Prefix as PrefixValue};
ghost use Rattle.fib_loops.specs.Loops.{AreEdges, IsMarked};
ghost use Rattle.fib_reach.specs.Walks.{AllDiffer};
ghost use Rattle.fib_entries_rows.specs.inner.Looping.{AddsEdge, AddsEdges, AreEdgesAmong, AreLoopedEnds, AreMarkedEnds};
ghost use Rattle.fib_entries_rows.specs.inner.Looping.{has_ends, same_ends};
ghost use Rattle.fib_follow_view.specs.inner.Told.{next_in};
ghost use Rattle.fib_follow_part.specs.inner.Searched.{AddsOut, AddsOuts, AreLeaving, is_left, is_left_end};

use crate::seen::next;
use fib_addr::Prefix;
use fib_entries_rows::dependants::Dependants;
use fib_follow_view::View;
use fib_loops::Marks;
use std::alloc::{AllocError, Global};
use std::collections::HashSet;

/// Edges, each by the entry where it begins and that to which it leads.
pub type Ends = HashSet<(Prefix, Prefix)>;

/// An edge that leaves the part: the place where it begins, and the entry to which it leads.
pub type Leaving = (u32, Prefix);

/// Appends the edge from the place to that of the target, or to those that leave where it has none.
fn add_edge(
    edges: &mut Vec<(u32, u32)>,
    out: &mut Vec<Leaving>,
    seen: &Dependants,
    from: u32,
    target: Prefix,
) -> Result<(), AllocError>
    requires once { AllDiffer seen.now }
    requires few { length seen.now < 2 ^ 32 }
    ensures edges { OnOk result (AddsEdge seen.now from target edges.old.items edges.new.items) }
    ensures out { OnOk result (AddsOut seen.now from target out.old.items out.new.items) }
{
    match seen.place(target) {
        Some(to) => edges.push((from, to as u32))?,
        None => out.push((from, target))?,
    }
    Ok(())
}

/// Appends the edges from the place to those of all targets.
fn add_edges(
    edges: &mut Vec<(u32, u32)>,
    out: &mut Vec<Leaving>,
    seen: &Dependants,
    from: u32,
    targets: &[Prefix],
) -> Result<(), AllocError>
    requires once { AllDiffer seen.now }
    requires few { length seen.now < 2 ^ 32 }
    ensures edges { OnOk result (AddsEdges seen.now from targets.now edges.old.items edges.new.items) }
    ensures out { OnOk result (AddsOuts seen.now from targets.now out.old.items out.new.items) }
{
    'targets: for place in 0..targets.len() {
        add_edge(edges, out, seen, from, targets[place])?;
    }
    Ok(())
}

/// The edges after the change that begin at those that are seen, by places; those that lead elsewhere are appended to the others.
pub fn edges_of(
    alloc: Global,
    view: &View<'_>,
    seen: &Dependants,
    out: &mut Vec<Leaving>,
) -> Result<Vec<(u32, u32)>, AllocError>
    requires once { AllDiffer seen.now }
    requires few { length seen.now < 2 ^ 32 }
    requires none { out.old.items ≡ [] }
    ensures edges { IfOk result (λ v. AreEdgesAmong (next_in view.now) seen.now (length seen.now) v.items) }
    ensures out { OnOk result (AreLeaving (next_in view.now) seen.now (length seen.now) out.new.items) }
{
    let mut edges = Vec::new(alloc);
    let order = seen.as_slice();
    'order: for from in 0..order.len() {
        let targets = next(alloc, view, order[from])?;
        add_edges(&mut edges, out, seen, from as u32, targets.as_slice())?;
    }
    Ok(edges)
}

fn add_if(held: &mut Ends, test: bool, from: Prefix, to: Prefix) -> Result<(), AllocError>
    ensures { OnOk result ((e t : PrefixValue)
        → has_ends held.new.keys e t ≡ has_ends held.old.keys e t || (test && same_ends (from, to) (e, t))) }
{
    if !test {
        return Ok(());
    }
    held.insert((from, to))?;
    Ok(())
}

/// The ends of those of the edges that are marked.
fn marked(
    alloc: Global,
    order: &[Prefix],
    edges: &[(u32, u32)],
    marks: &Marks,
    count: u32,
) -> Result<Ends, AllocError>
    requires edges { length edges.now ≡ count }
    requires marks { length marks.now.looped ≡ count }
    requires places { AreEdges (length order.now) edges.now }
    ensures { IfOk result (λ s. AreMarkedEnds order.now edges.now marks.now.looped count s.keys) }
{
    let mut held = HashSet::new(alloc);
    'edges: for k in 0..count {
        let edge = edges[k as usize];
        let from = order[edge.0 as usize];
        let to = order[edge.1 as usize];
        add_if(&mut held, marks.looped(k), from, to)?;
    }
    Ok(held)
}

/// The ends of those of the edges that lie on cycles, which their marks tell.
pub fn on_cycles(
    alloc: Global,
    order: &[Prefix],
    edges: &[(u32, u32)],
    marks: &Marks,
) -> Result<Ends, AllocError>
    requires edges { AreEdges (length order.now) edges.now }
    requires marks { IsMarked (length order.now) edges.now marks.now }
    ensures { IfOk result (λ s. AreLoopedEnds order.now edges.now s.keys) }
{
    let Ok(count) = u32::try_from(edges.len()) else {
        return Err(AllocError);
    };
    marked(alloc, order, edges, marks, count)
}

/// Whether an edge is left without looped paths: an edge to a cover always is.
fn is_left_end(loops: &Ends, from: Prefix, to: Prefix) -> bool
    ensures { result ≡ is_left_end loops.now.keys from to }
{
    !(to.len() == 32 && loops.contains(&(from, to)))
}

fn is_left(order: &[Prefix], loops: &Ends, edge: (u32, u32)) -> bool
    ensures { result ≡ is_left order.now loops.now.keys edge }
{
    let Some(from) = order.get(edge.0 as usize) else {
        return false;
    };
    let Some(to) = order.get(edge.1 as usize) else {
        return false;
    };
    is_left_end(loops, *from, *to)
}

/// Those of the edges that are left without looped paths.
pub fn left_of(
    alloc: Global,
    order: &[Prefix],
    edges: &[(u32, u32)],
    loops: &Ends,
) -> Result<Vec<(u32, u32)>, AllocError>
    ensures { IfOk result (λ v. v.items ≡ filter (is_left order.now loops.now.keys) edges.now) }
{
    edges
        .iter()
        .copied()
        .filter(|edge| is_left(order, loops, *edge))
        .collect(alloc)
}
