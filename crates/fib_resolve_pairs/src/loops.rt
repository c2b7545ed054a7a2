// The edges of recursion, by the entries' numbers, and those that lie on cycles.
ghost use Rattle.std.specs.Prelude.{◌≡◌, ◌<◌, ◌↔◌, ◌++◌, ◌||◌, ◌&&◌, ℕ, Some, IfOk, IfSome, IsTrue, OnOk, Contains, false, length, map};
ghost use Rattle.std.specs.Prelude.{option_to_list, slice_index_or};
ghost use Rattle.std.specs.Set.{is_member};
ghost use Rattle.fib_loops.specs.Loops.{AreEdges, IsLooped};
ghost use Rattle.fib_resolve.specs.Pairs.{chosen, entries};
ghost use Rattle.fib_resolve.specs.Loops.{looped};
ghost use Rattle.fib_resolve.specs.declared.types.Path.{Path as PathValue};
ghost use Rattle.fib_resolve.specs.declared.types.PathKind.TheVariants as kinds;
ghost use Rattle.fib_resolve_pairs.specs.Numbers.{number_in};
ghost use Rattle.fib_resolve_pairs.specs.inner.Edges.{goal_number, next_numbers, edges_from, edges_of, same_edge, has_edge, AreLooped, AreMarked, AreStarts};

use crate::known::Known;
use fib_addr::{Addr, Prefix};
use fib_loops::Marks;
use fib_resolve::PathKind;
use std::alloc::{AllocError, Global};
use std::collections::HashSet;

/// The number of the entry to which a path leads.
#[tactic(auto, unfolding(crate::specs::inner::Edges::goal_number))]
pub fn goal_number(known: &Known<'_>, e: Prefix, kind: PathKind) -> Option<u32>
    ensures value { result ≡ goal_number known.now e kind }
    ensures below { IfSome result (λ k. k < length (entries known.now)) }
{
    let goal = known.goal(e, kind)?;
    let number = known.number(goal)?;
    // The list tells that there are fewer than 2^32 entries.
    let _few = known.entries();
    Some(number as u32)
}

/// Appends the edge of a path, where it leads to an entry.
fn add_edge(out: &mut Vec<(u32, u32)>, from: u32, to: Option<u32>) -> Result<(), AllocError>
    ensures { OnOk result (out.new.items ≡ out.old.items ++ map (λ to. (from, to)) (option_to_list to)) }
{
    if let Some(to) = to {
        out.push((from, to))?;
    }
    Ok(())
}

/// Appends the edges of an entry.
#[tactic(auto, unfolding(crate::specs::inner::Edges::next_numbers))]
fn add_row(
    out: &mut Vec<(u32, u32)>,
    known: &Known<'_>,
    from: u32,
    e: Prefix,
) -> Result<(), AllocError>
    ensures { OnOk result (out.new.items ≡ out.old.items ++ map (λ to. (from, to)) (next_numbers known.now e)) }
{
    for p in known.chosen(e) {
        add_edge(out, from, goal_number(known, e, p.kind))?;
    }
    Ok(())
}

/// All edges, in the order of entries and of their paths.
#[tactic(auto, unfolding(crate::specs::inner::Edges::edges_of))]
fn edges(alloc: Global, known: &Known<'_>) -> Result<Vec<(u32, u32)>, AllocError>
    ensures { IfOk result (λ v. v.items ≡ edges_of known.now) }
{
    let mut out = Vec::new(alloc);
    for (i, e) in known.entries().iter().enumerate() {
        add_row(&mut out, known, i as u32, *e)?;
    }
    Ok(out)
}

fn add_if(looped: &mut HashSet<(u32, u32)>, test: bool, edge: (u32, u32)) -> Result<(), AllocError>
    ensures { OnOk result ((d : ℕ × ℕ) → has_edge looped.new.keys d ≡ has_edge looped.old.keys d || (test && same_edge edge d)) }
{
    if !test {
        return Ok(());
    }
    looped.insert(edge)?;
    Ok(())
}

/// Those of the edges that are marked.
fn marked(
    alloc: Global,
    edges: &[(u32, u32)],
    marks: &Marks,
    count: u32,
) -> Result<HashSet<(u32, u32)>, AllocError>
    requires edges { length edges.now ≡ count }
    requires marks { length marks.now.looped ≡ count }
    ensures { IfOk result (λ s. AreMarked edges.now marks.now.looped count s.keys) }
{
    let mut looped = HashSet::new(alloc);
    for k in 0..count {
        let edge = edges[k as usize];
        add_if(&mut looped, marks.looped(k), edge)?;
    }
    Ok(looped)
}

/// Those of the edges that lie on cycles.
fn on_cycles(
    alloc: Global,
    nodes: u32,
    edges: &[(u32, u32)],
) -> Result<HashSet<(u32, u32)>, AllocError>
    requires { AreEdges nodes edges.now }
    ensures { IfOk result (λ s. AreLooped edges.now s.keys) }
{
    let Ok(count) = u32::try_from(edges.len()) else {
        return Err(AllocError);
    };
    let marks = fib_loops::mark(alloc, nodes, edges)?;
    marked(alloc, edges, &marks, count)
}

/// The edges that lie on cycles, in two walks over all.
pub fn looped_edges(alloc: Global, known: &Known<'_>) -> Result<HashSet<(u32, u32)>, AllocError>
    ensures { IfOk result (λ s. AreLooped (edges_of known.now) s.keys) }
{
    let nodes = known.entries().len() as u32;
    let edges = edges(alloc, known)?;
    on_cycles(alloc, nodes, edges.as_slice())
}

/// For each entry by its number, whether one of these edges starts there.
pub fn starts(
    alloc: Global,
    known: &Known<'_>,
    on_cycles: &HashSet<(u32, u32)>,
) -> Result<Vec<bool>, AllocError>
    requires { AreLooped (edges_of known.now) on_cycles.now.keys }
    ensures { IfOk result (λ v. AreStarts on_cycles.now.keys v.items) }
{
    let mut starts = Vec::from_elem(alloc, false, known.entries().len())?;
    for edge in on_cycles.iter() {
        starts[edge.0 as usize] = true;
    }
    Ok(starts)
}

/// Whether the number is marked.
pub fn is_start(starts: &[bool], number: usize) -> bool
    ensures { result ≡ slice_index_or starts.now number false }
{
    match starts.get(number) {
        Some(start) => *start,
        None => false,
    }
}

/// Whether a recursive path of the entry's chosen list to that next hop is looped.
pub fn is_looped(
    on_cycles: &HashSet<(u32, u32)>,
    known: &Known<'_>,
    e: Prefix,
    number: u32,
    a: Addr,
) -> bool
    requires cycles { AreLooped (edges_of known.now) on_cycles.now.keys }
    requires number { number_in known.now e ≡ Some number }
    requires there { (p : PathValue) × Contains (chosen known.now e) p × (p.kind ≡ kinds.Recursive a) }
    ensures { result ≡ looped known.now e a }
{
    match known.number(Prefix::host(a)) {
        Some(k) => {
            // The list tells that there are fewer than 2^32 entries.
            let _few = known.entries();
            on_cycles.contains(&(number, k as u32))
        }
        None => false,
    }
}
