// The edges of recursion, by places in the order of entries.
ghost use Rattle.std.specs.Prelude.{◌≡◌, ◌<◌, ◌^◌, IfOk, IfSome, IfNone, OnOk, Some, [], ◌∷◌, ◌++◌, if◌then◌else◌, slice_get, length, option_to_list, Contains};
ghost use Rattle.fib_cover.specs.Covers.{IsAscending};
ghost use Rattle.fib_resolve.specs.Pairs.{chosen};
ghost use Rattle.fib_resolve.specs.Loops.{kind_targets};
ghost use Rattle.fib_entries_rows.specs.inner.Building.{AreKeptEdges};
ghost use Rattle.fib_addr.specs.Prefixes.{Prefix as PrefixValue};
ghost use Rattle.fib_entries_rows.specs.inner.Edges.{AreEdgesOf, AddsPath, AddsPaths};

use crate::parts::keeps;
use fib_addr::Prefix;
use fib_resolve::PathKind;
use fib_resolve_pairs::Meaning;
use std::alloc::{AllocError, Global};

/// The place of a prefix in the order.
fn place_of(order: &[Prefix], p: Prefix) -> Option<usize>
    requires { IsAscending order.now }
    ensures found { IfSome result (λ k. slice_get order.now k ≡ Some p) }
    ensures none { IfNone result (Contains order.now p → ⊥) }
{
    match order.binary_search_by_key(&p, |q| *q) {
        Ok(place) => Some(place),
        Err(_) => None,
    }
}

/// The entry to which a path leads.
fn target_of(meaning: &Meaning<'_>, e: Prefix, kind: PathKind) -> Option<Prefix>
    ensures { option_to_list result ≡ kind_targets meaning.now e kind }
{
    match kind {
        PathKind::Recursive(a) => Some(Prefix::host(a)),
        PathKind::Cover => Some(meaning.cover(e.bits())),
        _ => None,
    }
}

/// Appends the edge of a path of the entry at that place.
fn add_path(
    out: &mut Vec<(u32, u32)>,
    meaning: &Meaning<'_>,
    order: &[Prefix],
    from: usize,
    kind: PathKind,
) -> Result<(), AllocError>
    requires ascending { IsAscending order.now }
    requires few { length order.now < 2 ^ 32 }
    requires inside { from < length order.now }
    ensures { OnOk result ((e : PrefixValue) → slice_get order.now from ≡ Some e
        → AddsPath meaning.now order.now from e kind out.old.items out.new.items) }
{
    let Some(target) = target_of(meaning, order[from], kind) else {
        return Ok(());
    };
    let Some(to) = place_of(order, target) else {
        return Ok(());
    };
    out.push((from as u32, to as u32))?;
    Ok(())
}

/// Appends the edges of the entry at that place.
fn add_paths(
    out: &mut Vec<(u32, u32)>,
    meaning: &Meaning<'_>,
    order: &[Prefix],
    from: usize,
) -> Result<(), AllocError>
    requires ascending { IsAscending order.now }
    requires few { length order.now < 2 ^ 32 }
    requires inside { from < length order.now }
    ensures { OnOk result ((e : PrefixValue) → slice_get order.now from ≡ Some e
        → AddsPaths meaning.now order.now from e (chosen meaning.now e) out.old.items out.new.items) }
{
    for p in meaning.chosen(order[from]) {
        add_path(out, meaning, order, from, p.kind)?;
    }
    Ok(())
}

/// The edges, looped or not, with repeats.
pub fn edges_of(
    alloc: Global,
    meaning: &Meaning<'_>,
    order: &[Prefix],
) -> Result<Vec<(u32, u32)>, AllocError>
    requires ascending { IsAscending order.now }
    requires few { length order.now < 2 ^ 32 }
    ensures { IfOk result (λ v. AreEdgesOf meaning.now order.now (length order.now) v.items) }
{
    let mut out = Vec::with_capacity(alloc, order.len())?;
    for from in 0..order.len() {
        add_paths(&mut out, meaning, order, from)?;
    }
    Ok(out)
}

fn add_if(out: &mut Vec<(u32, u32)>, test: bool, edge: (u32, u32)) -> Result<(), AllocError>
    ensures { OnOk result (out.new.items ≡ (if test then out.old.items ++ edge ∷ [] else out.old.items)) }
{
    if test {
        out.push(edge)?;
    }
    Ok(())
}

/// Those of the edges that are left without looped paths.
pub fn kept_of(
    alloc: Global,
    meaning: &Meaning<'_>,
    order: &[Prefix],
    edges: &[(u32, u32)],
) -> Result<Vec<(u32, u32)>, AllocError>
    requires edges { AreEdgesOf meaning.now order.now (length order.now) edges.now }
    ensures { IfOk result (λ v. AreKeptEdges meaning.now order.now (length order.now) v.items) }
{
    let mut out = Vec::with_capacity(alloc, edges.len())?;
    for place in 0..edges.len() {
        let edge = edges[place];
        let kept = keeps(meaning, order[edge.0 as usize], order[edge.1 as usize]);
        add_if(&mut out, kept, edge)?;
    }
    Ok(out)
}
