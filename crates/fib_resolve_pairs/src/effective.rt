// The effective pairs and entries.
ghost use Rattle.std.specs.Prelude.{◌≡◌, ◌++◌, OnOk, IfOk, map, flat_map};
ghost use Rattle.std.specs.Set.{unique_keys};
ghost use Rattle.fib_resolve.specs.Pairs.{neighbor_pairs, derived_pair, base_pairs, same_pair, pairs, entries, prefix_of};

use crate::covers::Covers;
use crate::keyed::distinct_pairs;
use crate::repeats::distinct;
use crate::{base, paths};
use fib_addr::{Addr, Prefix};
use fib_resolve::{FibSource, Neighbor, Pair, PathKind};
use std::alloc::{AllocError, Global};

#[tactic(auto, unfolding(fib_resolve::specs::Pairs::neighbor_pairs))]
fn add_neighbor(
    out: &mut Vec<Pair>,
    alloc: Global,
    covers: &Covers<'_>,
    n: &Neighbor,
) -> Result<(), AllocError>
    ensures { OnOk result (out.new.items ≡ out.old.items ++ neighbor_pairs covers.now n.now) }
{
    let kind = PathKind::Hop {
        next_hop: n.addr,
        interface: n.interface,
    };
    match covers.attached_by(n.addr) {
        Some(i) if i == n.interface => base::add(
            out,
            alloc,
            Prefix::host(n.addr),
            FibSource::Adjacency,
            kind,
        ),
        _ => Ok(()),
    }
}

fn add_neighbors(out: &mut Vec<Pair>, alloc: Global, covers: &Covers<'_>) -> Result<(), AllocError>
    ensures { OnOk result (out.new.items ≡ out.old.items ++ flat_map (neighbor_pairs covers.now) covers.now.neighbors) }
{
    let neighbors = &covers.tables().neighbors;
    for place in 0..neighbors.len() {
        add_neighbor(out, alloc, covers, &neighbors[place])?;
    }
    Ok(())
}

#[tactic(auto, unfolding(fib_resolve::specs::Pairs::derived_pair))]
fn derived_pair(alloc: Global, covers: &Covers<'_>, addr: Addr) -> Result<Pair, AllocError>
    ensures { IfOk result (λ x. x ≡ derived_pair covers.now addr) }
{
    let kind = match covers.attached_by(addr) {
        Some(interface) => PathKind::Hop {
            next_hop: addr,
            interface,
        },
        None => PathKind::Cover,
    };
    base::one(
        alloc,
        Prefix::host(addr),
        FibSource::RecursiveResolution,
        kind,
    )
}

fn add_derived(
    out: &mut Vec<Pair>,
    alloc: Global,
    covers: &Covers<'_>,
    hops: &[Addr],
) -> Result<(), AllocError>
    ensures { OnOk result (out.new.items ≡ out.old.items ++ map (derived_pair covers.now) hops.now) }
{
    for a in hops {
        out.push(derived_pair(alloc, covers, *a)?)?;
    }
    Ok(())
}

/// The pairs that depend on covers: those of neighbors with repeats, and that of each next hop once.
fn covered_pairs(alloc: Global, covers: &Covers<'_>) -> Result<Vec<Pair>, AllocError>
    ensures { IfOk result (λ v. unique_keys same_pair (base_pairs covers.now ++ v.items) ≡ pairs covers.now) }
{
    let tables = covers.tables();
    let hops = paths::recursive_hops(alloc, &tables.routes)?;
    let hops = distinct(alloc, hops.as_slice())?;
    let mut out = Vec::new(alloc);
    add_neighbors(&mut out, alloc, covers)?;
    add_derived(&mut out, alloc, covers, hops.as_slice())?;
    Ok(out)
}

/// The effective pairs, each once.
pub fn pairs(alloc: Global, covers: &Covers<'_>) -> Result<Vec<Pair>, AllocError>
    ensures { IfOk result (λ v. v.items ≡ pairs covers.now) }
{
    let covered = covered_pairs(alloc, covers)?;
    distinct_pairs(alloc, covers.base_pairs(), covered.as_slice())
}

/// The prefixes of the pairs.
pub fn prefixes_of(alloc: Global, pairs: &[Pair]) -> Result<Vec<Prefix>, AllocError>
    ensures { IfOk result (λ v. v.items ≡ map prefix_of pairs.now) }
{
    pairs.iter().map(|x| x.prefix).collect(alloc)
}
