// An upper bound on the size of tables, for which no cover is sought, and by how much an edit raises it.
ghost use Rattle.std.specs.Prelude.{◌≡◌, ℕ, ◌≤◌, ◌<◌, ◌+◌, ◌-◌, ◌^◌, ◌/◌, ◌++◌, ◌∷◌, [], true, OnOk, IfOk, map, flat_map, filter_map};
ghost use Rattle.std.specs.Prelude.{length, count_by, sum_by, Contains, not};
ghost use Rattle.std.specs.List.{AllByRecursion, All, range_with_len};
ghost use Rattle.fib_addr.specs.Longest.{everything};
ghost use Rattle.fib_addr.specs.Prefixes.{host};
ghost use Rattle.fib_resolve.specs.Pairs.{fixed_pairs, prefix_of};
ghost use Rattle.fib_resolve.specs.Sizes.{same_adjacency};
ghost use Rattle.std.specs.Set.{unique_keys};
ghost use Rattle.std.specs.List.Sorted.{IsPermutation};
ghost use Rattle.fib_resolve_changes.specs.Sources.{all_hops};
ghost use Rattle.fib_resolve.specs.Tables.{IsSound};
ghost use Rattle.fib_config.specs.inner.Bounds.{own_prefixes, prefix_of_route, host_of, candidates, depth_of, is_shared, left_behind};
ghost use Rattle.fib_config.specs.inner.Bounds.{steps, route_ends, neighbor_end, ends, same_number, allowance, growth, IsBoundFor};

use fib_addr::{Addr, Prefix};
use fib_resolve::{Address, Adjacency, Blocks, Edit, Neighbor, Route, Tables};
use std::alloc::{AllocError, Global};

fn add_fixed_prefixes(out: &mut Vec<Prefix>) -> Result<(), AllocError>
    ensures { OnOk result (out.new.items ≡ out.old.items ++ map prefix_of fixed_pairs) }
{
    out.push(Prefix::masked(Addr(0), 0))?;
    out.push(Prefix::host(Addr(0)))?;
    out.push(Prefix::masked(Addr(0xe000_0000), 4))?;
    out.push(Prefix::masked(Addr(0xf000_0000), 4))?;
    out.push(Prefix::host(Addr(0xffff_ffff)))?;
    Ok(())
}

fn add_own(out: &mut Vec<Prefix>, a: &Address) -> Result<(), AllocError>
    requires { a.now.len ≤ 32 }
    ensures { OnOk result (out.new.items ≡ out.old.items ++ own_prefixes a.now) }
{
    let prefix = Prefix::masked(a.addr, a.len);
    out.push(prefix)?;
    out.push(Prefix::host(a.addr))?;
    out.push(Prefix::host(prefix.bits()))?;
    out.push(Prefix::host(prefix.last()))?;
    Ok(())
}

fn add_all_own(out: &mut Vec<Prefix>, addresses: &[Address]) -> Result<(), AllocError>
    requires { All (λ a. a.len ≤ 32) addresses.now }
    ensures { OnOk result (out.new.items ≡ out.old.items ++ flat_map own_prefixes addresses.now) }
{
    for a in addresses {
        add_own(out, a)?;
    }
    Ok(())
}

fn add_route_prefixes(out: &mut Vec<Prefix>, routes: &Blocks<Route>) -> Result<(), AllocError>
    ensures { OnOk result (out.new.items ≡ out.old.items ++ map prefix_of_route routes.now) }
{
    for place in 0..routes.len() {
        out.push(routes[place].prefix)?;
    }
    Ok(())
}

fn add_neighbor_hosts(out: &mut Vec<Prefix>, neighbors: &Blocks<Neighbor>) -> Result<(), AllocError>
    ensures { OnOk result (out.new.items ≡ out.old.items ++ map host_of neighbors.now) }
{
    for place in 0..neighbors.len() {
        out.push(Prefix::host(neighbors[place].addr))?;
    }
    Ok(())
}

fn add_hosts(out: &mut Vec<Prefix>, hops: &[Addr]) -> Result<(), AllocError>
    ensures { OnOk result (out.new.items ≡ out.old.items ++ map host hops.now) }
{
    for hop in hops {
        out.push(Prefix::host(*hop))?;
    }
    Ok(())
}

// Every prefix that can be effective, with repeats.
#[tactic(auto, using(fib_resolve::proofs::Sound::short_addresses), unfolding(crate::specs::inner::Bounds::candidates))]
fn candidates(alloc: Global, tables: &Tables, hops: &[Addr]) -> Result<Vec<Prefix>, AllocError>
    requires { IsSound tables.now }
    ensures { IfOk result (λ v. v.items ≡ candidates tables.now hops.now) }
{
    let mut out = Vec::new(alloc);
    add_fixed_prefixes(&mut out)?;
    add_all_own(&mut out, tables.addresses.as_slice())?;
    add_route_prefixes(&mut out, &tables.routes)?;
    add_neighbor_hosts(&mut out, &tables.neighbors)?;
    add_hosts(&mut out, hops)?;
    Ok(out)
}

fn depth_of(p: Prefix) -> u8
    ensures value { result ≡ depth_of p }
    ensures bound { result ≤ 8 }
{
    (p.len() + 3) / 4
}

// Whether the k-th ply on the way to the first prefix lies on the way to the second too.
fn is_shared(p: Prefix, q: Prefix, k: u8) -> bool
    ensures { result ≡ is_shared p q k }
{
    k < depth_of(q)
        && {
            let rest = 32 - 4 * k;
            u64::from(p.bits().0) >> rest == u64::from(q.bits().0) >> rest
        }
}

fn plies_left_behind(p: Prefix, q: Prefix) -> usize
    ensures value { result ≡ count_by (λ k. not (is_shared p q k)) (range_with_len 0 (depth_of p)) }
{
    (0..depth_of(p)).filter(|k| !is_shared(p, q, *k)).count()
}

// The entry and the plies of the first that the second doesn't have.
#[tactic(auto, unfolding(crate::specs::inner::Bounds::left_behind))]
fn left_behind(p: Prefix, q: Prefix) -> usize
    ensures { IsBoundFor result (left_behind p q) }
{
    let entries = if p == q { 0 } else { 1 };
    plies_left_behind(p, q).saturating_add(entries)
}

// The entries and plies of the prefixes and of 0.0.0.0/0, where each counts unless the next prefix has it.
#[tactic(auto, unfolding(crate::specs::inner::Bounds::steps))]
fn steps(prefixes: &[Prefix]) -> usize
    ensures { IsBoundFor result (steps everything prefixes.now) }
{
    let mut count = 0usize;
    let mut last = Prefix::masked(Addr(0), 0);
    for p in prefixes {
        count = count.saturating_add(left_behind(last, *p));
        last = *p;
    }
    count
        .saturating_add(1)
        .saturating_add(usize::from(depth_of(last)))
}

fn add_ends_of(out: &mut Vec<Adjacency>, route: &Route) -> Result<(), AllocError>
    ensures { OnOk result (out.new.items ≡ out.old.items ++ route_ends route.now) }
{
    fib_resolve_pairs::add_adjacencies(out, route.prefix, route.paths.as_slice())
}

fn add_route_ends(out: &mut Vec<Adjacency>, routes: &Blocks<Route>) -> Result<(), AllocError>
    ensures { OnOk result (out.new.items ≡ out.old.items ++ flat_map route_ends routes.now) }
{
    for place in 0..routes.len() {
        add_ends_of(out, &routes[place])?;
    }
    Ok(())
}

fn add_neighbor_ends(
    out: &mut Vec<Adjacency>,
    neighbors: &Blocks<Neighbor>,
) -> Result<(), AllocError>
    ensures { OnOk result (out.new.items ≡ out.old.items ++ map neighbor_end neighbors.now) }
{
    for place in 0..neighbors.len() {
        let n = &neighbors[place];
        out.push(Adjacency {
            interface: n.interface,
            next_hop: n.addr,
        })?;
    }
    Ok(())
}

// The Hop ends of all routes and neighbors, each once.
#[tactic(auto, unfolding(crate::specs::inner::Bounds::ends))]
fn ends(alloc: Global, tables: &Tables) -> Result<Vec<Adjacency>, AllocError>
    ensures { IfOk result (λ v. v.items ≡ unique_keys same_adjacency (ends tables.now)) }
{
    let mut out = Vec::new(alloc);
    add_route_ends(&mut out, &tables.routes)?;
    add_neighbor_ends(&mut out, &tables.neighbors)?;
    fib_resolve_pairs::distinct(alloc, out.as_slice())
}

// The next hops of all recursive paths, each once.
fn next_hops(alloc: Global, tables: &Tables) -> Result<Vec<Addr>, AllocError>
    ensures { IfOk result (λ v. v.items ≡ unique_keys same_number (all_hops tables.now)) }
{
    let hops = fib_resolve_pairs::recursive_hops(alloc, &tables.routes)?;
    fib_resolve_pairs::distinct(alloc, hops.as_slice())
}

// The prefixes that can be effective, in order.
fn sorted_candidates(
    alloc: Global,
    tables: &Tables,
    hops: &[Addr],
) -> Result<Vec<Prefix>, AllocError>
    requires { IsSound tables.now }
    ensures { IfOk result (λ v. IsPermutation (candidates tables.now hops.now) v.items) }
{
    let mut prefixes = candidates(alloc, tables, hops)?;
    prefixes.sort()?;
    Ok(prefixes)
}

// At least the number of Hop ends: an address and a next hop can have one each.
fn adjacencies(ends: &[Adjacency], addresses: &[Address], hops: &[Addr]) -> usize
    ensures { IsBoundFor result (length ends.now + length addresses.now + length hops.now) }
{
    ends.len()
        .saturating_add(addresses.len())
        .saturating_add(hops.len())
}

/// A number that the allowance of the tables doesn't exceed, unless that is 2^64 or more: it counts every prefix that an address, a
/// route, a neighbor or a next hop can make effective with its plies, and every Hop end, without a look at covers and sources.
pub fn allowance(alloc: Global, tables: &Tables) -> Result<usize, AllocError>
    requires { IsSound tables.now }
    ensures { IfOk result (λ bound. IsBoundFor bound (allowance tables.now)) }
{
    let hops = next_hops(alloc, tables)?;
    let prefixes = sorted_candidates(alloc, tables, hops.as_slice())?;
    let ends = ends(alloc, tables)?;
    let objects = steps(prefixes.as_slice()).saturating_add(1);
    let others = adjacencies(
        ends.as_slice(),
        tables.addresses.as_slice(),
        hops.as_slice(),
    );
    Ok(objects.saturating_add(others))
}

/// By how much the edit can raise the allowance of tables.
#[tactic(auto, unfolding(crate::specs::inner::Bounds::growth))]
pub fn growth(edit: &Edit) -> usize
    ensures { IsBoundFor result (growth edit.now) }
{
    match edit {
        Edit::AddAddress { .. } => 37,
        Edit::SetNeighbor { .. } => 10,
        Edit::AddRoute { prefix, paths, .. } => paths
            .len()
            .saturating_mul(10)
            .saturating_add(1 + usize::from(depth_of(*prefix))),
        Edit::DelRoute { prefix, .. } => 1 + usize::from(depth_of(*prefix)),
        Edit::CreateInterface(_)
        | Edit::SetState { .. }
        | Edit::DelAddress { .. }
        | Edit::DelNeighbor { .. } => 0,
    }
}
