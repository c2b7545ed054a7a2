// The public calls once, over the fresh tables; the crates above compare them with worked and generated tables. Each test owns what it looks
// at and has one assertion: the prover follows every way out past every owner.
use crate::expect::holds;
use fib_addr::{Addr, Prefix};
use fib_base_blocks::Blocks;
use fib_base_list::List;
use fib_resolve::{Adjacency, FibSource, Need, Pair, Path, PathKind, Route, Tables};
use fib_resolve_pairs::{
    Known, add_adjacencies, adjacency_of, distinct, first_places, is_same_list, is_same_pair,
    recursive_hop, recursive_hops, size,
};
use std::alloc::{AllocError, Global};
use std::test::Fail;

/// Whether the fresh tables are known by their pairs and entries.
fn has_fixed_entries(known: &Known) -> bool {
    known.tables().routes.len() == 0 && known.pairs().len() == 5 && known.entries().len() == 5
}

/// Whether numbers and best pairs are those of the default route alone.
fn finds_everything(known: &Known, everything: Prefix, inside: Addr) -> bool {
    known.number(Prefix::host(inside)).is_none()
        && known.number(everything).is_some()
        && known.best_pair(Prefix::host(inside)).is_none()
        && known.chosen(everything).len() == 1
        && !known.is_derived(everything)
}

/// Whether the default route covers the address, and a cover path leads there.
fn covers(known: &Known, everything: Prefix, inside: Addr) -> bool {
    known.cover(inside) == everything && known.goal(everything, PathKind::Cover) == Some(everything)
}

/// How many Hop ends are known.
fn ends_known(alloc: Global, known: &Known) -> Result<usize, AllocError> {
    Ok(known.adjacencies(alloc)?.len())
}

fn is_first_itself(pairs: &[Pair]) -> bool {
    pairs.len() > 0 && is_same_pair(&pairs[0], &pairs[0])
}

fn says_what_fresh_tables_say(alloc: Global, known: &Known) -> Result<bool, AllocError> {
    let everything = Prefix::masked(Addr(0), 0);
    let inside = Addr(0x0a01_0203);
    Ok(
        has_fixed_entries(known)
            && finds_everything(known, everything, inside)
            && covers(known, everything, inside)
            && is_first_itself(known.pairs())
            && ends_known(alloc, known)? == 0
            && known.size(alloc)? == 20,
    )
}

#[test]
fn what_the_fresh_tables_say(rt: HostRuntime) -> Result<(), Fail> {
    let alloc = rt.alloc();
    let fresh = Tables::fresh(alloc);
    let known = Known::of(alloc, &fresh)?;
    holds(
        &rt,
        size(alloc, &fresh)? == 20 && says_what_fresh_tables_say(alloc, &known)?,
    );
    Ok(())
}

fn path_to(hop: Addr) -> Path {
    Path {
        kind: PathKind::Recursive(hop),
        need: Need::Any,
        weight: 1,
        preference: 0,
    }
}

/// A route with a path to the address twice.
fn route_over(alloc: Global, hop: Addr) -> Result<Route, AllocError> {
    let twice = [path_to(hop), path_to(hop)];
    let paths = List::from_vec(Vec::from_slice(alloc, &twice)?);
    Ok(Route {
        prefix: Prefix::host(Addr(1)),
        source: FibSource::Api,
        paths,
    })
}

/// Whether both paths lead to the address.
fn leads_to(paths: &[Path], hop: Addr) -> bool {
    paths.len() == 2 && recursive_hop(&paths[0]) == Some(hop) && is_same_list(paths, paths)
}

/// Whether only a path over an interface has an end there.
fn ends_on_links(alloc: Global, paths: &[Path], hop: Addr) -> Result<bool, AllocError> {
    let link = Adjacency {
        interface: 3,
        next_hop: hop,
    };
    let mut out = Vec::new(alloc);
    add_adjacencies(&mut out, Prefix::host(hop), paths)?;
    Ok(out.is_empty() && adjacency_of(Prefix::host(hop), PathKind::Attached(3)) == Some(link))
}

/// Whether the routes' next hops are that one, twice in a row.
fn is_hop_of(alloc: Global, routes: &Blocks<Route>, hop: Addr) -> Result<bool, AllocError> {
    let hops = recursive_hops(alloc, routes)?;
    Ok(hops.as_slice() == [hop, hop].as_slice() && is_once(alloc, hops.as_slice(), hop)?)
}

fn is_once(alloc: Global, hops: &[Addr], hop: Addr) -> Result<bool, AllocError> {
    let once = distinct(alloc, hops)?;
    Ok(once.as_slice() == [hop].as_slice() && first_place(alloc, hops, hop)? == Some(0))
}

fn first_place(alloc: Global, hops: &[Addr], hop: Addr) -> Result<Option<usize>, AllocError> {
    let places = first_places(alloc, hops)?;
    Ok(places.get(&hop).copied())
}

fn says_what_its_paths_say(alloc: Global, route: &Route, hop: Addr) -> Result<bool, AllocError> {
    let paths = route.paths.as_slice();
    Ok(leads_to(paths, hop) && ends_on_links(alloc, paths, hop)?)
}

#[test]
fn what_a_path_says(rt: HostRuntime) -> Result<(), Fail> {
    let alloc = rt.alloc();
    let hop = Addr(7);
    let route = route_over(alloc, hop)?;
    holds(&rt, says_what_its_paths_say(alloc, &route, hop)?);
    let mut routes = Blocks::new(alloc);
    routes.push(route)?;
    holds(&rt, is_hop_of(alloc, &routes, hop)?);
    Ok(())
}
