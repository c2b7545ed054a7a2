// What paths and their lists tell by themselves.
ghost use Rattle.std.specs.Prelude.{◌≡◌, ◌++◌, IfOk, OnOk, filter_map, flat_map, option_to_list};
ghost use Rattle.std.specs.Cmp.Lexicographic.{pointwise};
ghost use Rattle.fib_resolve.specs.Keys.{same_path};
ghost use Rattle.fib_resolve.specs.Pairs.{recursive_of, recursive_hops};
ghost use Rattle.fib_resolve.specs.Sizes.{kind_adjacency};

use fib_addr::{Addr, Prefix};
use fib_resolve::{Adjacency, Blocks, Path, PathKind, Route, keys};
use std::alloc::{AllocError, Global};

/// The next hop of a recursive path.
pub fn recursive_hop(path: &Path) -> Option<Addr>
    ensures { result ≡ recursive_of path.now }
{
    path.kind.recursive()
}

fn hops_of(alloc: Global, paths: &[Path]) -> Result<Vec<Addr>, AllocError>
    ensures { IfOk result (λ v. v.items ≡ filter_map recursive_of paths.now) }
{
    paths.iter().filter_map(|p| recursive_hop(p)).collect(alloc)
}

/// The next hops of all recursive paths of the routes, in their order and with repeats.
pub fn recursive_hops(alloc: Global, routes: &Blocks<Route>) -> Result<Vec<Addr>, AllocError>
    ensures { IfOk result (λ v. v.items ≡ flat_map recursive_hops routes.now) }
{
    let mut out = Vec::new(alloc);
    for place in 0..routes.len() {
        let r = &routes[place];
        let hops = hops_of(alloc, r.paths.as_slice())?;
        out.extend_from_slice(hops.as_slice())?;
    }
    Ok(out)
}

/// The Hop end of an entry's path, usable or not, if it has one: a Hop path has one, and an Attached path of an address.
pub fn adjacency_of(entry: Prefix, kind: PathKind) -> Option<Adjacency>
    ensures { option_to_list result ≡ kind_adjacency entry kind }
{
    match kind {
        PathKind::Hop {
            next_hop,
            interface,
        } => Some(Adjacency {
            interface,
            next_hop,
        }),
        PathKind::Attached(interface) if entry.len() == 32 => Some(Adjacency {
            interface,
            next_hop: entry.bits(),
        }),
        _ => None,
    }
}

/// Appends the Hop ends of an entry's paths, usable or not.
pub fn add_adjacencies(
    out: &mut Vec<Adjacency>,
    entry: Prefix,
    paths: &[Path],
) -> Result<(), AllocError>
    ensures { OnOk result (out.new.items ≡ out.old.items ++ flat_map (λ p. kind_adjacency entry p.kind) paths.now) }
{
    for p in paths {
        if let Some(adjacency) = adjacency_of(entry, p.kind) {
            out.push(adjacency)?;
        }
    }
    Ok(())
}

/// Whether two lists have the same paths in the same order.
pub fn is_same_list(xs: &[Path], ys: &[Path]) -> bool
    ensures { result ≡ pointwise same_path xs.now ys.now }
{
    match (xs, ys) {
        ([], []) => true,
        ([x, others @ ..], [y, rest @ ..]) => keys::is_same_path(x, y)
            && is_same_list(others, rest),
        _ => false,
    }
}
