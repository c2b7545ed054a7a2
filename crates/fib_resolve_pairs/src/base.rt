// The pairs that depend on no cover.
ghost use Rattle.std.specs.Prelude.{List, ◌≡◌, ◌≤◌, ◌<◌, ◌++◌, ◌∷◌, [], OnOk, IfOk, map, flat_map, length};
ghost use Rattle.std.specs.List.{list_any, AllByRecursion, All};
ghost use Rattle.fib_resolve.specs.Pairs.{plain, one, fixed_pairs, connected_pairs, edge_pairs, edge_pair, edge_addresses, route_pair, base_pairs};
ghost use Rattle.fib_resolve.specs.Tables.{IsSound};
ghost use Rattle.fib_resolve.specs.declared.types.Address.{Address as AddressValue};
ghost use Rattle.fib_resolve_pairs.specs.inner.Places.{AreOwn};

use fib_addr::{Addr, Prefix};
use fib_base_list::{Duplicate, List};
use fib_resolve::{Address, Blocks, FibSource, Need, Pair, Path, PathKind, Route, Tables};
use std::alloc::{AllocError, Global};
use std::collections::HashSet;

fn plain(kind: PathKind) -> Path
    ensures { result ≡ plain kind }
{
    Path {
        kind,
        need: Need::Any,
        weight: 1,
        preference: 0,
    }
}

/// A pair of one plain path.
pub fn one(
    alloc: Global,
    prefix: Prefix,
    source: FibSource,
    kind: PathKind,
) -> Result<Pair, AllocError>
    ensures { IfOk result (λ x. x ≡ one prefix source kind) }
{
    let mut paths = List::new(alloc);
    paths.push(plain(kind))?;
    Ok(Pair {
        prefix,
        source,
        paths,
    })
}

/// Appends a pair of one plain path.
pub fn add(
    out: &mut Vec<Pair>,
    alloc: Global,
    prefix: Prefix,
    source: FibSource,
    kind: PathKind,
) -> Result<(), AllocError>
    ensures { OnOk result (out.new.items ≡ out.old.items ++ one prefix source kind ∷ []) }
{
    out.push(one(alloc, prefix, source, kind)?)?;
    Ok(())
}

fn add_fixed(out: &mut Vec<Pair>, alloc: Global) -> Result<(), AllocError>
    ensures { OnOk result (out.new.items ≡ out.old.items ++ fixed_pairs) }
{
    add(
        out,
        alloc,
        Prefix::masked(Addr(0), 0),
        FibSource::DefaultRoute,
        PathKind::Drop,
    )?;
    add(
        out,
        alloc,
        Prefix::host(Addr(0)),
        FibSource::Special,
        PathKind::Drop,
    )?;
    add(
        out,
        alloc,
        Prefix::masked(Addr(0xe000_0000), 4),
        FibSource::Special,
        PathKind::Drop,
    )?;
    add(
        out,
        alloc,
        Prefix::masked(Addr(0xf000_0000), 4),
        FibSource::Special,
        PathKind::Drop,
    )?;
    add(
        out,
        alloc,
        Prefix::host(Addr(0xffff_ffff)),
        FibSource::Special,
        PathKind::Drop,
    )
}

fn add_connected(out: &mut Vec<Pair>, alloc: Global, a: &Address) -> Result<(), AllocError>
    requires { a.now.len ≤ 32 }
    ensures { OnOk result (out.new.items ≡ out.old.items ++ connected_pairs a.now) }
{
    if a.len < 32 {
        let prefix = Prefix::masked(a.addr, a.len);
        add(
            out,
            alloc,
            prefix,
            FibSource::Interface,
            PathKind::Attached(a.interface),
        )?;
    }
    add(
        out,
        alloc,
        Prefix::host(a.addr),
        FibSource::Interface,
        PathKind::Local,
    )
}

/// The addresses of interfaces.
fn own_addresses(alloc: Global, addresses: &[Address]) -> Result<HashSet<Addr>, AllocError>
    ensures { IfOk result (λ s. AreOwn addresses.now s.keys) }
{
    let mut set = HashSet::new(alloc);
    for a in addresses {
        set.insert(a.addr)?;
    }
    Ok(set)
}

fn add_edges(
    out: &mut Vec<Pair>,
    alloc: Global,
    own: &HashSet<Addr>,
    a: &Address,
) -> Result<(), AllocError>
    requires { a.now.len ≤ 32 }
    ensures { OnOk result ((xs : List AddressValue) → AreOwn xs own.now.keys → out.new.items ≡ out.old.items ++ edge_pairs xs a.now) }
{
    if a.len <= 30 {
        let prefix = Prefix::masked(a.addr, a.len);
        let low = prefix.bits();
        let high = prefix.last();
        add_edge(out, alloc, own, low)?;
        add_edge(out, alloc, own, high)?;
    }
    Ok(())
}

fn add_edge(
    out: &mut Vec<Pair>,
    alloc: Global,
    own: &HashSet<Addr>,
    x: Addr,
) -> Result<(), AllocError>
    ensures { OnOk result ((xs : List AddressValue) → AreOwn xs own.now.keys → out.new.items ≡ out.old.items ++ edge_pair xs x) }
{
    if !own.contains(&x) {
        add(
            out,
            alloc,
            Prefix::host(x),
            FibSource::Interface,
            PathKind::Drop,
        )?;
    }
    Ok(())
}

fn add_all_connected(
    out: &mut Vec<Pair>,
    alloc: Global,
    addresses: &[Address],
) -> Result<(), AllocError>
    requires { All (λ a. a.len ≤ 32) addresses.now }
    ensures { OnOk result (out.new.items ≡ out.old.items ++ flat_map connected_pairs addresses.now) }
{
    for a in addresses {
        add_connected(out, alloc, a)?;
    }
    Ok(())
}

fn add_all_edges(
    out: &mut Vec<Pair>,
    alloc: Global,
    addresses: &[Address],
) -> Result<(), AllocError>
    requires { All (λ a. a.len ≤ 32) addresses.now }
    ensures { OnOk result (out.new.items ≡ out.old.items ++ flat_map (edge_pairs addresses.now) addresses.now) }
{
    let own = own_addresses(alloc, addresses)?;
    for a in addresses {
        add_edges(out, alloc, &own, a)?;
    }
    Ok(())
}

fn route_pair(alloc: Global, r: &Route) -> Result<Pair, AllocError>
    ensures { IfOk result (λ x. x ≡ route_pair r.now) }
{
    Ok(Pair {
        prefix: r.prefix,
        source: r.source,
        paths: r.paths.duplicate(alloc)?,
    })
}

fn add_routes(out: &mut Vec<Pair>, alloc: Global, routes: &Blocks<Route>) -> Result<(), AllocError>
    ensures { OnOk result (out.new.items ≡ out.old.items ++ map route_pair routes.now) }
{
    for place in 0..routes.len() {
        out.push(route_pair(alloc, &routes[place])?)?;
    }
    Ok(())
}

/// The pairs that depend on no cover, with repeats.
#[tactic(auto, using(fib_resolve::proofs::Sound::short_addresses), unfolding(fib_resolve::specs::Pairs::base_pairs))]
pub fn base_pairs(alloc: Global, tables: &Tables) -> Result<Vec<Pair>, AllocError>
    requires { IsSound tables.now }
    ensures { IfOk result (λ v. v.items ≡ base_pairs tables.now) }
{
    let mut out = Vec::new(alloc);
    let addresses = tables.addresses.as_slice();
    add_fixed(&mut out, alloc)?;
    add_all_connected(&mut out, alloc, addresses)?;
    add_all_edges(&mut out, alloc, addresses)?;
    add_routes(&mut out, alloc, &tables.routes)?;
    Ok(out)
}
