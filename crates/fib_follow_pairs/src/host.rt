// What a neighbor and a next hop bring a host.
ghost use Rattle.std.specs.Prelude.{◌≡◌, ◌↔◌, ◌∷◌, ◌++◌, ◌||◌, [], ℕ, Contains, IfOk, IsTrue, OnOk};
ghost use Rattle.std.specs.List.{list_any};
ghost use Rattle.fib_addr.specs.Prefixes.{host};
ghost use Rattle.fib_resolve.specs.Edits.{paths_at};
ghost use Rattle.fib_resolve.specs.Pairs.{attached_by, base_pairs, cover, derived_kind, one, pairs};
ghost use Rattle.fib_resolve_changes.specs.Sources.{all_hops};
ghost use Rattle.fib_follow_pairs.specs.Fresh.{ArePairsAt, HoldsWays, IsHost};
ghost use Rattle.fib_follow_pairs.specs.inner.Parts.{near_at, near_with, hop_at, leads_to, is_way};

use crate::base::{add, attached_at, base_pairs};
use fib_addr::{Addr, Prefix};
use fib_config::Config;
use fib_resolve::{FibSource, Pair, Path, PathKind};
use std::alloc::{AllocError, Global};

/// What tables say of an address beside its host's own base pairs.
#[derive(Clone, Copy, Debug)]
pub struct Host {
    /// The longest prefix below 32 that contains it.
    pub cover: Prefix,
    /// The interface to which that attaches it.
    pub attached: Option<u32>,
    /// Whether it is a next hop of a route.
    pub is_hop: bool,
}

/// Whether one of the paths has the address as next hop.
fn leads_to(addr: Addr, paths: &[Path]) -> bool
    ensures { result ≡ list_any (leads_to addr) paths.now }
{
    paths.iter().any(|p| p.kind.recursive() == Some(addr))
}

/// Whether a route of the prefix has the address as next hop.
fn is_way(config: &Config, addr: Addr, prefix: Prefix) -> bool
    ensures { result ≡ is_way config.now.tables addr prefix }
{
    leads_to(addr, config.paths_of(prefix, FibSource::Api))
        || leads_to(addr, config.paths_of(prefix, FibSource::Cli))
}

fn has_way(config: &Config, addr: Addr, among: &[Prefix]) -> bool
    ensures { result ≡ list_any (is_way config.now.tables addr) among.now }
{
    match among {
        [prefix, others @ ..] => { is_way(config, addr, *prefix) || has_way(config, addr, others) }
        [] => false,
    }
}

/// Whether the address is a next hop of a route, chosen or hidden, where that route's prefix is among those given, which may be more.
#[tactic(auto, using(crate::proofs::Hosted::ways_are))]
pub fn is_next_hop(config: &Config, addr: Addr, among: &[Prefix]) -> bool
    requires { HoldsWays config.now.tables addr among.now }
    ensures { IsTrue result ↔ Contains (all_hops config.now.tables) addr }
{
    // Read so that the proof knows that the tables are sound.
    let _tables = config.tables();
    has_way(config, addr, among)
}

/// What the tables say of the address, whose cover is that. The routes that have it as next hop are of prefixes among those given, which
/// may be more. An error means that memory ran out.
#[tactic(auto, using(crate::proofs::Hosted::attached_through))]
pub fn host_under(
    alloc: Global,
    config: &Config,
    addr: Addr,
    over: Prefix,
    among: &[Prefix],
) -> Result<Host, AllocError>
    requires cover { over ≡ cover config.now.tables addr }
    requires among { HoldsWays config.now.tables addr among.now }
    ensures { IfOk result (λ h. IsHost config.now.tables addr h) }
{
    Ok(Host {
        cover: over,
        attached: attached_at(alloc, config, over)?,
        is_hop: is_next_hop(config, addr, among),
    })
}

/// Appends the pair of a neighbor on the interface to which the address is attached.
fn add_near(
    out: &mut Vec<Pair>,
    alloc: Global,
    config: &Config,
    addr: Addr,
    attached: Option<u32>,
) -> Result<(), AllocError>
    ensures { OnOk result (out.new.items ≡ out.old.items ++ near_at config.now.tables addr attached) }
{
    let Some(interface) = attached else {
        return Ok(());
    };
    if config.mac_of(interface, addr).is_none() {
        return Ok(());
    }
    let kind = PathKind::Hop {
        next_hop: addr,
        interface,
    };
    add(out, alloc, Prefix::host(addr), FibSource::Adjacency, kind)
}

/// Appends the pair of a next hop.
fn add_hop(
    out: &mut Vec<Pair>,
    alloc: Global,
    addr: Addr,
    attached: Option<u32>,
    is_hop: bool,
) -> Result<(), AllocError>
    ensures { OnOk result (out.new.items ≡ out.old.items ++ hop_at addr attached is_hop) }
{
    if !is_hop {
        return Ok(());
    }
    let kind = match attached {
        Some(interface) => PathKind::Hop {
            next_hop: addr,
            interface,
        },
        None => PathKind::Cover,
    };
    add(
        out,
        alloc,
        Prefix::host(addr),
        FibSource::RecursiveResolution,
        kind,
    )
}

/// The pairs of a host, each source once, the best first. An error means that memory ran out.
#[tactic(auto, using(crate::proofs::Hosted::host_is))]
pub fn host_pairs(
    alloc: Global,
    config: &Config,
    addr: Addr,
    around: Host,
) -> Result<Vec<Pair>, AllocError>
    requires { IsHost config.now.tables addr around }
    ensures { IfOk result (λ v. ArePairsAt (pairs config.now.tables) (host addr) v.items) }
{
    // Read so that the proof knows that the tables are sound.
    let _tables = config.tables();
    let mut out = base_pairs(alloc, config, Prefix::host(addr))?;
    add_near(&mut out, alloc, config, addr, around.attached)?;
    add_hop(&mut out, alloc, addr, around.attached, around.is_hop)?;
    Ok(out)
}
