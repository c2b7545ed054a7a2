// The pairs of a prefix, where what is known of a host may be known of some tables before alone.
ghost use Rattle.std.specs.Prelude.{◌≡◌, ◌∷◌, ◌++◌, [], IfOk, OnOk};
ghost use Rattle.fib_addr.specs.Prefixes.{host};
ghost use Rattle.fib_resolve.specs.Pairs.{one, pairs};
ghost use Rattle.fib_follow_pairs.specs.Fresh.{ArePairsAt, IsAround, IsFresh, prefix_in};
ghost use Rattle.fib_follow_pairs.specs.inner.Parts.{cover_in, hop_at, near_at};
ghost use Rattle.fib_follow_looked.specs.inner.Finding.{with_late};

use fib_addr::{Addr, Prefix};
use fib_config::Config;
use fib_follow_pairs::{Fresh, FreshEntry, Host, base_pairs};
use fib_resolve::{FibSource, List, Need, Pair, Path, PathKind};
use std::alloc::{AllocError, Global};

/// Appends the host's pair of one plain path.
fn add(
    out: &mut Vec<Pair>,
    alloc: Global,
    addr: Addr,
    source: FibSource,
    kind: PathKind,
) -> Result<(), AllocError>
    ensures { OnOk result (out.new.items ≡ out.old.items ++ one (host addr) source kind ∷ []) }
{
    let mut paths = List::new(alloc);
    paths.push(Path {
        kind,
        need: Need::Any,
        weight: 1,
        preference: 0,
    })?;
    out.push(Pair {
        prefix: Prefix::host(addr),
        source,
        paths,
    })?;
    Ok(())
}

/// Appends the pair of a neighbor on the interface to which the address is attached.
fn add_near(
    out: &mut Vec<Pair>,
    alloc: Global,
    config: &Config,
    addr: Addr,
    attached: Option<u32>,
) -> Result<(), AllocError>
    ensures { OnOk result (out.new.items ≡ out.old.items ++ near_at config.now.tables addr attached) }
{
    let Some(interface) = attached else {
        return Ok(());
    };
    if config.mac_of(interface, addr).is_none() {
        return Ok(());
    }
    let kind = PathKind::Hop {
        next_hop: addr,
        interface,
    };
    add(out, alloc, addr, FibSource::Adjacency, kind)
}

/// Appends the pair of a next hop.
fn add_hop(
    out: &mut Vec<Pair>,
    alloc: Global,
    addr: Addr,
    attached: Option<u32>,
    is_hop: bool,
) -> Result<(), AllocError>
    ensures { OnOk result (out.new.items ≡ out.old.items ++ hop_at addr attached is_hop) }
{
    if !is_hop {
        return Ok(());
    }
    let kind = match attached {
        Some(interface) => PathKind::Hop {
            next_hop: addr,
            interface,
        },
        None => PathKind::Cover,
    };
    add(out, alloc, addr, FibSource::RecursiveResolution, kind)
}

/// Appends what a cover, neighbors and next hops bring a host.
fn add_late(
    out: &mut Vec<Pair>,
    alloc: Global,
    config: &Config,
    addr: Addr,
    around: &Option<Host>,
) -> Result<(), AllocError>
    ensures { OnOk result (out.new.items ≡ with_late config.now.tables addr around.now out.old.items) }
{
    match around {
        Some(host) => {
            add_near(out, alloc, config, addr, host.attached)?;
            add_hop(out, alloc, addr, host.attached, host.is_hop)
        }
        None => Ok(()),
    }
}

/// The prefix's pairs, where that is known of it.
fn pairs_of(
    alloc: Global,
    config: &Config,
    e: Prefix,
    around: &Option<Host>,
) -> Result<Vec<Pair>, AllocError>
    ensures { IfOk result (λ v. IsAround config.now.tables e around.now → ArePairsAt (pairs config.now.tables) e v.items) }
{
    // Read so that the proof knows that the tables are sound.
    let _tables = config.tables();
    let mut out = base_pairs(alloc, config, e)?;
    add_late(&mut out, alloc, config, e.bits(), around)?;
    Ok(out)
}

fn cover_of(around: &Option<Host>) -> Option<Prefix>
    ensures { result ≡ cover_in around.now }
{
    match around {
        Some(host) => Some(host.cover),
        None => None,
    }
}

/// What the tables have of the prefix, where that is known of it.
pub fn made_of(
    alloc: Global,
    config: &Config,
    e: Prefix,
    around: &Option<Host>,
) -> Result<Fresh, AllocError>
    ensures prefix { IfOk result (λ f. prefix_in f ≡ e) }
    ensures fresh { IfOk result (λ f. IsAround config.now.tables e around.now → IsFresh config.now.tables f) }
{
    let found = pairs_of(alloc, config, e, around)?;
    if found.as_slice().is_empty() {
        return Ok(Fresh::Gone(e));
    }
    Ok(Fresh::Entry(FreshEntry {
        prefix: e,
        pairs: List::from_vec(found),
        cover: cover_of(around),
    }))
}
