// By what entries are found: features of pairs and of rows, and what is kept of them as they come and go.
ghost use Rattle.std.specs.Prelude.{IfOk};
ghost use Rattle.fib_resolve.specs.Reachable.{IsWritten};

use crate::held::HeldRows;
use fib_addr::{Addr, Prefix};
use fib_base_list::List;
use fib_config::Config;
use fib_follow_features::{Feature, Features, cover_among, pair_features, row_features};
use fib_follow_view::Before;
use fib_resolve::{Adjacency, Edit, FibSource, Need, Pair, Path, PathKind, PathSpec, SpecKind};
use std::alloc::{AllocError, Global};
use std::test::Fail;

/// 10.0.0.7/32.
fn host() -> Prefix {
    Prefix::host(Addr(0x0a00_0007))
}

/// 10.0.0.0/24.
fn subnet() -> Prefix {
    Prefix::masked(Addr(0x0a00_0000), 24)
}

/// 20.0.0.0/8.
fn route() -> Prefix {
    Prefix::masked(Addr(0x1400_0000), 8)
}

/// The Hop end of that host over interface 3.
fn end() -> Feature {
    Feature::End(Adjacency {
        interface: 3,
        next_hop: Addr(0x0a00_0007),
    })
}

/// A pair of that host with one path.
fn pair(alloc: Global, source: FibSource, kind: PathKind, need: Need) -> Result<Pair, AllocError> {
    let mut paths = List::new(alloc);
    paths.push(Path {
        kind,
        need,
        weight: 1,
        preference: 0,
    })?;
    Ok(Pair {
        prefix: host(),
        source,
        paths,
    })
}

/// What the host is found by that is a neighbor of interface 3.
fn neighbor(alloc: Global) -> Result<Vec<Feature>, AllocError> {
    let kind = PathKind::Hop {
        next_hop: Addr(0x0a00_0007),
        interface: 3,
    };
    let pairs = [pair(alloc, FibSource::Adjacency, kind, Need::Any)?];
    pair_features(alloc, host(), subnet(), pairs.as_slice())
}

/// What it is found by as a next hop that has a route of its own to 10.0.0.9, of which that needs something.
fn routed(alloc: Global) -> Result<Vec<Feature>, AllocError> {
    let on = PathKind::Recursive(Addr(0x0a00_0009));
    let pairs = [
        pair(alloc, FibSource::Api, on, Need::Host)?,
        pair(
            alloc,
            FibSource::RecursiveResolution,
            PathKind::Cover,
            Need::Any,
        )?,
    ];
    pair_features(alloc, host(), subnet(), pairs.as_slice())
}

/// Whether both are found by what was reckoned by hand.
fn pairs_tell(alloc: Global) -> Result<bool, AllocError> {
    let near = [Feature::Over(3), end(), Feature::Under(subnet())];
    let far = [
        Feature::Needs(Addr(0x0a00_0009)),
        Feature::Via(Addr(0x0a00_0009)),
        Feature::Under(subnet()),
    ];
    let first = neighbor(alloc)?;
    let second = routed(alloc)?;
    Ok(first.as_slice() == near.as_slice() && second.as_slice() == far.as_slice())
}

/// Whether the host is what is found by the feature, alone.
fn finds(alloc: Global, found: &Features, feature: Feature, e: Prefix) -> Result<bool, AllocError> {
    let all = Prefix::masked(Addr(0), 0);
    let inside = found.holders_inside(alloc, feature, all)?;
    Ok(inside.as_slice() == [e].as_slice())
}

fn has(found: &Features, feature: Feature) -> bool {
    match found.holders(feature) {
        Some(set) => set.contains(host()),
        None => false,
    }
}

/// Whether the host is found by what is noted, and no more by what is forgotten.
fn comes_and_goes(alloc: Global) -> Result<bool, AllocError> {
    let features = neighbor(alloc)?;
    let kept = [Feature::Over(3)];
    let mut found = Features::new(alloc);
    found.note(host(), features.as_slice())?;
    let came = has(&found, end()) && finds(alloc, &found, Feature::Under(subnet()), host())?;
    found.forget(host(), features.as_slice(), kept.as_slice());
    Ok(came && has(&found, Feature::Over(3)) && !has(&found, end()))
}

/// 20.0.0.0/8 via 10.0.0.7.
fn recursive_route(alloc: Global) -> Result<Edit, AllocError>
    ensures { IfOk result IsWritten }
{
    let mut paths = List::new(alloc);
    paths.push(PathSpec {
        kind: SpecKind::Recursive(Addr(0x0a00_0007)),
        weight: 1,
        preference: 0,
        need: Need::Any,
    })?;
    Ok(Edit::AddRoute {
        prefix: Prefix::masked(Addr(0x1400_0000), 8),
        api: false,
        paths,
    })
}

/// Whether the row of the next hop is found by its cover, the prefix of every address.
fn row_tells(alloc: Global, before: &Before<'_>) -> Result<bool, AllocError> {
    let all = Prefix::masked(Addr(0), 0);
    let Some(row) = before.row(host()) else {
        return Ok(false);
    };
    let features = row_features(alloc, before.lists(), before.order(), row)?;
    let is_under = features.as_slice() == [Feature::Under(all)].as_slice();
    Ok(is_under && cover_among(before.order(), host()) == all)
}

/// Whether the route is found by its next hop, and that by its cover.
fn rows_tell(alloc: Global, held: &HeldRows) -> Result<bool, AllocError> {
    let all = Prefix::masked(Addr(0), 0);
    let found = held.features(alloc)?;
    let by_hop = finds(alloc, &found, Feature::Via(Addr(0x0a00_0007)), route())?;
    let by_cover = finds(alloc, &found, Feature::Under(all), host())?;
    Ok(by_hop && by_cover && row_tells(alloc, &held.before())?)
}

fn holds(alloc: Global, config: &mut Config) -> Result<bool, Fail> {
    config.edit(&recursive_route(alloc)?)?;
    let held = HeldRows::of(alloc, config.tables())?;
    Ok(rows_tell(alloc, &held)? && pairs_tell(alloc)? && comes_and_goes(alloc)?)
}

#[test]
fn entries_are_found_by_their_features(rt: HostRuntime) -> Result<(), Fail> {
    let mut config = Config::new(rt.alloc(), 1_000)?;
    if !holds(rt.alloc(), &mut config)? {
        return Err("an entry was found otherwise".into());
    }
    Ok(())
}
