// A route comes by way of an address that is no entry yet: who is looked at, what is found by features, and what is planned and noted.
ghost use Rattle.std.specs.Prelude.{IfOk, map};
ghost use Rattle.fib_cover.specs.Covers.{IsAscending};
ghost use Rattle.fib_follow_view.specs.Views.{anew_prefix};

use crate::held::HeldRows;
use crate::steps::{next_hop, recursive_route, route};
use fib_addr::{Addr, Prefix};
use fib_base_blocks::Blocks;
use fib_config::{Config, Edited};
use fib_follow_features::{Feature, Features};
use fib_follow_looked::{
    Around, Named, Shorts, are_short, asks, changed, is_hop_after, looked, see_neighbors,
};
use fib_follow_part::{Part, ranks};
use fib_follow_plan::{
    answered, forget_all, held_ends, hops_after, note_all, others, plan, renoted,
};
use fib_follow_told::{Written, bodies, edges_of};
use fib_follow_view::{Anew, View};
use fib_follow_write::Plan;
use fib_resolve_changes::Change;
use std::alloc::{AllocError, Global};
use std::test::Fail;

/// Who is looked at; the next hop is one afterwards, and no prefix that covers turns.
fn look(
    alloc: Global,
    config: &Config,
    held: &HeldRows,
    features: &Features,
    changes: &[Change],
) -> Result<Blocks<Anew>, Fail>
    ensures { IfOk result (λ l. IsAscending (map anew_prefix l)) }
{
    if !are_short(changes) {
        return Err("an address that is too long".into());
    }
    see_neighbors(alloc, config)?;
    let before = held.before();
    let named = Named::of(alloc, &before, config, changes)?;
    let shorts = Shorts::of(alloc, &before, config, &named)?;
    let asks = asks(alloc, &before, &shorts)?;
    let hosts = answered(alloc, features, asks.as_slice())?;
    let prefixes = looked(alloc, &before, config, &named, &shorts, hosts.as_slice())?;
    let hops = hops_after(alloc, config, features, &named, &prefixes)?;
    let is_hop = is_hop_after(config, &hops, Addr(0x0a00_0007), &prefixes);
    if !is_hop
        || !hops.contains(next_hop())
        || !prefixes.contains(route())
        || !prefixes.contains(next_hop())
    {
        return Err("another is looked at".into());
    }
    let around = Around { shorts, hops };
    Ok(changed(alloc, &before, config, &around, &prefixes)?)
}

/// What is planned of the entries that are others.
fn planned(
    alloc: Global,
    config: &Config,
    view: &View<'_>,
    features: &Features,
    changes: &[Change],
) -> Result<Option<Plan>, AllocError> {
    let part = Part::of(alloc, view)?;
    let Some(ranks) = ranks(alloc, view, &part)? else {
        return Ok(None);
    };
    let others = others(alloc, features, changes, view.changed())?;
    let written = Written::of(alloc, &part, others.as_slice())?;
    let bodies = bodies(alloc, config, view, &part, written.list())?;
    let edges = edges_of(alloc, view)?;
    let plan = plan(alloc, view, &part, ranks.as_slice(), bodies, &edges)?;
    Ok(Some(plan))
}

/// Whether the route comes, leads to its next hop, and nothing goes.
fn is_right(plan: &Plan) -> bool {
    let comes = plan.came.as_slice().iter().any(|prefix| *prefix == route());
    let leads = plan
        .edges_in
        .as_slice()
        .iter()
        .any(|edge| edge.from == route() && edge.to == next_hop());
    comes && leads && plan.gone.is_empty() && plan.edges_out.is_empty()
}

/// Whether the entry is found by the next hop.
fn is_found(features: &Features, entry: Prefix) -> bool {
    match features.holders(Feature::Via(Addr(0x0a00_0007))) {
        Some(set) => set.contains(entry),
        None => false,
    }
}

/// Whether what is planned is noted before it is written, and nothing that it needs is forgotten after.
fn is_noted(alloc: Global, view: &View<'_>, features: &mut Features) -> Result<bool, AllocError> {
    let list = renoted(alloc, view, features)?;
    note_all(features, list.as_slice())?;
    let early = is_found(features, route());
    forget_all(features, list.as_slice());
    Ok(early && is_found(features, route()))
}

/// The steps over the rows of before. No entry beside the changed ones leaves by an end of theirs.
fn steps_are_right(
    alloc: Global,
    config: &Config,
    held: &HeldRows,
    changes: &[Change],
) -> Result<bool, Fail> {
    let mut features = held.features(alloc)?;
    let changed = look(alloc, config, held, &features, changes)?;
    let view = View::new(held.before(), &changed);
    let alone = held_ends(alloc, &view, &features)?.is_empty();
    let Some(plan) = planned(alloc, config, &view, &features, changes)? else {
        return Err("a rank would fall below 0".into());
    };
    Ok(alone && is_right(&plan) && is_noted(alloc, &view, &mut features)?)
}

#[test]
fn a_route_is_looked_at_and_planned(rt: HostRuntime) -> Result<(), Fail> {
    let mut config = Config::new(rt.alloc(), 1_000)?;
    let held = HeldRows::of(rt.alloc(), config.tables())?;
    let Edited { change, undo: _ } = config.change(&recursive_route(rt.alloc())?)?;
    if !steps_are_right(rt.alloc(), &config, &held, &[change])? {
        return Err("a step went otherwise".into());
    }
    Ok(())
}
