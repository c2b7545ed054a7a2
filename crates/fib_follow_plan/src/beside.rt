// The entries beside the part of a change that it can touch.
ghost use Rattle.std.specs.Prelude.{◌≡◌, IfOk, flat_map, map};
ghost use Rattle.fib_resolve.specs.declared.types.Tables.{Tables as TablesValue};
ghost use Rattle.fib_resolve_changes.specs.Differ.{Differ};
ghost use Rattle.fib_entries_rows.specs.Known.{Known, StandsFor, prefix_of};
ghost use Rattle.fib_follow_view.specs.Views.{is_changed};
ghost use Rattle.fib_follow_features.specs.FoundBy.{AreNoted};
ghost use Rattle.fib_follow_told.specs.Told.{AreOthers};
ghost use Rattle.fib_follow_plan.specs.inner.Others.{needing, over_or_at};

use crate::listed::listed;
use fib_addr::Prefix;
use fib_base_blocks::Blocks;
use fib_follow_features::{Feature, Features};
use fib_follow_view::Anew;
use fib_resolve::Adjacency;
use fib_resolve_changes::Change;
use std::alloc::{AllocError, Global};

/// The entries that need something of a host; none of a shorter prefix.
fn needing(alloc: Global, features: &Features, e: Prefix) -> Result<Vec<Prefix>, AllocError>
    ensures { IfOk result (λ v. v.items ≡ needing features.now e) }
{
    if e.len() == 32 {
        return listed(alloc, features, Feature::Needs(e.bits()));
    }
    Ok(Vec::new(alloc))
}

fn all_needing(
    alloc: Global,
    features: &Features,
    changed: &Blocks<Anew>,
) -> Result<Vec<Prefix>, AllocError>
    ensures { IfOk result (λ v. v.items ≡ flat_map (λ x. needing features.now x.prefix) changed.now) }
{
    let mut out = Vec::new(alloc);
    'changed: for place in 0..changed.len() {
        let e = changed[place].prefix;
        let found = needing(alloc, features, e)?;
        out.extend_from_slice(found.as_slice())?;
    }
    Ok(out)
}

/// The entries over a changed interface, and those with the Hop end of a changed neighbor.
fn over_or_at(alloc: Global, features: &Features, change: Change) -> Result<Vec<Prefix>, AllocError>
    ensures { IfOk result (λ v. v.items ≡ over_or_at features.now change) }
{
    match change {
        Change::Flag(i) => listed(alloc, features, Feature::Over(i)),
        Change::Neighbor { interface, addr } => {
            let end = Adjacency {
                interface,
                next_hop: addr,
            };
            listed(alloc, features, Feature::End(end))
        }
        Change::Address(_) | Change::Route { .. } => Ok(Vec::new(alloc)),
    }
}

fn all_over_or_at(
    alloc: Global,
    features: &Features,
    changes: &[Change],
) -> Result<Vec<Prefix>, AllocError>
    ensures { IfOk result (λ v. v.items ≡ flat_map (over_or_at features.now) changes.now) }
{
    let mut out = Vec::new(alloc);
    'changes: for place in 0..changes.len() {
        let found = over_or_at(alloc, features, changes[place])?;
        out.extend_from_slice(found.as_slice())?;
    }
    Ok(out)
}

/// The entries beside the part that a change can touch: those that need something of a changed host, those with an end that means another,
/// and maybe more. An error means that memory ran out.
pub fn others(
    alloc: Global,
    features: &Features,
    changes: &[Change],
    changed: &Blocks<Anew>,
) -> Result<Vec<Prefix>, AllocError>
    ensures { IfOk result (λ v. (k : Known) (S T : TablesValue) → StandsFor k S
        → AreNoted k.lists (map prefix_of k.rows) k.rows features.now → Differ changes.now S T
        → AreOthers S T (is_changed changed.now) v.items) }
{
    let mut out = all_needing(alloc, features, changed)?;
    let ends = all_over_or_at(alloc, features, changes)?;
    out.extend_from_slice(ends.as_slice())?;
    Ok(out)
}
