// Those that were made anew, each with its features.
ghost use Rattle.std.specs.Prelude.{◌≡◌, ◌++◌, ◌∷◌, [], List, IfOk, OnOk, map};
ghost use Rattle.fib_addr.specs.Prefixes.{Prefix as PrefixValue};
ghost use Rattle.fib_entries_rows.specs.Known.{prefix_of, row_of};
ghost use Rattle.fib_follow_features.specs.FoundBy.{cover_among, pair_features};
ghost use Rattle.fib_follow_plan.specs.Noted.{features_before};
ghost use Rattle.fib_follow_plan.specs.inner.Telling.{AreAnew, Grows, IsOrder};
ghost use Rattle.fib_follow_plan.specs.declared.entry.Renoted.{Renoted as RenotedValue};

use crate::covers::Covers;
use crate::entry::Renoted;
use fib_addr::Prefix;
use fib_follow_features::{Feature, pair_features, row_features};
use fib_follow_view::{Anew, View};
use std::alloc::{AllocError, Global};

/// By what the prefix was found; by nothing where it was no entry.
fn features_before(alloc: Global, view: &View<'_>, e: Prefix) -> Result<Vec<Feature>, AllocError>
    ensures { IfOk result (λ v. v.items
        ≡ features_before view.now.before.lists (map prefix_of view.now.before.rows) (row_of view.now.before.rows e)) }
{
    let before = view.before();
    match before.row(e) {
        Some(row) => row_features(alloc, before.lists(), before.order(), row),
        None => Ok(Vec::new(alloc)),
    }
}

/// Appends what was made anew.
fn push_changed(
    out: &mut Vec<Renoted>,
    alloc: Global,
    view: &View<'_>,
    covers: &Covers,
    x: &Anew,
) -> Result<(), AllocError>
    ensures { OnOk result ((y : RenotedValue) × (out.new.items ≡ out.old.items ++ y ∷ []) × (y.prefix ≡ x.now.prefix)
        × (y.old.items
        ≡ features_before view.now.before.lists (map prefix_of view.now.before.rows) (row_of view.now.before.rows x.now.prefix))
        × ((after : List PrefixValue) → IsOrder view.now covers.now after
        → y.new.items ≡ pair_features x.now.prefix (cover_among after x.now.prefix) x.now.pairs)) }
{
    let prefix = x.prefix;
    let cover = covers.cover(view.before().order(), prefix);
    let old = features_before(alloc, view, prefix)?;
    let new = pair_features(alloc, prefix, cover, x.pairs.as_slice())?;
    out.push(Renoted { prefix, old, new })?;
    Ok(())
}

/// Appends each that was made anew.
pub fn add_changed(
    out: &mut Vec<Renoted>,
    alloc: Global,
    view: &View<'_>,
    covers: &Covers,
) -> Result<(), AllocError>
    ensures grows { OnOk result (Grows view.now covers.now out.old.items out.new.items) }
    ensures all { OnOk result (AreAnew view.now.changed out.new.items) }
{
    let changed = view.changed();
    'changed: for place in 0..changed.len() {
        push_changed(out, alloc, view, covers, &changed[place])?;
    }
    Ok(())
}
