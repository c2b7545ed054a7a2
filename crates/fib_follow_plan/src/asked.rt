// The hosts whose cover can be another.
ghost use Rattle.std.specs.Prelude.{◌≡◌, ◌++◌, ◌∷◌, [], List, Contains, Some, IfOk, OnOk, map};
ghost use Rattle.fib_addr.specs.Prefixes.{Prefix as PrefixValue};
ghost use Rattle.fib_entries_rows.specs.Known.{prefix_of};
ghost use Rattle.fib_entries_rows.specs.inner.Compare.{AreKept};
ghost use Rattle.fib_follow_features.specs.FoundBy.{cover_among, features_of, held_list, row_features};
ghost use Rattle.fib_follow_plan.specs.inner.Telling.{AreAsked, AreHosts, AreSeen, Grows, IsAsked, IsNearest, IsOrder, IsSeen, IsUnder};
ghost use Rattle.fib_follow_plan.specs.declared.entry.Renoted.{Renoted as RenotedValue};

use crate::covers::{Covers, above};
use crate::entry::Renoted;
use crate::lists::has_pairs;
use fib_addr::Prefix;
use fib_entries_rows::Row;
use fib_follow_features::{Feature, Features, features_under, row_features};
use fib_follow_view::{Anew, View};
use std::alloc::{AllocError, Global};

/// Appends a row under its cover of afterwards.
fn push_row(
    out: &mut Vec<Renoted>,
    alloc: Global,
    view: &View<'_>,
    covers: &Covers,
    row: &Row,
) -> Result<(), AllocError>
    requires { AreKept view.now.before.lists row.now.pairs }
    ensures { OnOk result ((y : RenotedValue) × (out.new.items ≡ out.old.items ++ y ∷ []) × (y.prefix ≡ row.now.prefix)
        × (y.old.items ≡ row_features view.now.before.lists (map prefix_of view.now.before.rows) row.now)
        × ((after : List PrefixValue) → IsOrder view.now covers.now after → y.new.items
        ≡ features_of row.now.prefix (cover_among after row.now.prefix) (map (held_list view.now.before.lists) row.now.pairs))) }
{
    let before = view.before();
    let prefix = row.prefix;
    let cover = covers.cover(before.order(), prefix);
    let old = row_features(alloc, before.lists(), before.order(), row)?;
    let new = features_under(alloc, before.lists(), cover, row)?;
    out.push(Renoted { prefix, old, new })?;
    Ok(())
}

/// Appends an entry that stays as it was, under its cover of afterwards.
fn push_host(
    out: &mut Vec<Renoted>,
    alloc: Global,
    view: &View<'_>,
    covers: &Covers,
    e: Prefix,
) -> Result<(), AllocError>
    ensures grows { OnOk result (Grows view.now covers.now out.old.items out.new.items) }
    ensures seen { OnOk result (IsSeen view.now out.new.items e) }
{
    if view.is_changed(e) {
        return Ok(());
    }
    match view.before().row(e) {
        Some(row) => push_row(out, alloc, view, covers, row),
        None => Ok(()),
    }
}

/// Appends each of these that stays as it was.
fn add_hosts(
    out: &mut Vec<Renoted>,
    alloc: Global,
    view: &View<'_>,
    covers: &Covers,
    hosts: &[Prefix],
) -> Result<(), AllocError>
    ensures grows { OnOk result (Grows view.now covers.now out.old.items out.new.items) }
    ensures seen { OnOk result (AreSeen view.now hosts.now out.new.items) }
{
    'hosts: for place in 0..hosts.len() {
        push_host(out, alloc, view, covers, hosts[place])?;
    }
    Ok(())
}

/// The cover that entries inside the prefix lose where it comes; None where it was an entry.
fn come_under(view: &View<'_>, q: Prefix) -> Option<Prefix>
    ensures { (c : PrefixValue) → (Contains (map prefix_of view.now.before.rows) q → ⊥)
        → IsNearest (map prefix_of view.now.before.rows) q c → result ≡ Some c }
{
    if view.before().is_entry(q) {
        return None;
    }
    Some(above(view.before().order(), q))
}

/// The same inside a prefix shorter than 32 that was made anew: where it goes, that is the prefix itself.
fn short_cover(view: &View<'_>, x: &Anew) -> Option<Prefix>
    ensures { (c : PrefixValue) → IsUnder view.now x.now c → result ≡ Some c }
{
    if has_pairs(x) {
        return come_under(view, x.prefix);
    }
    Some(x.prefix)
}

/// The cover that entries inside the prefix of what was made anew can lose.
fn lost_cover(view: &View<'_>, x: &Anew) -> Option<Prefix>
    ensures { (c : PrefixValue) → IsUnder view.now x.now c → result ≡ Some c }
{
    if x.prefix.len() < 32 {
        return short_cover(view, x);
    }
    None
}

/// The entries found by that cover, inside the prefix.
fn hosts_of(
    alloc: Global,
    view: &View<'_>,
    features: &Features,
    x: &Anew,
) -> Result<Vec<Prefix>, AllocError>
    ensures { IfOk result (λ v. AreHosts view.now features.now x.now v.items) }
{
    match lost_cover(view, x) {
        Some(cover) => features.holders_inside(alloc, Feature::Under(cover), x.prefix),
        None => Ok(Vec::new(alloc)),
    }
}

/// Appends the entries whose cover can be another by what was made anew.
fn add_asked(
    out: &mut Vec<Renoted>,
    alloc: Global,
    view: &View<'_>,
    features: &Features,
    covers: &Covers,
    x: &Anew,
) -> Result<(), AllocError>
    ensures grows { OnOk result (Grows view.now covers.now out.old.items out.new.items) }
    ensures asked { OnOk result (IsAsked view.now features.now out.new.items x.now) }
{
    let hosts = hosts_of(alloc, view, features, x)?;
    add_hosts(out, alloc, view, covers, hosts.as_slice())
}

/// The same of each that was made anew.
pub fn add_all_asked(
    out: &mut Vec<Renoted>,
    alloc: Global,
    view: &View<'_>,
    features: &Features,
    covers: &Covers,
) -> Result<(), AllocError>
    ensures grows { OnOk result (Grows view.now covers.now out.old.items out.new.items) }
    ensures asked { OnOk result (AreAsked view.now features.now view.now.changed out.new.items) }
{
    let changed = view.changed();
    'changed: for place in 0..changed.len() {
        add_asked(out, alloc, view, features, covers, &changed[place])?;
    }
    Ok(())
}
