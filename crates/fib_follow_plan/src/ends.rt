// Which Hop ends of changed entries are had beside them.
ghost use Rattle.std.specs.Prelude.{◌≡◌, IfOk, OnOk, map};
ghost use Rattle.std.specs.List.{list_any};
ghost use Rattle.fib_resolve.specs.declared.types.Tables.{Tables as TablesValue};
ghost use Rattle.fib_entries_rows.specs.Known.{prefix_of};
ghost use Rattle.fib_follow_view.specs.Views.{IsAfter};
ghost use Rattle.fib_follow_features.specs.FoundBy.{AreNoted};
ghost use Rattle.fib_follow_sized.specs.Holders.{AreHolders};
ghost use Rattle.fib_follow_plan.specs.inner.Ends.{AddsEnd, AreEndsAmong, has_end, is_beside, is_end, is_held};

use fib_addr::Prefix;
use fib_cover::PrefixSet;
use fib_follow_features::{Feature, Features};
use fib_follow_sized::{HeldEnds, asked_ends};
use fib_follow_view::View;
use fib_resolve::{Adjacency, Path, PathKind};
use fib_resolve_pairs::adjacency_of;
use std::alloc::{AllocError, Global};
use std::collections::HashSet;

/// Whether a path of the entry has that Hop end.
fn is_end(end: Adjacency, e: Prefix, kind: PathKind) -> bool
    ensures { result ≡ is_end end e kind }
{
    match adjacency_of(e, kind) {
        Some(found) => end == found,
        None => false,
    }
}

fn has_end(end: Adjacency, e: Prefix, paths: &[Path]) -> bool
    ensures { result ≡ has_end end e paths.now }
{
    paths.iter().any(|p| is_end(end, e, p.kind))
}

/// Whether the entry isn't changed and has that Hop end: what is found by it may have it no more.
fn is_beside(view: &View<'_>, end: Adjacency, e: Prefix) -> bool
    ensures { result ≡ is_beside view.now end e }
{
    !view.is_changed(e) && has_end(end, e, view.before().chosen(e))
}

/// Whether one of them is such an entry: no more are asked than up to the first.
fn are_some_beside(view: &View<'_>, end: Adjacency, found: &PrefixSet) -> bool
    ensures { result ≡ list_any (is_beside view.now end) found.now }
{
    found.iter().any(|e| is_beside(view, end, *e))
}

/// Whether an entry beside the changed ones has that Hop end.
fn is_held(view: &View<'_>, features: &Features, end: &Adjacency) -> bool
    ensures { result ≡ is_held view.now features.now end.now }
{
    match features.holders(Feature::End(*end)) {
        Some(found) => are_some_beside(view, *end, found),
        None => false,
    }
}

/// Puts the Hop end to the set where the test passed.
fn add_if(held: &mut HeldEnds, test: bool, end: Adjacency) -> Result<(), AllocError>
    ensures { OnOk result (AddsEnd test end held.old.keys held.new.keys) }
{
    if !test {
        return Ok(());
    }
    held.insert(end)?;
    Ok(())
}

fn held_among(
    alloc: Global,
    view: &View<'_>,
    features: &Features,
    ends: &[Adjacency],
) -> Result<HeldEnds, AllocError>
    ensures { IfOk result (λ h. AreEndsAmong (is_held view.now features.now) ends.now h.keys) }
{
    let mut held = HashSet::new(alloc);
    'ends: for place in 0..ends.len() {
        let end = &ends[place];
        add_if(&mut held, is_held(view, features, end), *end)?;
    }
    Ok(held)
}

/// Of the Hop ends that changed entries have before or after, those that entries beside them have too. An error means that memory ran out.
pub fn held_ends(
    alloc: Global,
    view: &View<'_>,
    features: &Features,
) -> Result<HeldEnds, AllocError>
    ensures { IfOk result (λ h. (S T : TablesValue) → IsAfter view.now S T
        → AreNoted view.now.before.lists (map prefix_of view.now.before.rows) view.now.before.rows features.now
        → AreHolders view.now S T h.keys) }
{
    let asked = asked_ends(alloc, view)?;
    held_among(alloc, view, features, asked.as_slice())
}
