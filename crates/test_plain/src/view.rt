// Which paths are usable, and which are wanted.
ghost use Rattle.std.specs.Prelude.{◌≡◌, ◌<◌, ◌≤◌, ◌++◌, ℕ, Some, IfOk, OnOk, map, filter, flat_map, fold, min, length, sum, slice_get, option_to_list};
ghost use Rattle.fib_resolve.specs.Pairs.{chosen};
ghost use Rattle.fib_resolve.specs.Loops.{looped_at};
ghost use Rattle.fib_resolve.specs.Forwarding.{usable, usable_at};
ghost use Rattle.fib_resolve.specs.Buckets.{least_preference, of_least_preference, used, spread, wanted, IsShort};
ghost use Rattle.test_plain.specs.inner.Rows.{facts_of};

use crate::facts::PathFacts;
use crate::rounds;
use crate::snapshot::Snapshot;
use fib_addr::Prefix;
use fib_resolve::Path;
use std::alloc::{AllocError, Global};

/// What is known of the entry's paths, in their order.
pub fn row<'a>(view: &'a Snapshot<'_>, e: Prefix) -> &'a [PathFacts]
    ensures { result.now ≡ facts_of view.now e }
{
    match view.known().number(e) {
        Some(k) => view.rows[k].as_slice(),
        None => &[],
    }
}

fn facts_at(row: &[PathFacts], place: usize) -> Option<PathFacts>
    ensures { result ≡ slice_get row.now place }
{
    row.get(place).copied()
}

/// Whether the path at that place is there and usable.
fn usable_at(view: &Snapshot<'_>, e: Prefix, row: &[PathFacts], place: usize) -> bool
    requires row { row.now ≡ facts_of view.now e }
    ensures { result ≡ usable_at view.now e place }
{
    match facts_at(row, place) {
        Some(x) => rounds::usable_now(view.marks.as_slice(), &x),
        None => false,
    }
}

/// Whether the path at that place of the entry's chosen list is there and usable.
pub fn is_usable(view: &Snapshot<'_>, e: Prefix, place: usize) -> bool
    ensures { result ≡ usable_at view.now e place }
{
    usable_at(view, e, row(view, e), place)
}

/// Whether the path at that place of the entry's chosen list is there and looped.
pub fn is_looped(view: &Snapshot<'_>, e: Prefix, place: usize) -> bool
    ensures { result ≡ looped_at view.now e place }
{
    match facts_at(row(view, e), place) {
        Some(x) => x.looped,
        None => false,
    }
}

/// Whether the path, which stands at that place, is usable.
fn usable_path(view: &Snapshot<'_>, e: Prefix, row: &[PathFacts], place: usize, p: &Path) -> bool
    requires row { row.now ≡ facts_of view.now e }
    requires there { slice_get (chosen view.now e) place ≡ Some p.now }
    ensures { result ≡ usable view.now e p.now }
{
    // Only clauses name the path.
    let _path = *p;
    usable_at(view, e, row, place)
}

/// The usable paths of the entry.
pub fn usable_paths(alloc: Global, view: &Snapshot<'_>, e: Prefix) -> Result<Vec<Path>, AllocError>
    ensures { IfOk result (λ v. v.items ≡ filter (usable view.now e) (chosen view.now e)) }
{
    let row = row(view, e);
    let mut out = Vec::new(alloc);
    for (i, p) in view.known().chosen(e).iter().enumerate() {
        if usable_path(view, e, row, i, p) {
            out.push(*p)?;
        }
    }
    Ok(out)
}

fn least_preference(paths: &[Path]) -> u8
    ensures { result ≡ least_preference paths.now }
{
    paths.iter().fold(255, |m, p| m.min(p.preference))
}

fn of_least_preference(alloc: Global, paths: &[Path]) -> Result<Vec<Path>, AllocError>
    ensures { IfOk result (λ v. v.items ≡ of_least_preference paths.now) }
{
    let least = least_preference(paths);
    paths
        .iter()
        .copied()
        .filter(|p| p.preference == least)
        .collect(alloc)
}

fn weights_of(alloc: Global, paths: &[Path]) -> Result<Vec<u8>, AllocError>
    ensures { IfOk result (λ v. v.items ≡ map (λ p. p.weight) paths.now) }
{
    paths.iter().map(|p| p.weight).collect(alloc)
}

/// The path at that place, if there is one.
pub fn at_place(paths: &[Path], j: usize) -> Option<Path>
    ensures { result ≡ slice_get paths.now j }
{
    paths.get(j).copied()
}

fn add_place(out: &mut Vec<Path>, paths: &[Path], j: u8) -> Result<(), AllocError>
    ensures { OnOk result (out.new.items ≡ out.old.items ++ option_to_list (slice_get paths.now j)) }
{
    if let Some(p) = at_place(paths, j as usize) {
        out.push(p)?;
    }
    Ok(())
}

/// The path at each bucket.
fn spread(alloc: Global, paths: &[Path]) -> Result<Vec<Path>, AllocError>
    requires few { length paths.now ≤ 16 }
    requires some { 0 < sum (map (λ p. p.weight) paths.now) }
    ensures { IfOk result (λ v. v.items ≡ spread paths.now) }
{
    let weights = weights_of(alloc, paths)?;
    let mut out = Vec::new(alloc);
    let places = fib_buckets::share(weights.as_slice());
    for j in &places {
        add_place(&mut out, paths, *j)?;
    }
    Ok(out)
}

/// The sixteen wanted paths of the entry, or none where it doesn't forward.
#[tactic(auto, unfolding(fib_resolve::specs::Buckets::wanted, fib_resolve::specs::Buckets::used))]
pub fn wanted(alloc: Global, view: &Snapshot<'_>, e: Prefix) -> Result<Vec<Path>, AllocError>
    ensures { IfOk result (λ v. v.items ≡ wanted view.now e) }
{
    // Read so that the proof knows that the tables are sound.
    let _tables = view.known().tables();
    let usable = usable_paths(alloc, view, e)?;
    let used = of_least_preference(alloc, usable.as_slice())?;
    if used.is_empty() {
        return Ok(Vec::new(alloc));
    }
    spread(alloc, used.as_slice())
}
