// By what an entry is found.
ghost use Rattle.std.specs.Prelude.{◌≡◌, ◌++◌, List, OnOk, IfOk, flat_map, map, option_to_list};
ghost use Rattle.std.specs.List.{list_any};
ghost use Rattle.fib_addr.specs.Prefixes.{Prefix as PrefixValue};
ghost use Rattle.fib_entries_rows.specs.Known.{PathKept};
ghost use Rattle.fib_entries_rows.specs.inner.Compare.{AreKept};
ghost use Rattle.fib_follow_features.specs.FoundBy.{chosen_list, cover_among, end_of, features_of, held_list, host_under, is_by_cover};
ghost use Rattle.fib_follow_features.specs.FoundBy.{is_written, need_of, needed, over_of, pair_features, pair_list, path_features};
ghost use Rattle.fib_follow_features.specs.FoundBy.{row_features, under_of, via_features, via_of, written_features};

use crate::feature::Feature;
use fib_addr::{Addr, Prefix};
use fib_cover::PrefixSet;
use fib_entries_rows::Row;
use fib_paths::{PathListId, PathLists};
use fib_resolve::{Adjacency, FibSource, Need, Pair, Path, PathKind};
use std::alloc::{AllocError, Global};

/// The interface by which the path leaves.
fn over_of(kind: PathKind) -> Option<Feature>
    ensures { result ≡ over_of kind }
{
    match kind {
        PathKind::Attached(interface) | PathKind::Hop { interface, .. } => {
            Some(Feature::Over(interface))
        }
        _ => None,
    }
}

/// Its Hop end.
fn end_of(e: Prefix, kind: PathKind) -> Option<Feature>
    ensures { result ≡ end_of e kind }
{
    match kind {
        PathKind::Attached(interface) if e.len() == 32 => Some(Feature::End(Adjacency {
            interface,
            next_hop: e.bits(),
        })),
        PathKind::Hop {
            next_hop,
            interface,
        } => Some(Feature::End(Adjacency {
            interface,
            next_hop,
        })),
        _ => None,
    }
}

fn needed(need: Need, a: Addr) -> Option<Feature>
    ensures { result ≡ needed need a }
{
    match need {
        Need::Any => None,
        Need::Host | Need::Attached => Some(Feature::Needs(a)),
    }
}

/// The next hop of which it needs something.
fn need_of(need: Need, kind: PathKind) -> Option<Feature>
    ensures { result ≡ need_of need kind }
{
    match kind {
        PathKind::Recursive(a) => needed(need, a),
        _ => None,
    }
}

/// Its next hop.
fn via_of(kind: PathKind) -> Option<Feature>
    ensures { result ≡ via_of kind }
{
    match kind {
        PathKind::Recursive(a) => Some(Feature::Via(a)),
        _ => None,
    }
}

fn is_written(source: FibSource) -> bool
    ensures { result ≡ is_written source }
{
    matches!(source, FibSource::Api | FibSource::Cli)
}

/// Whether a cover makes such a pair.
fn is_by_cover(source: FibSource) -> bool
    ensures { result ≡ is_by_cover source }
{
    matches!(
        source,
        FibSource::Adjacency | FibSource::RecursiveResolution
    )
}

/// Appends the feature, if it is one.
fn add(out: &mut Vec<Feature>, feature: Option<Feature>) -> Result<(), AllocError>
    ensures { OnOk result (out.new.items ≡ out.old.items ++ option_to_list feature) }
{
    match feature {
        Some(feature) => {
            out.push(feature)?;
            Ok(())
        }
        None => Ok(()),
    }
}

/// Appends by what an entry is found that has the path in its chosen list.
fn add_path(out: &mut Vec<Feature>, e: Prefix, path: &Path) -> Result<(), AllocError>
    ensures { OnOk result (out.new.items ≡ out.old.items ++ path_features e path.now) }
{
    add(out, over_of(path.kind))?;
    add(out, end_of(e, path.kind))?;
    add(out, need_of(path.need, path.kind))
}

/// The same of each path of the list.
fn add_paths(out: &mut Vec<Feature>, e: Prefix, paths: &[Path]) -> Result<(), AllocError>
    ensures { OnOk result (out.new.items ≡ out.old.items ++ flat_map (path_features e) paths.now) }
{
    for path in paths {
        add_path(out, e, path)?;
    }
    Ok(())
}

/// Appends the next hops of the list.
fn add_hops(out: &mut Vec<Feature>, paths: &[Path]) -> Result<(), AllocError>
    ensures { OnOk result (out.new.items ≡ out.old.items ++ flat_map via_features paths.now) }
{
    for path in paths {
        add(out, via_of(path.kind))?;
    }
    Ok(())
}

/// The same, where the source is written.
fn add_written(out: &mut Vec<Feature>, source: FibSource, paths: &[Path]) -> Result<(), AllocError>
    ensures { OnOk result (out.new.items ≡ out.old.items ++ written_features (source, paths.now)) }
{
    if is_written(source) {
        add_hops(out, paths)
    } else {
        Ok(())
    }
}

/// The same of each list that a row names.
fn add_held(
    out: &mut Vec<Feature>,
    lists: &PathLists,
    held: &[(FibSource, PathListId)],
) -> Result<(), AllocError>
    requires { AreKept lists.now held.now }
    ensures { OnOk result (out.new.items ≡ out.old.items ++ flat_map (λ q. written_features (held_list lists.now q)) held.now) }
{
    for q in held {
        add_written(out, q.0, lists.content(q.1))?;
    }
    Ok(())
}

/// The same of each pair's.
fn add_pairs(out: &mut Vec<Feature>, pairs: &[Pair]) -> Result<(), AllocError>
    ensures { OnOk result (out.new.items ≡ out.old.items ++ flat_map (λ x. written_features (pair_list x)) pairs.now) }
{
    for x in pairs {
        add_written(out, x.source, x.paths.as_slice())?;
    }
    Ok(())
}

/// The list of the first source that a row names.
fn first_held<'a>(lists: &'a PathLists, held: &[(FibSource, PathListId)]) -> &'a [Path]
    requires { AreKept lists.now held.now }
    ensures { result.now ≡ chosen_list (map (held_list lists.now) held.now) }
{
    match held {
        [first, ..] => lists.content(first.1),
        [] => &[],
    }
}

/// The list of the first pair.
fn first_paths(pairs: &[Pair]) -> &[Path]
    ensures { result.now ≡ chosen_list (map pair_list pairs.now) }
{
    match pairs {
        [first, ..] => first.paths.as_slice(),
        [] => &[],
    }
}

/// Whether a cover makes a pair of the row.
fn has_by_cover(held: &[(FibSource, PathListId)]) -> bool
    ensures { result ≡ list_any (λ q. is_by_cover q.0) held.now }
{
    held.iter().any(|q| is_by_cover(q.0))
}

/// Whether a cover makes one of the pairs.
fn has_pair_by_cover(pairs: &[Pair]) -> bool
    ensures { result ≡ list_any (λ x. is_by_cover x.source) pairs.now }
{
    pairs.iter().any(|x| is_by_cover(x.source))
}

/// The longest of the prefixes below 32 that contains the entry's first address, that of every address where none does.
pub fn cover_among(order: &PrefixSet, e: Prefix) -> Prefix
    ensures { result ≡ cover_among order.now e }
{
    let addr = e.bits();
    // Read so that the proof knows the address's range, and that members are prefixes.
    let _number = addr.0;
    let _count = order.len();
    match order.cover(addr) {
        Some(cover) => cover,
        None => Prefix::masked(Addr(0), 0),
    }
}

/// The cover of a host.
fn host_under(e: Prefix, cover: Prefix) -> Option<Feature>
    ensures { result ≡ host_under e cover }
{
    if e.len() == 32 {
        Some(Feature::Under(cover))
    } else {
        None
    }
}

/// That of an entry with these lists, where one of them is by its cover.
fn held_under(order: &PrefixSet, e: Prefix, held: &[(FibSource, PathListId)]) -> Option<Feature>
    ensures { (lists : List PathKept) → result ≡ under_of e (cover_among order.now e) (map (held_list lists) held.now) }
{
    if has_by_cover(held) {
        host_under(e, cover_among(order, e))
    } else {
        None
    }
}

/// That cover, where one of the pairs is by it.
fn pair_under(e: Prefix, cover: Prefix, pairs: &[Pair]) -> Option<Feature>
    ensures { result ≡ under_of e cover (map pair_list pairs.now) }
{
    if has_pair_by_cover(pairs) {
        host_under(e, cover)
    } else {
        None
    }
}

/// The same where that is its cover.
fn under_cover(e: Prefix, cover: Prefix, held: &[(FibSource, PathListId)]) -> Option<Feature>
    ensures { (lists : List PathKept) → result ≡ under_of e cover (map (held_list lists) held.now) }
{
    if has_by_cover(held) {
        host_under(e, cover)
    } else {
        None
    }
}

/// By what an entry is found that has these lists, and that feature by its cover.
fn list_features(
    alloc: Global,
    lists: &PathLists,
    e: Prefix,
    held: &[(FibSource, PathListId)],
    under: Option<Feature>,
) -> Result<Vec<Feature>, AllocError>
    requires { AreKept lists.now held.now }
    ensures { IfOk result (λ v. (cover : PrefixValue) → under ≡ under_of e cover (map (held_list lists.now) held.now)
        → v.items ≡ features_of e cover (map (held_list lists.now) held.now)) }
{
    let mut out = Vec::new(alloc);
    add_paths(&mut out, e, first_held(lists, held))?;
    add_held(&mut out, lists, held)?;
    add(&mut out, under)?;
    Ok(out)
}

/// By what an entry is found that has these lists.
fn held_features(
    alloc: Global,
    lists: &PathLists,
    order: &PrefixSet,
    e: Prefix,
    held: &[(FibSource, PathListId)],
) -> Result<Vec<Feature>, AllocError>
    requires { AreKept lists.now held.now }
    ensures { IfOk result (λ v. v.items ≡ features_of e (cover_among order.now e) (map (held_list lists.now) held.now)) }
{
    list_features(alloc, lists, e, held, held_under(order, e, held))
}

/// By what the entry of a row is found. Its cover is the longest of the prefixes below 32 that contains it.
pub fn row_features(
    alloc: Global,
    lists: &PathLists,
    order: &PrefixSet,
    row: &Row,
) -> Result<Vec<Feature>, AllocError>
    requires { AreKept lists.now row.now.pairs }
    ensures { IfOk result (λ v. v.items ≡ row_features lists.now order.now row.now) }
{
    held_features(alloc, lists, order, row.prefix, row.pairs())
}

/// By what the entry of a row is found where that is its cover, which is of no meaning for a prefix shorter than 32.
pub fn features_under(
    alloc: Global,
    lists: &PathLists,
    cover: Prefix,
    row: &Row,
) -> Result<Vec<Feature>, AllocError>
    requires { AreKept lists.now row.now.pairs }
    ensures { IfOk result (λ v. v.items ≡ features_of row.now.prefix cover (map (held_list lists.now) row.now.pairs)) }
{
    let under = under_cover(row.prefix, cover, row.pairs());
    list_features(alloc, lists, row.prefix, row.pairs(), under)
}

/// By what an entry with that cover and these pairs is found, the best of which stands first. The cover is of no meaning for a prefix
/// shorter than 32.
pub fn pair_features(
    alloc: Global,
    e: Prefix,
    cover: Prefix,
    pairs: &[Pair],
) -> Result<Vec<Feature>, AllocError>
    ensures { IfOk result (λ v. v.items ≡ pair_features e cover pairs.now) }
{
    let mut out = Vec::new(alloc);
    add_paths(&mut out, e, first_paths(pairs))?;
    add_pairs(&mut out, pairs)?;
    add(&mut out, pair_under(e, cover, pairs))?;
    Ok(out)
}
