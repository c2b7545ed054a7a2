// What pairs, lists and marks tell.
ghost use Rattle.std.specs.Prelude.{◌≡◌, map, IfOk};
ghost use Rattle.fib_resolve.specs.Forwarding.{is_attached_list};
ghost use Rattle.fib_entries_rows.specs.inner.Compare.{AreKept};
ghost use Rattle.fib_follow_view.specs.inner.Told.{aim_goal, are_some, cover_aim, cover_in, derived_pairs};
ghost use Rattle.fib_follow_view.specs.inner.Told.{first_derived, first_paths, kind_goal, list_first};

use fib_addr::Prefix;
use fib_paths::{PathListId, PathLists};
use fib_resolve::{Aim, FibSource, Marked, Pair, Path, PathKind};
use std::alloc::{AllocError, Global};

/// The list of the first of a row's sources, empty where there is none.
pub fn first_list<'a>(lists: &'a PathLists, held: &[(FibSource, PathListId)]) -> &'a [Path]
    requires { AreKept lists.now held.now }
    ensures { result.now ≡ list_first lists.now held.now }
{
    match held {
        [first, ..] => lists.content(first.1),
        [] => &[],
    }
}

/// Whether the first of a row's sources is recursive resolution.
pub fn is_first_derived(held: &[(FibSource, PathListId)]) -> bool
    ensures { result ≡ first_derived held.now }
{
    match held {
        [first, ..] => first.0.is_derived(),
        [] => false,
    }
}

/// The list of the first of the pairs, empty where there is none.
pub fn first_paths(pairs: &[Pair]) -> &[Path]
    ensures { result.now ≡ first_paths pairs.now }
{
    match pairs {
        [first, ..] => first.paths.as_slice(),
        [] => &[],
    }
}

/// Whether there is a pair.
pub fn are_some(pairs: &[Pair]) -> bool
    ensures { result ≡ are_some pairs.now }
{
    match pairs {
        [_, ..] => true,
        [] => false,
    }
}

/// Whether the first of the pairs is of recursive resolution.
pub fn is_pair_derived(pairs: &[Pair]) -> bool
    ensures { result ≡ derived_pairs pairs.now }
{
    match pairs {
        [first, ..] => first.source.is_derived(),
        [] => false,
    }
}

/// Where packets go on, if they do.
fn aim_goal(aim: Aim) -> Option<Prefix>
    ensures { result ≡ aim_goal aim }
{
    match aim {
        Aim::On(target) => Some(target),
        Aim::Ends(_) => None,
    }
}

/// Where the path with each mark leads.
pub fn aim_goals(alloc: Global, marks: &[Marked]) -> Result<Vec<Option<Prefix>>, AllocError>
    ensures { IfOk result (λ v. v.items ≡ map (λ m. aim_goal m.aim) marks.now) }
{
    marks.iter().map(|m| aim_goal(m.aim)).collect(alloc)
}

/// Where a path leads that an entry with that cover has.
fn kind_goal(cover: Prefix, kind: PathKind) -> Option<Prefix>
    ensures { result ≡ kind_goal cover kind }
{
    match kind {
        PathKind::Recursive(a) => Some(Prefix::host(a)),
        PathKind::Cover => Some(cover),
        _ => None,
    }
}

/// Where each of the paths leads.
pub fn kind_goals(
    alloc: Global,
    cover: Prefix,
    paths: &[Path],
) -> Result<Vec<Option<Prefix>>, AllocError>
    ensures { IfOk result (λ v. v.items ≡ map (λ p. kind_goal cover p.kind) paths.now) }
{
    paths
        .iter()
        .map(|p| kind_goal(cover, p.kind))
        .collect(alloc)
}

/// The entry at which packets go on, where it is a cover: all others are hosts.
fn cover_aim(aim: Aim) -> Option<Prefix>
    ensures { result ≡ cover_aim aim }
{
    match aim {
        Aim::On(target) => {
            if target.len() < 32 {
                Some(target)
            } else {
                None
            }
        }
        Aim::Ends(_) => None,
    }
}

/// The cover to which the path with one of the marks leads, if one does.
pub fn cover_in(marks: &[Marked]) -> Option<Prefix>
    ensures { result ≡ cover_in marks.now }
{
    let [mark, rest @ ..] = marks else {
        return None;
    };
    match cover_aim(mark.aim) {
        Some(cover) => Some(cover),
        None => cover_in(rest),
    }
}

/// Whether the list is one path, of kind Attached or Hop.
pub fn is_attached_list(paths: &[Path]) -> bool
    ensures { result ≡ is_attached_list paths.now }
{
    match paths {
        [only] => matches!(only.kind, PathKind::Attached(_) | PathKind::Hop { .. }),
        _ => false,
    }
}
