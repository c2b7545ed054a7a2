// What is told of a change.
ghost use Rattle.std.specs.Prelude.{◌≡◌, ◌++◌, Bool, List as Items, IfOk, OnOk, filter, map, slice_index};
ghost use Rattle.std.specs.Set.{is_member};
ghost use Rattle.fib_addr.specs.Prefixes.{Prefix as PrefixValue, same_prefix};
ghost use Rattle.fib_reach.specs.Walks.{AllDiffer};
ghost use Rattle.fib_resolve.specs.declared.types.Tables.{Tables as TablesValue};
ghost use Rattle.fib_resolve_changes.specs.Reached.{HoldsTouched};
ghost use Rattle.fib_entries_rows.specs.Changes.{AreTouched};
ghost use Rattle.fib_entries_rows.specs.Known.{rank_of};
ghost use Rattle.fib_follow_view.specs.Views.{IsAfter, is_changed};
ghost use Rattle.fib_follow_part.specs.Parts.{IsPart, in_part};
ghost use Rattle.fib_follow_told.specs.Told.{AreBodies, AreMovedBy, IsTold, body_prefix, rank_left};
ghost use Rattle.fib_follow_told.specs.inner.Moves.{left_in, moved_with};
ghost use Rattle.fib_follow_told.specs.inner.Tests.{touched_by};

use crate::alike::is_touched;
use crate::body::Body;
use fib_addr::Prefix;
use fib_base_list::List;
use fib_entries_rows::{Followed, Moved, Touched};
use fib_follow_part::Part;
use fib_follow_view::View;
use std::alloc::{AllocError, Global};

fn touched_among(alloc: Global, view: &View<'_>, bodies: &[Body]) -> Result<Vec<Prefix>, AllocError>
    ensures { IfOk result (λ v. v.items ≡ map body_prefix (filter (touched_by view.now) bodies.now)) }
{
    bodies
        .iter()
        .filter(|body| is_touched(view, body))
        .map(|body| body.prefix)
        .collect(alloc)
}

/// The touched prefixes, each once: those of the bodies that differ from what the rows have, where the bodies are those of all that a
/// change can touch (`HoldsTouched`). An error means that memory ran out.
pub fn touched(alloc: Global, view: &View<'_>, bodies: &[Body]) -> Result<List<Prefix>, AllocError>
    ensures { IfOk result (λ l. (S T : TablesValue) (part : PrefixValue → Bool) (list : Items PrefixValue) → IsAfter view.now S T
        → AllDiffer list → HoldsTouched S T (is_changed view.now.changed) part (is_member same_prefix list) → AreBodies T list bodies.now
        → AreTouched S T l) }
{
    let found = touched_among(alloc, view, bodies)?;
    Ok(List::from_vec(found))
}

/// The rank that the prefix had; 0 where it was no entry.
fn rank_before(view: &View<'_>, e: Prefix) -> u32
    ensures { result ≡ rank_of view.now.before.rows e }
{
    match view.before().row(e) {
        Some(r) => r.rank(),
        None => 0,
    }
}

fn rank_at(ranks: &[u32], place: usize) -> u32
    ensures { result ≡ slice_index ranks.now place }
{
    match ranks.get(place) {
        Some(rank) => *rank,
        None => 0,
    }
}

/// That rank, or 0 where the prefix is no entry after the change.
fn rank_left(view: &View<'_>, e: Prefix, rank: u32) -> u32
    ensures { result ≡ left_in view.now e rank }
{
    if view.is_entry(e) { rank } else { 0 }
}

/// Appends the prefix with the rank that it had, where it has another.
fn push_moved(out: &mut List<Moved>, e: Prefix, had: u32, has: u32) -> Result<(), AllocError>
    ensures { OnOk result (out.new ≡ out.old ++ moved_with e had has) }
{
    if had == has {
        return Ok(());
    }
    out.push(Moved {
        prefix: e,
        rank: had,
    })?;
    Ok(())
}

/// The prefixes that have another rank than before, each once, with the rank that they had, where the part's members have these. A prefix
/// that is no entry has rank 0. An error means that memory ran out.
pub fn moved(
    alloc: Global,
    view: &View<'_>,
    part: &Part,
    ranks: &[u32],
) -> Result<List<Moved>, AllocError>
    ensures { IfOk result (λ l. (S T : TablesValue) → IsAfter view.now S T → IsPart view.now S T part.now
        → AreMovedBy (rank_of view.now.before.rows) (rank_left T view.now part.now ranks.now) l) }
{
    let mut out = List::new(alloc);
    let members = part.members();
    'members: for place in 0..members.len() {
        let e = members[place];
        let has = rank_left(view, e, rank_at(ranks, place));
        push_moved(&mut out, e, rank_before(view, e), has)?;
    }
    Ok(out)
}

/// What is told of a change: the touched prefixes, where the bodies are those of all that it can touch, and those of another rank, where
/// the part's members have these ranks. An error means that memory ran out.
pub fn told(
    alloc: Global,
    view: &View<'_>,
    part: &Part,
    ranks: &[u32],
    bodies: &[Body],
) -> Result<Followed, AllocError>
    ensures { IfOk result (λ f. (S T : TablesValue) (list : Items PrefixValue) → IsAfter view.now S T → IsPart view.now S T part.now
        → AllDiffer list → HoldsTouched S T (is_changed view.now.changed) (in_part part.now) (is_member same_prefix list)
        → AreBodies T list bodies.now → IsTold view.now S T part.now ranks.now f) }
{
    let list = touched(alloc, view, bodies)?;
    let moved = moved(alloc, view, part, ranks)?;
    Ok(Followed {
        touched: Touched::of(list),
        moved,
    })
}
