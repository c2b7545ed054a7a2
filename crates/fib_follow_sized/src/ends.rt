// The Hop ends of changed entries.
ghost use Rattle.std.specs.Prelude.{◌≡◌, ◌↔◌, Contains, IfOk, filter, flat_map, length};
ghost use Rattle.std.specs.List.{IsDistinct};
ghost use Rattle.std.specs.Set.{is_member};
ghost use Rattle.fib_resolve.specs.Sizes.{same_adjacency};
ghost use Rattle.fib_resolve.specs.declared.pairs.Adjacency.{Adjacency as AdjacencyValue};
ghost use Rattle.fib_resolve.specs.declared.types.Tables.{Tables as TablesValue};
ghost use Rattle.fib_follow_view.specs.Views.{IsAfter};
ghost use Rattle.fib_follow_sized.specs.Holders.{IsAsked};
ghost use Rattle.fib_follow_sized.specs.inner.Counts.{ends_after, ends_before, ends_count};

use fib_base_blocks::Blocks;
use fib_follow_view::{Anew, View};
use fib_resolve::Adjacency;
use fib_resolve_pairs::{add_adjacencies, distinct};
use std::alloc::{AllocError, Global};
use std::collections::HashSet;

/// Hop ends that entries beside the changed ones have.
pub type HeldEnds = HashSet<Adjacency>;

/// The Hop ends of the chosen lists that the changed entries had, with repeats.
pub fn ends_before(
    alloc: Global,
    view: &View<'_>,
    changed: &Blocks<Anew>,
) -> Result<Vec<Adjacency>, AllocError>
    ensures { IfOk result (λ v. v.items ≡ flat_map (λ x. ends_before view.now x.prefix) changed.now) }
{
    let mut out = Vec::new(alloc);
    'changed: for place in 0..changed.len() {
        let e = changed[place].prefix;
        add_adjacencies(&mut out, e, view.before().chosen(e))?;
    }
    Ok(out)
}

/// Those of the chosen lists that they have after the change.
pub fn ends_after(
    alloc: Global,
    view: &View<'_>,
    changed: &Blocks<Anew>,
) -> Result<Vec<Adjacency>, AllocError>
    ensures { IfOk result (λ v. v.items ≡ flat_map (λ x. ends_after view.now x.prefix) changed.now) }
{
    let mut out = Vec::new(alloc);
    'changed: for place in 0..changed.len() {
        let e = changed[place].prefix;
        add_adjacencies(&mut out, e, view.chosen(e))?;
    }
    Ok(out)
}

/// The Hop ends that the changed entries have before or after the change, each once: of these it has to be known whether entries beside
/// them have them. An error means that memory ran out.
pub fn asked_ends(alloc: Global, view: &View<'_>) -> Result<Vec<Adjacency>, AllocError>
    ensures once { IfOk result (λ v. IsDistinct same_adjacency v.items) }
    ensures asked { IfOk result (λ v. (S T : TablesValue) → IsAfter view.now S T
        → (x : AdjacencyValue) → Contains v.items x ↔ IsAsked view.now S T x) }
{
    let mut all = ends_before(alloc, view, view.changed())?;
    let after = ends_after(alloc, view, view.changed())?;
    all.extend_from_slice(after.as_slice())?;
    distinct(alloc, all.as_slice())
}

/// Those of the ends that are held.
fn held_of(alloc: Global, ends: &[Adjacency], held: &HeldEnds) -> Result<Vec<Adjacency>, AllocError>
    ensures { IfOk result (λ v. v.items ≡ filter (is_member same_adjacency held.now.keys) ends.now) }
{
    ends.iter()
        .copied()
        .filter(|x| held.contains(x))
        .collect(alloc)
}

/// How many different ends are there: the changed entries' own, and those of the other side that are held.
pub fn ends_count(
    alloc: Global,
    own: &[Adjacency],
    others: &[Adjacency],
    held: &HeldEnds,
) -> Result<usize, AllocError>
    ensures { IfOk result (λ n. n ≡ ends_count own.now others.now held.now.keys) }
{
    let mut all = held_of(alloc, others, held)?;
    all.extend_from_slice(own)?;
    Ok(distinct(alloc, all.as_slice())?.len())
}
