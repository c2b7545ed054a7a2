// The size after a change.
ghost use Rattle.std.specs.Prelude.{◌≡◌, ◌+◌, ◌-◌, ◌^◌, ℕ, IfOk, IsErr, map, min};
ghost use Rattle.fib_cover.specs.Covers.{IsAscending};
ghost use Rattle.fib_resolve.specs.Sizes.{size};
ghost use Rattle.fib_resolve.specs.declared.types.Tables.{Tables as TablesValue};
ghost use Rattle.fib_entries_rows.specs.Known.{prefix_of};
ghost use Rattle.fib_follow_view.specs.Views.{IsAfter, anew_prefix};
ghost use Rattle.fib_follow_sized.specs.Holders.{AreHolders};
ghost use Rattle.fib_follow_sized.specs.inner.Counts.{ends_are, ends_were, less_of, more_of, moved_of, on_way_of};

use crate::ends::{HeldEnds, ends_after, ends_before, ends_count};
use crate::moved::{entries_after, entries_before, moved, on_way};
use crate::plies::{plies_after, plies_before};
use fib_addr::Prefix;
use fib_base_blocks::Blocks;
use fib_entries_rows::Row;
use fib_follow_view::View;
use fib_resolve::Adjacency;
use std::alloc::{AllocError, Global};

/// What of the tables can come or go with the changed entries.
struct Moving {
    /// Those that come or go.
    entries: Vec<Prefix>,
    /// The plies on the way to these, each once.
    plies: Vec<Prefix>,
    /// The Hop ends that changed entries had, and those that they have.
    ends_before: Vec<Adjacency>,
    ends_after: Vec<Adjacency>,
}

// The prover follows what a drop does here, once, and not at every way out past an owner.
impl Drop for Moving {
    fn drop(self) {
        let Moving {
            entries: _,
            plies: _,
            ends_before: _,
            ends_after: _,
        } = self;
    }
}

fn moving_of(alloc: Global, view: &View<'_>) -> Result<Moving, AllocError>
    ensures entries { IfOk result (λ m. m.entries.items ≡ moved_of view.now) }
    ensures plies { IfOk result (λ m. m.plies.items ≡ on_way_of (moved_of view.now)) }
    ensures before { IfOk result (λ m. m.ends_before.items ≡ ends_were view.now) }
    ensures after { IfOk result (λ m. m.ends_after.items ≡ ends_are view.now) }
    ensures ordered { IsAscending (map anew_prefix view.now.changed) }
{
    let entries = moved(alloc, view, view.changed())?;
    let plies = on_way(alloc, entries.as_slice())?;
    let ends_before = ends_before(alloc, view, view.changed())?;
    let ends_after = ends_after(alloc, view, view.changed())?;
    Ok(Moving {
        entries,
        plies,
        ends_before,
        ends_after,
    })
}

/// The sum of three numbers; want of memory where it doesn't fit.
fn sum(plies: usize, entries: usize, ends: usize) -> Result<usize, AllocError>
    ensures { IfOk result (λ n. n ≡ plies + entries + ends) }
{
    let Some(both) = plies.checked_add(entries) else {
        return Err(AllocError);
    };
    both.checked_add(ends).ok_or(AllocError)
}

/// How many objects of what can come or go are there before the change.
fn count_before(
    alloc: Global,
    view: &View<'_>,
    rows: &Blocks<Row>,
    moving: &Moving,
    held: &HeldEnds,
) -> Result<usize, AllocError>
    requires ordered { IsAscending (map prefix_of rows.now) }
    requires rows { rows.now ≡ view.now.before.rows }
    requires entries { moving.now.entries.items ≡ moved_of view.now }
    requires plies { moving.now.plies.items ≡ on_way_of (moved_of view.now) }
    requires before { moving.now.ends_before.items ≡ ends_were view.now }
    requires after { moving.now.ends_after.items ≡ ends_are view.now }
    ensures { IfOk result (λ n. n ≡ less_of view.now held.now.keys) }
{
    let own = moving.ends_before.as_slice();
    let ends = ends_count(alloc, own, moving.ends_after.as_slice(), held)?;
    let plies = plies_before(rows, moving.plies.as_slice());
    sum(plies, entries_before(view, moving.entries.as_slice()), ends)
}

/// How many are there after it.
fn count_after(
    alloc: Global,
    view: &View<'_>,
    rows: &Blocks<Row>,
    moving: &Moving,
    held: &HeldEnds,
) -> Result<usize, AllocError>
    requires ordered { IsAscending (map prefix_of rows.now) }
    requires rows { rows.now ≡ view.now.before.rows }
    requires entries { moving.now.entries.items ≡ moved_of view.now }
    requires plies { moving.now.plies.items ≡ on_way_of (moved_of view.now) }
    requires before { moving.now.ends_before.items ≡ ends_were view.now }
    requires after { moving.now.ends_after.items ≡ ends_are view.now }
    ensures { IfOk result (λ n. n ≡ more_of view.now held.now.keys) }
{
    let own = moving.ends_after.as_slice();
    let ends = ends_count(alloc, own, moving.ends_before.as_slice(), held)?;
    let plies = plies_after(view, rows, moving.plies.as_slice());
    sum(plies, entries_after(view, moving.entries.as_slice()), ends)
}

/// The objects with so many more and so many less, or 4,294,967,295 where these are more; want of memory where the objects aren't told
/// exactly.
fn resized(objects: u32, less: usize, more: usize) -> Result<u32, AllocError>
    ensures size { IfOk result (λ n. (s t : ℕ) → objects ≡ min s (2 ^ 32 - 1) → t + less ≡ s + more → n ≡ min t (2 ^ 32 - 1)) }
    ensures full { objects ≡ 2 ^ 32 - 1 → IsErr result }
{
    if objects == u32::MAX {
        return Err(AllocError);
    }
    let Some(with) = (objects as usize).checked_add(more) else {
        return Err(AllocError);
    };
    let Some(left) = with.checked_sub(less) else {
        return Err(AllocError);
    };
    Ok(left.min(u32::MAX as usize) as u32)
}

/// The number of objects of the tables after the change, or 4,294,967,295 where it is greater. The rows are those of before, and the Hop
/// ends held those of changed entries that entries beside them have too (`asked_ends` tells of which this has to be known).
///
/// An error means that memory ran out, or that the size before is told as 4,294,967,295, which tells no size.
pub fn sized(
    alloc: Global,
    view: &View<'_>,
    rows: &Blocks<Row>,
    held: &HeldEnds,
) -> Result<u32, AllocError>
    requires { rows.now ≡ view.now.before.rows }
    ensures size { IfOk result (λ n. (S T : TablesValue) → IsAfter view.now S T → AreHolders view.now S T held.now.keys
        → n ≡ min (size T) (2 ^ 32 - 1)) }
    ensures full { view.now.before.objects ≡ 2 ^ 32 - 1 → IsErr result }
{
    // The order tells that the rows ascend.
    let _order = view.before().order();
    let moving = moving_of(alloc, view)?;
    let less = count_before(alloc, view, rows, &moving, held)?;
    let more = count_after(alloc, view, rows, &moving, held)?;
    resized(view.before().objects(), less, more)
}
