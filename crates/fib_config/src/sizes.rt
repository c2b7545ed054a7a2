// Whether tables have room.
ghost use Rattle.std.specs.Prelude.{◌≡◌, ◌≤◌, ◌<◌, ◌^◌, ◌-◌, IfOk, IfSome, IfNone};
ghost use Rattle.fib_resolve.specs.Tables.{IsSound};
ghost use Rattle.fib_resolve.specs.Sizes.{size};
ghost use Rattle.fib_config.specs.inner.Bounds.{allowance, IsBoundFor};

use crate::bounds;
use fib_resolve::Tables;
use std::alloc::{AllocError, Global};

/// A bound on the allowance of the tables, where they take no more objects than there is room for. None where they take more.
///
/// The bound that is known is taken where it is within the room. Else the allowance is counted, and where that is beyond the room,
/// the size.
#[tactic(auto, using(crate::proofs::Within::size_allowed))]
pub fn fitting_bound(
    alloc: Global,
    tables: &Tables,
    bound: usize,
    room: u32,
) -> Result<Option<usize>, AllocError>
    requires sound { IsSound tables.now }
    requires bound { IsBoundFor bound (allowance tables.now) }
    requires room { room < 2 ^ 32 - 1 }
    ensures fits { IfOk result (λ o. IfSome o (λ b. (size tables.now ≤ room) × IsBoundFor b (allowance tables.now))) }
    ensures large { IfOk result (λ o. IfNone o (room < size tables.now)) }
{
    if bound <= room as usize {
        return Ok(Some(bound));
    }
    let counted = bounds::allowance(alloc, tables)?;
    if counted <= room as usize {
        return Ok(Some(counted));
    }
    if fib_resolve_pairs::size(alloc, tables)? <= room {
        return Ok(Some(counted));
    }
    Ok(None)
}
