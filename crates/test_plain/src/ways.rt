// The way of a packet from entry to entry, and its end.
ghost use Rattle.std.specs.Prelude.{◌≡◌, ◌+◌, ◌-◌, ◌/◌, ◌%◌, ◌<◌, ℕ, IfOk, find, option_map, slice_get};
ghost use Rattle.fib_resolve.specs.Pairs.{entries, best, cover};
ghost use Rattle.fib_resolve.specs.Forwarding.{limit};
ghost use Rattle.fib_resolve.specs.Buckets.{wanted};
ghost use Rattle.fib_resolve.specs.Resolution.{follow, resolve, way};
ghost use Rattle.test_plain.specs.inner.Steps.{Steps, EndsOrGoesOn};

use crate::snapshot::Snapshot;
use crate::view;
use fib_addr::{Addr, Prefix};
use fib_resolve::{End, PathKind};
use std::alloc::{AllocError, Global};

/// What comes after an entry.
#[derive(Clone, Copy)]
pub enum NextStep {
    Ends(End),
    GoesOn(Prefix),
}

/// What comes where a path of that kind is taken at an entry.
fn take(view: &Snapshot<'_>, e: Prefix, kind: PathKind) -> NextStep
    ensures { EndsOrGoesOn view.now e kind result }
{
    match kind {
        PathKind::Drop => NextStep::Ends(End::Drop),
        PathKind::Local => NextStep::Ends(End::Receive),
        PathKind::Attached(i) => NextStep::Ends(view.meaning().attached_end(e, i)),
        PathKind::Hop {
            next_hop,
            interface,
        } => NextStep::Ends(view.meaning().hop_end(interface, next_hop)),
        PathKind::Recursive(a) => NextStep::GoesOn(Prefix::host(a)),
        PathKind::Cover => NextStep::GoesOn(view.known().cover(e.bits())),
    }
}

/// What comes after an entry, for a packet with that hash.
fn step(alloc: Global, view: &Snapshot<'_>, e: Prefix, hash: u32) -> Result<NextStep, AllocError>
    ensures { IfOk result (λ next_step. Steps view.now e hash next_step) }
{
    let paths = view::wanted(alloc, view, e)?;
    match view::at_place(paths.as_slice(), (hash % 16) as usize) {
        Some(p) => Ok(take(view, e, p.kind)),
        None => Ok(NextStep::Ends(End::Drop)),
    }
}

/// Where a packet for the address with that hash ends.
pub fn resolve(alloc: Global, view: &Snapshot<'_>, addr: Addr, hash: u32) -> Result<End, AllocError>
    ensures { IfOk result (λ end. end ≡ resolve view.now addr hash) }
{
    let mut e = view.best(addr);
    let mut left = hash;
    for _n in 0..view.known().entries().len() + 1 {
        match step(alloc, view, e, left)? {
            NextStep::Ends(end) => return Ok(end),
            NextStep::GoesOn(next) => e = next,
        }
        left /= 2;
    }
    Ok(End::Drop)
}
