// Single answers over tables.
ghost use Rattle.std.specs.Prelude.{◌≡◌, IfOk};
ghost use Rattle.fib_resolve.specs.Forwarding.{usable_at};
ghost use Rattle.fib_resolve.specs.Resolution.{resolve, ends};
ghost use Rattle.fib_resolve.specs.Touched.{touched};
ghost use Rattle.fib_resolve.specs.Tables.{IsSound};

use crate::snapshot::Snapshot;
use fib_addr::{Addr, Prefix};
use fib_resolve::{End, Tables};
use std::alloc::{AllocError, Global};

/// Where a packet for the address with that hash ends.
pub fn resolve(alloc: Global, tables: &Tables, addr: Addr, hash: u32) -> Result<End, AllocError>
    requires { IsSound tables.now }
    ensures { IfOk result (λ end. end ≡ resolve tables.now addr hash) }
{
    let snapshot = Snapshot::new(alloc, tables)?;
    snapshot.resolve(alloc, addr, hash)
}

/// Whether the path at that place of the prefix's chosen list is usable; false where there is none.
pub fn usable(
    alloc: Global,
    tables: &Tables,
    prefix: Prefix,
    place: u32,
) -> Result<bool, AllocError>
    requires { IsSound tables.now }
    ensures { IfOk result (λ b. b ≡ usable_at tables.now prefix place) }
{
    let snapshot = Snapshot::new(alloc, tables)?;
    Ok(snapshot.is_usable(prefix, place as usize))
}

/// The possible ends: Drop, and those of all usable paths that go on nowhere, in the order of entries, with repeats.
pub fn ends(alloc: Global, tables: &Tables) -> Result<Vec<End>, AllocError>
    requires { IsSound tables.now }
    ensures { IfOk result (λ v. v.items ≡ ends tables.now) }
{
    let snapshot = Snapshot::new(alloc, tables)?;
    snapshot.ends(alloc)
}

/// The prefixes that the change from one table to another touches, each once: those before it first.
pub fn touched(alloc: Global, before: &Tables, after: &Tables) -> Result<Vec<Prefix>, AllocError>
    requires before { IsSound before.now }
    requires after { IsSound after.now }
    ensures { IfOk result (λ v. v.items ≡ touched before.now after.now) }
{
    let old = Snapshot::new(alloc, before)?;
    let new = Snapshot::new(alloc, after)?;
    old.touched(alloc, &new)
}
