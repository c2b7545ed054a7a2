// A prefix table over a plane, with ample memory.
ghost use Rattle.std.specs.Prelude.{IfOk, IsTrue, None, OnOk, ◌+◌, ◌<◌, ◌≡◌, ◌≤◌};
ghost use Rattle.fib_pool.specs.declared.object.AdjacencyRecord.{AdjacencyRecord};
ghost use Rattle.fib_plane.specs.Views.{promise_of, view_of};
ghost use Rattle.fib_ply.specs.Tables.{object_in};
ghost use Rattle.fib_control_quiet.specs.Early.{IsDropping, IsEmpty, IsTried};

use crate::trouble::Trouble;
use fib_addr::{Addr, Prefix};
use fib_core::Word;
use fib_core_plainboard::PlainBoard;
use fib_plane::Plane;
use fib_plane_view::Objects;
use fib_ply::PrefixTable;
use fib_pool::Kind;
use std::alloc::{AllocError, Global};

/// A plane over 128 objects and one worker.
pub fn fresh(alloc: Global) -> Result<Plane<PlainBoard>, AllocError>
    ensures empty { IfOk result (λ s. IsEmpty (promise_of s.plane.board) (view_of s.plane)) }
    ensures users { IfOk result (λ s. (m : AdjacencyRecord) → (view_of s.plane).users m ≡ 0) }
{
    let board = PlainBoard::new(alloc, 128, 1)?;
    let shared = Plane::new(alloc, board)?;
    Ok(shared)
}

/// A balance that drops, before there is a table.
pub fn first_balance<P: Objects>(on: &mut P) -> Result<u32, Trouble>
    requires { IsEmpty (P.promise on.old) (P.view on.old) }
    ensures empty { OnOk result (IsEmpty (P.promise on.new) (P.view on.new)) }
    ensures balance { IfOk result (λ o. IsDropping (P.view on.new) o) }
    ensures promise { OnOk result (P.promise on.new ≡ P.promise on.old) }
{
    match on.take(Kind::Balance) {
        Some(object) => Ok(object),
        None => Err(Trouble::Object),
    }
}

/// A table with 0.0.0.0/0 alone, which leads to that balance.
pub fn begun<P: Objects>(alloc: Global, on: &mut P, object: u32) -> Result<PrefixTable, Trouble>
    requires empty { IsEmpty (P.promise on.old) (P.view on.old) }
    requires balance { IsDropping (P.view on.old) object }
    ensures tried { IfOk result (λ t. IsTried (P.promise on.new) t (P.view on.new)) }
    ensures promise { OnOk result (P.promise on.new ≡ P.promise on.old) }
{
    let mut table = PrefixTable::new(alloc);
    table.reserve(alloc, 1)?;
    table.ready(on, object);
    Ok(table)
}

/// A plane with such a table.
pub fn started(alloc: Global) -> Result<(Plane<PlainBoard>, PrefixTable), Trouble>
    ensures { IfOk result (λ r. IsTried (promise_of r.0.plane.board) r.1 (view_of r.0.plane)) }
{
    let mut shared = fresh(alloc)?;
    let object = first_balance(&mut shared)?;
    let table = begun(alloc, &mut shared, object)?;
    Ok((shared, table))
}

// A balance more.
fn next_balance<P: Objects>(on: &mut P, table: &PrefixTable) -> Result<u32, Trouble>
    requires { IsTried (P.promise on.old) table.now (P.view on.old) }
    ensures tried { OnOk result (IsTried (P.promise on.new) table.now (P.view on.new)) }
    ensures balance { IfOk result (λ o. IsDropping (P.view on.new) o) }
{
    match on.take(Kind::Balance) {
        Some(object) => Ok(object),
        None => Err(Trouble::Object),
    }
}

// Whether the prefix may be added.
fn may_add<P: Objects>(on: &P, table: &PrefixTable, prefix: Prefix) -> bool
    ensures { IsTrue result → (1 ≤ prefix.len) × (object_in table.now prefix ≡ None) × (7 ≤ (P.view on.now).free) }
{
    if prefix.len() == 0 {
        return false;
    }
    if table.object(prefix).is_some() {
        return false;
    }
    on.free() >= 7
}

// Adds a prefix, which leads to that balance. Answers the stores.
fn add<P: Objects>(
    alloc: Global,
    on: &mut P,
    table: &mut PrefixTable,
    prefix: Prefix,
    object: u32,
) -> Result<u64, Trouble>
    requires tried { IsTried (P.promise on.old) table.old (P.view on.old) }
    requires balance { IsDropping (P.view on.old) object }
    ensures { OnOk result (IsTried (P.promise on.new) table.new (P.view on.new)) }
{
    if !may_add(on, table, prefix) {
        return Err(Trouble::Refused);
    }
    table.reserve(alloc, 1)?;
    table.room(on)?;
    Ok(table.add(on, prefix, object))
}

/// Adds a prefix with a balance of its own. Answers the stores.
pub fn add_new<P: Objects>(
    alloc: Global,
    on: &mut P,
    table: &mut PrefixTable,
    prefix: Prefix,
) -> Result<u64, Trouble>
    requires { IsTried (P.promise on.old) table.old (P.view on.old) }
    ensures { OnOk result (IsTried (P.promise on.new) table.new (P.view on.new)) }
{
    let object = next_balance(on, table)?;
    add(alloc, on, table, prefix, object)
}

/// Removes a prefix. Answers the stores.
pub fn remove<P: Objects>(
    on: &mut P,
    table: &mut PrefixTable,
    prefix: Prefix,
) -> Result<u64, Trouble>
    requires { IsTried (P.promise on.old) table.old (P.view on.old) }
    ensures { OnOk result (IsTried (P.promise on.new) table.new (P.view on.new)) }
{
    if prefix.len() == 0 {
        return Err(Trouble::Refused);
    }
    table.room(on)?;
    Ok(table.remove(on, prefix))
}

/// Where the plies lead an address.
pub fn answer<P: Objects>(on: &P, table: &PrefixTable, addr: Addr) -> Option<u32>
    requires { IsTried (P.promise on.now) table.now (P.view on.now) }
{
    Some(table.answer(on, addr))
}

/// Removes two prefixes, and lets what was replaced go. Answers how many copies are left.
pub fn remove_both<P: Objects>(
    on: &mut P,
    table: &mut PrefixTable,
    one: Prefix,
    other: Prefix,
) -> Result<u32, Trouble>
    requires { IsTried (P.promise on.old) table.old (P.view on.old) }
{
    remove(on, table, one)?;
    remove(on, table, other)?;
    Ok(scan(on, table))
}

// Lets what was replaced go.
fn scan<P: Objects>(on: &mut P, table: &PrefixTable) -> u32
    requires { IsTried (P.promise on.old) table.now (P.view on.old) }
{
    on.scan()
}
