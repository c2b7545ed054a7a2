// Records and holds on a plane as its users see it, with ample memory.
ghost use Rattle.std.specs.Prelude.{IfOk, None, OnOk, Some, ◌≡◌, ◌≤◌};
ghost use Rattle.fib_pool.specs.Records.{adjacency};
ghost use Rattle.fib_pool.specs.declared.object.AdjacencyRecord.{AdjacencyRecord as RecordValue};
ghost use Rattle.fib_stack_ledger.specs.Ledgers.{times};
ghost use Rattle.fib_plane_view.specs.Promise.{MayClear};
ghost use Rattle.fib_plane_view.specs.View.{IsBalance, IsRecord};
ghost use Rattle.fib_plane.specs.Views.{view_of};
ghost use Rattle.fib_stack.specs.Records.{AreObjects};
ghost use Rattle.fib_control_quiet.specs.Early.{IsEmpty};

use crate::trouble::{Trouble, of_want};
use fib_addr::Addr;
use fib_core_plainboard::PlainBoard;
use fib_plane::Plane;
use fib_plane_view::Objects;
use fib_pool::AdjacencyRecord;
use fib_resolve::{Aim, End, Marked};
use fib_stack::{give_all, take_all};
use fib_stack_ledger::Use;
use std::alloc::Global;

/// A user of a record.
pub fn first_user<P: Objects>(on: &mut P) -> Result<u32, Trouble>
    requires empty { IsEmpty (P.promise on.old) (P.view on.old) }
    requires none { (m : RecordValue) → (P.view on.old).users m ≡ 0 }
    ensures empty { OnOk result (IsEmpty (P.promise on.new) (P.view on.new)) }
    ensures user { IfOk result (λ x. IsRecord (P.view on.new) x) }
    ensures one { OnOk result ((P.view on.new).users (adjacency 3 7 None) ≡ 1) }
{
    match on.take_adj(3, Addr(7), None)? {
        Some(object) => Ok(object),
        None => Err(Trouble::Object),
    }
}

/// Another user of that record.
pub fn second_user<P: Objects>(on: &mut P) -> Result<u32, Trouble>
    requires empty { IsEmpty (P.promise on.old) (P.view on.old) }
    requires one { (P.view on.old).users (adjacency 3 7 None) ≡ 1 }
    ensures same { IfOk result (λ x. (P.view on.old).record_of (adjacency 3 7 None) ≡ Some x) }
{
    match on.take_adj(3, Addr(7), None)? {
        Some(object) => Ok(object),
        None => Err(Trouble::Object),
    }
}

/// What is kept of a record.
pub fn kept_at(plane: &Plane<PlainBoard>, object: u32) -> AdjacencyRecord
    requires { IsRecord (view_of plane.now.plane) object }
    ensures { (view_of plane.now.plane).record_of result ≡ Some object }
{
    plane.tells();
    plane.record(object)
}

/// It goes.
pub fn user_goes<P: Objects>(on: &mut P, object: u32)
    requires empty { IsEmpty (P.promise on.old) (P.view on.old) }
    requires user { IsRecord (P.view on.old) object }
{
    on.give_adj(object);
}

/// The hold of a balance ends.
pub fn let_go<P: Objects>(on: &mut P, object: u32)
    requires empty { IsEmpty (P.promise on.old) (P.view on.old) }
    requires balance { IsBalance (P.view on.old) object }
{
    on.let_go(object);
}

// A user of the record at which the one path of a list ends.
fn take_listed<P: Objects>(alloc: Global, on: &mut P) -> Result<Vec<Use>, Trouble>
    requires empty { IsEmpty (P.promise on.old) (P.view on.old) }
    requires none { (m : RecordValue) → (P.view on.old).users m ≡ 0 }
    ensures clear { OnOk result (MayClear (P.promise on.new) (P.view on.new)) }
    ensures users { IfOk result (λ us. (m : RecordValue) → times m us.items ≤ (P.view on.new).users m) }
    ensures objects { IfOk result (λ us. AreObjects (P.view on.new) us.items) }
{
    let mut uses = Vec::with_capacity(alloc, 1)?;
    let marks = [Marked {
        aim: Aim::Ends(End::Hop {
            interface: 3,
            next_hop: Addr(7),
            mac: None,
        }),
        counts: true,
        weight: 1,
        preference: 0,
    }];
    match take_all(on, &marks, &mut uses) {
        Ok(()) => Ok(uses),
        Err(want) => Err(of_want(want)),
    }
}

/// Takes a user for each path of a list, and gives them back. Answers how many objects were free meanwhile.
pub fn listed_users<P: Objects>(alloc: Global, on: &mut P) -> Result<u32, Trouble>
    requires empty { IsEmpty (P.promise on.old) (P.view on.old) }
    requires none { (m : RecordValue) → (P.view on.old).users m ≡ 0 }
{
    let uses = take_listed(alloc, on)?;
    let free = on.free();
    give_all(on, uses.as_slice());
    Ok(free)
}
