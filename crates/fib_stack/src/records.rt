// Adjacency records, taken all or none, and given back.
ghost use Rattle.std.specs.Prelude.{◌≡◌, ◌+◌, ◌-◌, ◌^◌, ◌<◌, ◌≤◌, ℕ, [], List, IsErrOf, OnErr, OnOk, Option, Some, length, map, vec_capacity};
ghost use Rattle.std.specs.List.{AllByRecursion};
ghost use Rattle.fib_addr.specs.Prefixes.{Prefix};
ghost use Rattle.fib_pool.specs.declared.object.AdjacencyRecord.{AdjacencyRecord as Record};
ghost use Rattle.fib_pool.specs.Records.{adjacency};
ghost use Rattle.fib_stack_ledger.specs.Ledgers.{record_used, times, used_by};
ghost use Rattle.fib_core_steady.specs.Names.{Names};
ghost use Rattle.fib_plane_view.specs.Frames.{IsQuiet};
ghost use Rattle.fib_plane_view.specs.Promise.{MayClear, Serves};
ghost use Rattle.fib_plane_view.specs.Stores.{IsFreed, StoresEach};
ghost use Rattle.fib_plane_view.specs.View.{IsLive};
ghost use Rattle.fib_stack.specs.Calls.{GivesOnly, TakesOnly};
ghost use Rattle.fib_stack.specs.Records.{AreObjects, Freed, GaveAll, IsAlone, IsObjectOf, LacksFor, SamePlane};
ghost use Rattle.fib_stack.specs.Records.{TookAll, TookFor, TookNew, record_for, records_for};

use fib_addr::{Addr, Mac};
use fib_plane_view::Objects;
use fib_resolve::{Aim, End, Marked};
use fib_stack_ledger::{Known, Use};

/// What kept records, or an object, from being taken.
#[derive(Clone, Copy, PartialEq, Eq, Debug)]
pub enum Want {
    /// There was no memory.
    Memory,
    /// No object is free.
    Object,
}

/// Gives a user of each record back. Each must have as many, and its object.
pub fn give_all<P: Objects>(on: &mut P, uses: &[Use])
    requires users { (m : Record) → times m uses.now ≤ (P.view on.old).users m }
    requires objects { AreObjects (P.view on.old) uses.now }
    requires promise { MayClear (P.promise on.old) (P.view on.old) }
    ensures gave { GaveAll (P.view on.old) (P.view on.new) uses.now }
    ensures given { GivesOnly (P.view on.old) (P.view on.new) }
    ensures stores { StoresEach (λ y k. IsFreed (P.view on.old) (P.view on.new) y) (P.view on.old) (P.view on.new) }
    ensures alive { (y : ℕ) → IsLive (P.view on.new) y → IsLive (P.view on.old) y }
    ensures freed { (ms : List Record) → AllByRecursion (IsAlone (P.view on.old)) ms → Freed (P.view on.old) (P.view on.new) uses.now ms }
    ensures quiet { (look : Prefix → Option ℕ) → IsQuiet look (P.view on.old) (P.view on.new) }
    ensures serves { (n : Names) → Serves (P.promise on.old) n (P.view on.old) → Serves (P.promise on.old) n (P.view on.new) }
    ensures promise { P.promise on.new ≡ P.promise on.old }
{
    for held in uses {
        on.give_adj(held.object);
    }
}

/// Gives back what was used by it.
pub fn give_old<P: Objects>(on: &mut P, old: &Option<Known>)
    requires users { (m : Record) → times m (used_by old.now) ≤ (P.view on.old).users m }
    requires objects { AreObjects (P.view on.old) (used_by old.now) }
    requires promise { MayClear (P.promise on.old) (P.view on.old) }
    ensures gave { GaveAll (P.view on.old) (P.view on.new) (used_by old.now) }
    ensures given { GivesOnly (P.view on.old) (P.view on.new) }
    ensures stores { StoresEach (λ y k. IsFreed (P.view on.old) (P.view on.new) y) (P.view on.old) (P.view on.new) }
    ensures alive { (y : ℕ) → IsLive (P.view on.new) y → IsLive (P.view on.old) y }
    ensures quiet { (look : Prefix → Option ℕ) → IsQuiet look (P.view on.old) (P.view on.new) }
    ensures serves { (n : Names) → Serves (P.promise on.old) n (P.view on.old) → Serves (P.promise on.old) n (P.view on.new) }
    ensures promise { P.promise on.new ≡ P.promise on.old }
{
    match old {
        Some(known) => give_all(on, known.uses.as_slice()),
        None => give_all(on, &[]),
    }
}

/// The same once more.
fn copy_of(mac: &Option<Mac>) -> Option<Mac>
    ensures { result ≡ mac.now }
{
    match mac {
        Some(mac) => Some(*mac),
        None => None,
    }
}

/// Takes a user of the record. There must be room for it in the list.
fn take_hop<P: Objects>(
    on: &mut P,
    interface: u32,
    next_hop: Addr,
    mac: Option<Mac>,
    uses: &mut Vec<Use>,
) -> Result<(), Want>
    requires room { length uses.old.items < vec_capacity uses.old }
    requires few { (m : Record) → (P.view on.old).users m < 2 ^ 32 - 1 }
    requires promise { MayClear (P.promise on.old) (P.view on.old) }
    ensures took { TookFor (P.view on.old) (P.view on.new) (Some (adjacency interface next_hop mac)) uses.old.items uses.new.items result }
    ensures stores { StoresEach (λ y k. IsObjectOf uses.new.items y × (IsLive (P.view on.old) y → ⊥)) (P.view on.old) (P.view on.new) }
    ensures capacity { vec_capacity uses.new ≡ vec_capacity uses.old }
    ensures promise { P.promise on.new ≡ P.promise on.old }
{
    match on.take_adj(interface, next_hop, copy_of(&mac)) {
        Ok(Some(object)) => {
            uses.push_reserved(Use {
                interface,
                next_hop,
                mac,
                object,
            });
            Ok(())
        }
        Ok(None) => Err(Want::Object),
        Err(_) => Err(Want::Memory),
    }
}

/// Takes a user of the record at which the aim ends packets, if it does at one. There must be room for it in the list.
fn take_for<P: Objects>(on: &mut P, aim: Aim, uses: &mut Vec<Use>) -> Result<(), Want>
    requires room { length uses.old.items < vec_capacity uses.old }
    requires few { (m : Record) → (P.view on.old).users m < 2 ^ 32 - 1 }
    requires promise { MayClear (P.promise on.old) (P.view on.old) }
    ensures took { TookFor (P.view on.old) (P.view on.new) (record_for aim) uses.old.items uses.new.items result }
    ensures stores { StoresEach (λ y k. IsObjectOf uses.new.items y × (IsLive (P.view on.old) y → ⊥)) (P.view on.old) (P.view on.new) }
    ensures capacity { vec_capacity uses.new ≡ vec_capacity uses.old }
    ensures promise { P.promise on.new ≡ P.promise on.old }
{
    match aim {
        Aim::Ends(end) => match end {
            End::Hop {
                interface,
                next_hop,
                mac,
            } => take_hop(on, interface, next_hop, mac, uses),
            End::Drop => Ok(()),
            End::Receive => Ok(()),
            End::Glean(_) => Ok(()),
        },
        Aim::On(_) => Ok(()),
    }
}

/// Takes a user of each record at which a path ends, or of none: after a fault all is as it was, but for the count of stores. There must be
/// room for them in the list, which must be empty. An object goes only to a record without users: `Object` comes only where fewer objects are free
/// than such records need.
pub fn take_all<P: Objects>(on: &mut P, marks: &[Marked], uses: &mut Vec<Use>) -> Result<(), Want>
    requires none { uses.old.items ≡ [] }
    requires room { length marks.now ≤ vec_capacity uses.old }
    requires few { (m : Record) → (P.view on.old).users m + length marks.now < 2 ^ 32 - 1 }
    requires promise { MayClear (P.promise on.old) (P.view on.old) }
    ensures ok { OnOk result (TookAll (P.view on.old) (P.view on.new) uses.new.items) }
    ensures taken { OnOk result (TakesOnly (P.view on.old) (P.view on.new)) }
    ensures stores { OnOk result (StoresEach (λ y k. IsObjectOf uses.new.items y) (P.view on.old) (P.view on.new)) }
    ensures records { OnOk result (map record_used uses.new.items ≡ records_for marks.now) }
    ensures err { OnErr result (SamePlane (P.view on.old) (P.view on.new)) }
    ensures short { IsErrOf result Want.Object → (P.view on.old).free < length marks.now }
    ensures new { OnOk result (TookNew (P.view on.old) (P.view on.new) (records_for marks.now) 0) }
    ensures alone { OnOk result ((m : Record) → (P.view on.old).users m ≡ 0 → IsAlone (P.view on.new) m) }
    ensures lacks { IsErrOf result Want.Object → LacksFor (P.view on.old) (records_for marks.now) 1 }
    ensures quiet { (look : Prefix → Option ℕ) → IsQuiet look (P.view on.old) (P.view on.new) }
    ensures serves { (n : Names) → Serves (P.promise on.old) n (P.view on.old) → Serves (P.promise on.old) n (P.view on.new) }
    ensures promise { P.promise on.new ≡ P.promise on.old }
{
    for mark in marks {
        if let Err(want) = take_for(on, mark.aim, uses) {
            give_all(on, uses.as_slice());
            return Err(want);
        }
    }
    Ok(())
}
