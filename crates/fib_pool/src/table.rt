// Interned adjacency records.
ghost use Rattle.std.specs.Prelude.{◌≡◌, ◌<◌, ◌-◌, ◌^◌, ◌↔◌, ℕ, [], length, Some, None, IsSome, IsTrue, IfOk, IfSome, IfNone, OnErr, option_map};
ghost use Rattle.std.specs.Option.{OnSome};
ghost use Rattle.fib_base_interned.specs.Interned.{Kept, kept_of, users_of, AreInterned, Gives};
ghost use Rattle.fib_pool.specs.Objects.{free_in};
ghost use Rattle.fib_pool.specs.declared.object.AdjacencyRecord.{AdjacencyRecord as TheRecord};
ghost use Rattle.fib_pool.specs.Records.{adjacency, AreAdjacencies, IsNew, IsUsedLess, TakesRecord};

use crate::object::{AdjacencyRecord, Kind, TakenRecord};
use crate::pool::Pool;
use fib_addr::{Addr, Mac};
use fib_base_interned::Interned;
use std::alloc::{AllocError, Global};
use std::marker::Model;

/// The adjacency records in use, each once, with the number of its users, under the number of its object. Contracts see them in the
/// order of their places.
#[derive(Drop)]
pub struct AdjTable {
    records: Interned<AdjacencyRecord>,
}

impl Model for AdjTable {
    ghost use Rattle.std.specs.Prelude.{List};
    ghost use Rattle.fib_base_interned.specs.Interned.{Kept};
    ghost use Rattle.fib_pool.specs.declared.object.AdjacencyRecord.{AdjacencyRecord as TheRecord};

    ghost Value = { List (Kept TheRecord) };

    ghost view = { λ s. s.records };
}

fn number_of(mac: Option<Mac>) -> Option<u64>
    ensures { result ≡ mac }
{
    match mac {
        Some(mac) => Some(mac.bits()),
        None => None,
    }
}

impl AdjTable {
    /// No record is kept. Takes no memory yet.
    pub fn new(alloc: Global) -> AdjTable
        ensures { result ≡ [] }
    {
        AdjTable {
            records: Interned::new(alloc),
        }
    }

    /// How many records are kept.
    pub fn count(&self) -> usize
        ensures count { result ≡ length self.now }
        ensures interned { AreInterned self.now }
    {
        self.records.count()
    }

    /// Whether the object is that of a record.
    pub fn is_kept(&self, object: u32) -> bool
        ensures { IsTrue result ↔ IsSome (kept_of self.now object) }
    {
        self.records.has(object as u64)
    }

    /// The record of an object.
    pub fn record(&self, object: u32) -> AdjacencyRecord
        requires { IsSome (kept_of self.now object) }
        ensures { option_map (λ k. k.content) (kept_of self.now object) ≡ Some result }
    {
        *self.records.content(object as u64)
    }

    /// How many use the record of an object.
    pub fn users(&self, object: u32) -> u32
        requires { IsSome (kept_of self.now object) }
        ensures count { result ≡ users_of self.now object }
        ensures some { 0 < result }
    {
        self.records.users(object as u64)
    }

    /// One user more of the record. Where an equal one is kept, that is its object; else a free object is taken as an adjacency for it.
    /// None exactly where no equal record is kept and no object is free. After want of memory, and after None, all is as before.
    pub fn take_adj(
        &mut self,
        pool: &mut Pool,
        interface: u32,
        next_hop: Addr,
        mac: Option<Mac>,
    ) -> Result<Option<TakenRecord>, AllocError>
        requires few { IsUsedLess self.old (adjacency interface next_hop mac) (2 ^ 32 - 1) }
        requires live { AreAdjacencies self.old pool.old }
        ensures taken { IfOk result (λ o. IfSome o
            (λ t. TakesRecord self.old self.new pool.old pool.new (adjacency interface next_hop mac) t)) }
        ensures interned { IfOk result (λ o. OnSome o (AreInterned self.new)) }
        ensures none { IfOk result (λ o. IfNone o (IsNew self.old (adjacency interface next_hop mac) × (free_in pool.old ≡ 0))) }
        ensures same { IfOk result (λ o. IfNone o ((self.new ≡ self.old) × (pool.new ≡ pool.old))) }
        ensures err { OnErr result ((self.new ≡ self.old) × (pool.new ≡ pool.old)) }
        ensures live { AreAdjacencies self.new pool.new }
    {
        let wanted = AdjacencyRecord {
            interface,
            next_hop,
            mac: number_of(mac),
        };
        if let Some(object) = self.records.find(&wanted) {
            return Ok(Some(self.share(pool, object)));
        }
        self.keep(pool, wanted)
    }

    /// One user less of the record of an object. True exactly where it was the last: the record is then forgotten. Takes no memory.
    pub fn give_adj(&mut self, object: u32) -> bool
        requires { IsSome (kept_of self.old object) }
        ensures given { Gives self.old self.new object }
        ensures last { IsTrue result ↔ (users_of self.old object ≡ 1) }
        ensures interned { AreInterned self.new }
    {
        self.records.give(object as u64)
    }

    fn share(&mut self, pool: &Pool, object: u64) -> TakenRecord
        requires kept { IsSome (kept_of self.old object) }
        requires few { users_of self.old object < 2 ^ 32 - 1 }
        requires live { AreAdjacencies self.old pool.now }
        ensures taken { (k : Kept TheRecord) → kept_of self.old object ≡ Some k
            → TakesRecord self.old self.new pool.now pool.now k.content result }
        ensures interned { AreInterned self.new }
        ensures live { AreAdjacencies self.new pool.now }
    {
        let _ = pool.len();
        self.records.hold(object);
        TakenRecord {
            object: object as u32,
            fresh: false,
        }
    }

    fn keep(
        &mut self,
        pool: &mut Pool,
        wanted: AdjacencyRecord,
    ) -> Result<Option<TakenRecord>, AllocError>
        requires absent { IsNew self.old wanted }
        requires live { AreAdjacencies self.old pool.old }
        ensures taken { IfOk result (λ o. IfSome o (λ t. TakesRecord self.old self.new pool.old pool.new wanted t)) }
        ensures interned { IfOk result (λ o. OnSome o (AreInterned self.new)) }
        ensures none { IfOk result (λ o. IfNone o (free_in pool.old ≡ 0)) }
        ensures same { IfOk result (λ o. IfNone o ((self.new ≡ self.old) × (pool.new ≡ pool.old))) }
        ensures err { OnErr result ((self.new ≡ self.old) × (pool.new ≡ pool.old)) }
        ensures live { AreAdjacencies self.new pool.new }
    {
        let object = match pool.take(Kind::Adjacency) {
            Some(object) => object,
            None => return Ok(None),
        };
        if self.records.add(object as u64, wanted).is_err() {
            pool.release(object);
            pool.put_back(object);
            return Err(AllocError);
        }
        Ok(Some(TakenRecord {
            object,
            fresh: true,
        }))
    }
}
