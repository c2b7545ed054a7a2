// A prefix table with its own set of prefixes.
ghost use Rattle.std.specs.Prelude.{◌≡◌, ℕ, ◌+◌, ◌-◌, ◌*◌, ◌^◌, ◌%◌, ◌<◌, ◌≤◌, None, [], OnOk};
ghost use Rattle.fib_core.specs.Walk.{balance, root};
ghost use Rattle.fib_core.specs.declared.word.Word.TheVariants.{Drop};
ghost use Rattle.fib_plane_view.specs.Frames.{Beside};
ghost use Rattle.fib_plane_view.specs.Promise.{IsBegun, Promise};
ghost use Rattle.fib_plane_view.specs.View.{HasRoom, IsBalance};
ghost use Rattle.fib_core_promise.specs.Matches.{FitsVersions, IsLongestBlock, IsSometime, added, look_of, removed};
ghost use Rattle.fib_core_steady.specs.Aims.{IsLasting};
ghost use Rattle.fib_addr.specs.Longest.{everything};
ghost use Rattle.fib_ply.specs.Blank.{IsBlank};
ghost use Rattle.fib_ply.specs.Rows.{ArePrefixes};
ghost use Rattle.fib_ply.specs.Tables.{Came, HasItsPlies, LeadsAll, Stands, object_in};
ghost use Rattle.fib_ply.specs.Calls.{DropsNone};
ghost use Rattle.fib_ply.specs.Hops.{hops};

use crate::beginning::begin;
use crate::places::find;
use crate::rows::Rows;
use crate::table::{add, remove};
use fib_addr::{Addr, Prefix};
use fib_core::Word;
use fib_plane_view::Objects;
use std::alloc::{AllocError, Global};
use std::marker::Model;

/// Prefixes with the numbers of their balances, and how many plies stand for them. The plies themselves lie in the plane, the root at object 0.
#[derive(Drop)]
pub struct PrefixTable {
    rows: Rows,
    plies: u32,
}

impl Model for PrefixTable {
    ghost use Rattle.fib_addr.specs.Longest.{everything};
    ghost use Rattle.fib_ply.specs.Blank.{IsBlank};
    ghost use Rattle.fib_ply.specs.Tables.{Table};

    ghost Value = { Table };

    ghost view = { λ s. record { rows = s.rows; plies = s.plies } };
}

/// A number has 32 bits. Does nothing.
fn has_bits(number: u32)
    ensures { number < 2 ^ 32 }
{}

impl PrefixTable {
    /// No prefix yet, and the root alone.
    pub fn new(alloc: Global) -> PrefixTable
        ensures members { result.rows.members ≡ [] }
        ensures plies { result.plies ≡ 1 }
    {
        PrefixTable {
            rows: Rows::new(alloc),
            plies: 1,
        }
    }

    /// Each row has a prefix. Does nothing.
    pub fn tells(&self)
        ensures { ArePrefixes self.now.rows.members }
    {
        self.rows.are_prefixes();
    }

    /// Room for that many prefixes more.
    pub fn reserve(&mut self, alloc: Global, more: usize) -> Result<(), AllocError>
        ensures members { self.new.rows.members ≡ self.old.rows.members }
        ensures plies { self.new.plies ≡ self.old.plies }
        ensures room { OnOk result (more ≤ self.new.rows.spare) }
        ensures spare { self.old.rows.spare ≤ self.new.rows.spare }
    {
        self.rows.reserve(alloc, more)
    }

    /// Room in the plane for the edges that one more call replaces, and for those of a balance's buckets.
    pub fn room<P: Objects>(&self, on: &mut P) -> Result<(), AllocError>
        requires stands { (p : Promise) × Stands p self.now (P.view on.old) }
        ensures stands { (p : Promise) → Stands p self.now (P.view on.old) → Stands p self.now (P.view on.new) }
        ensures room { OnOk result (16 * (self.now.plies + 7) + 16 ≤ (P.view on.new).spare) }
        ensures same { HasRoom (P.view on.old) (P.view on.new) }
        ensures promise { P.promise on.new ≡ P.promise on.old }
    {
        on.room(16 * (self.plies + 8))
    }

    /// Begins with 0.0.0.0/0, which leads to that balance, before the first change. Every bucket of the balance drops.
    pub fn ready<P: Objects>(&mut self, on: &mut P, object: u32)
        requires blank { IsBlank (P.promise on.old) (P.view on.old) object 0 }
        requires none { self.old.rows.members ≡ [] }
        requires room { 0 < self.old.rows.spare }
        ensures object { object_in self.new ≡ added (λ e. None) everything object }
        ensures plies { self.new.plies ≡ 1 }
        ensures free { (P.view on.old).free ≤ (P.view on.new).free }
        ensures room { self.old.rows.spare ≤ self.new.rows.spare + 1 }
        ensures stands { Stands (P.promise on.new) self.new (P.view on.new) }
        ensures leads { LeadsAll self.new (P.view on.new) }
        ensures exact { HasItsPlies self.new (P.view on.new) }
        ensures promise { P.promise on.new ≡ P.promise on.old }
        ensures beside { Beside (P.view on.old) (P.view on.new) }
        ensures none_dropped { DropsNone (P.view on.old) (P.view on.new) }
    {
        begin(on, object);
        self.rows.take_in(Prefix::masked(Addr(0), 0), object);
        self.rows.are_prefixes();
        self.plies = 1;
    }

    /// How many plies stand for the prefixes, the root too.
    pub fn plies(&self) -> u32
        ensures { result ≡ self.now.plies }
    {
        self.plies
    }

    /// The balance of a prefix.
    pub fn object(&self, prefix: Prefix) -> Option<u32>
        ensures { result ≡ object_in self.now prefix }
    {
        self.rows.find(prefix)
    }

    /// The balance to which the plies lead the address: that of the longest of the prefixes that contain it.
    pub fn answer<P: Objects>(&self, on: &P, addr: Addr) -> u32
        requires stands { (p : Promise) × Stands p self.now (P.view on.now) }
        ensures walked { (h : ℕ) → (n : ℕ) × (n ≤ 8) × (hops (P.view on.now).cell addr h n root ≡ balance result 0) }
        ensures longest { IsLongestBlock (look_of (object_in self.now)) 32 addr result }
    {
        self.rows.are_prefixes();
        has_bits(addr.0);
        let at = find(on, addr.0);
        let Word::ToBalance(object) = on.word(at.ply, at.slot) else {
            unreachable!()
        };
        object
    }

    /// Puts a prefix into the table, which leads to that balance. Answers how many stores there were. No store is dropped, and no object is taken
    /// but for plies that come.
    pub fn add<P: Objects>(&mut self, on: &mut P, prefix: Prefix, object: u32) -> u64
        requires stands { Stands (P.promise on.old) self.old (P.view on.old) }
        requires fits { IsBegun (P.promise on.old) → FitsVersions (P.promise on.old).versions (object_in self.old) }
        requires prefix { 1 ≤ prefix.len }
        requires absent { object_in self.old prefix ≡ None }
        requires sometime { IsBegun (P.promise on.old) → IsSometime (P.promise on.old).versions prefix }
        requires balance { IsBalance (P.view on.old) object
            × ((P.promise on.old).applied ≡ 0 → (t : ℕ) → t < 16 → (P.view on.old).cell object t ≡ Drop) }
        requires free { 7 ≤ (P.view on.old).free }
        requires spare { 16 * (self.old.plies + 7) ≤ (P.view on.old).spare }
        requires room { 0 < self.old.rows.spare }
        ensures object { object_in self.new ≡ added (object_in self.old) prefix object }
        ensures plies { (self.old.plies ≤ self.new.plies) × (self.new.plies ≤ self.old.plies + 7) }
        ensures came { Came (object_in self.old) prefix (self.new.plies - self.old.plies) }
        ensures free { (P.view on.old).free + self.old.plies ≤ (P.view on.new).free + self.new.plies }
        ensures room { self.old.rows.spare ≤ self.new.rows.spare + 1 }
        ensures stands { Stands (P.promise on.new) self.new (P.view on.new) }
        ensures leads { LeadsAll self.new (P.view on.new) }
        ensures exact { HasItsPlies self.new (P.view on.new) }
        ensures fits { IsBegun (P.promise on.new) → FitsVersions (P.promise on.new).versions (object_in self.new) }
        ensures stores { ((P.view on.old).stored ≤ (P.view on.new).stored)
            × (result ≡ ((P.view on.new).stored - (P.view on.old).stored) % 2 ^ 64) }
        ensures promise { P.promise on.new ≡ P.promise on.old }
        ensures beside { Beside (P.view on.old) (P.view on.new) }
        ensures none_dropped { DropsNone (P.view on.old) (P.view on.new) }
    {
        self.rows.are_prefixes();
        let before = on.stored();
        // The spare is a u32, so 16 times the plies is one.
        let _spare = on.spare();
        let len = u32::from(prefix.len());
        let top = prefix.bits().0 >> (32 - len);
        let plies = add(&mut self.rows, on, len, top, object);
        self.rows.are_prefixes();
        self.plies += plies;
        on.stored().wrapping_sub(before)
    }

    /// Takes a prefix out of the table. Answers how many stores there were, of which none is dropped.
    pub fn remove<P: Objects>(&mut self, on: &mut P, prefix: Prefix) -> u64
        requires stands { Stands (P.promise on.old) self.old (P.view on.old) }
        requires fits { IsBegun (P.promise on.old) → FitsVersions (P.promise on.old).versions (object_in self.old) }
        requires prefix { 1 ≤ prefix.len }
        requires leaves { IsBegun (P.promise on.old) → IsLasting (P.promise on.old).versions prefix → ⊥ }
        requires spare { 16 * self.old.plies ≤ (P.view on.old).spare }
        ensures object { object_in self.new ≡ removed (object_in self.old) prefix }
        ensures plies { (self.new.plies ≤ self.old.plies) × (self.old.plies ≤ self.new.plies + 7) }
        ensures free { (P.view on.old).free ≤ (P.view on.new).free }
        ensures room { self.old.rows.spare ≤ self.new.rows.spare }
        ensures stands { Stands (P.promise on.new) self.new (P.view on.new) }
        ensures leads { LeadsAll self.new (P.view on.new) }
        ensures exact { HasItsPlies self.new (P.view on.new) }
        ensures fits { IsBegun (P.promise on.new) → FitsVersions (P.promise on.new).versions (object_in self.new) }
        ensures stores { ((P.view on.old).stored ≤ (P.view on.new).stored)
            × (result ≡ ((P.view on.new).stored - (P.view on.old).stored) % 2 ^ 64) }
        ensures promise { P.promise on.new ≡ P.promise on.old }
        ensures beside { Beside (P.view on.old) (P.view on.new) }
        ensures none_dropped { DropsNone (P.view on.old) (P.view on.new) }
    {
        self.rows.are_prefixes();
        let before = on.stored();
        let len = u32::from(prefix.len());
        let top = prefix.bits().0 >> (32 - len);
        let plies = remove(&mut self.rows, on, len, top);
        self.rows.are_prefixes();
        self.plies -= plies;
        on.stored().wrapping_sub(before)
    }
}
