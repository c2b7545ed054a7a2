// Deferred buckets.
ghost use Rattle.std.specs.Prelude.{◌≡◌, ℕ, ◌+◌, ◌-◌, ◌^◌, ◌<◌, ◌≤◌, None, Some, [], OnOk, length, remove, slice_index_or, if◌then◌else◌};
ghost use Rattle.fib_addr.specs.Prefixes.{Prefix as PrefixValue};
ghost use Rattle.fib_stack_ledger.specs.Deferred.{AreApart, AreSlots, is_at, late_at};

use fib_addr::Prefix;
use fib_core::Word;
use std::alloc::{AllocError, Global};
use std::marker::Model;

/// A bucket of an entry that drops, since the edge that it wants closed a cycle as it was put.
#[derive(Clone, Copy, Debug, PartialEq, Eq)]
pub struct Late {
    pub entry: Prefix,
    pub slot: u32,
    /// What it wants.
    pub word: Word,
}

/// Deferred buckets, each once. Contracts see the list of them, and for how many more there is room at least.
#[derive(Drop)]
pub struct Lates {
    list: Vec<Late>,
}

impl Model for Lates {
    ghost use Rattle.std.specs.Prelude.{length, min, vec_capacity, ◌-◌, ◌<◌, ◌^◌};
    ghost use Rattle.fib_stack_ledger.specs.Deferred.{AreApart, AreSlots, Deferred};

    ghost Value = { Deferred };

    ghost view = { λ s. record {
      members = s.list.items;
      spare = min (vec_capacity s.list - length s.list.items)
          (2 ^ 32 - 1 - length s.list.items);
    } };

    ghost invariant = { λ s. AreApart s.list.items × AreSlots s.list.items × (length s.list.items < 2 ^ 32) };
}

impl Lates {
    /// Nothing is deferred, and there is no room yet.
    pub fn new(alloc: Global) -> Lates
        ensures { result.members ≡ [] }
    {
        Lates {
            list: Vec::new(alloc),
        }
    }

    /// Room for that many more. After want of memory all but the room is as before.
    pub fn reserve(&mut self, more: u32) -> Result<(), AllocError>
        ensures members { self.new.members ≡ self.old.members }
        ensures room { OnOk result (more ≤ self.new.spare) }
    {
        if (u32::MAX as usize) - self.list.len() < more as usize {
            return Err(AllocError);
        }
        self.list.reserve(more as usize)
    }

    /// Where the list takes its memory.
    pub fn allocator(&self) -> Global {
        *self.list.allocator()
    }

    /// How many buckets are deferred.
    pub fn len(&self) -> u32
        ensures count { result ≡ length self.now.members }
        ensures apart { AreApart self.now.members }
        ensures slots { AreSlots self.now.members }
    {
        self.list.len() as u32
    }

    /// The one at that place of the list.
    pub fn at(&self, place: u32) -> Late
        requires { place < length self.now.members }
        ensures { result ≡ slice_index_or self.now.members place result }
    {
        self.list[place as usize]
    }

    /// Defers a bucket that isn't deferred. There must be room.
    pub fn add(&mut self, entry: Prefix, slot: u32, word: Word)
        requires room { 0 < self.old.spare }
        requires slot { slot < 16 }
        requires absent { late_at self.old.members entry slot ≡ None }
        ensures late { (e : PrefixValue) (k : ℕ) → late_at self.new.members e k
            ≡ (if is_at (record { entry = entry; slot = slot; word = word }) e k then Some word else late_at self.old.members e k) }
        ensures spare { self.old.spare ≤ self.new.spare + 1 }
    {
        self.list.push_reserved(Late { entry, slot, word });
    }

    /// Takes the one at that place out.
    pub fn take_out(&mut self, place: u32)
        requires { place < length self.old.members }
        ensures members { self.new.members ≡ remove self.old.members place }
        ensures spare { self.old.spare ≤ self.new.spare }
    {
        self.list.remove(place as usize);
    }

    /// Takes out all of the prefix.
    pub fn clear(&mut self, entry: Prefix)
        ensures here { (k : ℕ) → late_at self.new.members entry k ≡ None }
        ensures others { (e : PrefixValue) (k : ℕ) → (e ≡ entry → ⊥) → late_at self.new.members e k ≡ late_at self.old.members e k }
        ensures spare { self.old.spare ≤ self.new.spare }
    {
        let mut place = 0;
        while place < self.len() {
            if self.at(place).entry == entry {
                self.take_out(place);
            } else {
                place += 1;
            }
        }
    }
}
