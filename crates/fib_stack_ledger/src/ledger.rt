// What is known of prefixes.
ghost use Rattle.std.specs.Prelude.{◌≡◌, ℕ, ◌+◌, ◌-◌, ◌<◌, ◌≤◌, ◌^◌, Bool, true, false, None, Some, [], OnOk, length};
ghost use Rattle.fib_addr.specs.Prefixes.{Prefix as PrefixValue};
ghost use Rattle.fib_pool.specs.declared.object.AdjacencyRecord.{AdjacencyRecord as Record};
ghost use Rattle.fib_stack_ledger.specs.Ledgers.{count, known_of, times, total, used_by, uses_in, was_in};
ghost use Rattle.fib_stack_ledger.specs.declared.ledger.Known.{Known as KnownValue};

use fib_addr::{Addr, Mac, Prefix};
use fib_base_list::List;
use std::alloc::{AllocError, Global};
use std::collections::HashMap;
use std::marker::Model;

/// An adjacency record of which a prefix is a user: the interface, the next hop, its hardware address if one is known, and the object.
#[derive(Clone, Copy, Debug, PartialEq, Eq)]
pub struct Use {
    pub interface: u32,
    pub next_hop: Addr,
    pub mac: Option<Mac>,
    pub object: u32,
}

/// What is known of a prefix since its last turn.
#[derive(Drop)]
pub struct Known {
    /// Whether it forwarded then.
    pub forwarded: bool,
    /// The adjacency records that it uses, one for each path that ends at one.
    pub uses: List<Use>,
}

/// What is known of prefixes. Contracts see them with what is known of each, and for how many more there is room.
pub struct Ledger {
    known: HashMap<Prefix, Known>,
    /// How many uses there are, below 2^32 by what `reserve` asks.
    uses: usize,
}

// The prover follows what a drop does here, once, and not at every way out past an owner.
impl Drop for Ledger {
    fn drop(self) {
        let Ledger { known: _, uses: _ } = self;
    }
}

impl Model for Ledger {
    ghost use Rattle.std.specs.Prelude.{◌≡◌};
    ghost use Rattle.std.specs.HashMap.{IsUnique, spare};
    ghost use Rattle.fib_addr.specs.Prefixes.{same_prefix};
    ghost use Rattle.fib_stack_ledger.specs.Ledgers.{Book, count};

    ghost Value = { Book };

    ghost view = { λ s. record { rows = s.known.entries; spare = spare s.known } };

    ghost invariant = { λ s. IsUnique same_prefix s.known × (s.uses ≡ count s.known.entries) };
}

/// How many records are used by it.
fn uses_of(known: &Option<Known>) -> usize
    ensures { result ≡ length (used_by known.now) }
{
    match known {
        Some(known) => known.uses.len(),
        None => 0,
    }
}

impl Ledger {
    /// Nothing is known, and there is no room yet.
    pub fn new(alloc: Global) -> Ledger
        ensures { result.rows ≡ [] }
    {
        Ledger {
            known: HashMap::new(alloc),
            uses: 0,
        }
    }

    /// A record that is used is used by a prefix. Does nothing.
    pub fn tells(&self)
        ensures { (m : Record) → 0 < total self.now.rows m → (e : PrefixValue) × (0 < times m (uses_in self.now.rows e)) }
    {
        let _ = &self.known;
    }

    /// Room for one prefix more, that may use so many records. After want of memory all but the room is as before.
    pub fn reserve(&mut self, uses: usize) -> Result<(), AllocError>
        ensures known { known_of self.new.rows ≡ known_of self.old.rows }
        ensures total { total self.new.rows ≡ total self.old.rows }
        ensures room { OnOk result (0 < self.new.spare) }
        ensures few { OnOk result (count self.new.rows + uses < 2 ^ 32 - 1) }
    {
        let most = (u32::MAX - 1) as usize;
        if self.uses > most || uses > most - self.uses {
            return Err(AllocError);
        }
        self.known.reserve(1)
    }

    /// Whether the prefix forwarded at its last turn.
    pub fn forwarded(&self, prefix: Prefix) -> bool
        ensures { result ≡ was_in self.now.rows prefix }
    {
        match self.known.get(&prefix) {
            Some(known) => known.forwarded,
            None => false,
        }
    }

    /// Forgets what is known of the prefix, and answers it.
    pub fn forget(&mut self, prefix: Prefix) -> Option<Known>
        ensures result { result ≡ known_of self.old.rows prefix }
        ensures here { known_of self.new.rows prefix ≡ None }
        ensures others { (e : PrefixValue) → (e ≡ prefix → ⊥) → known_of self.new.rows e ≡ known_of self.old.rows e }
        ensures total { (m : Record) → times m (used_by result) + total self.new.rows m ≡ total self.old.rows m }
        ensures count { length (used_by result) + count self.new.rows ≡ count self.old.rows }
        ensures spare { self.old.spare ≤ self.new.spare }
    {
        let old = self.known.remove(&prefix);
        self.uses -= uses_of(&old);
        old
    }

    /// Knows this of the prefix, and answers what was known. There must be room.
    pub fn set(&mut self, prefix: Prefix, known: Known) -> Option<Known>
        requires room { 0 < self.old.spare }
        requires few { count self.old.rows + length known.uses < 2 ^ 64 }
        ensures result { result ≡ known_of self.old.rows prefix }
        ensures here { known_of self.new.rows prefix ≡ Some known }
        ensures others { (e : PrefixValue) → (e ≡ prefix → ⊥) → known_of self.new.rows e ≡ known_of self.old.rows e }
        ensures total { (m : Record) → times m (used_by result) + total self.new.rows m ≡ times m known.uses + total self.old.rows m }
        ensures counted { (m : Record) → times m known.uses ≤ total self.new.rows m }
    {
        let old = self.forget(prefix);
        self.uses += known.uses.len();
        let Ok(_) = self.known.insert(prefix, known) else {
            unreachable!()
        };
        old
    }
}
