// The sets that are kept of prefixes, and what a marked list makes of them.
ghost use Rattle.std.specs.Prelude.{◌≡◌, ℕ, ◌<◌, ◌&&◌, [], OnOk};
ghost use Rattle.fib_addr.specs.Prefixes.{Prefix as PrefixValue};
ghost use Rattle.fib_urpf.specs.Interfaces.{has};
ghost use Rattle.fib_urpf.specs.Marks.{aim_leads, end_leaves, marks_lead};
ghost use Rattle.fib_urpf.specs.Sets.{kept_in, set_of};

use crate::interfaces::Interfaces;
use fib_addr::Prefix;
use fib_resolve::{Aim, End, Marked};
use std::alloc::{AllocError, Global};
use std::collections::HashMap;
use std::marker::Model;

/// Prefixes with the interfaces that are kept of each. Contracts see them as rows, and for how many more there is room.
pub struct Sets {
    held: HashMap<Prefix, Interfaces>,
}

// The prover follows what a drop does here, once, and not at every way out past an owner.
impl Drop for Sets {
    fn drop(self) {
        let Sets { held: _ } = self;
    }
}

impl Model for Sets {
    ghost use Rattle.std.specs.HashMap.{IsUnique, spare};
    ghost use Rattle.fib_addr.specs.Prefixes.{same_prefix};
    ghost use Rattle.fib_urpf.specs.Sets.{Held};

    ghost Value = { Held };

    ghost view = { λ s. record { rows = s.held.entries; spare = spare s.held } };

    ghost invariant = { λ s. IsUnique same_prefix s.held };
}

/// The interface over which an end leaves, if there is one.
fn of_end(end: End) -> Interfaces
    ensures { (i : ℕ) → i < 256 → has result i ≡ end_leaves i end }
{
    match end {
        End::Drop | End::Receive => Interfaces::none(),
        End::Glean(interface) => Interfaces::of(interface),
        End::Hop { interface, .. } => Interfaces::of(interface),
    }
}

impl Sets {
    /// Nothing is kept, and there is no room yet.
    pub fn new(alloc: Global) -> Sets
        ensures { result.rows ≡ [] }
    {
        Sets {
            held: HashMap::new(alloc),
        }
    }

    /// What is kept of the prefix: no interface where nothing is.
    pub fn of(&self, prefix: Prefix) -> Interfaces
        ensures { (i : ℕ) → has result i ≡ kept_in self.now.rows i prefix }
    {
        match self.held.get(&prefix) {
            Some(set) => *set,
            None => Interfaces::none(),
        }
    }

    /// What a mark's aim gives.
    fn of_aim(&self, aim: Aim) -> Interfaces
        ensures { (i : ℕ) → i < 256 → has result i ≡ aim_leads i (kept_in self.now.rows i) aim }
    {
        match aim {
            Aim::Ends(end) => of_end(end),
            Aim::On(entry) => self.of(entry),
        }
    }

    /// What a mark gives, where it counts.
    fn of_mark(&self, mark: &Marked) -> Interfaces
        ensures { (i : ℕ) → i < 256 → has result i ≡ mark.now.counts && aim_leads i (kept_in self.now.rows i) mark.now.aim }
    {
        if mark.counts {
            self.of_aim(mark.aim)
        } else {
            Interfaces::none()
        }
    }

    /// What a marked list gives, by what is kept of the prefixes at which packets go on.
    pub fn gathered(&self, marks: &[Marked]) -> Interfaces
        ensures { (i : ℕ) → i < 256 → has result i ≡ marks_lead i (kept_in self.now.rows i) marks.now }
    {
        match marks {
            [mark, marks @ ..] => self.of_mark(mark).with(self.gathered(marks)),
            [] => Interfaces::none(),
        }
    }

    /// Room for one prefix more. After want of memory all but the room is as before.
    pub fn reserve(&mut self) -> Result<(), AllocError>
        ensures kept { set_of self.new.rows ≡ set_of self.old.rows }
        ensures room { OnOk result (0 < self.new.spare) }
    {
        self.held.reserve(1)
    }

    /// Keeps this set of the prefix; where it has no member, nothing. There must be room.
    pub fn keep(&mut self, prefix: Prefix, set: Interfaces)
        requires room { 0 < self.old.spare }
        ensures here { (i : ℕ) → kept_in self.new.rows i prefix ≡ has set i }
        ensures others { (e : PrefixValue) → (e ≡ prefix → ⊥) → set_of self.new.rows e ≡ set_of self.old.rows e }
    {
        if set.is_empty() {
            let _ = self.held.remove(&prefix);
            return;
        }
        let Ok(_) = self.held.insert(prefix, set) else {
            unreachable!()
        };
    }
}
