// The newest retired edge of each object, by its place in the list of all, where the oldest leave.
ghost use Rattle.std.specs.Prelude.{◌≡◌, ℕ, ◌+◌, ◌-◌, ◌<◌, ◌≤◌, ◌^◌, length, map, replicate, slice_index, slice_set, IfOk};

use std::alloc::{AllocError, Global};
use std::marker::Model;

/// One more than the place of the newest retired edge from each object, or 0.
#[derive(Drop)]
pub struct Newest {
    /// The same, counted from as many places before the first as the base says: what is no higher than it has left.
    numbers: Vec<u32>,
    base: u32,
}

impl Model for Newest {
    ghost use Rattle.std.specs.Prelude as prelude;
    ghost use Rattle.std.specs.Prelude.{ℕ, ◌-◌, map};

    ghost Value = { prelude.List ℕ };

    ghost view = { λ n. map (λ m. m - n.base) n.numbers.items };
}

/// Each number less by this, but for 0.
fn lower(numbers: &mut [u32], by: u32)
    ensures { numbers.new ≡ map (λ m. m - by) numbers.old }
{
    for number in numbers {
        *number = number.saturating_sub(by);
    }
}

/// The base from which this many more can be numbered: 0 where it is too high, and then all are numbered anew.
fn base_for(numbers: &mut Vec<u32>, base: u32, more: u32) -> u32
    ensures room { result + more < 2 ^ 32 }
    ensures same { map (λ m. m - result) numbers.new.items ≡ map (λ m. m - base) numbers.old.items }
{
    if base <= u32::MAX - more {
        return base;
    }
    lower(numbers, base);
    0
}

impl Newest {
    /// None from any of this many objects.
    pub fn new(alloc: Global, objects: u32) -> Result<Newest, AllocError>
        ensures { IfOk result (λ n. n ≡ replicate objects 0) }
    {
        Ok(Newest {
            numbers: Vec::from_elem(alloc, 0, objects as usize)?,
            base: 0,
        })
    }

    /// One more than the place of the newest from this object, or 0.
    pub fn of(&self, object: usize) -> u32
        requires { object < length self.now }
        ensures { result ≡ slice_index self.now object }
    {
        self.numbers[object].saturating_sub(self.base)
    }

    /// The newest from this object stands before this place.
    pub fn set(&mut self, object: usize, place: u32)
        requires { object < length self.old }
        ensures { self.new ≡ slice_set self.old object place }
    {
        self.base = base_for(&mut self.numbers, self.base, place);
        self.numbers[object] = self.base + place;
    }

    /// This many of the oldest have left. Costs the number of objects once in some thousand million places, and else nothing.
    pub fn leave(&mut self, gone: u32)
        ensures { self.new ≡ map (λ m. m - gone) self.old }
    {
        self.base = base_for(&mut self.numbers, self.base, gone);
        self.base += gone;
    }
}
