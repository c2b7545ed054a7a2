// Queued prefixes.
ghost use Rattle.std.specs.Prelude.{◌≡◌, ℕ, ◌+◌, ◌<◌, ◌≤◌, ◌↔◌, None, Some, [], IfSome, IsSome, IsTrue, OnOk, if◌then◌else◌, length, option_map, slice_get};
ghost use Rattle.std.specs.List.{remove};
ghost use Rattle.std.specs.VecDeque.{deque_capacity};
ghost use Rattle.fib_addr.specs.Prefixes.{Prefix as PrefixValue, same_prefix};
ghost use Rattle.fib_base_ordered.specs.Sets.{IsAscending, first_of};
ghost use Rattle.fib_stack_queue.specs.Queues.{IsLeast, rank_in, turn_key};

use crate::order::{Queued, count_before, key_of};
use fib_addr::Prefix;
use fib_base_ordered::Ordered;
use std::alloc::{AllocError, Global};
use std::collections::VecDeque;
use std::marker::Model;

/// Prefixes with their ranks, each once. Contracts see the list of them, the one that is taken first at its head, and for how many more
/// there is room at least. No call takes memory but `reserve`.
pub struct Queue {
    /// By prefix.
    ranks: Ordered<Queued>,
    /// By rank, then by prefix. What is taken next leaves at the front without a shift of those behind it.
    order: VecDeque<Queued>,
}

// The prover follows what a drop does here, once, and not at every way out past an owner.
impl Drop for Queue {
    fn drop(self) {
        let Queue { ranks: _, order: _ } = self;
    }
}

impl Model for Queue {
    ghost use Rattle.std.specs.Prelude.{length, min, ◌-◌};
    ghost use Rattle.std.specs.VecDeque.{deque_capacity};
    ghost use Rattle.fib_base_ordered.specs.Sets.{Order};
    ghost use Rattle.fib_stack_queue.specs.inner.Steps.{AreInStep};
    ghost use Rattle.fib_stack_queue.specs.declared.order.Queued.{Queued as QueuedValue};

    ghost Value = { Order QueuedValue };

    ghost view = { λ s. record { members = s.order.items; spare = min s.ranks.spare (deque_capacity s.order - length s.order.items) } };

    ghost invariant = { λ s. AreInStep s.order.items s.ranks.members };
}

/// What stands at that place goes.
fn take_out(order: &mut VecDeque<Queued>, place: usize)
    requires { place < length order.old.items }
    ensures items { order.new.items ≡ remove order.old.items place }
    ensures fewer { length order.new.items + 1 ≡ length order.old.items }
    ensures room { deque_capacity order.new ≡ deque_capacity order.old }
{
    let Some(_gone) = order.remove(place) else {
        unreachable!()
    };
}

impl Queue {
    /// No prefix is queued, and there is no room yet.
    pub fn new(alloc: Global) -> Queue
        ensures members { result.members ≡ [] }
    {
        Queue {
            ranks: Ordered::new(alloc),
            order: VecDeque::new(alloc),
        }
    }

    /// Room for that many calls of `add` and `set_rank`. After want of memory all but the room is as before.
    pub fn reserve(&mut self, alloc: Global, more: usize) -> Result<(), AllocError>
        ensures members { self.new.members ≡ self.old.members }
        ensures room { OnOk result (more ≤ self.new.spare) }
        ensures spare { self.old.spare ≤ self.new.spare }
    {
        self.ranks.reserve(alloc, more)?;
        self.order.reserve(more)?;
        Ok(())
    }

    /// For how many calls of `add` and `set_rank` there is room at least.
    pub fn spare(&self) -> usize
        ensures { result ≡ self.now.spare }
    {
        let ranks = self.ranks.spare();
        let order = self.order.capacity() - self.order.len();
        if ranks < order { ranks } else { order }
    }

    /// How many prefixes are queued.
    pub fn len(&self) -> usize
        ensures { result ≡ length self.now.members }
    {
        self.order.len()
    }

    /// The prefix that stands at that place of the order in which they are taken, with its rank. Places are counted from 0.
    pub fn at(&self, place: usize) -> Queued
        requires { place < length self.now.members }
        ensures { slice_get self.now.members place ≡ Some result }
    {
        self.order[place]
    }

    /// The rank under which the prefix is queued; None exactly where it isn't.
    pub fn rank(&self, prefix: Prefix) -> Option<u32>
        ensures { result ≡ rank_in self.now.members prefix }
    {
        match self.ranks.find(key_of(prefix)) {
            Some(queued) => Some(queued.rank),
            None => None,
        }
    }

    /// Whether the prefix is queued.
    pub fn is_queued(&self, prefix: Prefix) -> bool
        ensures { IsTrue result ↔ IsSome (rank_in self.now.members prefix) }
    {
        self.rank(prefix).is_some()
    }

    /// The prefix that is taken first: one of the least rank, and of these the first by bits, then by length. None exactly where none is
    /// queued.
    pub fn least(&self) -> Option<Queued>
        ensures value { result ≡ first_of self.now.members }
        ensures ordered { IsAscending turn_key self.now.members }
        ensures least { IfSome result (IsLeast self.now.members) }
    {
        self.order.front().copied()
    }

    /// Queues the prefix under this rank, also where it is queued under another. There must be room.
    pub fn add(&mut self, prefix: Prefix, rank: u32)
        requires room { 0 < self.old.spare }
        ensures ranks { (d : PrefixValue) → rank_in self.new.members d
            ≡ (if same_prefix prefix d then Some rank else rank_in self.old.members d) }
        ensures spare { self.old.spare ≤ self.new.spare + 1 }
    {
        // What is woken is often queued already.
        if self.rank(prefix) == Some(rank) {
            return;
        }
        self.remove(prefix);
        self.enter(prefix, rank);
    }

    /// Keys the prefix anew, where it is queued. There must be room.
    pub fn set_rank(&mut self, prefix: Prefix, rank: u32)
        requires room { 0 < self.old.spare }
        ensures ranks { (d : PrefixValue) → rank_in self.new.members d
            ≡ (if same_prefix prefix d then option_map (λ _. rank) (rank_in self.old.members d) else rank_in self.old.members d) }
        ensures spare { self.old.spare ≤ self.new.spare + 1 }
    {
        if self.rank(prefix).is_some() {
            self.add(prefix, rank);
        }
    }

    /// Takes the prefix out of the queue, if it is in it.
    pub fn remove(&mut self, prefix: Prefix)
        ensures ranks { (d : PrefixValue) → rank_in self.new.members d
            ≡ (if same_prefix prefix d then None else rank_in self.old.members d) }
        ensures spare { self.old.spare ≤ self.new.spare }
    {
        let Some(queued) = self.ranks.remove(key_of(prefix)) else {
            return;
        };
        let place = count_before(&self.order, &queued);
        take_out(&mut self.order, place);
    }

    /// Takes in a prefix that isn't queued.
    fn enter(&mut self, prefix: Prefix, rank: u32)
        requires absent { rank_in self.old.members prefix ≡ None }
        requires room { 0 < self.old.spare }
        ensures ranks { (d : PrefixValue) → rank_in self.new.members d
            ≡ (if same_prefix prefix d then Some rank else rank_in self.old.members d) }
        ensures spare { self.old.spare ≤ self.new.spare + 1 }
    {
        // The key tells that it is a prefix: the bits past its length are cleared.
        let _key = key_of(prefix);
        let place = count_before(&self.order, &Queued { prefix, rank });
        self.ranks.insert(Queued { prefix, rank });
        let Ok(()) = self.order.insert(place, Queued { prefix, rank }) else {
            unreachable!()
        };
    }
}
