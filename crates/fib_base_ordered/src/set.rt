// A set in the order of its members' keys.
ghost use Rattle.std.specs.Prelude.{◌≡◌, ◌<◌, ◌≤◌, ◌⊎◌, ◌+◌, ◌/◌, ◌++◌, ◌∷◌, ◌==◌, ◌↔◌, ℕ, [], None, Some, if◌then◌else◌, IfOk, IsSome};
ghost use Rattle.std.specs.Prelude.{IsTrue, OnErr, OnOk, flat_map, length, vec_capacity};
ghost use Rattle.std.specs.List.{AllByRecursion};
ghost use Rattle.fib_base_ordered.specs.Sets.{IsAscending, above, below, first_of, found, from, last_of};
ghost use Rattle.fib_base_ordered.specs.inner.Blocks.{AreRoomy, Covers, IsFilled, IsIdle, cost, items_of};

use crate::block::{Block, Keyed, cut, locate, peek, peek_back, put_in, take_out};
use std::alloc::{AllocError, Global};
use std::marker::Model;

/// The most members of a block.
const MOST: usize = 64;

/// A set of members with keys of 64 bits, no two with one key. Contracts see the list of the members, the least key first, and for
/// how many more there is room. No call takes memory but `reserve`.
pub struct Ordered<T: Keyed> {
    /// None of them is empty.
    blocks: Vec<Block<T>>,
    /// Blocks to come.
    idle: Vec<Block<T>>,
    /// For how many more members these blocks are enough.
    spare: usize,
}

// The prover follows what a drop does here, once, and not at every way out past an owner.
impl<T: Keyed + Drop> Drop for Ordered<T> {
    fn drop(self) {
        let Ordered {
            blocks: _,
            idle: _,
            spare: _,
        } = self;
    }
}

impl<T: Keyed> Model for Ordered<T> {
    ghost use Rattle.std.specs.Prelude.{flat_map, length, vec_capacity};
    ghost use Rattle.fib_base_ordered.specs.Sets.{Order};
    ghost use Rattle.fib_base_ordered.specs.inner.Blocks.{AreBlocks, items_of};

    ghost Value = { Order T };

    ghost view = { λ s. record { members = flat_map items_of s.blocks.items; spare = s.spare } };

    ghost invariant = { λ s. AreBlocks T.rank s.blocks.items s.idle.items (vec_capacity s.blocks) (vec_capacity s.idle) s.spare };
}

impl<T: Keyed + Copy + Drop> Ordered<T> {
    /// The empty set, which takes no memory yet.
    pub fn new(alloc: Global) -> Ordered<T>
        ensures members { result.members ≡ [] }
        ensures spare { result.spare ≡ 0 }
    {
        Ordered {
            blocks: Vec::new(alloc),
            idle: Vec::new(alloc),
            spare: 0,
        }
    }

    /// Room for that many members more. After want of memory the set is as before.
    pub fn reserve(&mut self, alloc: Global, more: usize) -> Result<(), AllocError>
        ensures members { self.new.members ≡ self.old.members }
        ensures room { OnOk result (more ≤ self.new.spare) }
        ensures spare { self.old.spare ≤ self.new.spare }
    {
        if more <= self.spare {
            return Ok(());
        }
        match make_room(alloc, &mut self.blocks, &mut self.idle, more) {
            Ok(()) => {
                self.spare = more;
                Ok(())
            }
            Err(error) => Err(error),
        }
    }

    /// For how many more members there is room at least.
    pub fn spare(&self) -> usize
        ensures spare { result ≡ self.now.spare }
        ensures ordered { IsAscending T.rank self.now.members }
    {
        self.spare
    }

    /// The member with that key; None exactly where there is none.
    pub fn find(&self, key: u64) -> Option<T>
        ensures { result ≡ found T.rank self.now.members key }
    {
        let blocks = self.blocks.as_slice();
        if blocks.is_empty() {
            return None;
        }
        let place = locate(blocks, key);
        let first = peek(blocks, place)?;
        if first.key() == key {
            Some(first)
        } else {
            None
        }
    }

    /// Whether there is a member with that key.
    pub fn contains(&self, key: u64) -> bool
        ensures { IsTrue result ↔ IsSome (found T.rank self.now.members key) }
    {
        self.find(key).is_some()
    }

    /// The least member whose key is that one or greater.
    pub fn first_from(&self, key: u64) -> Option<T>
        ensures first { result ≡ first_of (from T.rank key self.now.members) }
        ensures ordered { IsAscending T.rank self.now.members }
    {
        let blocks = self.blocks.as_slice();
        if blocks.is_empty() {
            return None;
        }
        let place = locate(blocks, key);
        peek(blocks, place)
    }

    /// The greatest member whose key is lower.
    pub fn last_below(&self, key: u64) -> Option<T>
        ensures last { result ≡ last_of (below T.rank key self.now.members) }
        ensures ordered { IsAscending T.rank self.now.members }
    {
        let blocks = self.blocks.as_slice();
        if blocks.is_empty() {
            return None;
        }
        let place = cut(blocks, key);
        if place.slot == 0 {
            return None;
        }
        peek_back(blocks, place)
    }

    /// Takes the member in. There must be room, and no member with its key.
    pub fn insert(&mut self, member: T)
        requires room { 0 < self.old.spare }
        requires absent { found T.rank self.old.members (T.rank member) ≡ None }
        ensures members { self.new.members ≡ below T.rank (T.rank member) self.old.members ++ member
            ∷ above T.rank (T.rank member) self.old.members }
        ensures found { (key : ℕ) → found T.rank self.new.members key
            ≡ (if T.rank member == key then Some member else found T.rank self.old.members key) }
        ensures spare { self.old.spare ≤ self.new.spare + 1 }
        ensures ordered { IsAscending T.rank self.new.members }
    {
        let key = member.key();
        let blocks = self.blocks.as_slice();
        if blocks.is_empty() {
            begin(&mut self.blocks, &mut self.idle, member);
            self.spare -= 1;
            return;
        }
        let place = locate(blocks, key);
        put_in(&mut self.blocks, &mut self.idle, place, member);
        self.spare -= 1;
    }

    /// Takes the member with that key out. None exactly where there is none; the set is as before then.
    pub fn remove(&mut self, key: u64) -> Option<T>
        ensures removed { result ≡ found T.rank self.old.members key }
        ensures members { self.new.members ≡ below T.rank key self.old.members ++ above T.rank key self.old.members }
        ensures found { (other : ℕ) → found T.rank self.new.members other
            ≡ (if key == other then None else found T.rank self.old.members other) }
        ensures spare { self.old.spare ≤ self.new.spare }
        ensures ordered { IsAscending T.rank self.new.members }
    {
        let blocks = self.blocks.as_slice();
        if blocks.is_empty() {
            return None;
        }
        let place = locate(blocks, key);
        let member = peek(blocks, place)?;
        if member.key() != key {
            return None;
        }
        take_out(&mut self.blocks, &mut self.idle, place);
        Some(member)
    }
}

/// The first block.
fn begin<T: Copy + Drop>(blocks: &mut Vec<Block<T>>, idle: &mut Vec<Block<T>>, member: T)
    requires none { blocks.old.items ≡ [] }
    requires idle { AllByRecursion IsIdle idle.old.items }
    requires some { 0 < length idle.old.items }
    requires roomy { AreRoomy blocks.old.items idle.old.items (vec_capacity blocks.old) (vec_capacity idle.old) }
    ensures members { flat_map items_of blocks.new.items ≡ member ∷ [] }
    ensures filled { AllByRecursion IsFilled blocks.new.items }
    ensures idle { AllByRecursion IsIdle idle.new.items }
    ensures spare { length idle.old.items ≤ length idle.new.items + 1 }
    ensures all { length blocks.new.items + length idle.new.items ≡ length idle.old.items }
    ensures cost { cost blocks.new.items ≡ 32 }
    ensures roomy { AreRoomy blocks.new.items idle.new.items (vec_capacity blocks.new) (vec_capacity idle.new) }
{
    let Some(mut block) = idle.pop() else {
        unreachable!()
    };
    block.items.push_reserved(member);
    blocks.push_reserved(block);
}

/// How many idle blocks are enough for that many members more, beside so many blocks.
fn enough(blocks: usize, more: usize) -> usize
    ensures { (more ≤ result) ⊎ (blocks + more / 32 + 2 ≤ result) }
{
    let few = blocks.saturating_add(more / 32).saturating_add(2);
    if more < few { more } else { few }
}

/// Idle blocks for that many members more: no more of them than members, and else what the blocks that there are may be split into, and
/// one for 32 members that come.
fn make_room<T: Copy + Drop>(
    alloc: Global,
    blocks: &mut Vec<Block<T>>,
    idle: &mut Vec<Block<T>>,
    more: usize,
) -> Result<(), AllocError>
    requires idle { AllByRecursion IsIdle idle.old.items }
    requires roomy { AreRoomy blocks.old.items idle.old.items (vec_capacity blocks.old) (vec_capacity idle.old) }
    ensures same { blocks.new.items ≡ blocks.old.items }
    ensures idle { AllByRecursion IsIdle idle.new.items }
    ensures spare { length idle.old.items ≤ length idle.new.items }
    ensures room { OnOk result (AllByRecursion IsFilled blocks.old.items → Covers more blocks.new.items idle.new.items) }
    ensures roomy { AreRoomy blocks.new.items idle.new.items (vec_capacity blocks.new) (vec_capacity idle.new) }
{
    let wanted = enough(blocks.len(), more);
    while idle.len() < wanted {
        blocks.reserve(idle.len().saturating_add(1))?;
        idle.reserve(blocks.len().saturating_add(1))?;
        let items = Vec::with_capacity(alloc, MOST + 1)?;
        idle.push_reserved(Block { items });
    }
    Ok(())
}
