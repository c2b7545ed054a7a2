// How an element comes to a list without memory.
ghost use Rattle.std.specs.Prelude.{◌≡◌, ℕ, ◌-◌, ◌<◌, ◌≤◌, ◌^◌, [], true, IfOk, IfSome, flat_map, length, vec_capacity};
ghost use Rattle.std.specs.List.{insert};
ghost use Rattle.fib_base_blocks.specs.inner.Layout.{AreBlocks, HasRoom, IsSlot, items_of};

use crate::layout::{Place, find, put_reserved};
use std::alloc::{AllocError, Global};
use std::marker::Model;
use std::mem;

/// Memory with which an element can come to a list, whatever the list has become by then. Contracts see a number: the list may have as
/// many elements then, with the one that comes.
#[derive(Drop)]
pub struct Spare<T> {
    /// Room for all elements, for where the block to which one comes has none.
    items: Vec<T>,
    /// Room for the block that they are then.
    blocks: Vec<Vec<T>>,
    /// Room for its start.
    starts: Vec<usize>,
}

impl<T> Model for Spare<T> {
    ghost use Rattle.std.specs.Prelude.{ℕ, vec_capacity};
    ghost use Rattle.fib_base_blocks.specs.inner.Layout.{IsSpare};

    ghost Value = { ℕ };

    ghost view = { λ s. vec_capacity s.items };

    ghost invariant = { λ s. IsSpare s.items s.blocks s.starts };
}

impl<T: Drop> Spare<T> {
    /// For lists of at most so many elements, with the one that comes. Errs where memory is wanting.
    pub fn of(alloc: Global, most: usize) -> Result<Spare<T>, AllocError>
        ensures { IfOk result (λ s. s ≡ most) }
    {
        let items = Vec::with_capacity(alloc, most)?;
        let blocks = Vec::with_capacity(alloc, 1)?;
        let starts = Vec::with_capacity(alloc, 1)?;
        Ok(Spare {
            items,
            blocks,
            starts,
        })
    }

    /// How many elements a list may have, with the one that comes.
    pub fn most(&self) -> usize
        ensures { result ≡ self.now }
    {
        self.items.capacity()
    }
}

/// Whether the block takes one more without memory.
fn has_room<T>(blocks: &[Vec<T>], at: usize) -> bool
    requires { at < length blocks.now }
    ensures { result ≡ true → HasRoom blocks.now at }
{
    blocks[at].len() < blocks[at].capacity()
}

/// Where an element that comes to that place of the list belongs, where the block has room for it.
fn roomy_slot<T>(blocks: &[Vec<T>], starts: &[usize], place: usize) -> Option<Place>
    requires laid { AreBlocks blocks.now starts.now }
    requires inside { place ≤ length (flat_map items_of blocks.now) }
    ensures slot { IfSome result (λ at. IsSlot blocks.now place at.block at.slot) }
    ensures room { IfSome result (λ at. HasRoom blocks.now at.block) }
{
    if blocks.is_empty() {
        return None;
    }
    let at = find(blocks, starts, place);
    if has_room(blocks, at.block) {
        return Some(at);
    }
    None
}

/// All elements, in the vector that has room for them.
fn joined<T: Drop>(blocks: Vec<Vec<T>>, roomy: Vec<T>) -> Vec<T>
    requires none { roomy.items ≡ [] }
    requires room { length (flat_map items_of blocks.items) ≤ vec_capacity roomy }
    ensures items { result.items ≡ flat_map items_of blocks.items }
    ensures room { vec_capacity roomy ≤ vec_capacity result }
{
    let mut all = roomy;
    for block in blocks {
        let mut from = block;
        let Ok(()) = all.append(&mut from) else {
            unreachable!()
        };
    }
    all
}

/// Puts an element in at that place of the list, whose elements are one block then.
fn gather<T: Drop>(
    blocks: &mut Vec<Vec<T>>,
    starts: &mut Vec<usize>,
    place: usize,
    element: T,
    spare: Spare<T>,
)
    requires inside { place ≤ length (flat_map items_of blocks.old.items) }
    requires room { length (flat_map items_of blocks.old.items) < spare }
    ensures list { flat_map items_of blocks.new.items ≡ insert (flat_map items_of blocks.old.items) place element }
    ensures laid { AreBlocks blocks.new.items starts.new.items }
{
    let Spare {
        items,
        blocks: one,
        starts: first,
    } = spare;
    let mut all = joined(mem::replace(blocks, one), items);
    let Ok(()) = all.insert(place, element) else {
        unreachable!()
    };
    blocks.push_reserved(all);
    *starts = first;
    starts.push_reserved(0);
}

/// Puts an element in at that place of the list. Takes no memory.
pub fn put_spared<T: Drop>(
    blocks: &mut Vec<Vec<T>>,
    starts: &mut Vec<usize>,
    place: usize,
    element: T,
    spare: Spare<T>,
)
    requires laid { AreBlocks blocks.old.items starts.old.items }
    requires inside { place ≤ length (flat_map items_of blocks.old.items) }
    requires few { length (flat_map items_of blocks.old.items) < 2 ^ 64 - 1 }
    requires room { length (flat_map items_of blocks.old.items) < spare }
    ensures list { flat_map items_of blocks.new.items ≡ insert (flat_map items_of blocks.old.items) place element }
    ensures laid { AreBlocks blocks.new.items starts.new.items }
{
    match roomy_slot(blocks.as_slice(), starts.as_slice(), place) {
        Some(at) => put_reserved(blocks, starts, at, element),
        None => gather(blocks, starts, place, element, spare),
    }
}
