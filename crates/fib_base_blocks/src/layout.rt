// Where the elements lie in blocks, and how elements and blocks come and go.
ghost use Rattle.std.specs.Prelude.{◌≡◌, ℕ, ◌+◌, ◌-◌, ◌<◌, ◌≤◌, ◌^◌, ◌∷◌, [], IfOk, OnErr, OnOk, flat_map, length, map, slice_get};
ghost use Rattle.std.specs.Prelude.{slice_index, slice_index_or, take};
ghost use Rattle.std.specs.List.{AllByRecursion, insert, remove};
ghost use Rattle.fib_base_ordered.specs.inner.Blocks.{row};
ghost use Rattle.fib_base_blocks.specs.inner.Layout.{AreBlocks, HasRoom, IsPlace, IsSlot, IsSplit, items_of, lowered, raised};

use std::alloc::{AllocError, Global};

/// A block of so many elements is halved before one more comes.
const MOST: usize = 256;

/// Half of them.
const HALF: usize = 128;

/// A place in a list of blocks.
#[derive(Clone, Copy)]
pub struct Place {
    pub block: usize,
    pub slot: usize,
}

/// The last block that starts at the place or before it.
fn block_of(starts: &[usize], place: usize) -> usize
    requires some { 0 < length starts.now }
    requires first { slice_index starts.now 0 ≤ place }
    ensures inside { result < length starts.now }
    ensures start { slice_index starts.now result ≤ place }
    ensures next { result + 1 < length starts.now → place < slice_index starts.now (result + 1) }
{
    let mut low = 0;
    let mut high = starts.len();
    while high - low > 1 {
        let middle = low + (high - low) / 2;
        if starts[middle] <= place {
            low = middle;
        } else {
            high = middle;
        }
    }
    low
}

/// Where the element at that place of the list lies, or belongs.
pub fn find<T>(blocks: &[Vec<T>], starts: &[usize], place: usize) -> Place
    requires some { 0 < length blocks.now }
    requires laid { AreBlocks blocks.now starts.now }
    requires inside { place ≤ length (flat_map items_of blocks.now) }
    ensures { IsPlace blocks.now place result.block result.slot }
{
    // Only clauses name the blocks.
    let _blocks = blocks;
    let block = block_of(starts, place);
    Place {
        block,
        slot: place - starts[block],
    }
}

/// Each start from that one on is one greater.
fn raise(starts: &mut Vec<usize>, from: usize)
    requires low { AllByRecursion (λ n. n < 2 ^ 64 - 1) starts.old.items }
    requires from { from ≤ length starts.old.items }
    ensures { starts.new.items ≡ raised from starts.old.items }
{
    'starts: for place in from..starts.len() {
        starts[place] += 1;
    }
}

/// Each start from that one on is one lower.
fn lower(starts: &mut Vec<usize>, from: usize)
    requires high { (k : ℕ) → from ≤ k → k < length starts.old.items → 0 < slice_index starts.old.items k }
    requires from { from ≤ length starts.old.items }
    ensures { starts.new.items ≡ lowered from starts.old.items }
{
    'starts: for place in from..starts.len() {
        starts[place] -= 1;
    }
}

/// The upper half of a full block becomes a block of its own behind it. After want of memory all is as before.
fn split<T: Drop>(
    blocks: &mut Vec<Vec<T>>,
    starts: &mut Vec<usize>,
    at: usize,
) -> Result<(), AllocError>
    requires inside { at < length blocks.old.items }
    requires long { 128 < length (row items_of (slice_get blocks.old.items at)) }
    requires laid { AreBlocks blocks.old.items starts.old.items }
    requires few { length (flat_map items_of blocks.old.items) < 2 ^ 64 }
    ensures split { OnOk result (IsSplit blocks.old.items blocks.new.items at) }
    ensures err { OnErr result (blocks.new.items ≡ blocks.old.items) }
    ensures laid { AreBlocks blocks.new.items starts.new.items }
{
    blocks.reserve(1)?;
    starts.reserve(1)?;
    let row = &mut blocks[at];
    let upper = row.split_off(HALF)?;
    let start = starts[at] + HALF;
    let Ok(()) = blocks.insert(at + 1, upper) else {
        unreachable!()
    };
    let Ok(()) = starts.insert(at + 1, start) else {
        unreachable!()
    };
    Ok(())
}

/// Where an element that comes to that place of the list belongs, in a block with room for it. After want of memory the list is as
/// before.
fn make_room<T: Drop>(
    blocks: &mut Vec<Vec<T>>,
    starts: &mut Vec<usize>,
    place: usize,
) -> Result<Place, AllocError>
    requires some { 0 < length blocks.old.items }
    requires laid { AreBlocks blocks.old.items starts.old.items }
    requires inside { place ≤ length (flat_map items_of blocks.old.items) }
    requires few { length (flat_map items_of blocks.old.items) < 2 ^ 64 }
    ensures same { flat_map items_of blocks.new.items ≡ flat_map items_of blocks.old.items }
    ensures laid { AreBlocks blocks.new.items starts.new.items }
    ensures place { IfOk result (λ at. IsSlot blocks.new.items place at.block at.slot) }
{
    let at = find(blocks.as_slice(), starts.as_slice(), place);
    if blocks[at.block].len() < MOST {
        return Ok(at);
    }
    split(blocks, starts, at.block)?;
    if at.slot <= HALF {
        return Ok(at);
    }
    Ok(Place {
        block: at.block + 1,
        slot: at.slot - HALF,
    })
}

/// Puts an element at a place. After want of memory all is as before.
fn put<T: Drop>(
    blocks: &mut Vec<Vec<T>>,
    starts: &mut Vec<usize>,
    at: Place,
    element: T,
) -> Result<(), AllocError>
    requires room { (place : ℕ) × IsSlot blocks.old.items place at.block at.slot }
    requires laid { AreBlocks blocks.old.items starts.old.items }
    requires few { length (flat_map items_of blocks.old.items) < 2 ^ 64 - 1 }
    ensures ok { OnOk result ((place : ℕ) → IsSlot blocks.old.items place at.block at.slot
        → flat_map items_of blocks.new.items ≡ insert (flat_map items_of blocks.old.items) place element) }
    ensures err { OnErr result (flat_map items_of blocks.new.items ≡ flat_map items_of blocks.old.items) }
    ensures laid { AreBlocks blocks.new.items starts.new.items }
{
    let row = &mut blocks[at.block];
    row.insert(at.slot, element)?;
    raise(starts, at.block + 1);
    Ok(())
}

/// Puts an element in its slot of a block that has room for it. Takes no memory.
pub fn put_reserved<T: Drop>(
    blocks: &mut Vec<Vec<T>>,
    starts: &mut Vec<usize>,
    at: Place,
    element: T,
)
    requires slot { (place : ℕ) × IsSlot blocks.old.items place at.block at.slot }
    requires room { HasRoom blocks.old.items at.block }
    requires laid { AreBlocks blocks.old.items starts.old.items }
    requires few { length (flat_map items_of blocks.old.items) < 2 ^ 64 - 1 }
    ensures list { (place : ℕ) → IsSlot blocks.old.items place at.block at.slot
        → flat_map items_of blocks.new.items ≡ insert (flat_map items_of blocks.old.items) place element }
    ensures laid { AreBlocks blocks.new.items starts.new.items }
{
    let row = &mut blocks[at.block];
    let Ok(()) = row.insert(at.slot, element) else {
        unreachable!()
    };
    raise(starts, at.block + 1);
}

/// The first block. After want of memory all is as before.
fn begin<T: Drop>(
    alloc: Global,
    blocks: &mut Vec<Vec<T>>,
    starts: &mut Vec<usize>,
    element: T,
) -> Result<(), AllocError>
    requires none { blocks.old.items ≡ [] }
    requires laid { AreBlocks blocks.old.items starts.old.items }
    ensures ok { OnOk result (flat_map items_of blocks.new.items ≡ element ∷ []) }
    ensures err { OnErr result (blocks.new.items ≡ blocks.old.items) }
    ensures laid { AreBlocks blocks.new.items starts.new.items }
{
    blocks.reserve(1)?;
    starts.reserve(1)?;
    let mut block = Vec::with_capacity(alloc, MOST)?;
    block.push_reserved(element);
    blocks.push_reserved(block);
    starts.push_reserved(0);
    Ok(())
}

/// Puts an element in at that place of the list. After want of memory the list is as before.
pub fn put_in<T: Drop>(
    alloc: Global,
    blocks: &mut Vec<Vec<T>>,
    starts: &mut Vec<usize>,
    place: usize,
    element: T,
) -> Result<(), AllocError>
    requires laid { AreBlocks blocks.old.items starts.old.items }
    requires inside { place ≤ length (flat_map items_of blocks.old.items) }
    requires few { length (flat_map items_of blocks.old.items) < 2 ^ 64 - 1 }
    ensures ok { OnOk result (flat_map items_of blocks.new.items ≡ insert (flat_map items_of blocks.old.items) place element) }
    ensures err { OnErr result (flat_map items_of blocks.new.items ≡ flat_map items_of blocks.old.items) }
    ensures laid { AreBlocks blocks.new.items starts.new.items }
{
    if blocks.is_empty() {
        return begin(alloc, blocks, starts, element);
    }
    let at = make_room(blocks, starts, place)?;
    put(blocks, starts, at, element)
}

/// Takes the element at a place out. A block that gets empty goes.
pub fn take_out<T: Drop>(blocks: &mut Vec<Vec<T>>, starts: &mut Vec<usize>, at: Place) -> T
    requires there { (place : ℕ) × IsPlace blocks.old.items place at.block at.slot × (place < length (flat_map items_of blocks.old.items)) }
    requires laid { AreBlocks blocks.old.items starts.old.items }
    ensures list { (place : ℕ) → IsPlace blocks.old.items place at.block at.slot
        → place < length (flat_map items_of blocks.old.items)
        → flat_map items_of blocks.new.items ≡ remove (flat_map items_of blocks.old.items) place }
    ensures element { (place : ℕ) → IsPlace blocks.old.items place at.block at.slot
        → place < length (flat_map items_of blocks.old.items) → result ≡ slice_index_or (flat_map items_of blocks.old.items) place result }
    ensures laid { AreBlocks blocks.new.items starts.new.items }
{
    let row = &mut blocks[at.block];
    let element = row.remove(at.slot);
    let empty = row.is_empty();
    lower(starts, at.block + 1);
    if empty {
        blocks.remove(at.block);
        starts.remove(at.block);
    }
    element
}
