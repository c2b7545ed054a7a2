// Where an element is, or belongs, in a list that is in order.
ghost use Rattle.std.specs.Prelude.{◌≡◌, ℕ, ◌+◌, ◌<◌, ◌^◌, flat_map, length, slice_get, slice_index_or};
ghost use Rattle.std.specs.List.{AllByRecursion};
ghost use Rattle.std.specs.List.Sorted.{IsBinarySearchResult, IsSearchInRange};
ghost use Rattle.std.specs.Ordering.{is_gt};
ghost use Rattle.std.specs.declared.cmp.Ordering.{Ordering as OrderingValue};
ghost use Rattle.fib_base_ordered.specs.inner.Blocks.{row};
ghost use Rattle.fib_base_blocks.specs.inner.Layout.{AreBlocks, IsFilled, StartsPast, StartsWithin, items_of};

use std::cmp::Ordering;

/// What is sought among elements that are in order.
pub trait Sought<T> {
    ghost order: { Self → T → OrderingValue };

    /// How the element compares with it.
    fn compare(&self, element: &T) -> Ordering
        ensures { result ≡ order self.now element.now };
}

/// The last block that doesn't start past what is sought, or the first block.
fn block_for<T, S: Sought<T>>(blocks: &[Vec<T>], sought: &S) -> usize
    requires some { 0 < length blocks.now }
    requires filled { AllByRecursion IsFilled blocks.now }
    ensures inside { result < length blocks.now }
    ensures low { 0 < result → StartsWithin (S.order sought.now) blocks.now result }
    ensures high { result + 1 < length blocks.now → StartsPast (S.order sought.now) blocks.now (result + 1) }
{
    let mut low = 0;
    let mut high = blocks.len();
    while high - low > 1 {
        let middle = low + (high - low) / 2;
        if sought.compare(&blocks[middle][0]).is_gt() {
            high = middle;
        } else {
            low = middle;
        }
    }
    low
}

/// The slot of an element that is equal to what is sought, or else where one belongs among these.
fn slot_for<T, S: Sought<T>>(items: &[T], sought: &S) -> Result<usize, usize>
    ensures bound { IsSearchInRange result (length items.now) }
    ensures position { IsBinarySearchResult (S.order sought.now) items.now result }
{
    let mut low = 0;
    let mut high = items.len();
    while low < high {
        let middle = low + (high - low) / 2;
        match sought.compare(&items[middle]) {
            Ordering::Equal => return Ok(middle),
            Ordering::Less => low = middle + 1,
            Ordering::Greater => high = middle,
        }
    }
    Err(low)
}

/// The place of an element that is equal to what is sought, or else where one belongs.
pub fn search<T, S: Sought<T>>(
    blocks: &[Vec<T>],
    starts: &[usize],
    sought: &S,
) -> Result<usize, usize>
    requires laid { AreBlocks blocks.now starts.now }
    requires few { length (flat_map items_of blocks.now) < 2 ^ 64 }
    ensures bound { IsSearchInRange result (length (flat_map items_of blocks.now)) }
    ensures position { IsBinarySearchResult (S.order sought.now) (flat_map items_of blocks.now) result }
{
    if blocks.is_empty() {
        return Err(0);
    }
    let block = block_for(blocks, sought);
    let start = starts[block];
    match slot_for(blocks[block].as_slice(), sought) {
        Ok(slot) => Ok(start + slot),
        Err(slot) => Err(start + slot),
    }
}
