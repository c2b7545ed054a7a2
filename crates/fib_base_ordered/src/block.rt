// Blocks of members, and where a key belongs in them.
ghost use Rattle.std.specs.Prelude.{◌≡◌, ◌⊎◌, ℕ, ◌+◌, ◌-◌, ◌*◌, ◌<◌, ◌≤◌, ◌++◌, ◌∷◌, [], drop, flat_map, length, slice_get, slice_index_or, vec_capacity};
ghost use Rattle.std.specs.List.{AllByRecursion};
ghost use Rattle.fib_base_ordered.specs.Sets.{IsAscending, first_of, last_of};
ghost use Rattle.fib_base_ordered.specs.inner.Blocks.{AreRoomy, IsCut, IsFilled, IsIdle, IsWide, after, before, cost, items_of, row};

/// What has a key. Members of a set with one key are one member.
pub trait Keyed {
    ghost rank: { Self → ℕ };

    /// The key by which sets order it.
    fn key(&self) -> u64
        ensures { result ≡ rank self.now };
}

/// Members that lie together, in order.
#[derive(Drop)]
pub struct Block<T> {
    pub items: Vec<T>,
}

impl<T: Keyed> Keyed for Block<T> {
    ghost use Rattle.std.specs.Prelude.{List};
    ghost use Rattle.fib_base_ordered.specs.inner.Blocks.{rank_of_first};

    ghost rank = { λ b. rank_of_first T.rank b.items.items };

    fn key(&self) -> u64 {
        match self.items.first() {
            Some(member) => member.key(),
            None => 0,
        }
    }
}

/// A place in a list of blocks.
#[derive(Clone, Copy)]
pub struct Place {
    pub block: usize,
    pub slot: usize,
}

/// How many of the elements, which are in order, have a lower key.
pub fn count_below<T: Keyed>(items: &[T], key: u64) -> usize
    ensures bound { result ≤ length items.now }
    ensures below { (d : T) → 0 < result → T.rank (slice_index_or items.now (result - 1) d) < key }
    ensures above { (d : T) → result < length items.now → key ≤ T.rank (slice_index_or items.now result d) }
{
    let mut low = 0;
    let mut high = items.len();
    while low < high {
        let middle = low + (high - low) / 2;
        if items[middle].key() < key {
            low = middle + 1;
        } else {
            high = middle;
        }
    }
    low
}

/// Where members of lower keys end, in the block whose members they end among.
pub fn cut<T: Keyed>(blocks: &[Block<T>], key: u64) -> Place
    requires some { 0 < length blocks.now }
    requires ordered { IsAscending T.rank (flat_map items_of blocks.now) }
    requires full { AllByRecursion IsFilled blocks.now }
    ensures inside { result.block < length blocks.now }
    ensures slot { result.slot ≤ length (row items_of (slice_get blocks.now result.block)) }
    ensures cut { IsCut T.rank key (flat_map items_of blocks.now) (before items_of blocks.now result.block result.slot)
        (after items_of blocks.now result.block result.slot) }
    ensures edge { result.slot ≡ 0 → result.block ≡ 0 }
{
    let count = count_below(blocks, key);
    let block = count.saturating_sub(1);
    let slot = count_below(blocks[block].items.as_slice(), key);
    Place { block, slot }
}

/// The same place, at the next block where it is at a block's end and another block follows.
fn settle<T>(blocks: &[Block<T>], place: Place) -> Place
    requires inside { place.block < length blocks.now }
    requires slot { place.slot ≤ length (row items_of (slice_get blocks.now place.block)) }
    requires full { AllByRecursion IsFilled blocks.now }
    ensures inside { result.block < length blocks.now }
    ensures slot { result.slot ≤ length (row items_of (slice_get blocks.now result.block)) }
    ensures before { before items_of blocks.now result.block result.slot ≡ before items_of blocks.now place.block place.slot }
    ensures after { after items_of blocks.now result.block result.slot ≡ after items_of blocks.now place.block place.slot }
    ensures settled { (result.slot < length (row items_of (slice_get blocks.now result.block)))
        ⊎ (after items_of blocks.now result.block result.slot ≡ []) }
{
    let row = blocks[place.block].items.as_slice();
    if place.slot == row.len() && place.block + 1 < blocks.len() {
        return Place {
            block: place.block + 1,
            slot: 0,
        };
    }
    place
}

/// The place of the first member whose key isn't lower.
pub fn locate<T: Keyed>(blocks: &[Block<T>], key: u64) -> Place
    requires some { 0 < length blocks.now }
    requires ordered { IsAscending T.rank (flat_map items_of blocks.now) }
    requires full { AllByRecursion IsFilled blocks.now }
    ensures inside { result.block < length blocks.now }
    ensures slot { result.slot ≤ length (row items_of (slice_get blocks.now result.block)) }
    ensures cut { IsCut T.rank key (flat_map items_of blocks.now) (before items_of blocks.now result.block result.slot)
        (after items_of blocks.now result.block result.slot) }
    ensures settled { (result.slot < length (row items_of (slice_get blocks.now result.block)))
        ⊎ (after items_of blocks.now result.block result.slot ≡ []) }
{
    let place = cut(blocks, key);
    settle(blocks, place)
}

/// The member at a place.
pub fn peek<T: Copy>(blocks: &[Block<T>], place: Place) -> Option<T>
    requires inside { place.block < length blocks.now }
    requires settled { (place.slot < length (row items_of (slice_get blocks.now place.block)))
        ⊎ (after items_of blocks.now place.block place.slot ≡ []) }
    ensures { result ≡ first_of (after items_of blocks.now place.block place.slot) }
{
    let row = blocks[place.block].items.as_slice();
    row.get(place.slot).copied()
}

/// The member before a place that isn't the first of its block.
pub fn peek_back<T: Copy>(blocks: &[Block<T>], place: Place) -> Option<T>
    requires inside { place.block < length blocks.now }
    requires some { 0 < place.slot }
    requires slot { place.slot ≤ length (row items_of (slice_get blocks.now place.block)) }
    ensures { result ≡ last_of (before items_of blocks.now place.block place.slot) }
{
    let row = blocks[place.block].items.as_slice();
    row.get(place.slot - 1).copied()
}

/// Puts a member at a place.
fn put<T: Copy + Drop>(blocks: &mut Vec<Block<T>>, place: Place, member: T)
    requires inside { place.block < length blocks.old.items }
    requires slot { place.slot ≤ length (row items_of (slice_get blocks.old.items place.block)) }
    requires filled { AllByRecursion IsFilled blocks.old.items }
    ensures members { flat_map items_of blocks.new.items ≡ before items_of blocks.old.items place.block place.slot ++ member
        ∷ after items_of blocks.old.items place.block place.slot }
    ensures wide { IsWide blocks.new.items place.block }
    ensures len { length blocks.new.items ≡ length blocks.old.items }
    ensures capacity { vec_capacity blocks.new ≡ vec_capacity blocks.old }
    ensures cost { cost blocks.new.items ≤ cost blocks.old.items + 1 }
{
    let row = &mut blocks[place.block].items;
    let Ok(()) = row.insert(place.slot, member) else {
        unreachable!()
    };
}

/// Moves the upper half of a block to a block of its own behind it.
fn split<T: Copy + Drop>(blocks: &mut Vec<Block<T>>, idle: &mut Vec<Block<T>>, at: usize)
    requires inside { at < length blocks.old.items }
    requires wide { IsWide blocks.old.items at }
    requires long { 32 < length (row items_of (slice_get blocks.old.items at)) }
    requires idle { AllByRecursion IsIdle idle.old.items }
    requires some { 0 < length idle.old.items }
    requires room { length blocks.old.items < vec_capacity blocks.old }
    ensures members { flat_map items_of blocks.new.items ≡ flat_map items_of blocks.old.items }
    ensures filled { AllByRecursion IsFilled blocks.new.items }
    ensures idle { AllByRecursion IsIdle idle.new.items }
    ensures len { length blocks.new.items ≡ length blocks.old.items + 1 }
    ensures idle_len { length idle.new.items + 1 ≡ length idle.old.items }
    ensures capacity { vec_capacity blocks.new ≡ vec_capacity blocks.old }
    ensures idle_capacity { vec_capacity idle.new ≡ vec_capacity idle.old }
    ensures cost { 64 < length (row items_of (slice_get blocks.old.items at)) → cost blocks.new.items ≤ cost blocks.old.items }
{
    let Some(mut upper) = idle.pop() else {
        unreachable!()
    };
    let row = &mut blocks[at].items;
    let Ok(()) = upper.items.extend_from_slice(&row[32..]) else {
        unreachable!()
    };
    row.truncate(32);
    let Ok(()) = blocks.insert(at + 1, upper) else {
        unreachable!()
    };
}

/// Takes the member at a place out. A block that gets empty is idle then.
pub fn take_out<T: Copy + Drop>(blocks: &mut Vec<Block<T>>, idle: &mut Vec<Block<T>>, place: Place)
    requires inside { place.block < length blocks.old.items }
    requires slot { place.slot < length (row items_of (slice_get blocks.old.items place.block)) }
    requires filled { AllByRecursion IsFilled blocks.old.items }
    requires idle { AllByRecursion IsIdle idle.old.items }
    requires roomy { AreRoomy blocks.old.items idle.old.items (vec_capacity blocks.old) (vec_capacity idle.old) }
    ensures members { flat_map items_of blocks.new.items ≡ before items_of blocks.old.items place.block place.slot
        ++ drop 1 (after items_of blocks.old.items place.block place.slot) }
    ensures filled { AllByRecursion IsFilled blocks.new.items }
    ensures idle { AllByRecursion IsIdle idle.new.items }
    ensures spare { length idle.old.items ≤ length idle.new.items }
    ensures roomy { AreRoomy blocks.new.items idle.new.items (vec_capacity blocks.new) (vec_capacity idle.new) }
    ensures all { length blocks.new.items + length idle.new.items ≡ length blocks.old.items + length idle.old.items }
    ensures cost { cost blocks.new.items ≤ cost blocks.old.items }
{
    let row = &mut blocks[place.block].items;
    row.remove(place.slot);
    if row.is_empty() {
        let block = blocks.remove(place.block);
        idle.push_reserved(block);
    }
}

/// Puts a member at a place. A block that gets too long becomes two.
pub fn put_in<T: Copy + Drop>(
    blocks: &mut Vec<Block<T>>,
    idle: &mut Vec<Block<T>>,
    place: Place,
    member: T,
)
    requires inside { place.block < length blocks.old.items }
    requires slot { place.slot ≤ length (row items_of (slice_get blocks.old.items place.block)) }
    requires filled { AllByRecursion IsFilled blocks.old.items }
    requires idle { AllByRecursion IsIdle idle.old.items }
    requires some { 0 < length idle.old.items }
    requires roomy { AreRoomy blocks.old.items idle.old.items (vec_capacity blocks.old) (vec_capacity idle.old) }
    ensures members { flat_map items_of blocks.new.items ≡ before items_of blocks.old.items place.block place.slot ++ member
        ∷ after items_of blocks.old.items place.block place.slot }
    ensures filled { AllByRecursion IsFilled blocks.new.items }
    ensures idle { AllByRecursion IsIdle idle.new.items }
    ensures spare { length idle.old.items ≤ length idle.new.items + 1 }
    ensures roomy { AreRoomy blocks.new.items idle.new.items (vec_capacity blocks.new) (vec_capacity idle.new) }
    ensures all { length blocks.new.items + length idle.new.items ≡ length blocks.old.items + length idle.old.items }
    ensures cost { cost blocks.new.items ≤ cost blocks.old.items + 1 }
{
    put(blocks, place, member);
    if blocks[place.block].items.as_slice().len() > 64 {
        split(blocks, idle, place.block);
    }
}
