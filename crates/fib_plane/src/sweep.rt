// Clears and gives back what is counted no more.
ghost use Rattle.std.specs.Prelude.{IsTrue, List, Some, length, vec_capacity, ℕ, [], ◌*◌, ◌++◌, ◌+◌, ◌<◌, ◌↔◌, ◌∷◌, ◌≡◌, ◌≢◌, ◌≤◌};
ghost use Rattle.fib_core.specs.declared.word.Word.TheVariants as words;
ghost use Rattle.fib_pool.specs.Objects.{IsDying, IsLive, free_in};
ghost use Rattle.fib_core_board.specs.Boards.{word_in};
ghost use Rattle.fib_core_board.specs.May.{Allows, HoldsPromise};
ghost use Rattle.fib_core_board.specs.Told.{IsBoard};
ghost use Rattle.fib_plane.specs.Planes.{IsHeld, IsSwept, uncounted};
ghost use Rattle.fib_plane.specs.inner.Joined.{AreDying, IsJoined};

use crate::counted::{Cell, Counted};
use fib_core::Word;
use fib_core_board::Board;
use fib_pool::Pool;
use fib_union::Union;

/// Whether the word is Drop.
pub(crate) fn is_drop(word: Word) -> bool
    ensures { IsTrue result ↔ (word ≡ words.Drop) }
{
    matches!(word, Word::Drop)
}

/// An edge left, or a hold ended: its object is counted once less, and is to be cleared where that was the last.
pub(crate) fn drop_edge(pool: &mut Pool, dying: &mut Vec<u32>, left: Option<u32>)
    requires live { (y : ℕ) → left ≡ Some y → IsLive pool.old y }
    requires room { length dying.old.items < vec_capacity dying.old }
    ensures pool { pool.new ≡ uncounted left pool.old }
    ensures free { free_in pool.new ≡ free_in pool.old }
    ensures dying { (ps : List ℕ) → AreDying pool.old (ps ++ dying.old.items) → AreDying pool.new (ps ++ dying.new.items) }
    ensures room { vec_capacity dying.old ≤ vec_capacity dying.new }
{
    let Some(target) = left else {
        return;
    };
    if pool.release(target) {
        if dying.push(target).is_err() {
            unreachable!();
        }
    }
}

/// Clears one cell of an object that is counted no more: its edge leaves at once, and where that was the last one into its target, the target
/// is counted no more too.
fn clear_cell<B: Board>(
    board: &mut Counted<B>,
    union: &mut Union,
    pool: &mut Pool,
    dying: &mut Vec<u32>,
    cell: Cell,
)
    requires slot { cell.slot < 16 }
    requires joined { IsJoined board.old union.old pool.old }
    requires dying { AreDying pool.old (cell.object ∷ dying.old.items) }
    requires allowed { Allows board.old }
    requires serves { HoldsPromise board.old (IsHeld board.old pool.old) }
    requires room { length pool.old ≤ vec_capacity dying.old }
    ensures joined { IsJoined board.new union.new pool.new }
    ensures dying { AreDying pool.new (cell.object ∷ dying.new.items) }
    ensures serves { HoldsPromise board.new (IsHeld board.new pool.new) }
    ensures swept { IsSwept board.old board.new pool.old pool.new }
    ensures cleared { word_in board.new (16 * cell.object + cell.slot) ≡ words.Drop }
    ensures others { (k : ℕ) → k ≢ 16 * cell.object + cell.slot → word_in board.new k ≡ word_in board.old k }
    ensures spare { union.old.spare ≤ union.new.spare }
    ensures room { vec_capacity dying.old ≤ vec_capacity dying.new }
    ensures free { free_in pool.new ≡ free_in pool.old }
{
    if is_drop(board.load(cell)) {
        return;
    }
    board.store(cell, Word::Drop);
    let left = union.set(cell.object, cell.slot, None);
    drop_edge(pool, dying, left);
}

/// Clears an object that is counted no more, and gives it back.
fn clear<B: Board>(
    board: &mut Counted<B>,
    union: &mut Union,
    pool: &mut Pool,
    dying: &mut Vec<u32>,
    object: u32,
)
    requires joined { IsJoined board.old union.old pool.old }
    requires dying { AreDying pool.old (object ∷ dying.old.items) }
    requires allowed { Allows board.old }
    requires serves { HoldsPromise board.old (IsHeld board.old pool.old) }
    requires room { length pool.old ≤ vec_capacity dying.old }
    ensures joined { IsJoined board.new union.new pool.new }
    ensures dying { AreDying pool.new dying.new.items }
    ensures serves { HoldsPromise board.new (IsHeld board.new pool.new) }
    ensures swept { IsSwept board.old board.new pool.old pool.new }
    ensures spare { union.old.spare ≤ union.new.spare }
    ensures room { vec_capacity dying.old ≤ vec_capacity dying.new }
    ensures free { free_in pool.new ≡ free_in pool.old + 1 }
{
    for slot in 0..16 {
        clear_cell(board, union, pool, dying, Cell { object, slot });
    }
    pool.put_back(object);
}

/// Clears and gives back all that is counted no more, and what is so by that.
///
/// An object comes to wait here once at most, since nothing leads to it any more: so the list, made with room for all objects, never grows.
pub(crate) fn sweep<B: Board>(
    board: &mut Counted<B>,
    union: &mut Union,
    pool: &mut Pool,
    dying: &mut Vec<u32>,
)
    requires joined { IsJoined board.old union.old pool.old }
    requires dying { AreDying pool.old dying.old.items }
    requires allowed { Allows board.old }
    requires serves { HoldsPromise board.old (IsHeld board.old pool.old) }
    requires room { length pool.old ≤ vec_capacity dying.old }
    ensures joined { IsJoined board.new union.new pool.new }
    ensures dying { AreDying pool.new dying.new.items }
    ensures empty { dying.new.items ≡ [] }
    ensures told { IsBoard board.new }
    ensures serves { HoldsPromise board.new (IsHeld board.new pool.new) }
    ensures swept { IsSwept board.old board.new pool.old pool.new }
    ensures spare { union.old.spare ≤ union.new.spare }
    ensures room { vec_capacity dying.old ≤ vec_capacity dying.new }
{
    while let Some(object) = dying.pop() {
        clear(board, union, pool, dying, object);
    }
    board.tells();
}

/// An edge left, or none did: its object is counted once less, and all that is counted no more then is cleared.
pub(crate) fn leave<B: Board>(
    board: &mut Counted<B>,
    union: &mut Union,
    pool: &mut Pool,
    dying: &mut Vec<u32>,
    left: Option<u32>,
)
    requires live { (y : ℕ) → left ≡ Some y → IsLive pool.old y }
    requires joined { IsJoined board.old union.old (uncounted left pool.old) }
    requires none { AreDying pool.old [] }
    requires empty { dying.old.items ≡ [] }
    requires allowed { Allows board.old }
    requires serves { HoldsPromise board.old (IsHeld board.old (uncounted left pool.old)) }
    requires room { length pool.old ≤ vec_capacity dying.old }
    ensures joined { IsJoined board.new union.new pool.new }
    ensures none { AreDying pool.new [] }
    ensures empty { dying.new.items ≡ [] }
    ensures told { IsBoard board.new }
    ensures serves { HoldsPromise board.new (IsHeld board.new pool.new) }
    ensures swept { IsSwept board.old board.new (uncounted left pool.old) pool.new }
    ensures spare { union.old.spare ≤ union.new.spare }
    ensures room { vec_capacity dying.old ≤ vec_capacity dying.new }
{
    let Some(target) = left else {
        board.tells();
        return;
    };
    drop_edge(pool, dying, Some(target));
    sweep(board, union, pool, dying);
}
