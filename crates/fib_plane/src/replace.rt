// A store of the plane.
ghost use Rattle.std.specs.Prelude.{false, true, if◌then◌else◌, IsTrue, None, Some, length, vec_capacity, ℕ, [], ◌*◌, ◌+◌, ◌-◌, ◌<◌, ◌^◌, ◌↔◌, ◌≡◌, ◌≢◌, ◌≤◌};
ghost use Rattle.fib_reach.specs.Walks.{IsAcyclic, Leads};
ghost use Rattle.fib_union.specs.Unions.{Edge, left_at_once, must_retire};
ghost use Rattle.fib_core.specs.declared.word.Word.TheVariants as words;
ghost use Rattle.fib_core.specs.Words.{IsRoomy};
ghost use Rattle.fib_pool.specs.Objects.{IsLive, at, count_of};
ghost use Rattle.fib_core_board.specs.Boards.{board_stored, edge_of, union_of, word_in};
ghost use Rattle.fib_core_board.specs.May.{MayStore, HoldsPromise};
ghost use Rattle.fib_core_board.specs.Told.{IsBoard};
ghost use Rattle.fib_plane.specs.Planes.{IsHeld, IsSwept, counted_more, leads_from, uncounted};
ghost use Rattle.fib_plane_view.specs.declared.put.Put.TheVariants as puts;
ghost use Rattle.fib_plane.specs.Puts.{Closes, IsPlanePut, MayPut};
ghost use Rattle.fib_plane.specs.Views.{is_ply_at, plane_of};
ghost use Rattle.fib_plane.specs.inner.Joined.{AreDying, IsJoined};

use crate::counted::{Cell, Counted};
use crate::sweep;
use fib_core::Word;
use fib_core_board::Board;
use fib_plane_view::Put;
use fib_pool::{Kind, Pool};
use fib_union::Union;

/// Where the word leads, if it is an edge.
fn target(word: Word) -> Option<u32>
    requires { IsRoomy word }
    ensures { result ≡ edge_of word }
{
    match word {
        Word::ToPly(object) => Some(object),
        Word::ToBalance(object) => Some(object),
        Word::ToAdjacency(object) => Some(object),
        Word::Drop => None,
        Word::Receive => None,
        Word::Glean(_) => None,
        Word::Plain(_) => None,
    }
}

/// Stores a word, counts its edge, and clears what that frees.
pub(crate) fn replace<B: Board>(
    board: &mut Counted<B>,
    union: &mut Union,
    pool: &mut Pool,
    dying: &mut Vec<u32>,
    cell: Cell,
    word: Word,
)
    requires slot { cell.slot < 16 }
    requires joined { IsJoined board.old union.old pool.old }
    requires none { AreDying pool.old [] }
    requires empty { dying.old.items ≡ [] }
    requires roomy { board.old.objects ≤ vec_capacity dying.old }
    requires acyclic { IsAcyclic (Edge (union_of board.old)) }
    requires word { IsRoomy word }
    requires may { MayStore board.old (16 * cell.object + cell.slot) word }
    requires serves { HoldsPromise (board_stored board.old (16 * cell.object + cell.slot) word) (IsHeld board.old pool.old) }
    requires source { IsLive pool.old cell.object }
    requires target { (y : ℕ) → edge_of word ≡ Some y → IsLive pool.old y }
    requires spare { (y : ℕ) → leads_from board.old (16 * cell.object + cell.slot) ≡ Some y → 0 < union.old.spare }
    ensures joined { IsJoined board.new union.new pool.new }
    ensures none { AreDying pool.new [] }
    ensures empty { dying.new.items ≡ [] }
    ensures told { IsBoard board.new }
    ensures roomy { board.new.objects ≤ vec_capacity dying.new }
    ensures acyclic { IsAcyclic (Edge (union_of board.new)) }
    ensures serves { HoldsPromise board.new (IsHeld board.new pool.new) }
    ensures swept { IsSwept (board_stored board.old (16 * cell.object + cell.slot) word) board.new
        (uncounted (left_at_once (union_of board.old) (16 * cell.object + cell.slot)) (counted_more (edge_of word) pool.old)) pool.new }
    ensures spare { union.old.spare ≤ union.new.spare + 1 }
    ensures spared { must_retire (union_of board.old) (16 * cell.object + cell.slot) ≡ false → union.old.spare ≤ union.new.spare }
{
    board.store(cell, word);
    let to = target(word);
    count(pool, to);
    let left = union.set(cell.object, cell.slot, to);
    sweep::leave(board, union, pool, dying, left);
}

/// Stores a word into an empty cell, and counts its edge, which closes no cycle: nothing leaves.
pub(crate) fn lay<B: Board>(
    board: &mut Counted<B>,
    union: &mut Union,
    pool: &mut Pool,
    cell: Cell,
    word: Word,
)
    requires slot { cell.slot < 16 }
    requires joined { IsJoined board.old union.old pool.old }
    requires none { AreDying pool.old [] }
    requires acyclic { IsAcyclic (Edge (union_of board.old)) }
    requires empty { word_in board.old (16 * cell.object + cell.slot) ≡ words.Drop }
    requires other { word ≢ words.Drop }
    requires far { Closes board.old (16 * cell.object + cell.slot) word → ⊥ }
    requires may { MayPut (plane_of board.old union.old pool.old []) (16 * cell.object + cell.slot) word }
    requires source { IsLive pool.old cell.object }
    requires target { (y : ℕ) → edge_of word ≡ Some y → IsLive pool.old y }
    ensures joined { IsJoined board.new union.new pool.new }
    ensures none { AreDying pool.new [] }
    ensures told { IsBoard board.new }
    ensures board { board.new ≡ board_stored board.old (16 * cell.object + cell.slot) word }
    ensures acyclic { IsAcyclic (Edge (union_of board.new)) }
    ensures put { IsPlanePut (plane_of board.old union.old pool.old []) (plane_of board.new union.new pool.new [])
        (16 * cell.object + cell.slot) word puts.Stored }
{
    let to = target(word);
    board.store(cell, word);
    count(pool, to);
    union.set(cell.object, cell.slot, to);
    board.tells();
}

/// Stores a word that is not there yet, or Drop where it is an edge that would close a cycle.
pub(crate) fn change<B: Board>(
    board: &mut Counted<B>,
    union: &mut Union,
    pool: &mut Pool,
    dying: &mut Vec<u32>,
    cell: Cell,
    word: Word,
) -> Put
    requires slot { cell.slot < 16 }
    requires joined { IsJoined board.old union.old pool.old }
    requires none { AreDying pool.old [] }
    requires empty { dying.old.items ≡ [] }
    requires roomy { board.old.objects ≤ vec_capacity dying.old }
    requires acyclic { IsAcyclic (Edge (union_of board.old)) }
    requires other { word_in board.old (16 * cell.object + cell.slot) ≢ word }
    requires calm { is_ply_at (at pool.old cell.object) ≡ true → Closes board.old (16 * cell.object + cell.slot) word → ⊥ }
    requires may { MayPut (plane_of board.old union.old pool.old []) (16 * cell.object + cell.slot) word }
    requires source { IsLive pool.old cell.object }
    requires target { (y : ℕ) → edge_of word ≡ Some y → IsLive pool.old y }
    requires spare { (y : ℕ) → leads_from board.old (16 * cell.object + cell.slot) ≡ Some y → 0 < union.old.spare }
    ensures joined { IsJoined board.new union.new pool.new }
    ensures none { AreDying pool.new [] }
    ensures empty { dying.new.items ≡ [] }
    ensures told { IsBoard board.new }
    ensures roomy { board.new.objects ≤ vec_capacity dying.new }
    ensures acyclic { IsAcyclic (Edge (union_of board.new)) }
    ensures put { IsPlanePut (plane_of board.old union.old pool.old []) (plane_of board.new union.new pool.new [])
        (16 * cell.object + cell.slot) word result }
{
    board.tells();
    let closing = closes(union, pool, cell.object, word);
    if is_dropped(closing, board, cell) {
        return Put::Dropped;
    }
    replace(board, union, pool, dying, cell, left_for(closing, word));
    answer_for(closing)
}

/// Whether the word would close a cycle, and the cell holds Drop already.
fn is_dropped<B: Board>(closing: bool, board: &Counted<B>, cell: Cell) -> bool
    requires object { cell.object < board.now.objects }
    requires slot { cell.slot < 16 }
    ensures { IsTrue result ↔ ((closing ≡ true) × (word_in board.now (16 * cell.object + cell.slot) ≡ words.Drop)) }
{
    closing && sweep::is_drop(board.load(cell))
}

/// What is stored in place of the word.
fn left_for(closing: bool, word: Word) -> Word
    ensures { result ≡ (if closing then words.Drop else word) }
{
    if closing { Word::Drop } else { word }
}

/// What a put that stores answers.
fn answer_for(closing: bool) -> Put
    ensures { result ≡ (if closing then puts.Dropped else puts.Stored) }
{
    if closing { Put::Dropped } else { Put::Stored }
}

/// Whether the object is a ply.
fn is_ply(pool: &Pool, object: u32) -> bool
    requires { IsLive pool.now object }
    ensures { result ≡ is_ply_at (at pool.now object) }
{
    match pool.kind(object) {
        Kind::Ply => true,
        Kind::Balance => false,
        Kind::Adjacency => false,
    }
}

/// An edge came: its target is counted once more.
fn count(pool: &mut Pool, to: Option<u32>)
    requires live { (y : ℕ) → to ≡ Some y → IsLive pool.old y }
    requires few { (y : ℕ) → to ≡ Some y → count_of pool.old y < 2 ^ 64 - 1 }
    ensures { pool.new ≡ counted_more to pool.old }
{
    if let Some(target) = to {
        pool.hold(target);
    }
}

/// Whether the words are equal.
pub(crate) fn same(one: Word, other: Word) -> bool
    ensures { IsTrue result ↔ (one ≡ other) }
{
    one == other
}

/// Whether the word is an edge that would close a cycle. One from a ply closes none: a put asks that.
/// One beside a current edge to the same object closes none: so of sixteen buckets that
/// come to lead to one object at most the first is searched for.
pub(crate) fn closes(union: &mut Union, pool: &Pool, object: u32, word: Word) -> bool
    requires acyclic { IsAcyclic (Edge union.old.union) }
    requires word { IsRoomy word }
    requires source { 16 * object < length union.old.union.edges }
    requires target { (y : ℕ) → edge_of word ≡ Some y → 16 * y < length union.old.union.edges }
    requires live { IsLive pool.now object }
    requires calm { is_ply_at (at pool.now object) ≡ true → (y : ℕ) → edge_of word ≡ Some y → Leads (Edge union.old.union) y object → ⊥ }
    ensures unchanged { union.new ≡ union.old }
    ensures closes { IsTrue result ↔ (y : ℕ) × (edge_of word ≡ Some y) × Leads (Edge union.old.union) y object }
{
    if is_ply(pool, object) {
        return false;
    }
    let Some(to) = target(word) else {
        return false;
    };
    if union.has_edge(object, to) {
        return false;
    }
    union.would_cycle(object, to)
}
