// The words of adjacency records.
ghost use Rattle.std.specs.Prelude.{IfSome, None, Some, length, ℕ, ◌*◌, ◌+◌, ◌<◌, ◌^◌, ◌≡◌, ◌≢◌, ◌≤◌};
ghost use Rattle.fib_reach.specs.Walks.{IsAcyclic};
ghost use Rattle.fib_union.specs.Unions.{Edge, into};
ghost use Rattle.fib_core.specs.declared.word.Word.TheVariants as words;
ghost use Rattle.fib_core.specs.StandsFor.{mac_word};
ghost use Rattle.fib_core.specs.Words.{IsRoomy};
ghost use Rattle.fib_pool.specs.Objects.{IsLive};
ghost use Rattle.fib_core_board.specs.Boards.{board_stored, union_of, word_in};
ghost use Rattle.fib_core_board.specs.May.{Allows, HoldsPromise};
ghost use Rattle.fib_core_board.specs.Told.{IsBoard};
ghost use Rattle.fib_plane.specs.Records.{board_filled};
ghost use Rattle.fib_plane.specs.inner.Joined.{HoldsBut, IsIdle, IsJoined};

use crate::counted::{Cell, Counted};
use fib_core::Word;
use fib_core_board::Board;
use fib_pool::{AdjacencyRecord, Pool};
use fib_union::Union;

/// The word of a hardware address's number, or of none.
fn mac_number(mac: Option<u64>) -> u64
    requires { IfSome mac (λ m. m < 2 ^ 48) }
    ensures word { words.Plain result ≡ mac_word mac }
    ensures bound { result < 2 ^ 56 }
{
    match mac {
        Some(number) => number + 1,
        None => 0,
    }
}

/// Stores a number into a Drop cell of an object that was just taken: no pass comes there, and nothing leads there.
fn store_number<B: Board>(
    board: &mut Counted<B>,
    union: &mut Union,
    pool: &Pool,
    cell: Cell,
    number: u64,
)
    requires slot { cell.slot < 16 }
    requires number { number < 2 ^ 56 }
    requires idle { IsIdle board.old union.old pool.now cell.object }
    requires empty { word_in board.old (16 * cell.object + cell.slot) ≡ words.Drop }
    ensures board { board.new ≡ board_stored board.old (16 * cell.object + cell.slot) (words.Plain number) }
    ensures idle { IsIdle board.new union.new pool.now cell.object }
    ensures others { (k : ℕ) → k ≢ 16 * cell.object + cell.slot → word_in board.new k ≡ word_in board.old k }
    ensures counts { (z : ℕ) → into (union_of board.new) z ≡ into (union_of board.old) z }
    ensures spare { union.old.spare ≤ union.new.spare }
{
    board.tells();
    board.store(cell, Word::Plain(number));
    union.set(cell.object, cell.slot, None);
}

/// Stores the words of a record into an object that was just taken for it, and whose cells are Drop.
pub(crate) fn fill<B: Board>(
    board: &mut Counted<B>,
    union: &mut Union,
    pool: &Pool,
    object: u32,
    kept: &AdjacencyRecord,
)
    requires mac { IfSome kept.now.mac (λ m. m < 2 ^ 48) }
    requires idle { IsIdle board.old union.old pool.now object }
    requires empty { (s : ℕ) → s < 16 → word_in board.old (16 * object + s) ≡ words.Drop }
    ensures board { board.new ≡ board_filled board.old object kept.now }
    ensures idle { IsIdle board.new union.new pool.now object }
    ensures counts { (z : ℕ) → into (union_of board.new) z ≡ into (union_of board.old) z }
    ensures interface { kept.now.interface < 2 ^ 32 }
    ensures next_hop { kept.now.next_hop < 2 ^ 32 }
    ensures words { IsRoomy (mac_word kept.now.mac) }
    ensures mac { IfSome kept.now.mac (λ m. m < 2 ^ 48) }
    ensures spare { union.old.spare ≤ union.new.spare }
    ensures told { IsBoard board.new }
{
    let interface = kept.interface as u64;
    store_number(board, union, pool, Cell { object, slot: 0 }, interface);
    let next_hop = kept.next_hop.0 as u64;
    store_number(board, union, pool, Cell { object, slot: 1 }, next_hop);
    let mac = mac_number(kept.mac);
    store_number(board, union, pool, Cell { object, slot: 2 }, mac);
    board.tells();
}
