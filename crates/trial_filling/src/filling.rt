// The stores, and the board that they fill.
ghost use Rattle.std.specs.Prelude.{◌+◌, ◌<◌, ◌≡◌};
ghost use Rattle.fib_core_board.specs.Boards.{IsFresh};
ghost use Rattle.trial_filling.specs.inner.Filling.{IsFilling, IsReady, with_union};
ghost use Rattle.trial_filling.specs.inner.Fresh.{cell_at, grown_cell as grown_of, grown_word as grown_said, last_cell as last_of};
ghost use Rattle.trial_filling.specs.inner.Fresh.{last_word as last_said, link_cell as link_of, word_of_store};

use fib_core::Word;
use fib_core_board::Board;

/// How many stores fill a board for the fresh tables.
pub const FILLED: u32 = 254;

/// How many there are with those of the ply that grows.
pub const GROWN: u32 = 271;

// Where the ply in that object is linked.
fn link_cell(object: u32) -> u32
    requires { (0 < object) × (object < 64) }
    ensures { result ≡ link_of object }
{
    if object == 1 {
        0
    } else if object == 8 {
        15
    } else if object < 8 {
        16 * (object - 1)
    } else {
        16 * (object - 1) + 15
    }
}

// The last stores of the filling: the two longest entries, and the root's cells.
fn last_cell(store: u32) -> u32
    ensures { result ≡ last_of store }
{
    if store == 0 {
        112
    } else if store == 1 {
        239
    } else {
        store - 1
    }
}

fn last_word(store: u32) -> Word
    ensures { result ≡ last_said store }
{
    if store == 0 {
        Word::ToBalance(16)
    } else if store == 1 {
        Word::ToBalance(19)
    } else if store == 15 {
        Word::ToBalance(17)
    } else {
        Word::ToBalance(15)
    }
}

// The stores of the ply that grows, and the one that puts the balance back.
fn grown_cell(store: u32) -> u32
    requires { store < 18 }
    ensures { result ≡ grown_of store }
{
    if store < 16 { 320 + store } else { 1 }
}

fn grown_word(store: u32) -> Word
    ensures { result ≡ grown_said store }
{
    if store == 16 {
        Word::ToPly(20)
    } else {
        Word::ToBalance(15)
    }
}

/// The cell of a store: 254 fill, then 17 grow a ply, and the last puts a balance back.
pub fn cell(store: u32) -> u32
    requires { store < 272 }
    ensures { result ≡ cell_at store }
{
    if store < 238 {
        let object = store / 17 + 1;
        let slot = store % 17;
        if slot < 16 {
            16 * object + slot
        } else {
            link_cell(object)
        }
    } else if store < 254 {
        last_cell(store - 238)
    } else {
        grown_cell(store - 254)
    }
}

/// The word of a store.
pub fn word(store: u32) -> Word
    requires { store < 272 }
    ensures { result ≡ word_of_store store }
{
    if store < 238 {
        let object = store / 17 + 1;
        if store % 17 < 16 {
            if object < 8 {
                Word::ToBalance(15)
            } else {
                Word::ToBalance(18)
            }
        } else {
            Word::ToPly(object)
        }
    } else if store < 254 {
        last_word(store - 238)
    } else {
        grown_word(store - 254)
    }
}

fn store_one<B: Board>(board: &mut B, store: u32)
    requires { (store < 254) × IsFilling store (B.view board.old) }
    ensures filling { IsFilling (store + 1) (B.view board.new) }
    ensures rest { B.view board.new ≡ with_union (B.view board.old) (B.view board.new) }
{
    let cell = cell(store);
    board.store(cell / 16, cell % 16, word(store));
}

/// Fills a fresh board of 64 objects and one worker: its cells stand for the fresh tables then, and nothing is retired.
pub fn fill<B: Board>(board: &mut B)
    requires fresh { IsFresh (B.view board.old) }
    requires objects { (B.view board.old).objects ≡ 64 }
    requires workers { (B.view board.old).workers ≡ 1 }
    ensures ready { IsReady (B.view board.new) }
    ensures rest { B.view board.new ≡ with_union (B.view board.old) (B.view board.new) }
{
    for store in 0..FILLED {
        store_one(board, store);
    }
    board.scan(0);
}
