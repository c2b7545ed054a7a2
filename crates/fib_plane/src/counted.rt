// A board that counts its stores.
ghost use Rattle.std.specs.Prelude.{IsTrue, ℕ, false, true, length, slice_index, slice_index_or, ◌%◌, ◌*◌, ◌+◌, ◌<◌, ◌^◌, ◌↔◌, ◌≡◌};
ghost use Rattle.fib_union.specs.Marks.{is_even};
ghost use Rattle.fib_core_lawful.specs.State.{left_of};
ghost use Rattle.fib_core_board.specs.Boards.{board_begun, board_scanned, board_settled, board_stored, word_in};
ghost use Rattle.fib_core_board.specs.Crews.{IsOut, MaySend, board_joined, board_sent, new_seat};
ghost use Rattle.fib_core_board.specs.May.{MayBegin, MaySettle, MayStore};
ghost use Rattle.fib_core_board.specs.Told.{IsBoard};

use fib_core::{Version, Word};
use fib_core_board::{Board, Crew};
use fib_resolve::Tables;
use std::marker::Model;

/// A board beside the number of its stores, modulo 2^64. Contracts see the board.
#[derive(Drop)]
pub(crate) struct Counted<B: Board> {
    pub(crate) board: B,
    stores: u64,
}

impl<B: Board> Model for Counted<B> {
    ghost use Rattle.std.specs.Prelude.{◌%◌, ◌^◌, ◌≡◌};
    ghost use Rattle.fib_core_board.specs.Boards.{Board as Seen};

    ghost Value = { Seen };

    ghost view = { λ c. B.view c.board };

    ghost invariant = { λ c. c.stores ≡ (B.view c.board).stored % 2 ^ 64 };
}

/// A cell of an object.
#[derive(Clone, Copy)]
pub(crate) struct Cell {
    pub(crate) object: u32,
    pub(crate) slot: u32,
}

impl<B: Board> Counted<B> {
    pub(crate) fn new(board: B) -> Counted<B>
        requires { (B.view board).stored ≡ 0 }
        ensures { result ≡ B.view board }
    {
        Counted { board, stores: 0 }
    }

    pub(crate) fn tells(&self)
        ensures { IsBoard self.now }
    {
        self.board.tells()
    }

    pub(crate) fn objects(&self) -> u32
        ensures { result ≡ self.now.objects }
    {
        self.board.objects()
    }

    pub(crate) fn workers(&self) -> u32
        ensures { result ≡ self.now.workers }
    {
        self.board.workers()
    }

    pub(crate) fn version(&self) -> Version
        ensures { result ≡ self.now.log.version }
    {
        self.board.version()
    }

    pub(crate) fn passes_left(&self, worker: u32) -> u64
        requires { worker < self.now.workers }
        ensures { result ≡ left_of (slice_index self.now.rests worker) }
    {
        self.board.passes_left(worker)
    }

    pub(crate) fn stores(&self) -> u64
        ensures { result ≡ self.now.stored % 2 ^ 64 }
    {
        self.stores
    }

    pub(crate) fn load(&self, cell: Cell) -> Word
        requires object { cell.object < self.now.objects }
        requires slot { cell.slot < 16 }
        ensures { result ≡ word_in self.now (16 * cell.object + cell.slot) }
    {
        self.board.load(cell.object, cell.slot)
    }

    pub(crate) fn store(&mut self, cell: Cell, word: Word)
        requires slot { cell.slot < 16 }
        requires may { MayStore self.old (16 * cell.object + cell.slot) word }
        ensures { self.new ≡ board_stored self.old (16 * cell.object + cell.slot) word }
    {
        self.board.store(cell.object, cell.slot, word);
        self.stores = self.stores.wrapping_add(1);
    }

    pub(crate) fn begin_version(&mut self, next: &Tables)
        requires { MayBegin self.old next.now }
        ensures { self.new ≡ board_begun self.old next.now }
    {
        self.board.begin_version(next)
    }

    pub(crate) fn settle_version(&mut self)
        requires { MaySettle self.old }
        ensures { self.new ≡ board_settled self.old }
    {
        self.board.settle_version()
    }

    pub(crate) fn scan(&mut self, worker: u32) -> u64
        requires { worker < self.old.workers }
        ensures board { self.new ≡ board_scanned worker result self.old }
        ensures rests { slice_index_or self.old.out worker false ≡ false → is_even result ≡ true }
    {
        self.board.scan(worker)
    }
}

impl<B: Crew> Counted<B> {
    pub(crate) fn worker(&mut self, number: u32) -> B::Seat
        requires { MaySend self.old number }
        ensures board { self.new ≡ board_sent self.old number }
        ensures seat { B.seated result ≡ new_seat self.old number }
    {
        self.board.worker(number)
    }

    pub(crate) fn home(&mut self, seat: B::Seat)
        requires { (B.seated seat).id ≡ self.old.id }
        ensures { self.new ≡ board_joined self.old (B.seated seat).worker }
    {
        self.board.home(seat)
    }

    pub(crate) fn note(&mut self) -> B::Note
        ensures board { self.new ≡ self.old }
        ensures note { B.noted result ≡ record { id = self.old.id; version = self.old.log.version } }
    {
        self.board.note()
    }

    pub(crate) fn is_out(&self, number: u32) -> bool
        requires { number < self.now.workers }
        ensures { IsTrue result ↔ IsOut self.now number }
    {
        self.board.is_out(number)
    }

    pub(crate) fn gathered(&self) -> u64
        ensures { result ≡ length self.now.gathered }
    {
        self.board.gathered()
    }
}
