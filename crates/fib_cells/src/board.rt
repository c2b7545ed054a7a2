// The control plane's seat at work.
ghost use Rattle.std.specs.Prelude.{◌≡◌};
ghost use Rattle.fib_core_board.specs.Boards.{IsFresh};
ghost use Rattle.fib_cells.specs.Seats.{id_in};

use crate::cells::{Cells, ControlSeat};
use crate::table::{Begin, Look, Place, Settle, Store};
use fib_core::{Version, Word};
use fib_core_board::Board;
use fib_core_lawful::{cell_word, pass_word, passes_left, version_word};
use fib_resolve::Tables;
use std::marker::Model;

/// The control plane at work on the shared words. It reads its own copy of what it alone writes.
pub struct LiveBoard<'a> {
    pub(crate) cells: &'a Cells,
    pub(crate) place: Place,
    pub(crate) copy: Vec<u64>,
    pub(crate) objects: u32,
    pub(crate) workers: u32,
    pub(crate) version: Version,
    pub(crate) out: [bool; 8],
    pub(crate) rests: [u64; 8],
    pub(crate) gathered: u64,
}

// The prover follows what a drop does here, once, and not at every way out past an owner.
impl Drop for LiveBoard<'_> {
    fn drop(self) {
        let LiveBoard {
            cells: _,
            place: _,
            copy: _,
            objects: _,
            workers: _,
            version: _,
            out: _,
            rests: _,
            gathered: _,
        } = self;
    }
}

impl<'a> Model for LiveBoard<'a> {
    ghost use Rattle.std.specs.Prelude.{[], ◌≡◌};
    ghost use Rattle.fib_core_board.specs.Boards.{Board as Seen, board_of};
    ghost use Rattle.fib_cells.specs.Seats.{id_of};
    ghost use Rattle.fib_cells.specs.inner.Told.{control_of};
    ghost use Rattle.fib_cells.specs.inner.Sits.{IsLive};

    ghost Value = { Seen };

    ghost view = { λ b. board_of (id_of b.place.table_id) (control_of b.place.me.0).home [] (control_of b.place.me.0) };

    ghost invariant = { λ b. (b.place.table_id ≡ b.cells.now.words.shared.table_id)
        × IsLive b.place.table_id.words b.objects b.workers b.place.me b.copy.items b.version b.out b.rests b.gathered };
}

impl<'a> LiveBoard<'a> {
    /// The board of a control seat on the words with which it was made: a fresh one.
    pub fn new(cells: &'a Cells, seat: ControlSeat) -> LiveBoard<'a>
        requires { seat.id ≡ id_in cells.now }
        ensures board { result ≡ seat }
        ensures fresh { IsFresh result }
    {
        let ControlSeat {
            place,
            copy,
            objects,
            workers,
        } = seat;
        LiveBoard {
            cells,
            place,
            copy,
            objects,
            workers,
            version: Version::settled_at(0),
            out: [false; 8],
            rests: [0; 8],
            gathered: 0,
        }
    }
}

impl<'a> Board for LiveBoard<'a> {
    ghost view = { λ b. b };

    fn tells(&self) {
        // The type's invariant tells it, once a field is used.
        let _objects = self.objects;
    }

    fn objects(&self) -> u32 {
        self.objects
    }

    fn workers(&self) -> u32 {
        self.workers
    }

    fn version(&self) -> Version {
        self.version
    }

    fn load(&self, object: u32, slot: u32) -> Word {
        Word::decode(self.copy[16 * object as usize + slot as usize])
    }

    fn store(&mut self, object: u32, slot: u32, word: Word) {
        let cell = 16 * object as usize + slot as usize;
        let code = word.encode();
        self.cells
            .words
            .shared
            .store::<Store>(&mut self.place, cell_word(object, slot), code);
        self.copy[cell] = code;
    }

    fn begin_version(&mut self, next: &Tables) {
        let begun = Version {
            settled: self.version.settled,
            applied: self.version.applied + 1,
        };
        let old = self.version.encode();
        let new = begun.encode();
        // The control plane alone stores the version, so the word is the old one.
        self.cells
            .words
            .shared
            .compare_exchange_with::<Begin>(&mut self.place, version_word(), old, new, next);
        self.version = begun;
    }

    fn settle_version(&mut self) {
        let settled = Version::settled_at(self.version.applied);
        let code = settled.encode();
        self.cells
            .words
            .shared
            .store::<Settle>(&mut self.place, version_word(), code);
        self.version = settled;
    }

    fn scan(&mut self, worker: u32) -> u64 {
        self.cells
            .words
            .shared
            .load::<Look>(&mut self.place, pass_word(worker))
    }

    fn passes_left(&self, worker: u32) -> u64 {
        passes_left(self.rests[worker as usize])
    }
}
