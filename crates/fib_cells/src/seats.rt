// A worker's seat, at rest and walking, and notes.
ghost use Rattle.std.specs.Prelude.{◌*◌, ◌+◌, ◌<◌, ◌≡◌, ◌≤◌};
ghost use Rattle.fib_core_results.specs.Trails.{AtLeast};
ghost use Rattle.fib_core.specs.declared.word.Word.TheVariants.{Plain};
ghost use Rattle.fib_core.specs.Words.{IsRoomy};
ghost use Rattle.fib_core.specs.Trails.{IsSoundTrail, stands};
ghost use Rattle.fib_core_lawful.specs.State.{greater as greater_of, left_of};
ghost use Rattle.fib_core_lawful.specs.Lawful.{IsTold};
ghost use Rattle.fib_core_rule.specs.May.{MayDraw};
ghost use Rattle.fib_cells.specs.Seats.{IsReading, claims_left_of};
ghost use Rattle.fib_cells.specs.Seats.{seat_claimed, seat_learned, seat_loaded, seat_started, seat_stopped, seat_told};
ghost use Rattle.fib_cells.specs.inner.Sits.{moved_to};

use crate::cells::Cells;
use crate::table::{Claim, Hop, Learn, Place, Start, Stop, Tell};
use fib_core::{Version, Word};
use fib_core_lawful::{cell_word, claim_word, pass_word, passes_left, version_word};
use std::marker::Model;

/// A note of a version, for a worker. It has no bytes but the version's.
#[derive(Drop)]
pub struct Note {
    pub(crate) place: Place,
    pub(crate) version: Version,
}

impl Model for Note {
    ghost use Rattle.std.specs.Prelude.{◌≡◌};
    ghost use Rattle.fib_core_board.specs.Crews.{Noted};
    ghost use Rattle.fib_cells.specs.Seats.{id_of};
    ghost use Rattle.fib_cells.specs.inner.Told.{IsNote, note_of};

    ghost Value = { Noted };

    ghost view = { λ n. record { id = id_of n.place.table_id; version = n.version } };

    ghost invariant = { λ n. IsNote n.place.me × (note_of n.place.me.0 ≡ n.version) };
}

impl Note {
    /// The version as it was when the note was made.
    pub fn version(&self) -> Version
        ensures { result ≡ self.now.version }
    {
        self.version
    }
}

/// A worker's seat at rest.
#[derive(Drop)]
pub struct WorkerSeat<'a> {
    pub(crate) cells: &'a Cells,
    pub(crate) place: Place,
    pub(crate) number: u32,
    pub(crate) pass: u64,
    pub(crate) knows: Version,
    pub(crate) left: u32,
}

impl<'a> Model for WorkerSeat<'a> {
    ghost use Rattle.std.specs.Prelude.{◌≡◌};
    ghost use Rattle.fib_core_board.specs.Crews.{Seated};
    ghost use Rattle.fib_cells.specs.Seats.{id_of};
    ghost use Rattle.fib_cells.specs.inner.Told.{worker_of};
    ghost use Rattle.fib_cells.specs.inner.Sits.{IsResting};

    ghost Value = { Seated };

    ghost view = { λ a. record { id = id_of a.place.table_id; worker = worker_of a.place.me.0 } };

    ghost invariant = { λ a. (a.place.table_id ≡ a.cells.now.words.shared.table_id)
        × IsResting a.place.table_id.words a.place.me a.number a.pass a.knows a.left };
}

/// A worker's seat on a pass. It must be stopped.
pub struct WalkingSeat<'a> {
    cells: &'a Cells,
    place: Place,
    number: u32,
    pass: u64,
    knows: Version,
    left: u32,
    at: u32,
}

impl<'a> Model for WalkingSeat<'a> {
    ghost use Rattle.std.specs.Prelude.{◌≡◌};
    ghost use Rattle.fib_core_board.specs.Crews.{Seated};
    ghost use Rattle.fib_cells.specs.Seats.{id_of};
    ghost use Rattle.fib_cells.specs.inner.Told.{worker_of};
    ghost use Rattle.fib_cells.specs.inner.Sits.{IsWalking};

    ghost Value = { Seated };

    ghost view = { λ a. record { id = id_of a.place.table_id; worker = worker_of a.place.me.0 } };

    ghost invariant = { λ a. (a.place.table_id ≡ a.cells.now.words.shared.table_id)
        × IsWalking a.place.table_id.words a.place.me a.number a.pass a.knows a.left a.at };
}

// The greater of two versions, number by number.
fn greater(one: Version, other: Version) -> Version
    ensures { result ≡ greater_of one other }
{
    Version {
        settled: one.settled.max(other.settled),
        applied: one.applied.max(other.applied),
    }
}

// The object to which an edge leads, or else this one.
#[inline(always)]
fn moved(word: Word, at: u32) -> u32
    ensures { result ≡ moved_to word at }
{
    match word {
        Word::ToPly(object) => object,
        Word::ToBalance(object) => object,
        Word::ToAdjacency(object) => object,
        Word::Drop => at,
        Word::Receive => at,
        Word::Glean(_) => at,
        Word::Plain(_) => at,
    }
}

impl<'a> WorkerSeat<'a> {
    /// The worker's number, from 0.
    pub fn number(&self) -> u32
        ensures { result ≡ self.now.worker.number }
    {
        self.number
    }

    /// The version that it knows: that of its making, or a later one.
    pub fn knows(&self) -> Version
        ensures { result ≡ self.now.worker.knows }
    {
        self.knows
    }

    /// How many passes are left to it. At first 2^63 - 1, and one less after each pass.
    pub fn passes_left(&self) -> u64
        ensures { result ≡ left_of self.now.worker.pass }
    {
        passes_left(self.pass)
    }

    /// How many claims it may still draw. At first 2^32 - 1, and one less after each claim.
    pub fn claims_left(&self) -> u32
        ensures { result ≡ claims_left_of self.now.worker }
    {
        self.left
    }

    /// Draws the next claim by one atomic addition, and answers it. Each claim is drawn once, by whichever seat.
    pub fn claim(&mut self) -> u64
        requires { MayDraw self.old.worker }
        ensures { self.new ≡ seat_claimed self.old result }
    {
        let drawn = self
            .cells
            .words
            .shared
            .fetch_add::<Claim>(&mut self.place, claim_word(), 1);
        self.left -= 1;
        drawn
    }

    /// Is told what a note of the same words says. It then knows at least that version, and what it knew.
    pub fn told(self, note: Note) -> WorkerSeat<'a>
        requires { note.id ≡ self.id }
        ensures told { result ≡ seat_told self.entry note }
        ensures least { AtLeast note.version result.worker.knows × AtLeast self.entry.worker.knows result.worker.knows }
    {
        let WorkerSeat {
            cells,
            mut place,
            number,
            pass,
            knows,
            left,
        } = self;
        let Note {
            place: other,
            version,
        } = note;
        cells.words.shared.join_seat::<Tell>(&mut place, other);
        WorkerSeat {
            cells,
            place,
            number,
            pass,
            knows: greater(knows, version),
            left,
        }
    }

    /// Starts a pass: the seat walks from object 0. It must have passes left.
    pub fn start(self) -> WalkingSeat<'a>
        requires { 0 < left_of self.worker.pass }
        ensures started { result ≡ seat_started self.entry }
        ensures sound { IsSoundTrail result.worker.objects result.worker.trail }
        ensures few { result.worker.objects ≤ 131072 }
    {
        let WorkerSeat {
            cells,
            mut place,
            number,
            pass,
            knows,
            left,
        } = self;
        cells
            .words
            .shared
            .store::<Start>(&mut place, pass_word(number), pass + 1);
        WalkingSeat {
            cells,
            place,
            number,
            pass: pass + 1,
            knows,
            left,
            at: 0,
        }
    }
}

impl<'a> WalkingSeat<'a> {
    /// The object where the seat stands.
    pub fn at(&self) -> u32
        ensures { result ≡ stands self.now.worker.trail }
    {
        self.at
    }

    /// Loads the version, which is no earlier than what the seat knew.
    #[inline(always)]
    pub fn version(&mut self) -> Version
        ensures learned { self.new ≡ seat_learned self.old result }
        ensures later { IsTold result self.old.worker.knows }
    {
        let found = self
            .cells
            .words
            .shared
            .load::<Learn>(&mut self.place, version_word());
        let version = Version::decode(found);
        self.knows = version;
        version
    }

    /// Loads the cell of that slot of the object where the seat stands. An edge that it finds moves the seat along.
    #[inline(always)]
    pub fn word(&mut self, slot: u32) -> Word
        requires { slot < 16 }
        ensures loaded { self.new ≡ seat_loaded self.old slot result }
        ensures roomy { IsRoomy result }
        ensures sound { IsSoundTrail self.new.worker.objects self.new.worker.trail }
    {
        let cell = cell_word(self.at, slot);
        let found = self.cells.words.shared.load::<Hop>(&mut self.place, cell);
        let word = Word::decode(found);
        self.at = moved(word, self.at);
        word
    }

    /// Loads a word of the adjacency on which the seat stands, the next one of a packet's walk. It is a number, so the seat stays.
    #[inline(always)]
    pub fn number(&mut self, slot: u32) -> u64
        requires slot { slot < 16 }
        requires reading { IsReading self.old.worker slot }
        ensures loaded { self.new ≡ seat_loaded self.old slot (Plain result) }
        ensures roomy { IsRoomy (Plain result) }
        ensures sound { IsSoundTrail self.new.worker.objects self.new.worker.trail }
    {
        let at = cell_word(self.at, slot);
        let found = self.cells.words.shared.load::<Hop>(&mut self.place, at);
        found % 0x0100_0000_0000_0000
    }

    /// Ends the pass. A finished trail is then one of the seat's past.
    pub fn stop(self) -> WorkerSeat<'a>
        ensures { result ≡ seat_stopped self.entry }
    {
        let WalkingSeat {
            cells,
            mut place,
            number,
            pass,
            knows,
            left,
            at: _,
        } = self;
        cells
            .words
            .shared
            .store::<Stop>(&mut place, pass_word(number), pass + 1);
        WorkerSeat {
            cells,
            place,
            number,
            pass: pass + 1,
            knows,
            left,
        }
    }
}
