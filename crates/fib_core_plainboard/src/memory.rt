// What contracts see of a plain board and no run does: history, retired edges, trails. It lies in the view of the one
// seat of a one-word table.
ghost use Rattle.std.specs.Prelude.{IfOk, ◌≡◌};
ghost use mathlib.Core.Option.{some};
ghost use Rattle.fib_core_plainboard.specs.Passes.{fresh_plain};
ghost use Rattle.fib_core_plainboard.specs.inner.Sits.{aimed_at, begun_with, ended_at, hopped_at, looked_at, put_at, sent_at, settled_at};

use atomic_table::{Play, Seat, Table, TableRule};
use fib_resolve::Tables;
use std::alloc::{AllocError, Global};
use std::marker::Model;

/// What the seat knows. No value of it is made.
pub struct Known {}

impl Model for Known {
    ghost use Rattle.fib_core_board.specs.Boards.{Board};
    ghost use Rattle.fib_core_plainboard.specs.Passes.{fresh_plain};

    ghost Value = { Board };

    ghost view = { λ _. fresh_plain 0 0 };
}

/// How many objects and workers there are.
#[derive(Clone, Copy)]
pub struct Room {
    pub objects: u32,
    pub workers: u32,
}

/// Anything may be known.
pub struct Anything;

impl TableRule<Tables, Known, Room> for Anything {
    ghost use Rattle.fib_core_plainboard.specs.Passes.{fresh_plain};

    ghost holds = { λ _ _. Unit {0} };

    ghost first = { λ room. fresh_plain room.objects room.workers };
}

/// A cell and its new code.
pub struct Put;

impl Play<Tables, Known> for Put {
    ghost use Rattle.fib_core_plainboard.specs.inner.Sits.{Gives, put_at};

    ghost then = { Gives put_at };
}

/// A worker and its pass word.
pub struct Looked;

impl Play<Tables, Known> for Looked {
    ghost use Rattle.fib_core_plainboard.specs.inner.Sits.{Gives, looked_at};

    ghost then = { Gives looked_at };
}

/// The tables of the version that begins.
pub struct Begun;

impl Play<Tables, Known> for Begun {
    ghost use Rattle.fib_core_plainboard.specs.inner.Sits.{Begins};

    ghost then = { Begins };
}

pub struct Settled;

impl Play<Tables, Known> for Settled {
    ghost use Rattle.fib_core_plainboard.specs.inner.Sits.{Gives, settled_at};

    ghost then = { Gives settled_at };
}

/// A worker and an address.
pub struct Sent;

impl Play<Tables, Known> for Sent {
    ghost use Rattle.fib_core_plainboard.specs.inner.Sits.{Gives, sent_at};

    ghost then = { Gives sent_at };
}

/// A worker and a flow hash.
pub struct Aimed;

impl Play<Tables, Known> for Aimed {
    ghost use Rattle.fib_core_plainboard.specs.inner.Sits.{Gives, aimed_at};

    ghost then = { Gives aimed_at };
}

/// A worker.
pub struct Hopped;

impl Play<Tables, Known> for Hopped {
    ghost use Rattle.fib_core_plainboard.specs.inner.Sits.{Gives, hopped_at};

    ghost then = { Gives hopped_at };
}

/// A worker.
pub struct Ended;

impl Play<Tables, Known> for Ended {
    ghost use Rattle.fib_core_plainboard.specs.inner.Sits.{Gives, ended_at};

    ghost then = { Gives ended_at };
}

/// The board and its passes as they are, for proofs alone.
pub struct Memory {
    table: Table<Tables, Known, Room, Anything, Global>,
    seat: Seat<Tables, Known>,
}

// The prover follows what a drop does here, once, and not at every way out past an owner.
impl Drop for Memory {
    fn drop(self) {
        let Memory { table: _, seat: _ } = self;
    }
}

impl Model for Memory {
    ghost use Rattle.std.specs.Prelude.{[], ◌≡◌};
    ghost use Rattle.fib_core_board.specs.Boards.{Board};

    ghost Value = { Board };

    ghost view = { λ m. m.seat.me.0 };

    ghost invariant = { λ m. (m.seat.table_id ≡ m.table.shared.table_id) × (m.table.shared.table_id.words ≡ 1)
        × (m.seat.me ≡ (m.seat.me.0, [])) };
}

impl Memory {
    pub fn new(alloc: Global, room: &Room) -> Result<Memory, AllocError>
        ensures { IfOk result (λ m. m ≡ fresh_plain room.now.objects room.now.workers) }
    {
        let (table, seat) = Table::of_words(alloc, &[0], room)?;
        Ok(Memory { table, seat })
    }

    pub fn put(&mut self, cell: u64, code: u64)
        ensures { self.new ≡ put_at self.old cell code }
    {
        let table = &self.table;
        let shared = &table.shared;
        shared.compare_exchange::<Put>(&mut self.seat, 0, cell, code);
    }

    pub fn look(&mut self, worker: u64, word: u64)
        ensures { self.new ≡ looked_at self.old worker word }
    {
        let table = &self.table;
        let shared = &table.shared;
        shared.compare_exchange::<Looked>(&mut self.seat, 0, worker, word);
    }

    pub fn begin_version(&mut self, next: &Tables)
        ensures { self.new ≡ begun_with self.old (some next.now) }
    {
        let table = &self.table;
        let shared = &table.shared;
        shared.compare_exchange_with::<Begun>(&mut self.seat, 0, 0, 0, next);
    }

    pub fn settle_version(&mut self)
        ensures { self.new ≡ settled_at self.old 0 0 }
    {
        let table = &self.table;
        let shared = &table.shared;
        shared.compare_exchange::<Settled>(&mut self.seat, 0, 0, 0);
    }

    pub fn send(&mut self, worker: u64, addr: u64)
        ensures { self.new ≡ sent_at self.old worker addr }
    {
        let table = &self.table;
        let shared = &table.shared;
        shared.compare_exchange::<Sent>(&mut self.seat, 0, worker, addr);
    }

    pub fn aim(&mut self, worker: u64, hash: u64)
        ensures { self.new ≡ aimed_at self.old worker hash }
    {
        let table = &self.table;
        let shared = &table.shared;
        shared.compare_exchange::<Aimed>(&mut self.seat, 0, worker, hash);
    }

    pub fn hop(&mut self, worker: u64)
        ensures { self.new ≡ hopped_at self.old worker 0 }
    {
        let table = &self.table;
        let shared = &table.shared;
        shared.compare_exchange::<Hopped>(&mut self.seat, 0, worker, 0);
    }

    pub fn end(&mut self, worker: u64)
        ensures { self.new ≡ ended_at self.old worker 0 }
    {
        let table = &self.table;
        let shared = &table.shared;
        shared.compare_exchange::<Ended>(&mut self.seat, 0, worker, 0);
    }
}
