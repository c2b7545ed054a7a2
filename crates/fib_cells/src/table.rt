// The table, and what its steps tell the seat that makes them.
use atomic_table::{Join, Play, Seat, Split, Table, TableRule};
use fib_resolve::Tables;
use std::alloc::Global;
use std::marker::Model;

/// What a seat knows. No value of it is made.
pub struct Known {}

impl Model for Known {
    ghost use Rattle.fib_core_lawful.specs.State.{View, spent};

    ghost Value = { View };

    ghost view = { λ _. spent };
}

/// How many objects and workers there are.
#[derive(Clone, Copy)]
pub struct Room {
    pub objects: u32,
    pub workers: u32,
}

/// The rule of the shared words.
pub struct Lawful;

impl TableRule<Tables, Known, Room> for Lawful {
    ghost use Rattle.fib_core_lawful.specs.State.{control, first_control};
    ghost use Rattle.fib_core_rule.specs.Rule.{IsLawful};

    ghost holds = { λ room s. IsLawful room.objects s.words s.views };

    ghost first = { λ room. control (first_control room.objects room.workers) };
}

pub type Words = Table<Tables, Known, Room, Lawful, Global>;

pub type Place = Seat<Tables, Known>;

/// Event 1: an odd pass word is stored.
pub struct Start;

impl Play<Tables, Known> for Start {
    ghost use Rattle.fib_cells.specs.inner.Told.{Starts};

    ghost then = { Starts };
}

/// Event 2: the version is loaded by a worker.
pub struct Learn;

impl Play<Tables, Known> for Learn {
    ghost use Rattle.fib_cells.specs.inner.Told.{Learns};

    ghost then = { Learns };
}

/// Event 3: a cell is loaded.
pub struct Hop;

impl Play<Tables, Known> for Hop {
    ghost use Rattle.fib_cells.specs.inner.Told.{Hops};

    ghost then = { Hops };
}

/// Event 4: an even pass word is stored.
pub struct Stop;

impl Play<Tables, Known> for Stop {
    ghost use Rattle.fib_cells.specs.inner.Told.{Stops};

    ghost then = { Stops };
}

/// Event 5: a cell is stored.
pub struct Store;

impl Play<Tables, Known> for Store {
    ghost use Rattle.fib_cells.specs.inner.Told.{Stores};

    ghost then = { Stores };
}

/// Event 6: a version begins. Its tables are said.
pub struct Begin;

impl Play<Tables, Known> for Begin {
    ghost use Rattle.fib_cells.specs.inner.Told.{Begins};

    ghost then = { Begins };
}

/// Event 6: the version is settled.
pub struct Settle;

impl Play<Tables, Known> for Settle {
    ghost use Rattle.fib_cells.specs.inner.Told.{Settles};

    ghost then = { Settles };
}

/// Event 7: a pass word is loaded by the control plane.
pub struct Look;

impl Play<Tables, Known> for Look {
    ghost use Rattle.fib_cells.specs.inner.Told.{Looks};

    ghost then = { Looks };
}

/// Event 8: a number is picked.
pub struct Pick;

impl Play<Tables, Known> for Pick {
    ghost use Rattle.fib_cells.specs.inner.Told.{Picks};

    ghost then = { Picks };
}

/// A load by the control plane that changes nothing it knows, and tells what the rule says of that.
pub struct Recall;

impl Play<Tables, Known> for Recall {
    ghost use Rattle.fib_cells.specs.inner.Told.{Recalls};

    ghost then = { Recalls };
}

/// Event 9: a worker's seat is split off.
pub struct SendOut;

impl Split<Known> for SendOut {
    ghost use Rattle.fib_cells.specs.inner.Told.{left_at_home, sent_out};

    ghost left = { left_at_home };

    ghost right = { sent_out };
}

/// Event 10: a note is split off.
pub struct MakeNote;

impl Split<Known> for MakeNote {
    ghost use Rattle.fib_cells.specs.inner.Told.{noted_by, noted_on};

    ghost left = { noted_by };

    ghost right = { noted_on };
}

/// Event 11: a note is joined into a worker's seat.
pub struct Tell;

impl Join<Known> for Tell {
    ghost use Rattle.fib_core_lawful.specs.State.{spent};
    ghost use Rattle.fib_cells.specs.inner.Told.{told_of};

    ghost both = { told_of };

    ghost spent = { spent };
}

/// Event 12: a worker's seat is joined into the control plane's.
pub struct BringHome;

impl Join<Known> for BringHome {
    ghost use Rattle.fib_core_lawful.specs.State.{spent};
    ghost use Rattle.fib_cells.specs.inner.Told.{both_of};

    ghost both = { both_of };

    ghost spent = { spent };
}

/// Event 13: one is added to the claim word.
pub struct Claim;

impl Play<Tables, Known> for Claim {
    ghost use Rattle.fib_cells.specs.inner.Told.{Draws};

    ghost then = { Draws };
}
