// A worker at rest.
ghost use Rattle.std.specs.Prelude.{◌<◌, ◌≡◌};
ghost use Rattle.fib_core_lawful.specs.State.{left_of};
ghost use Rattle.fib_core_rule.specs.May.{MayDraw};
ghost use Rattle.fib_cells.specs.Seats.{claims_left_of, seat_claimed};
ghost use Rattle.fib_worker.specs.Passes.{HasBegun, HasForwarded};

use crate::pass::{Finished, Pass};
use crate::walk::walk;
use fib_addr::Addr;
use fib_cells::WorkerSeat;
use fib_core::{Record, Stage, Version};
use std::marker::Model;

/// A worker at rest, which forwards packets.
#[derive(Drop)]
pub struct Worker<'a> {
    seat: WorkerSeat<'a>,
}

impl<'a> Model for Worker<'a> {
    ghost use Rattle.fib_core_board.specs.Crews.{Seated};

    ghost Value = { Seated };

    ghost view = { λ w. w.seat };
}

// The address as a number of 32 bits.
fn bits_of(addr: Addr) -> u32
    ensures { result ≡ addr }
{
    addr.0
}

impl<'a> Worker<'a> {
    /// The worker of a seat.
    pub fn new(seat: WorkerSeat<'a>) -> Worker<'a>
        ensures { result ≡ seat.entry }
    {
        Worker { seat }
    }

    /// Its seat, to be told a note or brought home.
    pub fn into_seat(self) -> WorkerSeat<'a>
        ensures { result ≡ self.entry }
    {
        let Worker { seat } = self;
        seat
    }

    /// Its number, from 0.
    pub fn number(&self) -> u32
        ensures { result ≡ self.now.worker.number }
    {
        self.seat.number()
    }

    /// The version that it knows.
    pub fn knows(&self) -> Version
        ensures { result ≡ self.now.worker.knows }
    {
        self.seat.knows()
    }

    /// How many passes are left to it.
    pub fn passes_left(&self) -> u64
        ensures { result ≡ left_of self.now.worker.pass }
    {
        self.seat.passes_left()
    }

    /// How many claims it may still draw.
    pub fn claims_left(&self) -> u32
        ensures { result ≡ claims_left_of self.now.worker }
    {
        self.seat.claims_left()
    }

    /// Draws the next claim by one atomic addition. Each claim is drawn once, by whichever worker.
    pub fn claim(&mut self) -> u64
        requires { MayDraw self.old.worker }
        ensures { self.new ≡ seat_claimed self.old result }
    {
        self.seat.claim()
    }

    /// Begins a pass for a packet to `addr` with that flow hash: stores the pass word, and then loads the version. It must have passes left.
    pub fn begin(self, addr: Addr, hash: u32) -> Pass<'a>
        requires { 0 < left_of self.worker.pass }
        ensures { HasBegun addr hash self.entry result }
    {
        let Worker { seat } = self;
        let mut seat = seat.start();
        let lo = seat.version();
        // Reading it tells that an address has 32 bits.
        let _bits = bits_of(addr);
        Pass {
            seat,
            stage: Stage::first(),
            addr,
            hash,
            lo,
            hops: 0,
        }
    }

    /// A whole pass for a packet to `addr` with that flow hash. The seat's past has grown by exactly the trail whose result is answered,
    /// which follows the packet and began at no earlier version than the worker knew; it knows the answer's `hi` then.
    pub fn forward(self, addr: Addr, hash: u32) -> Finished<'a>
        requires { 0 < left_of self.worker.pass }
        ensures { HasForwarded addr hash self.entry result.worker result.result }
    {
        let Worker { seat } = self;
        let mut seat = seat.start();
        let known = seat.version();
        // Reading it tells that an address has 32 bits.
        let _bits = bits_of(addr);
        let end = walk(&mut seat, Stage::first(), addr, hash);
        let hi = seat.version();
        Finished {
            worker: Worker::new(seat.stop()),
            result: Record {
                addr,
                hash,
                lo: known,
                hi,
                end,
            },
        }
    }
}
