// A pass, hop by hop.
ghost use Rattle.std.specs.Prelude.{◌<◌, ◌≡◌, ◌≤◌};
ghost use Rattle.fib_worker.specs.Passes.{HasEnded};

use crate::worker::Worker;
use fib_addr::Addr;
use fib_cells::WalkingSeat;
use fib_core::{Record, Stage, Version};
use fib_resolve::End;
use std::marker::Model;

/// A pass on its way. It must be spent.
pub struct Pass<'a> {
    pub(crate) seat: WalkingSeat<'a>,
    pub(crate) stage: Stage,
    pub(crate) addr: Addr,
    pub(crate) hash: u32,
    pub(crate) lo: Version,
    pub(crate) hops: u32,
}

impl<'a> Model for Pass<'a> {
    ghost use Rattle.fib_worker.specs.Passes.{Passing};
    ghost use Rattle.fib_worker.specs.inner.Runs.{IsOnItsWay};

    ghost Value = { Passing };

    ghost view = { λ p. record { seat = p.seat; addr = p.addr; hash = p.hash; lo = p.lo; hops = p.hops } };

    ghost invariant = { λ p. IsOnItsWay p.addr p.hash p.seat.worker p.stage p.lo p.hops };
}

/// A pass that has its end. It must be spent.
pub struct Done<'a> {
    pub(crate) seat: WalkingSeat<'a>,
    pub(crate) end: End,
    pub(crate) addr: Addr,
    pub(crate) hash: u32,
    pub(crate) lo: Version,
    pub(crate) hops: u32,
}

impl<'a> Model for Done<'a> {
    ghost use Rattle.fib_worker.specs.Passes.{Passing};
    ghost use Rattle.fib_worker.specs.inner.Runs.{IsAtItsEnd};

    ghost Value = { Passing };

    ghost view = { λ d. record { seat = d.seat; addr = d.addr; hash = d.hash; lo = d.lo; hops = d.hops } };

    ghost invariant = { λ d. IsAtItsEnd d.addr d.hash d.seat.worker d.end d.lo d.hops };
}

/// A worker at rest again, and the answer of its last pass.
pub struct Finished<'a> {
    pub worker: Worker<'a>,
    pub result: Record,
}

impl<'a> Pass<'a> {
    /// The hops since the pass began, an adjacency's three words being one. They are fewer than the objects.
    pub fn hops(&self) -> u32
        ensures hops { result ≡ self.now.hops }
        ensures few { result < self.now.seat.worker.objects }
    {
        self.hops
    }
}

impl<'a> Done<'a> {
    /// The hops of the pass, at most as many as there are objects.
    pub fn hops(&self) -> u32
        ensures hops { result ≡ self.now.hops }
        ensures few { result ≤ self.now.seat.worker.objects }
    {
        self.hops
    }

    /// Loads the version and ends the pass. The seat's past has grown by the pass's trail, whose result is answered.
    pub fn end(self) -> Finished<'a>
        ensures { HasEnded self.entry result.worker result.result }
    {
        let Done {
            mut seat,
            end,
            addr,
            hash,
            lo,
            hops: _,
        } = self;
        let hi = seat.version();
        let worker = Worker::new(seat.stop());
        let result = Record {
            addr,
            hash,
            lo,
            hi,
            end,
        };
        Finished { worker, result }
    }
}
