// Passes on a plane over a plain board.
ghost use Rattle.std.specs.Prelude.{◌≡◌};
ghost use Rattle.std.proofs.Common.{ap};

use crate::counted::Counted;
use crate::plane::Plane;
use fib_addr::Addr;
use fib_core::Record;
use fib_core_plainboard::{Passes, PlainBoard};
use fib_resolve::End;

impl Passes for Counted<PlainBoard> {
    ghost board = { λ b. b };

    ghost is_with = { λ b next c. c ≡ next };

    fn begin(&mut self, worker: u32, addr: Addr, hash: u32) {
        self.board.begin(worker, addr, hash)
    }

    fn hop(&mut self, worker: u32) -> Option<End> {
        self.board.hop(worker)
    }

    fn end(&mut self, worker: u32) -> Record {
        self.board.end(worker)
    }

    fn running(&self, worker: u32) -> bool {
        self.board.running(worker)
    }

    fn tells_of_passes(&self) {
        self.board.tells_of_passes()
    }

    ghost boarded = { λ b c next same. same };
}

impl Passes for Plane<PlainBoard> {
    ghost board = { λ p. p.plane.board };

    ghost is_with = { λ p next q. q.plane ≡ record p.plane { board = next } };

    fn begin(&mut self, worker: u32, addr: Addr, hash: u32) {
        self.board.begin(worker, addr, hash)
    }

    fn hop(&mut self, worker: u32) -> Option<End> {
        self.board.hop(worker)
    }

    fn end(&mut self, worker: u32) -> Record {
        self.board.end(worker)
    }

    fn running(&self, worker: u32) -> bool {
        self.board.running(worker)
    }

    fn tells_of_passes(&self) {
        self.board.tells_of_passes()
    }

    ghost boarded = { λ p q next same. ap (λ x. x.board) same };
}
