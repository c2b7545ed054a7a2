// Passes beneath a control plane over a plain board, each step of which is a call.
ghost use Rattle.std.specs.Prelude.{◌≡◌};
ghost use Rattle.std.proofs.Common.{ap};
ghost use Rattle.fib_control.specs.Controls.{with_board};

use crate::control::Control;
use fib_addr::Addr;
use fib_core::Record;
use fib_core_plainboard::{Passes, PlainBoard};
use fib_resolve::End;

impl Passes for Control<PlainBoard> {
    ghost board = { λ k. k.plane.board };

    ghost is_with = { λ k next l. l ≡ with_board k next };

    fn begin(&mut self, worker: u32, addr: Addr, hash: u32) {
        self.shared.begin(worker, addr, hash)
    }

    fn hop(&mut self, worker: u32) -> Option<End> {
        self.shared.hop(worker)
    }

    fn end(&mut self, worker: u32) -> Record {
        self.shared.end(worker)
    }

    fn running(&self, worker: u32) -> bool {
        self.shared.running(worker)
    }

    fn tells_of_passes(&self) {
        self.shared.tells_of_passes()
    }

    ghost boarded = { λ k l next same. ap (λ x. x.plane.board) same };
}
