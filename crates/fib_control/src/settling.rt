// Settling beside workers that are out.
ghost use Rattle.std.specs.Prelude.{IfOk, OnOk, ◌≡◌};
ghost use Rattle.fib_control.specs.Controls.{IsQuiet, Takes, but_settled};
ghost use Rattle.fib_control.specs.Turning.{HaveTurned};

use crate::control::Control;
use fib_core_board::Board;
use std::alloc::AllocError;
use std::sync::Wait;

impl<B: Board> Control<B> {
    /// Settles the last version beside whatever passes run, and answers its number: turns until nothing is queued, then scans and retries until
    /// nothing waits any more. A pass that doesn't end may keep a copy of an edge, and then this doesn't return. After want of memory the turns
    /// that were done stand.
    pub fn settle<R: Wait>(&mut self, rt: &R) -> Result<u32, AllocError>
        ensures quiet { OnOk result (IsQuiet self.new) }
        ensures version { IfOk result (λ n. (n ≡ self.old.plane.board.log.version.applied)
            × (self.new.plane.board.log.version.settled ≡ n)) }
        ensures tables { self.new.setup ≡ self.old.setup }
        ensures entries { self.new.entries ≡ self.old.entries }
        ensures board { but_settled self.new.plane.board ≡ but_settled self.old.plane.board }
        ensures takes { Takes self.old self.new }
        ensures turned { HaveTurned self.old self.new }
    {
        self.walk()?;
        'tries: for _ in rt.forever() {
            self.scan();
            self.retry();
            if let Ok(version) = self.mark_settled() {
                return Ok(version);
            }
        }
        unreachable!()
    }
}
