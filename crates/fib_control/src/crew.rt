// Workers that leave a control plane's board and come home.
ghost use Rattle.std.specs.Prelude.{IsTrue, length, slice_index, ◌<◌, ◌↔◌, ◌≡◌};
ghost use Rattle.fib_core_lawful.specs.State.{left_of};
ghost use Rattle.fib_core_board.specs.Crews.{IsOut, MaySend, board_joined, board_sent, new_seat};
ghost use Rattle.fib_core_board.specs.Told.{IsBoard};
ghost use Rattle.fib_control.specs.Controls.{with_board};

use crate::control::Control;
use fib_core_board::{Board, Crew};

impl<B: Board> Control<B> {
    /// What holds of the board: trails that came home are right and steady, and where nobody is out the claims are the numbers from 0 on, each
    /// drawn once. Does nothing.
    pub fn tells_board(&self)
        ensures { IsBoard self.now.plane.board }
    {
        self.shared.tells();
    }

    /// How many passes are left to a worker. While the worker is out it is what it was when the worker left.
    pub fn passes_left(&self, worker: u32) -> u64
        requires { worker < self.now.plane.board.workers }
        ensures { result ≡ left_of (slice_index self.now.plane.board.rests worker) }
    {
        self.shared.passes_left(worker)
    }
}

impl<B: Crew> Control<B> {
    /// Splits a worker's seat off. It knows the version, and has as many passes left as the board tells.
    pub fn worker(&mut self, number: u32) -> B::Seat
        requires { MaySend self.old.plane.board number }
        ensures board { self.new ≡ with_board self.old (board_sent self.old.plane.board number) }
        ensures seat { B.seated result ≡ new_seat self.old.plane.board number }
    {
        self.shared.worker(number)
    }

    /// Takes a seat of these words home, with its trails and its claims.
    pub fn home(&mut self, seat: B::Seat)
        requires { (B.seated seat).id ≡ self.old.plane.board.id }
        ensures { self.new ≡ with_board self.old (board_joined self.old.plane.board (B.seated seat).worker) }
    {
        self.shared.home(seat)
    }

    /// Makes a note of the version.
    pub fn note(&mut self) -> B::Note
        ensures same { self.new ≡ self.old }
        ensures note { B.noted result ≡ record { id = self.old.plane.board.id; version = self.old.plane.board.log.version } }
    {
        self.shared.note()
    }

    /// Whether that worker is out.
    pub fn is_out(&self, number: u32) -> bool
        requires { number < self.now.plane.board.workers }
        ensures { IsTrue result ↔ IsOut self.now.plane.board number }
    {
        self.shared.is_out(number)
    }

    /// How many claims came home.
    pub fn gathered(&self) -> u64
        ensures { result ≡ length self.now.plane.board.gathered }
    {
        self.shared.gathered()
    }
}
