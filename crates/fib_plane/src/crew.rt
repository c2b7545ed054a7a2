// Workers that leave a plane's board and come home.
ghost use Rattle.std.specs.Prelude.{IsTrue, length, ◌<◌, ◌↔◌, ◌≡◌};
ghost use Rattle.fib_core_board.specs.Crews.{IsOut, MaySend, board_joined, board_sent, new_seat};

use crate::plane::Plane;
use fib_core_board::Crew;

impl<B: Crew> Plane<B> {
    /// Splits a worker's seat off. It knows the version, and has as many passes left as the board tells.
    pub fn worker(&mut self, number: u32) -> B::Seat
        requires { MaySend self.old.plane.board number }
        ensures plane { self.new.plane ≡ record self.old.plane { board = board_sent self.old.plane.board number } }
        ensures seat { B.seated result ≡ new_seat self.old.plane.board number }
    {
        self.board.worker(number)
    }

    /// Takes a seat of these words home, with its trails and its claims.
    pub fn home(&mut self, seat: B::Seat)
        requires { (B.seated seat).id ≡ self.old.plane.board.id }
        ensures { self.new.plane ≡ record self.old.plane { board = board_joined self.old.plane.board (B.seated seat).worker } }
    {
        self.board.home(seat)
    }

    /// Makes a note of the version.
    pub fn note(&mut self) -> B::Note
        ensures plane { self.new.plane ≡ self.old.plane }
        ensures note { B.noted result ≡ record { id = self.old.plane.board.id; version = self.old.plane.board.log.version } }
    {
        self.board.note()
    }

    /// Whether that worker is out.
    pub fn is_out(&self, number: u32) -> bool
        requires { number < self.now.plane.board.workers }
        ensures { IsTrue result ↔ IsOut self.now.plane.board number }
    {
        self.board.is_out(number)
    }

    /// How many claims came home.
    pub fn gathered(&self) -> u64
        ensures { result ≡ length self.now.plane.board.gathered }
    {
        self.board.gathered()
    }
}
