// Boards whose workers leave and come home.
ghost use Rattle.std.specs.Prelude.{ℕ, IsTrue, length, ◌<◌, ◌≡◌, ◌↔◌};
ghost use Rattle.fib_core_board.specs.Crews.{IsOut, MaySend, Noted, Seated, board_joined, board_sent, new_seat};

use crate::board::Board;

/// A board from which workers' seats are split off, and which takes them home.
pub trait Crew: Board {
    /// A worker's seat at rest.
    type Seat;

    /// What tells a seat the version.
    type Note;

    /// What contracts see of a seat.
    ghost seated: { Self.Seat → Seated };

    /// And of a note.
    ghost noted: { Self.Note → Noted };

    /// Splits a worker's seat off. It knows the version, and has as many passes left as the board tells.
    fn worker(&mut self, number: u32) -> Self::Seat
        requires { MaySend (Self.view self.old) number }
        ensures board { Self.view self.new ≡ board_sent (Self.view self.old) number }
        ensures seat { seated result ≡ new_seat (Self.view self.old) number };

    /// Takes a seat of these words home, with its trails and its claims.
    fn home(&mut self, seat: Self::Seat)
        requires { (seated seat).id ≡ (Self.view self.old).id }
        ensures { Self.view self.new ≡ board_joined (Self.view self.old) (seated seat).worker };

    /// Makes a note of the version.
    fn note(&mut self) -> Self::Note
        ensures board { Self.view self.new ≡ Self.view self.old }
        ensures note { noted result ≡ record { id = (Self.view self.old).id; version = (Self.view self.old).log.version } };

    /// Whether that worker is out.
    fn is_out(&self, number: u32) -> bool
        requires { number < (Self.view self.now).workers }
        ensures { IsTrue result ↔ IsOut (Self.view self.now) number };

    /// How many claims came home. A seat leaves only while it is below 2^60.
    fn gathered(&self) -> u64
        ensures { result ≡ length (Self.view self.now).gathered };
}
