// Live cells that stand for the fresh tables, for tests.
ghost use Rattle.std.specs.Prelude.{◌≡◌};
ghost use Rattle.fib_cells.specs.Seats.{fresh_live, id_in};
ghost use Rattle.trial_filling.specs.inner.Filling.{IsReady, with_union};

use fib_cells::{Cells, ControlSeat, LiveBoard};
use trial_filling::fill;

/// A board of 64 objects and one worker on fresh words, filled for these tables.
pub fn filled_board<'a>(cells: &'a Cells, seat: ControlSeat) -> LiveBoard<'a>
    requires { seat ≡ fresh_live (id_in cells.now) 64 1 }
    ensures ready { IsReady result }
    ensures rest { result ≡ with_union (fresh_live result.id 64 1) result }
{
    let mut board = LiveBoard::new(cells, seat);
    fill(&mut board);
    board
}
