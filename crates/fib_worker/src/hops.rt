// One hop of a pass.
ghost use Rattle.std.specs.Prelude.{◌≡◌};
ghost use Rattle.fib_core.specs.Trails.{IsSoundTrail, place};
ghost use Rattle.fib_core.specs.Stages.{StandsAt};
ghost use Rattle.fib_worker.specs.Passes.{HasHopped};
ghost use Rattle.fib_worker.specs.inner.Runs.{IsRunning, Nears};

use fib_addr::{Addr, nibble};
use fib_cells::WalkingSeat;
use fib_core::{Stage, Word, adjacency_end, after_balance, after_ply};

/// Loads the next cell of the pass, or the three words of the adjacency where it stands.
#[inline(always)]
pub fn hop_on(seat: &mut WalkingSeat<'_>, stage: Stage, addr: Addr, hash: u32) -> Stage
    requires { IsRunning addr hash seat.old.worker stage }
    ensures words { seat.new.id ≡ seat.old.id }
    ensures hopped { HasHopped addr hash seat.old.worker seat.new.worker }
    ensures at { StandsAt hash (place seat.new.worker.trail) result }
    ensures sound { IsSoundTrail seat.new.worker.objects seat.new.worker.trail }
    ensures nears { Nears seat.old.worker seat.new.worker result }
{
    match stage {
        Stage::Ply { object: _, depth } => {
            let word = seat.word(nibble(addr, depth) as u32);
            after_ply(word, depth, hash)
        }
        Stage::Balance { object: _, left } => {
            let word = seat.word(left % 16);
            after_balance(word, left)
        }
        Stage::Adjacency { object: _ } => {
            let interface = seat.number(0);
            let hop = seat.number(1);
            let mac = seat.number(2);
            Stage::Ended(adjacency_end(Word::Plain(interface), Word::Plain(hop), Word::Plain(mac)))
        }
        Stage::Ended(end) => Stage::Ended(end),
    }
}
