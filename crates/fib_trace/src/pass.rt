// A whole pass, load by load.
ghost use Rattle.std.specs.Prelude.{◌≡◌, ◌<◌, ◌≤◌, ◌+◌, [], ℕ, length};
ghost use Rattle.fib_core.specs.Trails.{IsSoundTrail, place};
ghost use Rattle.fib_core_lawful.specs.State.{left_of};
ghost use Rattle.fib_core.specs.Stages.{StandsAt};
ghost use Rattle.fib_worker.specs.Passes.{HasEnded, HasHopped};
ghost use Rattle.fib_worker.specs.inner.Runs.{IsAtItsEnd, IsOn, IsOnItsWay, IsRunning, Nears, WithTrail};
ghost use Rattle.fib_trace.specs.Traces.{HasTraced, coded};
ghost use Rattle.fib_trace.specs.inner.Loading.{HasLoaded, StaysTold};

use crate::load::Load;
use crate::trail::Trail;
use fib_addr::{Addr, nibble};
use fib_cells::{WalkingSeat, WorkerSeat};
use fib_core::{Record, Stage, Version, Word, adjacency_end, after_balance, after_ply};
use fib_resolve::End;

// One load of the object where the seat stands, which is kept.
fn load(seat: &mut WalkingSeat<'_>, slot: u32, trail: &mut Trail) -> Word
    requires slot { slot < 16 }
    requires room { length trail.old.loads < trail.old.objects + 2 }
    ensures loaded { HasLoaded seat.old slot result seat.new }
    ensures told { StaysTold seat.old trail.old seat.new trail.new }
    ensures more { length trail.new.loads ≡ length trail.old.loads + 1 }
{
    // The object is asked before the word is loaded, since an edge moves the seat along.
    let object = seat.at();
    let word = seat.word(slot);
    trail.keep(Load { object, slot, word });
    word
}

// The next load of the pass, or the three of an adjacency.
fn hop(seat: &mut WalkingSeat<'_>, stage: Stage, addr: Addr, hash: u32, trail: &mut Trail) -> Stage
    requires running { IsRunning addr hash seat.old.worker stage }
    requires room { length trail.old.loads < trail.old.objects }
    ensures words { seat.new.id ≡ seat.old.id }
    ensures hopped { HasHopped addr hash seat.old.worker seat.new.worker }
    ensures at { StandsAt hash (place seat.new.worker.trail) result }
    ensures sound { IsSoundTrail seat.new.worker.objects seat.new.worker.trail }
    ensures nears { Nears seat.old.worker seat.new.worker result }
    ensures told { StaysTold seat.old trail.old seat.new trail.new }
    ensures one { IsOn result → length trail.new.loads ≡ length trail.old.loads + 1 }
{
    match stage {
        Stage::Ply { object: _, depth } => {
            let word = load(seat, nibble(addr, depth) as u32, trail);
            after_ply(word, depth, hash)
        }
        Stage::Balance { object: _, left } => {
            let word = load(seat, left % 16, trail);
            after_balance(word, left)
        }
        Stage::Adjacency { object: _ } => {
            let interface = load(seat, 0, trail);
            let next_hop = load(seat, 1, trail);
            let mac = load(seat, 2, trail);
            Stage::Ended(adjacency_end(interface, next_hop, mac))
        }
        Stage::Ended(end) => Stage::Ended(end),
    }
}

// Hops to the end. A pass that goes on has kept a load for each hop, of which there are fewer than objects: so there is room for an adjacency's three.
fn run(
    seat: &mut WalkingSeat<'_>,
    stage: Stage,
    addr: Addr,
    hash: u32,
    lo: Version,
    trail: &mut Trail,
) -> End
    requires way { IsOnItsWay addr hash seat.old.worker stage lo 0 }
    requires none { trail.old.loads ≡ [] }
    requires start { seat.old.worker.trail ≡ [] }
    requires room { seat.old.worker.objects ≤ trail.old.objects }
    ensures words { seat.new.id ≡ seat.old.id }
    ensures known { WithTrail seat.old.worker seat.new.worker }
    ensures end { (n : ℕ) × IsAtItsEnd addr hash seat.new.worker result lo n }
    ensures told { seat.new.worker.trail ≡ coded trail.new.loads }
    ensures same { trail.new.objects ≡ trail.old.objects }
{
    let mut stage = stage;
    loop {
        stage = hop(seat, stage, addr, hash, trail);
        if let Stage::Ended(end) = stage {
            return end;
        }
    }
}

// Loads the version and ends the pass.
fn finish<'a>(
    seat: WalkingSeat<'a>,
    end: End,
    addr: Addr,
    hash: u32,
    lo: Version,
) -> (WorkerSeat<'a>, Record)
    requires { (n : ℕ) × IsAtItsEnd addr hash seat.worker end lo n }
    ensures { HasEnded (record { seat = seat.entry; addr = addr; hash = hash; lo = lo; hops = 0 }) result.0 result.1 }
{
    let mut seat = seat;
    let hi = seat.version();
    let answer = Record {
        addr,
        hash,
        lo,
        hi,
        end,
    };
    (seat.stop(), answer)
}

// The address as a number of 32 bits.
fn bits_of(addr: Addr) -> u32
    ensures { result ≡ addr }
{
    addr.0
}

/// A whole pass for a packet to `addr` with that flow hash, whose loads the trail then tells. It takes no memory and waits for nobody.
///
/// The seat's past has grown by exactly one trail. It follows the packet, its loads are those that are told, it began at no earlier version than
/// the seat knew, and its result is the answer. The seat must have passes left, and the trail must have room for as many objects as
/// there are; what it told before is forgotten.
pub fn trace<'a>(
    seat: WorkerSeat<'a>,
    addr: Addr,
    hash: u32,
    trail: &mut Trail,
) -> (WorkerSeat<'a>, Record)
    requires left { 0 < left_of seat.worker.pass }
    requires room { seat.worker.objects ≤ trail.old.objects }
    ensures traced { HasTraced addr hash seat.entry result.0 result.1 trail.new.loads }
    ensures same { trail.new.objects ≡ trail.old.objects }
{
    let mut seat = seat.start();
    let lo = seat.version();
    // Reading it tells that an address has 32 bits.
    let _bits = bits_of(addr);
    trail.clear();
    let end = run(&mut seat, Stage::first(), addr, hash, lo, trail);
    finish(seat, end, addr, hash, lo)
}
