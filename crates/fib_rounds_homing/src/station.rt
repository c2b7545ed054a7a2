// The workers of a round, each in a thread of its own.
ghost use Rattle.std.specs.Prelude.{◌≡◌, ◌<◌, ◌≤◌, ◌+◌, ◌*◌, ◌^◌, [], ℕ, All, length, false, slice_index, slice_index_or, vec_capacity};
ghost use Rattle.fib_core_results.specs.Trails.{AtLeast, version_at};
ghost use Rattle.fib_core_lawful.specs.State.{left_of};
ghost use Rattle.fib_core_board.specs.Boards.{Board};
ghost use Rattle.fib_core_board.specs.Crews.{MaySend, board_sent};
ghost use Rattle.fib_control.specs.Controls.{with_board};
ghost use Rattle.fib_worker_crew.specs.Claims.{IsDrawnOnce};
ghost use Rattle.fib_rounds_homing.specs.Homes.{NoneOut, but_out};
ghost use Rattle.fib_rounds_homing.specs.Stations.{AreBackFrom, HasDoneFor, IsCrew, IsMustered, IsReady, IsReadyFor};
ghost use Rattle.fib_rounds_homing.specs.declared.station.Station.{Station as StationValue};

use fib_capture::Capture;
use fib_cells::LiveBoard;
use fib_control::Control;
use fib_outside::Gate;
use fib_worker::Worker;
use fib_worker_crew::{Frame, Taken, Worked, work};
use std::alloc::Global;
use std::thread::{Threads, for_each_mut};

/// A worker, the frames that it forwarded, and whether it came to the round's end.
#[derive(Drop)]
pub struct Station<'a> {
    pub worker: Option<Worker<'a>>,
    pub frames: Vec<Frame>,
    pub done: bool,
}

/// A station's worker works: it claims frames of the round and forwards them. The station must have a worker that may work at the round.
pub fn work_at<'a, G: Gate>(
    alloc: Global,
    packets: &Capture,
    taken: Taken,
    gate: &G,
    station: &mut Station<'a>,
)
    requires order { taken.first ≤ taken.to }
    requires inside { taken.to ≤ length packets.now.packets }
    requires ready { IsReadyFor packets.now taken station.old }
    ensures { HasDoneFor packets.now taken station.old station.new }
{
    if let Some(worker) = station.worker.take() {
        let Worked {
            worker,
            frames,
            done,
        } = work(alloc, packets, taken, gate, worker);
        station.worker = Some(worker);
        station.frames = frames;
        station.done = done;
    }
}

// Each in a thread of its own.
fn work_all<'a, R: Threads + Sync, G: Gate>(
    rt: &R,
    alloc: Global,
    packets: &Capture,
    taken: Taken,
    gate: &G,
    crew: &mut [Station<'a>],
)
    requires order { taken.first ≤ taken.to }
    requires inside { taken.to ≤ length packets.now.packets }
    requires ready { All (IsReadyFor packets.now taken) crew.old }
    ensures long { length crew.new ≡ length crew.old }
    ensures each { (i : ℕ) (d : StationValue) → i < length crew.old
        → HasDoneFor packets.now taken (slice_index_or crew.old i d)
        (slice_index_or crew.new i d) }
{
    for_each_mut(
        rt,
        crew,
        8,
        &|_, station: &mut Station| -> ()
            requires { (taken.first ≤ taken.to) × (taken.to ≤ length packets.now.packets)
                × IsReadyFor packets.now taken station.now }
            ensures { HasDoneFor packets.entry.now taken station.entry.now station.exit.now }
        { work_at(alloc, packets, taken, gate, station) },
    );
}

/// Each worker works in a thread of its own. Each station must have a worker that may work at the round. A worker makes a pass for each flow of the
/// frames that it forwards and no other, and loads the version twice a pass (`HasPassed`).
pub fn forward_all<'a, R: Threads + Sync, G: Gate>(
    rt: &R,
    alloc: Global,
    packets: &Capture,
    taken: Taken,
    gate: &G,
    crew: &mut Vec<Station<'a>>,
)
    requires order { taken.first ≤ taken.to }
    requires inside { taken.to ≤ length packets.now.packets }
    requires ready { All (IsReadyFor packets.now taken) crew.old.items }
    ensures long { length crew.new.items ≡ length crew.old.items }
    ensures back { (b : Board) → IsCrew b 0 crew.old.items → AreBackFrom packets.now taken b crew.new.items }
{
    work_all(rt, alloc, packets, taken, gate, crew.as_mut_slice());
}

// A station whose worker leaves with that number.
fn mustered<'a>(alloc: Global, control: &mut Control<LiveBoard<'a>>, number: u32) -> Station<'a>
    requires { MaySend control.old.plane.board number }
    ensures control { control.new ≡ with_board control.old (board_sent control.old.plane.board number) }
    ensures station { IsMustered control.old.plane.board number result }
{
    Station {
        worker: Some(Worker::new(control.worker(number))),
        frames: Vec::new(alloc),
        done: false,
    }
}

/// Sends out so many workers, into a vector that has room for them. Takes no memory.
///
/// Nobody may be out before, and the board has so many workers. Each worker may work then at a round that opened at no later version than the board's,
/// of so many frames that it has passes for.
pub fn send_out<'a>(
    alloc: Global,
    control: &mut Control<LiveBoard<'a>>,
    workers: u32,
    crew: &mut Vec<Station<'a>>,
)
    requires home { NoneOut control.old.plane.board }
    requires few { length control.old.plane.board.gathered < 2 ^ 60 }
    requires some { workers ≤ control.old.plane.board.workers }
    requires none { crew.old.items ≡ [] }
    requires room { workers ≤ vec_capacity crew.old }
    ensures crew { IsCrew control.old.plane.board 0 crew.new.items }
    ensures all { length crew.new.items ≡ workers }
    ensures same { control.new ≡ with_board control.old control.new.plane.board }
    ensures sent { but_out control.new.plane.board ≡ but_out control.old.plane.board }
    ensures others { (n : ℕ) → workers ≤ n → slice_index_or control.new.plane.board.out n false ≡ false }
    ensures drawn { IsDrawnOnce control.old.plane.board.gathered }
    ensures ready { (k count : ℕ) → AtLeast (version_at k) control.old.plane.board.log.version
        → ((n : ℕ) → n < workers → 256 * (count + 1) ≤ left_of (slice_index control.old.plane.board.rests n)) → count < 2 ^ 31
        → All (IsReady k count) crew.new.items }
{
    control.tells_board();
    for number in 0..workers {
        let station = mustered(alloc, control, number);
        crew.push_reserved(station);
    }
}
