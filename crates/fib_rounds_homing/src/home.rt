// The workers come home.
ghost use Rattle.std.specs.Prelude.{◌≡◌, ◌<◌, ◌≤◌, ◌+◌, ◌*◌, ◌++◌, ◌&&◌, [], ℕ, length, true, false, slice_index, slice_index_or, slice_set, Some};
ghost use Rattle.std.specs.List.{AllByRecursion};
ghost use Rattle.fib_core_lawful.specs.State.{left_of};
ghost use Rattle.fib_core_board.specs.Crews.{Seated, board_joined};
ghost use Rattle.fib_control.specs.Controls.{with_board};
ghost use Rattle.fib_worker_crew.specs.Claims.{IsDrawnOnce};
ghost use Rattle.fib_worker_crew.specs.Taking.{frames_taken, packets_taken};
ghost use Rattle.fib_worker_crew.specs.declared.claims.Frame.{Frame as FrameValue};
ghost use Rattle.fib_rounds_homing.specs.Homes.{IsHomeFrom, NoneOut, but_crew};
ghost use Rattle.fib_rounds_homing.specs.Places.{placed};
ghost use Rattle.fib_rounds_homing.specs.Stations.{AreBackFrom, all_done, pasts_of, rests_of};
ghost use Rattle.fib_rounds_homing.specs.inner.Coming.{IsComing, IsOf};

use crate::station::Station;
use fib_capture::Capture;
use fib_cells::LiveBoard;
use fib_control::Control;
use fib_worker_crew::{Frame, Results, Taken};

// Puts results into their place.
fn put_at(places: &mut [Option<Results>], number: u32, results: Results)
    requires { number < length places.old }
    ensures { places.new ≡ slice_set places.old number (Some results) }
{
    places[number as usize] = Some(results);
}

// Puts the results of frames into their places.
fn put_frames(places: &mut [Option<Results>], list: Vec<Frame>)
    requires { AllByRecursion (λ (f : FrameValue). f.number < length places.old) list.items }
    ensures { places.new ≡ placed places.old list.items }
{
    for frame in list {
        let Frame { number, results } = frame;
        put_at(places, number, results);
    }
}

// A station's worker comes home. Answers whether it came to the round's end; then its results are in their places.
fn come_one<'a>(
    control: &mut Control<LiveBoard<'a>>,
    station: Station<'a>,
    places: &mut [Option<Results>],
) -> bool
    requires of { IsOf control.old.plane.board.id station.worker }
    requires inside { station.done ≡ true → AllByRecursion (λ (f : FrameValue). f.number < length places.old) station.frames.items }
    ensures home { (w : Seated) → station.entry.worker ≡ Some w → control.new
        ≡ with_board control.old (board_joined control.old.plane.board w.worker) }
    ensures ended { result ≡ station.entry.done }
    ensures places { result ≡ true → places.new ≡ placed places.old station.entry.frames.items }
    ensures long { length places.new ≡ length places.old }
{
    let Station {
        worker,
        frames,
        done,
    } = station;
    if let Some(worker) = worker {
        control.home(worker.into_seat());
    }
    if !done {
        return false;
    }
    put_frames(places, frames);
    true
}

fn both(a: bool, b: bool) -> bool
    ensures { result ≡ (a && b) }
{
    a && b
}

// One after the other. Answers whether each came to the round's end.
fn come_home<'a>(
    control: &mut Control<LiveBoard<'a>>,
    crew: Vec<Station<'a>>,
    packets: &Capture,
    taken: Taken,
    places: &mut [Option<Results>],
) -> bool
    requires back { AreBackFrom packets.now taken control.old.plane.board crew.items }
    requires others { (n : ℕ) → length crew.items ≤ n → slice_index_or control.old.plane.board.out n false ≡ false }
    requires places { length places.old ≡ frames_taken packets.now taken }
    ensures same { control.new ≡ with_board control.old control.new.plane.board }
    ensures trails { control.new.plane.board.trails ≡ control.old.plane.board.trails ++ pasts_of crew.entry.items }
    ensures rests { control.new.plane.board.rests ≡ rests_of control.old.plane.board.rests crew.entry.items }
    ensures ended { result ≡ all_done crew.entry.items }
    ensures come { IsComing taken.opened taken.first taken.base (length crew.entry.items)
        (packets_taken packets.now taken) control.old.plane.board control.new.plane.board places.old places.new result [] }
{
    // Only clauses name the packets, and what the round took of them.
    let _packets = packets;
    let _taken = taken;
    let mut done = true;
    for station in crew {
        let came = come_one(control, station, places);
        done = both(done, came);
    }
    done
}

/// The workers of a round come home in their numbers' order, and the results of their frames are put into their places. Answers true exactly where each
/// came to the round's end.
///
/// There is a place a frame. Nobody else may be out. The board gains the trails that the workers have behind them, in their numbers' order, and takes their
/// pass words as they are. Where each came to its end and all claims before the round were drawn once, the places have the results of all flows, each once
/// and in packet order, right and steady over the history as it is.
pub fn bring_home<'a>(
    control: &mut Control<LiveBoard<'a>>,
    crew: Vec<Station<'a>>,
    packets: &Capture,
    taken: Taken,
    places: &mut [Option<Results>],
) -> bool
    requires back { AreBackFrom packets.now taken control.old.plane.board crew.items }
    requires others { (n : ℕ) → length crew.items ≤ n → slice_index_or control.old.plane.board.out n false ≡ false }
    requires places { length places.old ≡ frames_taken packets.now taken }
    requires some { 0 < length crew.items }
    requires any { 0 < length (packets_taken packets.now taken) }
    requires base { taken.base ≡ length control.old.plane.board.gathered }
    requires drawn { IsDrawnOnce control.old.plane.board.gathered }
    ensures same { control.new ≡ with_board control.old control.new.plane.board }
    ensures keeps { but_crew control.new.plane.board ≡ but_crew control.old.plane.board }
    ensures trails { control.new.plane.board.trails ≡ control.old.plane.board.trails ++ pasts_of crew.entry.items }
    ensures rests { control.new.plane.board.rests ≡ rests_of control.old.plane.board.rests crew.entry.items }
    ensures ended { result ≡ all_done crew.entry.items }
    ensures none { NoneOut control.new.plane.board }
    ensures drawn { IsDrawnOnce control.new.plane.board.gathered }
    ensures home { result ≡ true → IsHomeFrom packets.now taken
        (length crew.entry.items) control.old.plane.board control.new.plane.board places.new }
    ensures passes { result ≡ true → (n : ℕ) → left_of (slice_index control.old.plane.board.rests n) ≤ left_of
        (slice_index control.new.plane.board.rests n) + 256 * (frames_taken packets.now taken + 1) }
    ensures long { length places.new ≡ length places.old }
{
    let done = come_home(control, crew, packets, taken, places);
    control.tells_board();
    done
}
