// A worker over fresh cells claims the frames of a round, on one thread.
ghost use Rattle.std.specs.Prelude.{◌≡◌, ◌<◌, IfOk, length};
ghost use Rattle.fib_worker_crew.specs.Work.{MayWork};

use crate::expect::{holds, same};
use fib_addr::Addr;
use fib_capture::{Capture, Packet};
use fib_cells::{Cells, LiveBoard};
use fib_core::Version;
use fib_core_board::{Board, Crew};
use fib_outside::FreeGate;
use fib_resolve::End;
use fib_worker::Worker;
use fib_worker_crew::{Frame, Results, Taken, Worked, forward_span, work};
use std::alloc::Global;
use std::test::Fail;

// Flows with the hashes from 0 on, so many.
fn flows(alloc: Global, count: u32) -> Result<Capture, Fail>
    requires { count < 1000 }
    ensures { IfOk result (λ c. length c.packets ≡ count) }
{
    let mut packets = Vec::new(alloc);
    for hash in 0..count {
        packets.push(Packet::Flow {
            addr: Addr(0x0a00_0001),
            hash,
        })?;
    }
    Ok(Capture::of_flows(packets))
}

// All of the 300 packets of a first round.
const ROUND: Taken = Taken {
    opened: 0,
    first: 0,
    to: 300,
    base: 0,
};

fn through<'a>(alloc: Global, packets: &Capture, worker: Worker<'a>) -> Worked<'a>
    requires all { length packets.now.packets ≡ 300 }
    requires may { MayWork 0 2 worker }
    ensures { result.worker.id ≡ worker.entry.id }
{
    work(alloc, packets, ROUND, &FreeGate, worker)
}

// Whether a frame's flow has that number and its own as hash, and was dropped over fresh cells.
fn is_dropped(frames: &[Frame], number: usize, place: usize, packet: u32) -> Result<bool, Fail> {
    let Some(frame) = frames.get(number) else {
        return Err("no such frame".into());
    };
    match frame.results.list().get(place) {
        Some((at, answer)) => Ok(
            *at == packet
                && answer.hash == packet
                && answer.end == End::Drop
                && answer.lo == Version::settled_at(0),
        ),
        None => Err("no such result".into()),
    }
}

#[test]
fn a_worker_claims_two_frames(rt: HostRuntime) -> Result<(), Fail> {
    let packets = flows(rt.alloc(), 300)?;
    let (cells, seat) = Cells::new(rt.alloc(), 64, 1)?;
    let mut board = LiveBoard::new(&cells, seat);
    same(&rt, ROUND.frames(), 2);
    let worker = Worker::new(board.worker(0));
    let Worked {
        worker,
        frames,
        done,
    } = through(rt.alloc(), &packets, worker);
    board.home(worker.into_seat());
    holds(&rt, done);
    same(&rt, frames.len(), 2);
    same(&rt, board.gathered(), 3);
    holds(&rt, is_dropped(&frames, 1, 43, 299)?);
    Ok(())
}

#[test]
fn results_of_a_span(rt: HostRuntime) -> Result<(), Fail> {
    let packets = flows(rt.alloc(), 9)?;
    let (cells, seat) = Cells::new(rt.alloc(), 64, 1)?;
    let mut board = LiveBoard::new(&cells, seat);
    let mut results = Results::new(rt.alloc(), 4)?;
    holds(&rt, results.spare() >= 4);
    let worker = Worker::new(board.worker(0));
    let worker = forward_span(worker, &packets, 5, 9, &mut results, &FreeGate);
    board.home(worker.into_seat());
    holds(&rt, results.list().len() == 4);
    same(&rt, results.list()[0].0, 5);
    Ok(())
}
