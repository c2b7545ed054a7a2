// A worker's way through a round: it claims frames until there is none left.
ghost use Rattle.std.specs.Prelude.{◌≡◌, ◌<◌, ◌≤◌, ◌+◌, ◌-◌, ◌/◌, ◌^◌, [], None, IfSome, OnOk, IfOk, length, true, false, vec_len, vec_capacity};
ghost use Rattle.fib_worker_crew.specs.Taking.{frames_taken, packets_taken};
ghost use Rattle.fib_worker_crew.specs.Work.{HasStopped, HasWorked, MayWork, steps_of};

use crate::results::Results;
use crate::span::forward_span;
use fib_capture::Capture;
use fib_outside::Gate;
use fib_worker::Worker;
use std::alloc::{AllocError, Global};

/// A frame of a round, counted from 0, and the results of its flows.
#[derive(Drop)]
pub struct Frame {
    pub number: u32,
    pub results: Results,
}

/// The packets that a round takes.
#[derive(Clone, Copy, Debug, PartialEq, Eq)]
pub struct Taken {
    /// The version at which the round opened.
    pub opened: u32,
    /// The number of its first packet.
    pub first: u32,
    /// The number of the next round's first packet.
    pub to: u32,
    /// How many claims were drawn before it opened: a claim less these is a frame's number.
    pub base: u64,
}

impl Taken {
    /// How many frames there are.
    pub fn frames(self) -> u32
        requires { self.first ≤ self.to }
        ensures value { result ≡ (self.to - self.first + 255) / 256 }
        ensures few { result ≤ 2 ^ 24 }
    {
        ((u64::from(self.to - self.first) + 255) / 256) as u32
    }
}

// The frame that a claim names.
fn frame_of(claim: u64, base: u64, count: u32) -> Option<u32>
    ensures some { IfSome result (λ f. (f < count) × (claim ≡ base + f)) }
    ensures none { result ≡ None → base ≤ claim → base + count ≤ claim }
{
    let number = claim.checked_sub(base)?;
    if number < u64::from(count) {
        Some(number as u32)
    } else {
        None
    }
}

// Room for the results of a frame, and a place for it.
fn room_for(alloc: Global, list: &mut Vec<Frame>, size: u32) -> Result<Results, AllocError>
    ensures kept { list.new.items ≡ list.old.items }
    ensures place { OnOk result (vec_len list.new < vec_capacity list.new) }
    ensures empty { IfOk result (λ r. r.list ≡ []) }
    ensures room { IfOk result (λ r. size ≤ r.spare) }
{
    list.reserve(1)?;
    Results::new(alloc, size)
}

/// A worker after a round, the frames that it forwarded, and whether it came to the round's end.
pub struct Worked<'a> {
    pub worker: Worker<'a>,
    pub frames: Vec<Frame>,
    /// False where memory was wanted for a frame's results: that frame was claimed last, and not forwarded.
    pub done: bool,
}

/// Claims frames and forwards them, until a claim names none. A frame's results get their room before it is forwarded; where there is none the worker
/// stops undone. Nothing tells whether there is memory, so of a worker that stopped only this is said: it forwarded each frame that it claimed but the
/// last, and the last one is of the round.
///
/// The worker must know the version at which the round opened, and have passes and claims left for all of its frames and one more.
pub fn work<'a, G: Gate>(
    alloc: Global,
    packets: &Capture,
    taken: Taken,
    gate: &G,
    worker: Worker<'a>,
) -> Worked<'a>
    requires order { taken.first ≤ taken.to }
    requires inside { taken.to ≤ length packets.now.packets }
    requires may { MayWork taken.opened (frames_taken packets.now taken) worker }
    ensures id { result.worker.id ≡ worker.entry.id }
    ensures number { result.worker.worker.number ≡ worker.entry.worker.number }
    ensures worked { result.done ≡ true → HasWorked taken.opened taken.first taken.base
        (frames_taken packets.now taken + 1)
        (packets_taken packets.now taken) worker.entry result.worker (steps_of result.frames.items) }
    ensures stopped { result.done ≡ false → HasStopped taken.opened taken.first taken.base
        (packets_taken packets.now taken) worker.entry result.worker result.frames.items }
{
    let count = taken.frames();
    let mut worker = worker;
    let mut list = Vec::new(alloc);
    for made in 0..count + 1 {
        let claim = worker.claim();
        let Some(number) = frame_of(claim, taken.base, count) else {
            return Worked {
                worker,
                frames: list,
                done: true,
            };
        };
        let from = taken.first + 256 * number;
        let size = (taken.to - from).min(256);
        let Ok(mut results) = room_for(alloc, &mut list, size) else {
            return Worked {
                worker,
                frames: list,
                done: false,
            };
        };
        worker = forward_span(worker, packets, from, from + size, &mut results, gate);
        list.push_reserved(Frame { number, results });
    }
    Worked {
        worker,
        frames: list,
        done: false,
    }
}
