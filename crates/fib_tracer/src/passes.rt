// The packets of a capture, each traced in turn.
ghost use Rattle.std.specs.Prelude.{◌≡◌, ◌<◌, ◌≤◌, ◌∷◌, [], length, true};
ghost use Rattle.fib_core_lawful.specs.State.{left_of};
ghost use Rattle.fib_tracer.specs.inner.Tracing.{HasTracedAll, IsSameSeat};

use crate::log::{Log, keep};
use fib_capture::{Capture, Packet};
use fib_cells::WorkerSeat;
use fib_outside::Gate;
use fib_trace::trace;
use std::alloc::Global;

/// A seat that made passes, and whether each of them was kept.
#[derive(Drop)]
pub struct Went<'a> {
    pub seat: WorkerSeat<'a>,
    pub kept: bool,
}

// Traces one packet, where it is a flow, and keeps its pass. The gate is told of it before.
fn trace_one<'a, G: Gate>(
    alloc: Global,
    seat: WorkerSeat<'a>,
    packet: Packet,
    at: u32,
    log: &mut Log,
    gate: &G,
) -> Went<'a>
    requires left { 0 < left_of seat.worker.pass }
    requires room { seat.worker.objects ≤ log.old.trail.objects }
    requires short { log.old.trail.objects ≤ 131072 }
    ensures same { IsSameSeat seat.entry result.seat }
    ensures made { result.kept ≡ true → HasTracedAll (packet ∷ []) seat.entry result.seat log.old.passes.items log.new.passes.items }
    ensures room { log.new.trail.objects ≡ log.old.trail.objects }
{
    match packet {
        Packet::Flow { addr, hash } => {
            gate.before(seat.number(), at);
            let (seat, answer) = trace(seat, addr, hash, &mut log.trail);
            match keep(alloc, &mut log.passes, answer, &log.trail) {
                Ok(()) => Went { seat, kept: true },
                Err(_) => Went { seat, kept: false },
            }
        }
        Packet::NotIpv4 | Packet::BadHeader => Went { seat, kept: true },
    }
}

/// Traces a capture's flows in order, and keeps their passes; the gate is told of each before its pass. Stops where memory is wanted to keep one.
///
/// The seat must have as many passes left as there are packets, and there must be room for the loads of a pass.
pub fn trace_all<'a, G: Gate>(
    alloc: Global,
    seat: WorkerSeat<'a>,
    packets: &Capture,
    log: &mut Log,
    gate: &G,
) -> Went<'a>
    requires left { length packets.now.packets ≤ left_of seat.worker.pass }
    requires room { seat.worker.objects ≤ log.old.trail.objects }
    requires short { log.old.trail.objects ≤ 131072 }
    ensures same { IsSameSeat seat.entry result.seat }
    ensures made { result.kept ≡ true → HasTracedAll packets.now.packets seat.entry result.seat log.old.passes.items log.new.passes.items }
{
    let mut seat = seat;
    for at in 0..packets.count() {
        let went = trace_one(alloc, seat, packets.at(at), at, log, gate);
        let Went { seat: after, kept } = went;
        if !kept {
            return Went { seat: after, kept };
        }
        seat = after;
    }
    Went { seat, kept: true }
}
