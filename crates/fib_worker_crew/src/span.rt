// A worker's way through some packets.
ghost use Rattle.std.specs.Prelude.{◌<◌, ◌≤◌, ◌+◌, length};
ghost use Rattle.fib_core_lawful.specs.State.{left_of};
ghost use Rattle.fib_worker_crew.specs.Packets.{span};
ghost use Rattle.fib_worker_crew.specs.Results.{HasForwarded};
ghost use Rattle.fib_worker_crew.specs.inner.Single.{HasForwardedOne};

use crate::results::Results;
use fib_capture::{Capture, Packet};
use fib_outside::Gate;
use fib_worker::{Finished, Worker};

// Forwards one packet, where it is a flow, and keeps its result.
fn forward_one<'a, G: Gate>(
    worker: Worker<'a>,
    packet: Packet,
    at: u32,
    results: &mut Results,
    gate: &G,
) -> Worker<'a>
    requires room { 0 < results.old.spare }
    requires left { 0 < left_of worker.worker.pass }
    ensures one { HasForwardedOne worker.entry result at packet results.old.list results.new.list }
    ensures spare { results.old.spare ≤ results.new.spare + 1 }
{
    match packet {
        Packet::Flow { addr, hash } => {
            gate.before(worker.number(), at);
            let Finished {
                worker: after,
                result,
            } = worker.forward(addr, hash);
            results.push(at, result);
            after
        }
        Packet::NotIpv4 | Packet::BadHeader => worker,
    }
}

/// Forwards the flows from one place up to another over the shared cells, and keeps their results. Takes no memory and waits for nobody.
///
/// There must be room for the results, and the worker must have so many passes left. The gate is told of each flow before its pass.
pub fn forward_span<'a, G: Gate>(
    worker: Worker<'a>,
    packets: &Capture,
    from: u32,
    to: u32,
    results: &mut Results,
    gate: &G,
) -> Worker<'a>
    requires order { from ≤ to }
    requires inside { to ≤ length packets.now.packets }
    requires room { to ≤ results.old.spare + from }
    requires left { to ≤ left_of worker.worker.pass + from }
    ensures { HasForwarded worker.entry result from (span packets.now.packets from to) results.old.list results.new.list }
{
    let mut worker = worker;
    for at in from..to {
        worker = forward_one(worker, packets.at(at), at, results, gate);
    }
    worker
}
