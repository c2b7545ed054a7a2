// A round of flows over fresh cells, on two workers in threads of their own.
ghost use Rattle.std.specs.Prelude.{◌≡◌, ◌<◌, IfOk, length};
ghost use Rattle.test_live.specs.Rested.{IsRested};

use fib_addr::Addr;
use fib_capture::{Capture, Packet};
use fib_cells::{Cells, LiveBoard};
use fib_control::Control;
use fib_core::{Record, Version};
use fib_outside::FreeGate;
use fib_resolve::End;
use fib_rounds_homing::{bring_home, forward_all, send_out};
use fib_worker_crew::{Results, Taken};
use std::alloc::{AllocError, Global};
use std::test::Fail;
use std::thread::Threads;

// All of the 600 packets of a first round.
const ROUND: Taken = Taken {
    opened: 0,
    first: 0,
    to: 600,
    base: 0,
};

// Flows with the hashes from 0 on, so many.
fn flows(alloc: Global, count: u32) -> Result<Capture, AllocError>
    requires { count < 1000 }
    ensures { IfOk result (λ c. length c.packets ≡ count) }
{
    let mut packets = Vec::new(alloc);
    for hash in 0..count {
        packets.push(Packet::Flow {
            addr: Addr(0x0a00_0001),
            hash,
        })?;
    }
    Ok(Capture::of_flows(packets))
}

// Both workers leave, forward side by side and come home. False where memory is wanted.
fn round<R: Threads + Sync>(
    rt: &R,
    alloc: Global,
    control: &mut Control<LiveBoard<'_>>,
    packets: &Capture,
    places: &mut [Option<Results>],
) -> bool
    requires board { IsRested control.old.plane.board }
    requires all { length packets.now.packets ≡ 600 }
    requires places { length places.old ≡ 3 }
    ensures workers { control.new.plane.board.workers ≡ 2 }
{
    let Ok(mut crew) = Vec::with_capacity(alloc, 2) else {
        return false;
    };
    send_out(alloc, control, 2, &mut crew);
    forward_all(rt, alloc, packets, ROUND, &FreeGate, &mut crew);
    bring_home(control, crew, packets, ROUND, places)
}

// The packet's own result: its flow was dropped over fresh cells.
fn is_dropped(packet: u32, at: u32, answer: &Record) -> bool {
    at == packet
        && answer.hash == packet
        && answer.end == End::Drop
        && answer.lo == Version::settled_at(0)
}

// Whether the results are those of the packets from that one on, each once. Answers how many there are.
fn dropped_from(results: &Results, first: u32) -> Option<u32> {
    let mut packet = first;
    for (at, answer) in results.list() {
        if !is_dropped(packet, *at, answer) {
            return None;
        }
        packet = packet.wrapping_add(1);
    }
    Some(packet)
}

// Whether the places have the results of all 600, in order.
fn are_dropped(places: &[Option<Results>]) -> bool {
    let mut packet = 0;
    for place in places {
        let Some(results) = place else {
            return false;
        };
        match dropped_from(results, packet) {
            Some(next) => packet = next,
            None => return false,
        }
    }
    packet == 600
}

// Whether both workers are at home.
fn are_home(control: &Control<LiveBoard<'_>>) -> bool
    requires { control.now.plane.board.workers ≡ 2 }
{
    !control.is_out(0) && !control.is_out(1)
}

// The round, and what is at home after it.
fn is_gathered<R: Threads + Sync>(
    rt: &R,
    alloc: Global,
    control: &mut Control<LiveBoard<'_>>,
    packets: &Capture,
) -> bool
    requires board { IsRested control.old.plane.board }
    requires all { length packets.now.packets ≡ 600 }
{
    let mut places = [None, None, None];
    let done = round(rt, alloc, control, packets, &mut places);
    done && are_dropped(&places) && are_home(control) && control.gathered() == 5
}

// The same over fresh cells. None where memory is wanted. One way out after the control is made: each takes long to prove.
fn gathers<R: Threads + Sync>(rt: &R, alloc: Global) -> Option<bool> {
    let Ok(packets) = flows(alloc, 600) else {
        return None;
    };
    let Ok((cells, seat)) = Cells::new(alloc, 64, 2) else {
        return None;
    };
    let Ok(mut control) = Control::new(alloc, LiveBoard::new(&cells, seat)) else {
        return None;
    };
    Some(is_gathered(rt, alloc, &mut control, &packets))
}

#[test]
fn two_workers_bring_three_frames_home(rt: HostRuntime) -> Result<(), Fail> {
    assert!(rt; gathers(&rt, rt.alloc()) == Some(true));
    Ok(())
}
