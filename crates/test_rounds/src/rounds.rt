// Rounds over live cells, on workers in threads of their own. What runs print is tested by whole files, in the crates above.
ghost use Rattle.std.specs.Prelude.{◌≡◌, ◌<◌, IfOk, length};

use fib_addr::Addr;
use fib_capture::{Capture, Packet};
use fib_commands::Script;
use fib_core::Settings;
use fib_outside::{FreeGate, Gate, HoldGate, MemorySink};
use fib_rounds::{Summary, laws, run};
use std::alloc::{AllocError, Global};
use std::sync::Wait;
use std::test::Fail;
use std::thread::Threads;

const SETTINGS: Settings = Settings {
    workers: 2,
    objects: 64,
    walk: 64,
};

const ADDR: Addr = Addr(0x0a00_0009);

// Each change stands in a round without packets, so that there is one output.
const SCRIPT: &[u8] =
    b"ip route add 10.0.0.0/8 via local\nforward 3\nforward 0\nip route del 10.0.0.0/8\n\
    forward 2\nforward 9\nforward x\n";

const OUTPUT: &[u8] =
    b"packet 0 10.0.0.9 7 1.1-1.1 receive\npacket 1 not ipv4\npacket 2 bad header\n\
    packet 3 10.0.0.9 8 2.2-2.2 drop\nline 7: syntax\n";

// The counts of a script that is run over packets.
fn counts_of<R: Threads + Wait + Sync, G: Gate>(
    rt: &R,
    alloc: Global,
    bytes: &[u8],
    packets: &Capture,
    out: &mut MemorySink,
    gate: &G,
) -> Option<Summary> {
    match Script::read(alloc, bytes) {
        Ok(script) => run(rt, alloc, SETTINGS, &script, packets, out, gate).ok(),
        Err(_) => None,
    }
}

// Two flows with two other packets between them.
fn four(alloc: Global) -> Result<Capture, AllocError> {
    let mut flows = Vec::new(alloc);
    flows.push(Packet::Flow {
        addr: ADDR,
        hash: 7,
    })?;
    flows.push(Packet::NotIpv4)?;
    flows.push(Packet::BadHeader)?;
    flows.push(Packet::Flow {
        addr: ADDR,
        hash: 8,
    })?;
    Ok(Capture::of_flows(flows))
}

// Flows with the hashes from 0 on, so many.
fn flows(alloc: Global, count: u32) -> Result<Capture, AllocError>
    requires { count < 1000 }
    ensures { IfOk result (λ c. length c.packets ≡ count) }
{
    let mut packets = Vec::new(alloc);
    for hash in 0..count {
        packets.push(Packet::Flow { addr: ADDR, hash })?;
    }
    Ok(Capture::of_flows(packets))
}

// The lines of so many flows that are received.
fn received(alloc: Global, count: u32) -> Result<Vec<u8>, AllocError> {
    let mut text = Vec::new(alloc);
    for number in 0..count {
        let line = format!(in alloc; "packet {number} 10.0.0.9 {number} 1.1-1.1 receive\n")?;
        text.extend_from_slice(line.as_bytes())?;
    }
    Ok(text)
}

fn are_counts(counts: &Summary) -> bool {
    counts.accepted == 2
        && counts.refused == 1
        && counts.packets == 4
        && counts.quiet == 4
        && counts.drops == 1
        && counts.receives == 1
}

#[test]
fn four_rounds_on_two_workers(rt: HostRuntime) -> Result<(), Fail> {
    let packets = four(rt.alloc())?;
    let mut out = MemorySink::new(rt.alloc(), 1000, Vec::new(rt.alloc()))?;
    let counts = counts_of(&rt, rt.alloc(), SCRIPT, &packets, &mut out, &FreeGate);
    let right = counts.is_some_and(|counts| -> bool { are_counts(&counts) });
    assert!(rt; right && out.bytes() == OUTPUT);
    laws::quiet_rounds_give_one_output();
    laws::frozen_workers_give_an_output();
    laws::counts_are_of_quiet_flows();
    laws::flows_add_up();
    laws::history_is_of_changes();
    laws::a_run_has_the_history_of_its_changes();
    Ok(())
}

/// Packets of the second and of the third frame. Where packets were cut in two, or one worker had them all, the one would stand behind packet 0; where
/// frames went to the workers in turn, the other would.
const UNTIL: [u32; 2] = [300, 600];

#[test]
fn frames_are_claimed(rt: HostRuntime) -> Result<(), Fail> {
    let script = b"ip route add 10.0.0.0/8 via local\nforward 768\n".as_slice();
    let packets = flows(rt.alloc(), 768)?;
    let want = received(rt.alloc(), 768)?;
    for until in UNTIL {
        let mut out = MemorySink::new(rt.alloc(), 100_000, Vec::new(rt.alloc()))?;
        let gate = HoldGate::new(0, until, 1_000_000);
        let counts = counts_of(&rt, rt.alloc(), script, &packets, &mut out, &gate);
        let right = counts.is_some() && gate.met();
        assert!(rt; right && out.bytes() == want.as_slice(), "packet {until}");
    }
    Ok(())
}
