// Taps beside whole runs.
ghost use Rattle.std.specs.Prelude.{◌≡◌, Some, true, IsTrue};

use fib_addr::Addr;
use fib_capture::{Capture, Packet};
use fib_commands::Script;
use fib_core::Settings;
use fib_core_results::Record;
use fib_outside::{FreeGate, MemorySink};
use fib_rounds::{RunFault, Summary, run_to};
use fib_rounds_taps::{KeptTap, Tap, TapFault, take_all};
use std::alloc::{AllocError, Global};
use std::process::Abort;
use std::sync::Wait;
use std::test::Fail;
use std::thread::Threads;

const SETTINGS: Settings = Settings {
    workers: 3,
    objects: 1024,
    walk: 64,
};

/// Two uplinks, one of which goes down between two rounds; three rounds of 64 packets and one of the last ones.
const SCRIPT: &[u8] = b"create interface up0\ncreate interface up1\n\
    set interface state up0 up\nset interface state up1 up\n\
    set interface ip address up0 10.1.0.1/30\nset interface ip address up1 10.2.0.1/30\n\
    set ip neighbor up0 10.1.0.2 02:00:00:00:00:01\nset ip neighbor up1 10.2.0.2 02:00:00:00:00:02\n\
    ip route add 192.168.255.1/32 via 10.1.0.2 up0 via 10.2.0.2 up1\n\
    ip route add 100.64.0.0/16 via 192.168.255.1\n\
    forward 64\nforward 64\nset interface state up0 down\nforward 64\nforward 64\n";

/// How many packets there are.
const COUNT: u32 = 192;

// Ends the test where this doesn't hold.
fn holds(rt: &impl Abort, fact: bool)
    ensures { IsTrue fact }
{
    assert!(rt; fact);
}

// A tap that keeps so many results, and fails at the next.
#[derive(Drop)]
struct FullTap {
    kept: Vec<(u32, Record)>,
    room: usize,
    faults: u64,
}

impl Tap for FullTap {
    ghost taken = { λ t. Some t.kept.items };

    ghost faults = { λ t. t.faults };

    fn take(&mut self, place: u32, answer: &Record) -> Result<(), TapFault> {
        if self.kept.len() >= self.room {
            self.faults = self.faults.saturating_add(1);
            return Err(TapFault::Fault);
        }
        match self.kept.push((place, *answer)) {
            Ok(()) => Ok(()),
            Err(_) => Err(TapFault::Memory),
        }
    }
}

// Flows to 100.64.K.9, one for each K from 0 on.
fn flows(alloc: Global) -> Result<Capture, AllocError> {
    let mut packets = Vec::new(alloc);
    for k in 0..COUNT {
        let addr = Addr(0x6440_0009 + k * 256);
        packets.push(Packet::Flow { addr, hash: k * 7 })?;
    }
    Ok(Capture::of_flows(packets))
}

// Runs the script with a tap.
fn run_with<R: Threads + Wait + Sync, T: Tap>(
    rt: &R,
    alloc: Global,
    out: &mut MemorySink,
    tap: &mut T,
) -> Result<Summary, RunFault> {
    let packets = flows(alloc)?;
    match Script::read(alloc, SCRIPT) {
        Ok(script) => run_to(rt, alloc, SETTINGS, &script, &packets, out, tap, &FreeGate),
        Err(_) => Err(RunFault::Memory),
    }
}

// Whether a line is that of a packet with this result, by its number and its window.
fn is_line_of(alloc: Global, line: &str, kept: &(u32, Record)) -> Result<bool, AllocError> {
    let number = kept.0;
    let (lo, hi) = (kept.1.lo, kept.1.hi);
    let start = format!(in alloc; "packet {number} ")?;
    let window = format!(in alloc;
        " {}.{}-{}.{} ",
        lo.settled, lo.applied, hi.settled, hi.applied
    )?;
    Ok(line.starts_with(start.as_str()) && line.contains(window.as_str()))
}

// Whether these results have the numbers from 0 on, and are those that the lines print.
fn are_printed(alloc: Global, text: &[u8], results: &[(u32, Record)]) -> Result<bool, AllocError> {
    let Ok(text) = str::from_utf8(text) else {
        return Ok(false);
    };
    let mut lines = text.lines();
    for (at, kept) in results.iter().enumerate() {
        let Some(line) = lines.next() else {
            return Ok(false);
        };
        if kept.0 as usize != at || !is_line_of(alloc, line, kept)? {
            return Ok(false);
        }
    }
    Ok(lines.next().is_none())
}

#[test]
fn a_keeping_tap_has_all_results(rt: HostRuntime) -> Result<(), Fail> {
    let alloc = rt.alloc();
    let mut out = MemorySink::new(alloc, 100_000, Vec::new(alloc))?;
    let mut tap = KeptTap::new(alloc);
    let ran = run_with(&rt, alloc, &mut out, &mut tap);
    holds(&rt, ran.is_ok());
    holds(&rt, tap.list().len() == COUNT as usize);
    holds(&rt, are_printed(alloc, out.bytes(), tap.list())?);
    Ok(())
}

#[test]
fn a_tap_that_fails_ends_the_run(rt: HostRuntime) -> Result<(), Fail> {
    let alloc = rt.alloc();
    for (room, lines) in [
        (0, 64),
        (1, 64),
        (63, 64),
        (64, 128),
        (100, 128),
        (191, 192),
    ] {
        let mut out = MemorySink::new(alloc, 100_000, Vec::new(alloc))?;
        let mut tap = FullTap {
            kept: Vec::new(alloc),
            room,
            faults: 0,
        };
        let ran = run_with(&rt, alloc, &mut out, &mut tap);
        holds(&rt, ran == Err(RunFault::Write));
        holds(&rt, tap.kept.len() == room && tap.faults == 1);
        let printed = out
            .bytes()
            .iter()
            .filter(|byte| -> bool { **byte == b'\n' })
            .count();
        holds(&rt, printed == lines);
    }
    Ok(())
}

#[test]
fn results_are_taken_in_turn(rt: HostRuntime) -> Result<(), Fail> {
    let alloc = rt.alloc();
    let mut out = MemorySink::new(alloc, 100_000, Vec::new(alloc))?;
    let mut first = KeptTap::new(alloc);
    holds(&rt, run_with(&rt, alloc, &mut out, &mut first).is_ok());
    let mut second = KeptTap::new(alloc);
    let took = take_all(&mut second, first.list());
    holds(&rt, took == Ok(()) && second.list() == first.list());
    Ok(())
}
