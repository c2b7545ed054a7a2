// The public calls once, over a plain board; what they print is tested by whole files, in the crates above.
use fib_control::Control;
use fib_core_plainboard::PlainBoard;
use fib_outside::{FreeGate, Gate};
use fib_rounds_turns::{Means, Progress, finish, run_line};
use std::alloc::Global;
use std::sync::Wait;
use std::sync::atomic::{AtomicU32, Ordering};
use std::test::Fail;
use trial_plain::steps::fresh_over;
use trial_plain::trouble::Trouble;

// A gate that counts what it is told of changes.
#[derive(Drop)]
struct CountGate {
    changing: AtomicU32,
    applied: AtomicU32,
}

impl CountGate {
    fn new() -> CountGate {
        CountGate {
            changing: AtomicU32::new(0),
            applied: AtomicU32::new(0),
        }
    }

    // How often it was told of a change before it is tried, and after it was made.
    fn counts(&self) -> (u32, u32) {
        (
            self.changing.load(Ordering::SeqCst),
            self.applied.load(Ordering::SeqCst),
        )
    }
}

impl Gate for CountGate {
    fn changing(&self, _change: u32) {
        self.changing.fetch_add(1, Ordering::SeqCst);
    }

    fn applied(&self, _change: u32) {
        self.applied.fetch_add(1, Ordering::SeqCst);
    }

    fn before(&self, _worker: u32, _packet: u32) {}
}

// What the next line asks for.
fn next<R: Wait, G: Gate>(
    means: &Means<'_, R, G>,
    control: &mut Control<PlainBoard>,
    progress: &mut Progress,
    out: &mut Vec<u8>,
    line: &str,
) -> Option<u32> {
    let lines = progress.lines();
    if lines == u32::MAX || control.version().applied > lines {
        return None;
    }
    match run_line(means, control, progress, out, line.as_bytes()) {
        Ok(asked) => asked,
        Err(_) => None,
    }
}

// What the last of these lines asks for, which are the first, and what is kept then.
fn run_all<R: Wait, G: Gate>(
    rt: &R,
    gate: &G,
    control: &mut Control<PlainBoard>,
    progress: &mut Progress,
    out: &mut Vec<u8>,
    lines: &[&str],
) -> Option<u32> {
    let means = Means {
        rt,
        alloc: *out.allocator(),
        gate,
        walk: 64,
    };
    let mut asked = None;
    for line in lines {
        asked = next(&means, control, progress, out, line);
    }
    asked
}

const LINES: [&str; 8] = [
    "create interface eth0",
    "begin",
    "set interface state eth0 up",
    "set interface ip address eth0 10.0.0.1/24",
    "commit",
    "create interface eth0",
    "lookup 10.0.0.1 0",
    "forward 7",
];

const BATCH: [&str; 5] = [
    "begin",
    "create interface eth0",
    "set interface state eth0 up",
    "set interface ip address eth0 10.0.0.1/24",
    "commit",
];

const REFUSED: [&str; 4] = [
    "begin",
    "create interface eth1",
    "create interface eth0",
    "commit",
];

const LEFT: [&str; 2] = ["begin", "create interface eth1"];

// The one route leads over the other, and then the other over the one. What leads back is dropped at first, since a worker might still go the old way.
const CROSSED: [&str; 11] = [
    "create interface eth0",
    "set interface state eth0 up",
    "set interface ip address eth0 10.0.0.1/24",
    "ip route add 20.0.0.0/8 via 30.0.0.1",
    "ip route add 30.0.0.0/8 via 10.0.0.7",
    "begin",
    "ip route del 20.0.0.0/8",
    "ip route del 30.0.0.0/8",
    "ip route add 20.0.0.0/8 via 10.0.0.7",
    "ip route add 30.0.0.0/8 via 20.0.0.1",
    "commit",
];

// Whether a change and a batch are two versions, a lookup answers by them, and a line that asks for packets prints nothing.
fn are_two_versions<R: Wait>(rt: &R, alloc: Global, control: &mut Control<PlainBoard>) -> bool {
    let mut progress = Progress::new();
    let mut out = Vec::new(alloc);
    let asked = run_all(rt, &FreeGate, control, &mut progress, &mut out, &LINES);
    asked == Some(7)
        && progress.refused() == 1
        && control.version().applied == 2
        && out.as_slice() == b"line 6: interface exists\nreceive\n".as_slice()
}

// Whether the gate is told once of a batch before it is tried and once after it was made, and of a refused one only before.
fn is_told_once<R: Wait>(rt: &R, alloc: Global, control: &mut Control<PlainBoard>) -> bool {
    let gate = CountGate::new();
    let mut progress = Progress::new();
    let mut out = Vec::new(alloc);
    run_all(rt, &gate, control, &mut progress, &mut out, &BATCH);
    let made = gate.counts();
    run_all(rt, &gate, control, &mut progress, &mut out, &REFUSED);
    made == (1, 1)
        && gate.counts() == (2, 1)
        && control.version().applied == 1
        && out.as_slice() == b"line 8: interface exists\n".as_slice()
}

// Whether a batch that the script's end leaves is refused.
fn is_left<R: Wait>(rt: &R, alloc: Global, control: &mut Control<PlainBoard>) -> bool {
    let mut progress = Progress::new();
    let mut out = Vec::new(alloc);
    run_all(rt, &FreeGate, control, &mut progress, &mut out, &LEFT);
    let refused = finish(&progress, &mut out);
    refused.ok() == Some(1)
        && control.version().applied == 0
        && out.as_slice() == b"line 1: batch not committed\n".as_slice()
}

// Whether the turns, the scan and the retry behind each change leave nothing to do: then the version is settled at once.
fn is_calm<R: Wait>(rt: &R, alloc: Global, control: &mut Control<PlainBoard>) -> bool {
    let mut progress = Progress::new();
    let mut out = Vec::new(alloc);
    run_all(rt, &FreeGate, control, &mut progress, &mut out, &CROSSED);
    control.version().applied == 6 && control.mark_settled().ok() == Some(6)
}

// What is looked at after lines on a fresh control.
#[derive(Clone, Copy)]
enum Look {
    Versions,
    Left,
    Told,
    Calm,
}

fn look_at<R: Wait>(rt: &R, alloc: Global, control: &mut Control<PlainBoard>, look: Look) -> bool {
    match look {
        Look::Versions => are_two_versions(rt, alloc, control),
        Look::Left => is_left(rt, alloc, control),
        Look::Told => is_told_once(rt, alloc, control),
        Look::Calm => is_calm(rt, alloc, control),
    }
}

// Whether that is as it should be. It alone owns a control, and has one way out from then on: each takes long to prove.
fn is_right<R: Wait>(rt: &R, alloc: Global, look: Look) -> Result<bool, Trouble> {
    let mut control = fresh_over(alloc, 200)?;
    Ok(look_at(rt, alloc, &mut control, look))
}

#[test]
fn a_change_and_a_batch(rt: HostRuntime) -> Result<(), Fail> {
    assert!(rt; is_right(&rt, rt.alloc(), Look::Versions)?);
    Ok(())
}

#[test]
fn a_batch_that_is_left(rt: HostRuntime) -> Result<(), Fail> {
    assert!(rt; is_right(&rt, rt.alloc(), Look::Left)?);
    Ok(())
}

#[test]
fn a_gate_is_told_of_a_batch_once(rt: HostRuntime) -> Result<(), Fail> {
    assert!(rt; is_right(&rt, rt.alloc(), Look::Told)?);
    Ok(())
}

#[test]
fn a_line_leaves_nothing_to_do(rt: HostRuntime) -> Result<(), Fail> {
    assert!(rt; is_right(&rt, rt.alloc(), Look::Calm)?);
    Ok(())
}
