// Packets that meet changes, and what a gate is told.
use crate::outcomes::{LITTLE, NEIGHBOR, outcome};
use fib_outside::{KeptGate, MeetGate, Told};
use std::alloc::{AllocError, Global};
use std::test::Fail;

/// What may be printed of it where its pass saw an interface go down: whether the pass still found the adjacency, nothing tells.
const CHANGED: [&str; 2] = [
    "packet 0 10.0.0.9 1701755127 4.5-4.5 adj eth0 10.0.0.9 02:00:00:00:00:09\n",
    "packet 0 10.0.0.9 1701755127 4.5-4.5 drop\n",
];

#[test]
fn a_packet_meets_a_change(rt: HostRuntime) -> Result<(), Fail> {
    // The gate lets the pass begin once the change was accepted, and the round ends after both.
    let alloc = rt.alloc();
    let commands = format!(in alloc; "{NEIGHBOR}forward 1\nset interface state eth0 down\n")?;
    let gate = MeetGate::new(0, 5, 1_000_000);
    let words = ["--workers", "1", "commands", "capture"];
    let files = (commands.as_bytes(), LITTLE);
    let (status, text) = outcome(&rt, alloc, &words, files, (&[], &[]), &gate)?;
    let right = CHANGED
        .iter()
        .any(|line| -> bool { text.as_slice() == line.as_bytes() });
    assert!(rt; gate.met() && status == 0 && right);
    Ok(())
}

// The record twice in one capture.
fn twice(alloc: Global) -> Result<Vec<u8>, AllocError> {
    let mut file = LITTLE.to_vec(alloc)?;
    file.extend_from_slice(&LITTLE[24..])?;
    Ok(file)
}

/// What is printed of the first of two packets, whose pass was over before the change; and what the line of the second begins with, which met it.
const BEFORE: &str = "packet 0 10.0.0.9 1701755127 4.4-4.4 adj eth0 10.0.0.9 02:00:00:00:00:09\n";

const AMID: &str = "packet 1 10.0.0.9 1701755127 4.5-4.5 ";

#[test]
fn each_packet_prints_its_own_window(rt: HostRuntime) -> Result<(), Fail> {
    let alloc = rt.alloc();
    let commands = format!(in alloc; "{NEIGHBOR}forward 2\nset interface state eth0 down\n")?;
    let capture = twice(alloc)?;
    let gate = MeetGate::new(1, 5, 1_000_000);
    let words = ["--workers", "1", "commands", "capture"];
    let files = (commands.as_bytes(), capture.as_slice());
    let (status, text) = outcome(&rt, alloc, &words, files, (&[], &[]), &gate)?;
    let right = str::from_utf8(&text).is_ok_and(|text| -> bool {
        match text.strip_prefix(BEFORE) {
            Some(rest) => rest.starts_with(AMID) && rest.lines().count() == 1,
            None => false,
        }
    });
    assert!(rt; gate.met() && status == 0 && right);
    Ok(())
}

/// Lines behind a change that settle it before they answer.
const SETTLING: [&str; 4] = [
    "lookup 10.0.0.1 0",
    "show ip fib",
    "show fib path-lists",
    "show adj",
];

#[test]
fn lookups_and_listings_settle_first(rt: HostRuntime) -> Result<(), Fail> {
    // The pass begins between the change behind the line and its settling: so it sees what the line settled.
    let alloc = rt.alloc();
    let window = "\npacket 0 10.0.0.9 1701755127 5.6-5.6 adj eth0 10.0.0.9 02:00:00:00:00:09\n";
    for line in SETTLING {
        let commands = format!(in alloc;
            "{NEIGHBOR}forward 1\nip route add 20.0.0.0/8 via drop\n{line}\nip route add 30.0.0.0/8 via drop\n"
        )?;
        let gate = MeetGate::new(0, 6, 1_000_000);
        let words = ["--workers", "1", "commands", "capture"];
        let files = (commands.as_bytes(), LITTLE);
        let (status, text) = outcome(&rt, alloc, &words, files, (&[], &[]), &gate)?;
        assert!(rt; gate.met() && status == 0, "{line}");
        assert!(rt; text.ends_with(window.as_bytes()), "{line}");
    }
    Ok(())
}

/// A change, a line that is refused, a batch of two changes, and one that is refused.
const CHANGES: &str = "ip route add 10.0.0.0/8 via local\nip route del 11.0.0.0/8\n\
    begin\nip route add 12.0.0.0/8 via local\nip route add 13.0.0.0/8 via local\ncommit\n\
    begin\nip route add 14.0.0.0/8 via local\nip route del 11.0.0.0/8\ncommit\nforward 1\n";

/// What a gate is told of it: before each try the version that the change would give, and that again once it was made; a batch is one change, and after
/// a refusal nothing is told. Then the packet comes.
const TOLD: [Told; 7] = [
    Told::Changing(1),
    Told::Applied(1),
    Told::Changing(2),
    Told::Changing(2),
    Told::Applied(2),
    Told::Changing(3),
    Told::Before {
        worker: 0,
        packet: 0,
    },
];

// Whether the gate was told just these.
fn is_told(gate: &KeptGate, wanted: &[Told]) -> bool {
    let mut place = 0u32;
    for told in wanted {
        if gate.told(place) != Some(*told) {
            return false;
        }
        place = place.saturating_add(1);
    }
    gate.count() == place
}

#[test]
fn a_gate_is_told_versions(rt: HostRuntime) -> Result<(), Fail> {
    let alloc = rt.alloc();
    let gate = KeptGate::new(alloc, 16)?;
    let words = ["--workers", "1", "commands", "capture"];
    let files = (CHANGES.as_bytes(), LITTLE);
    let (status, _) = outcome(&rt, alloc, &words, files, (&[], &[]), &gate)?;
    assert!(rt; status == 0 && is_told(&gate, &TOLD));
    Ok(())
}
