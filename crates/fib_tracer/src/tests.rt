// Whole runs of the program over files and streams in memory.
use crate::top::trace_main;
use fib_outside::{FreeGate, Gate, MeetGate, MemoryShelf, MemorySink};
use std::alloc::{AllocError, Global};
use std::sync::Wait;
use std::test::Fail;
use std::thread::Threads;

/// One packet, raw.
const PACKET: &[u8] = b"\
    \xd4\xc3\xb2\xa1\x02\x00\x04\x00\x00\x00\x00\x00\x00\x00\x00\x00\xff\xff\x00\x00\x65\x00\x00\x00\
    \x00\x00\x00\x00\x00\x00\x00\x00\x14\x00\x00\x00\x14\x00\x00\x00\
    \x45\x00\x00\x14\x00\x00\x00\x00\x40\x01\x00\x00\x01\x02\x03\x04\x0a\x00\x00\x09";

/// A packet of another protocol, one whose header is cut, and the first bytes of a third record.
const OTHERS: &[u8] = b"\
    \xd4\xc3\xb2\xa1\x02\x00\x04\x00\x00\x00\x00\x00\x00\x00\x00\x00\xff\xff\x00\x00\x65\x00\x00\x00\
    \x00\x00\x00\x00\x00\x00\x00\x00\x01\x00\x00\x00\x01\x00\x00\x00\x60\
    \x00\x00\x00\x00\x00\x00\x00\x00\x02\x00\x00\x00\x02\x00\x00\x00\x45\x00\
    \x00\x00\x00\x00\x00";

/// An interface with a neighbor, in four lines.
const NEIGHBOR: &str = "create interface eth0\nset interface state eth0 up\n\
    set interface ip address eth0 10.0.0.1/24\nset ip neighbor eth0 10.0.0.9 02:00:00:00:00:09\n";

/// The status of a run with these words, and what it printed, where the writes of these numbers fail.
fn outcome<R: Threads + Wait + Sync, G: Gate>(
    rt: &R,
    alloc: Global,
    words: &[&str],
    files: (&[u8], &[u8]),
    failing: &[u32],
    gate: &G,
) -> Result<(u8, Vec<u8>), Fail> {
    let mut given = Vec::new(alloc);
    for word in words {
        given.push(String::from_str(alloc, word)?)?;
    }
    let mut held = Vec::new(alloc);
    held.push((String::from_str(alloc, "commands")?, files.0.to_vec(alloc)?))?;
    held.push((String::from_str(alloc, "capture")?, files.1.to_vec(alloc)?))?;
    let mut shelf = MemoryShelf::new(held, Vec::new(alloc));
    let mut out = MemorySink::new(alloc, 100_000, failing.to_vec(alloc)?)?;
    let status = trace_main(rt, alloc, &given, &mut shelf, &mut out, gate);
    Ok((status, out.bytes().to_vec(alloc)?))
}

/// The slots and the words of the neighbor's packet: down the plies by its address, the balance by its hash, and the adjacency's three.
const LOADS: [(&str, &str, &str); 12] = [
    ("0", "0", "ply"),
    ("1", "10", "ply"),
    ("2", "0", "ply"),
    ("3", "0", "ply"),
    ("4", "0", "ply"),
    ("5", "0", "ply"),
    ("6", "0", "ply"),
    ("7", "9", "balance"),
    ("8", "7", "adjacency"),
    ("9", "0", "plain"),
    ("10", "1", "plain"),
    ("11", "2", "plain"),
];

/// What the adjacency's words hold: the interface, the next hop, and one more than the hardware address.
const HELD: [&str; 3] = [" plain 0", " plain 167772169", " plain 2199023255562"];

/// Whether a line tells that load; the object may be any, but the first is object 0.
fn is_load(line: &str, load: (&str, &str, &str)) -> bool {
    let mut words = line.split(' ');
    let named = words.next() == Some("hop") && words.next() == Some(load.0);
    let of = words.next() == Some("object");
    let object = words.next();
    let slot = words.next() == Some("slot") && words.next() == Some(load.1);
    let word = words.next() == Some(load.2);
    named && of && slot && word && (load.0 != "0" || object == Some("0"))
}

// Whether these lines tell the neighbor's packet's loads.
fn are_loads(lines: &[&str]) -> bool {
    let mut rest = lines;
    for load in LOADS {
        let [line, others @ ..] = rest else {
            return false;
        };
        let text = *line;
        if !is_load(text, load) {
            return false;
        }
        rest = others;
    }
    rest.is_empty()
}

// Whether the last three end so.
fn end_so(lines: &[&str], ends: [&str; 3]) -> bool {
    let [.., first, second, third] = lines else {
        return false;
    };
    first.ends_with(ends[0]) && second.ends_with(ends[1]) && third.ends_with(ends[2])
}

fn lines_of<'t>(alloc: Global, text: &'t str) -> Result<Vec<&'t str>, AllocError> {
    let mut lines = Vec::new(alloc);
    for line in text.lines() {
        lines.push(line)?;
    }
    Ok(lines)
}

// Whether this is what is printed of the neighbor's packet.
fn is_neighbors(alloc: Global, text: &[u8]) -> Result<bool, AllocError> {
    let Ok(text) = str::from_utf8(text) else {
        return Ok(false);
    };
    let lines = lines_of(alloc, text)?;
    let [packet, loads @ ..] = lines.as_slice() else {
        return Ok(false);
    };
    let line = "packet 0 10.0.0.9 1701755127 4.4-4.4 adj eth0 10.0.0.9 02:00:00:00:00:09";
    Ok(*packet == line && are_loads(loads) && end_so(loads, HELD))
}

#[test]
fn a_neighbors_packet_has_twelve_loads(rt: HostRuntime) -> Result<(), Fail> {
    let files = (NEIGHBOR.as_bytes(), PACKET);
    let words = ["commands", "capture"];
    let (status, text) = outcome(&rt, rt.alloc(), &words, files, &[], &FreeGate)?;
    assert_eq!(rt; status, 0);
    assert!(rt; is_neighbors(rt.alloc(), &text)?);
    Ok(())
}

#[test]
fn a_traced_packet_meets_a_change(rt: HostRuntime) -> Result<(), Fail> {
    // The gate lets the pass begin once the change was accepted: lines that were run first would not meet it.
    let alloc = rt.alloc();
    let commands = format!(in alloc; "{NEIGHBOR}trace\nset interface state eth0 down\n")?;
    let gate = MeetGate::new(0, 5, 1_000_000);
    let files = (commands.as_bytes(), PACKET);
    let words = ["--objects", "128", "commands", "capture"];
    let (status, text) = outcome(&rt, alloc, &words, files, &[], &gate)?;
    assert_eq!(rt; status, 0);
    assert!(rt; gate.met());
    assert!(rt; text.starts_with(b"packet 0 10.0.0.9 1701755127 4.5-4.5 "));
    Ok(())
}

#[test]
fn other_lines_are_not_traced(rt: HostRuntime) -> Result<(), Fail> {
    let commands =
        "lookup 1.2.3.4 0\nset interface state eth0 up\ntrace\nbegin\n\ttrace \n# trace\ncommit\ntrace trace\n\
        show ip fib\nforward 1\n";
    let want =
        "line 1: not traced\nline 2: no such interface\nline 4: not traced\nline 5: not traced\n\
        line 7: not traced\nline 8: syntax\nline 9: not traced\nline 10: not traced\n\
        packet 0 not ipv4\npacket 1 bad header\ncapture ends inside packet 2\n";
    let files = (commands.as_bytes(), OTHERS);
    let words = ["commands", "capture"];
    let (status, text) = outcome(&rt, rt.alloc(), &words, files, &[], &FreeGate)?;
    assert_eq!(rt; status, 0);
    assert_eq!(rt; text.as_slice(), want.as_bytes());
    Ok(())
}

#[test]
fn each_fault_has_its_status(rt: HostRuntime) -> Result<(), Fail> {
    let rows: [(&[&str], &[u8], &[u32], u8); 9] = [
        (&["commands"], PACKET, &[], 1),
        (&["--workers", "1", "commands", "capture"], PACKET, &[], 1),
        (&["--objects", "65", "commands", "capture"], PACKET, &[], 1),
        (&["commands", "capture", "more"], PACKET, &[], 1),
        (&["missing", "capture"], PACKET, &[], 2),
        (&["commands", "missing"], PACKET, &[], 3),
        (&["commands", "capture"], PACKET, &[0], 4),
        (&["commands", "capture"], &PACKET[..23], &[0], 5),
        (
            &["--objects=64", "--", "commands", "capture"],
            PACKET,
            &[],
            0,
        ),
    ];
    for (words, capture, failing, want) in rows {
        let files = (NEIGHBOR.as_bytes(), capture);
        let (status, text) = outcome(&rt, rt.alloc(), words, files, failing, &FreeGate)?;
        assert_eq!(rt; status, want, "{words:?}");
        assert!(rt; text.is_empty() == (want != 0));
    }
    Ok(())
}
