// Whole runs over files and streams in memory. What is expected comes from a reference model.
use crate::top::count_main;
use fib_outside::{FreeGate, Gate, HoldGate, MemoryShelf, MemorySink};
use std::alloc::{AllocError, Global};
use std::sync::Wait;
use std::test::Fail;
use std::thread::Threads;

/// A capture's header: raw packets, in the lowest byte first and with microseconds.
const HEADER: &[u8] = b"\
    \xd4\xc3\xb2\xa1\x02\x00\x04\x00\x00\x00\x00\x00\x00\x00\x00\x00\xff\xff\x00\x00\x65\x00\x00\x00";

fn words_of(alloc: Global, words: &[&str]) -> Result<Vec<String>, AllocError> {
    let mut given = Vec::new(alloc);
    for word in words {
        given.push(String::from_str(alloc, word)?)?;
    }
    Ok(given)
}

// The files `commands` and `capture`.
fn files_of(
    alloc: Global,
    commands: &[u8],
    capture: &[u8],
) -> Result<Vec<(String, Vec<u8>)>, AllocError> {
    let mut files = Vec::new(alloc);
    files.push((
        String::from_str(alloc, "commands")?,
        commands.to_vec(alloc)?,
    ))?;
    files.push((String::from_str(alloc, "capture")?, capture.to_vec(alloc)?))?;
    Ok(files)
}

// The status of a run and what it wrote, where the fetches and writes of these numbers fail.
fn outcome<R: Threads + Wait + Sync, G: Gate>(
    rt: &R,
    alloc: Global,
    words: &[&str],
    files: (&[u8], &[u8]),
    failing: (&[u32], &[u32]),
    gate: &G,
) -> Result<(u8, Vec<u8>), Fail> {
    let given = words_of(alloc, words)?;
    let held = files_of(alloc, files.0, files.1)?;
    let mut shelf = MemoryShelf::new(held, failing.0.to_vec(alloc)?);
    let mut out = MemorySink::new(alloc, 10_000, failing.1.to_vec(alloc)?)?;
    let status = count_main(rt, alloc, &given, &mut shelf, &mut out, gate);
    Ok((status, out.bytes().to_vec(alloc)?))
}

/// Two uplinks and a next hop behind both.
const UPLINKS: &[u8] = b"create interface up0\ncreate interface up1\n\
    set interface state up0 up\nset interface state up1 up\n\
    set interface ip address up0 10.1.0.1/30\nset interface ip address up1 10.2.0.1/30\n\
    set ip neighbor up0 10.1.0.2 02:00:00:00:00:01\nset ip neighbor up1 10.2.0.2 02:00:00:00:00:02\n\
    ip route add 192.168.255.1/32 via 10.1.0.2 up0 via 10.2.0.2 up1\n";

// 200 routes over the uplinks.
fn routes(alloc: Global) -> Result<Vec<u8>, Fail> {
    let mut text = UPLINKS.to_vec(alloc)?;
    for k in 0..200u8 {
        let line = format!(in alloc; "ip route add 100.64.{k}.0/24 via 192.168.255.1\n")?;
        text.extend_from_slice(line.as_bytes())?;
    }
    Ok(text)
}

// So many rounds of 192 UDP packets, one to each of the first routes.
fn udp_packets(alloc: Global, rounds: u32) -> Result<Vec<u8>, Fail> {
    let mut file = HEADER.to_vec(alloc)?;
    for _round in 0..rounds {
        for k in 0..192u8 {
            file.extend_from_slice(b"\0\0\0\0\0\0\0\0\x1c\0\0\0\x1c\0\0\0")?;
            file.extend_from_slice(b"\x45\0\0\x1c\0\0\0\0\x40\x11\0\0\xc6\x33\x64\x01\x64\x40")?;
            file.extend_from_slice(&[k, 9, 15, 160, 0, 53, 0, 8, 0, 0])?;
        }
    }
    Ok(file)
}

#[test]
fn totals_are_those_of_any_number_of_workers(rt: HostRuntime) -> Result<(), Fail> {
    let alloc = rt.alloc();
    let (commands, capture) = (routes(alloc)?, udp_packets(alloc, 1)?);
    for workers in ["1", "2", "8"] {
        let words = ["--workers", workers, "commands", "capture"];
        let files = (commands.as_slice(), capture.as_slice());
        let (status, text) = outcome(&rt, alloc, &words, files, (&[], &[]), &FreeGate)?;
        assert_eq!(rt; status, 0, "{workers} workers");
        assert_eq!(rt; text.as_slice(), b"adj up0 96\nadj up1 96\n".as_slice());
    }
    Ok(())
}

#[test]
fn several_workers_count(rt: HostRuntime) -> Result<(), Fail> {
    // The worker of packet 0 is held until the other has come to packet 300, in the second of three frames.
    let alloc = rt.alloc();
    let (commands, capture) = (routes(alloc)?, udp_packets(alloc, 4)?);
    let gate = HoldGate::new(0, 300, 1_000_000);
    let words = ["--workers", "2", "commands", "capture"];
    let files = (commands.as_slice(), capture.as_slice());
    let (status, text) = outcome(&rt, alloc, &words, files, (&[], &[]), &gate)?;
    assert!(rt; gate.met() && status == 0);
    assert_eq!(rt; text.as_slice(), b"adj up0 384\nadj up1 384\n".as_slice());
    Ok(())
}

/// An interface with a neighbor and a route, and lines that are refused.
const LINES: &[u8] = b"create interface eth0\nset interface state eth0 up\n\
    set interface ip address eth0 10.0.0.1/24\nset ip neighbor eth0 10.0.0.9 02:00:00:00:00:09\n\
    ip route add 20.0.0.0/8 via 10.0.0.7\nlookup 10.0.0.1 0\nshow ip fib\nforward 3\nbegin\ncommit\nnonsense\n\
    ip route del 9.0.0.0/8\n# nothing\n";

const REFUSED: &str = "line 6: not counted\nline 7: not counted\nline 8: not counted\n\
    line 9: not counted\nline 10: not counted\nline 11: syntax\nline 12: no such route\n";

const TOTALS: &str =
    "drop 2\nreceive 2\nglean eth0 1\nadj eth0 3\nincomplete eth0 1\ncapture ends inside packet 10\n";

/// Where nine packets go.
const ADDRS: [[u8; 4]; 9] = [
    [10, 0, 0, 1],
    [10, 0, 0, 1],
    [10, 0, 0, 5],
    [10, 0, 0, 9],
    [10, 0, 0, 9],
    [10, 0, 0, 9],
    [20, 1, 1, 1],
    [30, 0, 0, 1],
    [224, 0, 0, 1],
];

// A packet to that address.
fn put_packet(file: &mut Vec<u8>, addr: &[u8]) -> Result<(), AllocError> {
    file.extend_from_slice(b"\0\0\0\0\0\0\0\0\x14\0\0\0\x14\0\0\0")?;
    file.extend_from_slice(b"\x45\0\0\x14\0\0\0\0\x40\x01\0\0\x01\x02\x03\x04")?;
    file.extend_from_slice(addr)
}

// Nine packets to these addresses, one of no bytes, and the first bytes of one more record.
fn packets(alloc: Global) -> Result<Vec<u8>, AllocError> {
    let mut file = HEADER.to_vec(alloc)?;
    for addr in ADDRS {
        put_packet(&mut file, addr.as_slice())?;
    }
    file.extend_from_slice(&[0; 23])?;
    Ok(file)
}

#[test]
fn each_class_has_its_line(rt: HostRuntime) -> Result<(), Fail> {
    let alloc = rt.alloc();
    let want = format!(in alloc; "{REFUSED}{TOTALS}")?;
    let capture = packets(alloc)?;
    let words = ["commands", "capture"];
    let files = (LINES, capture.as_slice());
    let (status, text) = outcome(&rt, alloc, &words, files, (&[], &[]), &FreeGate)?;
    assert_eq!(rt; status, 0);
    assert_eq!(rt; text.as_slice(), want.as_bytes());
    Ok(())
}

#[test]
fn a_header_alone_counts_nothing(rt: HostRuntime) -> Result<(), Fail> {
    let words = ["commands", "capture"];
    let files = (UPLINKS, HEADER);
    let (status, text) = outcome(&rt, rt.alloc(), &words, files, (&[], &[]), &FreeGate)?;
    assert!(rt; status == 0 && text.is_empty());
    Ok(())
}

#[test]
fn answers_faults(rt: HostRuntime) -> Result<(), Fail> {
    let none: &[u32] = &[];
    let first: &[u32] = &[0];
    let second: &[u32] = &[1];
    let rows: [(&[&str], (&[u32], &[u32]), u8); 9] = [
        (&["commands"], (none, none), 1),
        (&["--workers", "9", "commands", "capture"], (none, none), 1),
        (&["--objects", "65", "commands", "capture"], (none, none), 1),
        (&["--walk", "1", "commands", "capture"], (none, none), 1),
        (&["missing", "capture"], (none, none), 2),
        (&["commands", "missing"], (none, none), 3),
        (&["commands", "capture"], (first, none), 2),
        (&["commands", "capture"], (second, none), 3),
        (&["commands", "capture"], (none, first), 4),
    ];
    for (words, failing, want) in rows {
        let files = (LINES, HEADER);
        let (status, text) = outcome(&rt, rt.alloc(), words, files, failing, &FreeGate)?;
        assert_eq!(rt; status, want, "{words:?}");
        assert!(rt; text.is_empty());
    }
    let files = (LINES, &HEADER[..23]);
    let words = ["commands", "capture"];
    let (status, _) = outcome(&rt, rt.alloc(), &words, files, (none, first), &FreeGate)?;
    assert_eq!(rt; status, 5);
    Ok(())
}
