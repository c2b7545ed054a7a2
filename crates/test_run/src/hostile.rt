// Hostile files, and shelves that fail as they are read.
use crate::outcomes::{LITTLE, NEIGHBOR, files_of, outcome_of, words_of};
use fib_outside::{FreeGate, MemoryShelf, MemorySink};
use fib_run::fib_main;
use std::alloc::{AllocError, Global};
use std::sync::Wait;
use std::test::Fail;
use std::thread::Threads;

// The status of a run of both files whose read fails at that place: the number of its fetch, and its own since then; and how many bytes it wrote.
fn failing_read<R: Threads + Wait + Sync>(
    rt: &R,
    alloc: Global,
    at: (u32, u32),
) -> Result<(u8, usize), Fail> {
    let words = words_of(alloc, &["commands", "capture"])?;
    let commands = format!(in alloc; "{NEIGHBOR}forward 5\n")?;
    let held = files_of(alloc, commands.as_bytes(), LITTLE)?;
    let mut reads = Vec::new(alloc);
    reads.push(at)?;
    let mut shelf = MemoryShelf::failing_reads(held, Vec::new(alloc), reads);
    let mut out = MemorySink::new(alloc, 1000, Vec::new(alloc))?;
    let status = fib_main(rt, alloc, &words, &mut shelf, &mut out, &FreeGate);
    Ok((status, out.bytes().len()))
}

#[test]
fn reads_fail(rt: HostRuntime) -> Result<(), Fail> {
    for (at, want) in [((0, 0), 2), ((0, 1), 2), ((1, 0), 3), ((1, 1), 3)] {
        let got = failing_read(&rt, rt.alloc(), at)?;
        assert_eq!(rt; got, (want, 0), "{at:?}");
    }
    // The third read of either file never comes.
    let (status, _) = failing_read(&rt, rt.alloc(), (1, 2))?;
    assert_eq!(rt; status, 0);
    Ok(())
}

/// Lines behind the interface with its neighbor, and what they print.
const LINES: [(&str, &str); 10] = [
    ("lookup 010.000.000.001 0", "receive\n"),
    ("lookup 10.0.0.1 4294967296", "line 5: syntax\n"),
    ("lookup 10.0.0.1 00000000000", "line 5: syntax\n"),
    ("lookup 256.0.0.0 0", "line 5: syntax\n"),
    ("lookup 10.0.0.1\0 0", "line 5: syntax\n"),
    ("ip route add 10.0.0.0/33 via drop", "line 5: syntax\n"),
    (
        "ip route add 10.0.0.0/8 via drop weight 0",
        "line 5: syntax\n",
    ),
    (
        "ip route add 10.0.0.0/8 via drop weight 256",
        "line 5: syntax\n",
    ),
    (
        "ip route add 10.0.0.0/8 via drop preference 256",
        "line 5: syntax\n",
    ),
    (
        "lookup 10.0.0.9 4294967295",
        "adj eth0 10.0.0.9 02:00:00:00:00:09\n",
    ),
];

#[test]
fn hostile_lines(rt: HostRuntime) -> Result<(), Fail> {
    let alloc = rt.alloc();
    for (line, want) in LINES {
        let commands = format!(in alloc; "{NEIGHBOR}{line}\n")?;
        let (status, text) = outcome_of(&rt, alloc, commands.as_bytes(), LITTLE)?;
        assert_eq!(rt; status, 0, "{line:?}");
        assert_eq!(rt; text.as_slice(), want.as_bytes(), "{line:?}");
    }
    Ok(())
}

// A route with one path, which its line names ten thousand times.
fn one_path_often(alloc: Global) -> Result<Vec<u8>, AllocError> {
    let mut text = NEIGHBOR.as_bytes().to_vec(alloc)?;
    text.extend_from_slice(b"ip route add 20.0.0.0/8")?;
    for _time in 0..10_000 {
        text.extend_from_slice(b" via 10.0.0.7")?;
    }
    text.extend_from_slice(
        b"\nlookup 20.1.1.1 0\nip route del 20.0.0.0/8 via 10.0.0.7\nip route del 20.0.0.0/8\n",
    )?;
    Ok(text)
}

#[test]
fn ten_thousand_equal_paths_are_one(rt: HostRuntime) -> Result<(), Fail> {
    let alloc = rt.alloc();
    let (status, text) = outcome_of(&rt, alloc, &one_path_often(alloc)?, LITTLE)?;
    assert_eq!(rt; status, 0);
    assert_eq!(rt;
        text.as_slice(),
        b"incomplete eth0 10.0.0.7\nline 8: no such route\n".as_slice()
    );
    Ok(())
}

// The capture's header, then a record of these lengths and bytes.
fn capture_of(alloc: Global, lengths: [u8; 4], bytes: &[u8]) -> Result<Vec<u8>, AllocError> {
    let mut file = LITTLE[..24].to_vec(alloc)?;
    file.extend_from_slice(&[0; 8])?;
    file.extend_from_slice(&lengths)?;
    file.extend_from_slice(&lengths)?;
    file.extend_from_slice(bytes)?;
    Ok(file)
}

#[test]
fn hostile_captures(rt: HostRuntime) -> Result<(), Fail> {
    let alloc = rt.alloc();
    let commands = format!(in alloc; "{NEIGHBOR}forward 5\n")?;
    let mut long_header = LITTLE[40..].to_vec(alloc)?;
    long_header[0] = 0x4f;
    long_header[9] = 6;
    let rows = [
        (
            capture_of(alloc, [255; 4], &LITTLE[40..])?,
            "capture ends inside packet 0\n",
        ),
        (
            LITTLE[..39].to_vec(alloc)?,
            "capture ends inside packet 0\n",
        ),
        (capture_of(alloc, [0; 4], &[])?, "packet 0 not ipv4\n"),
        (
            capture_of(alloc, [20, 0, 0, 0], &long_header)?,
            "packet 0 10.0.0.9 2440618414 4.4-4.4 adj eth0 10.0.0.9 02:00:00:00:00:09\n",
        ),
    ];
    for (capture, want) in rows {
        let (status, text) = outcome_of(&rt, alloc, commands.as_bytes(), &capture)?;
        assert_eq!(rt; status, 0, "{want}");
        assert_eq!(rt; text.as_slice(), want.as_bytes(), "{want}");
    }
    Ok(())
}

/// An interface without a neighbor, in three lines.
const LINK: &str =
    "create interface eth0\nset interface state eth0 up\nset interface ip address eth0 10.0.0.1/24\n";

// Routes of so many /24s, each by way of an address within the next one; the last by way of that next hop.
fn chained(alloc: Global, count: u32, last: &str) -> Result<Vec<u8>, Fail> {
    let mut text = LINK.as_bytes().to_vec(alloc)?;
    for k in 0..count {
        let (p, q) = (k / 250, k % 250);
        let (r, t) = ((k + 1) / 250, (k + 1) % 250);
        let line = if k + 1 == count {
            format!(in alloc; "ip route add 20.{p}.{q}.0/24 via {last}\n")?
        } else {
            format!(in alloc; "ip route add 20.{p}.{q}.0/24 via 20.{r}.{t}.1\n")?
        };
        text.extend_from_slice(line.as_bytes())?;
    }
    Ok(text)
}

#[test]
fn a_chain_of_a_thousand_routes(rt: HostRuntime) -> Result<(), Fail> {
    let alloc = rt.alloc();
    let mut commands = chained(alloc, 1000, "10.0.0.7")?;
    commands.extend_from_slice(b"lookup 20.0.0.9 4294967295\n")?;
    let (status, text) = outcome_of(&rt, alloc, &commands, LITTLE)?;
    assert_eq!(rt; status, 0);
    assert_eq!(rt; text.as_slice(), b"incomplete eth0 10.0.0.7\n".as_slice());
    Ok(())
}

#[test]
fn a_ring_of_five_hundred_routes_with_a_way_out(rt: HostRuntime) -> Result<(), Fail> {
    let alloc = rt.alloc();
    let mut commands = chained(alloc, 500, "20.0.0.1")?;
    commands.extend_from_slice(
        b"ip route add 20.0.0.0/24 via 10.0.0.7\nlookup 20.0.0.9 0\nlookup 20.0.1.9 0\n",
    )?;
    let (status, text) = outcome_of(&rt, alloc, &commands, LITTLE)?;
    assert_eq!(rt; status, 0);
    assert_eq!(rt;
        text.as_slice(),
        b"incomplete eth0 10.0.0.7\ndrop\n".as_slice()
    );
    Ok(())
}
