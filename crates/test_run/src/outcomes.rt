// Runs of files in memory, and files for them.
use fib_outside::{FreeGate, Gate, MemoryShelf, MemorySink};
use fib_run::fib_main;
use std::alloc::{AllocError, Global};
use std::sync::Wait;
use std::test::Fail;
use std::thread::Threads;

/// One packet, raw, in the lowest byte first and with microseconds.
pub const LITTLE: &[u8] = b"\
    \xd4\xc3\xb2\xa1\x02\x00\x04\x00\x00\x00\x00\x00\x00\x00\x00\x00\xff\xff\x00\x00\x65\x00\x00\x00\
    \x00\x00\x00\x00\x00\x00\x00\x00\x14\x00\x00\x00\x14\x00\x00\x00\
    \x45\x00\x00\x14\x00\x00\x00\x00\x40\x01\x00\x00\x01\x02\x03\x04\x0a\x00\x00\x09";

/// An interface with a neighbor, in four lines.
pub const NEIGHBOR: &str = "create interface eth0\nset interface state eth0 up\n\
    set interface ip address eth0 10.0.0.1/24\nset ip neighbor eth0 10.0.0.9 02:00:00:00:00:09\n";

/// What is printed of the packet behind those four lines.
pub const PACKET: &str =
    "packet 0 10.0.0.9 1701755127 4.4-4.4 adj eth0 10.0.0.9 02:00:00:00:00:09\n";

pub fn words_of(alloc: Global, words: &[&str]) -> Result<Vec<String>, AllocError> {
    let mut given = Vec::new(alloc);
    for word in words {
        given.push(String::from_str(alloc, word)?)?;
    }
    Ok(given)
}

/// The files `commands` and `capture`.
pub fn files_of(
    alloc: Global,
    commands: &[u8],
    capture: &[u8],
) -> Result<Vec<(String, Vec<u8>)>, AllocError> {
    let mut files = Vec::new(alloc);
    files.push((
        String::from_str(alloc, "commands")?,
        commands.to_vec(alloc)?,
    ))?;
    files.push((String::from_str(alloc, "capture")?, capture.to_vec(alloc)?))?;
    Ok(files)
}

/// The status of a run, and what it printed into so much room, where the fetches and writes of these numbers fail.
pub fn outcome<R: Threads + Wait + Sync, G: Gate>(
    rt: &R,
    alloc: Global,
    words: &[&str],
    files: (&[u8], &[u8]),
    failing: (&[u32], &[u32]),
    gate: &G,
) -> Result<(u8, Vec<u8>), Fail> {
    let given = words_of(alloc, words)?;
    let held = files_of(alloc, files.0, files.1)?;
    let mut shelf = MemoryShelf::new(held, failing.0.to_vec(alloc)?);
    let mut out = MemorySink::new(alloc, 100_000, failing.1.to_vec(alloc)?)?;
    let status = fib_main(rt, alloc, &given, &mut shelf, &mut out, gate);
    Ok((status, out.bytes().to_vec(alloc)?))
}

/// The same without faults, of the two files.
pub fn outcome_of<R: Threads + Wait + Sync>(
    rt: &R,
    alloc: Global,
    commands: &[u8],
    capture: &[u8],
) -> Result<(u8, Vec<u8>), Fail> {
    let words = ["commands", "capture"];
    outcome(
        rt,
        alloc,
        &words,
        (commands, capture),
        (&[], &[]),
        &FreeGate,
    )
}

/// Two uplinks and a next hop behind both, in nine lines.
const UPLINKS: &[u8] = b"create interface up0\ncreate interface up1\n\
    set interface state up0 up\nset interface state up1 up\n\
    set interface ip address up0 10.1.0.1/30\nset interface ip address up1 10.2.0.1/30\n\
    set ip neighbor up0 10.1.0.2 02:00:00:00:00:01\nset ip neighbor up1 10.2.0.2 02:00:00:00:00:02\n\
    ip route add 192.168.255.1/32 via 10.1.0.2 up0 via 10.2.0.2 up1\n";

/// A router with so many routes over the uplinks, which forwards in three rounds; after the second, or within it, one uplink goes down.
pub fn two_uplinks(alloc: Global, routes: u8, within: bool) -> Result<Vec<u8>, Fail> {
    let mut text = UPLINKS.to_vec(alloc)?;
    for k in 0..routes {
        let line = format!(in alloc; "ip route add 100.64.{k}.0/24 via 192.168.255.1\n")?;
        text.extend_from_slice(line.as_bytes())?;
    }
    let after = if within { "" } else { "forward 0\n" };
    let rounds = format!(in alloc;
        "forward 64\nforward 64\n{after}set interface state up0 down\nforward 64\n"
    )?;
    text.extend_from_slice(rounds.as_bytes())?;
    Ok(text)
}

/// 192 UDP packets, raw, one to each of the first routes.
pub fn udp_packets(alloc: Global) -> Result<Vec<u8>, Fail> {
    let mut file = LITTLE[..24].to_vec(alloc)?;
    for k in 0..192u8 {
        file.extend_from_slice(b"\0\0\0\0\0\0\0\0\x1c\0\0\0\x1c\0\0\0")?;
        file.extend_from_slice(b"\x45\0\0\x1c\0\0\0\0\x40\x11\0\0\xc6\x33\x64\x01\x64\x40")?;
        file.extend_from_slice(&[k, 9, 15, 160, 0, 53, 0, 8, 0, 0])?;
    }
    Ok(file)
}
