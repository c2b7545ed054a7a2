// Whole runs over files and streams in memory.
ghost use Rattle.std.specs.Prelude.{IsTrue, true};

use crate::laws::frame_files_are_read_back;
use crate::top::frames_main;
use fib_outside::{FreeGate, MemoryShelf, MemorySink};
use std::alloc::{AllocError, Global};
use std::process::Abort;
use std::sync::Wait;
use std::test::Fail;
use std::thread::Threads;

/// The header of a capture of raw packets, in the lowest byte first and with microseconds.
const HEADER: &[u8] =
    b"\xd4\xc3\xb2\xa1\x02\x00\x04\x00\x00\x00\x00\x00\x00\x00\x00\x00\xff\xff\x00\x00\x65\x00\x00\x00";

/// A record of one packet of twenty bytes, up to its time to live, and from its protocol up to its target.
const BEFORE: &[u8] =
    b"\x00\x00\x00\x00\x00\x00\x00\x00\x14\x00\x00\x00\x14\x00\x00\x00\x45\x00\x00\x14\x00\x00\x00\x00";

const SOURCE: &[u8] = b"\x01\x00\x00\x01\x02\x03\x04";

/// An interface with a neighbor, and a round of five packets.
const COMMANDS: &[u8] = b"create interface eth0\nset interface state eth0 up\n\
    set interface ip address eth0 10.0.0.1/24\nset ip neighbor eth0 10.0.0.9 02:00:00:00:00:09\nforward 5\n";

/// What is printed of a packet to the neighbor, and where its time to live is used up.
const PRINTED: &[u8] =
    b"packet 0 10.0.0.9 1701755127 4.4-4.4 adj eth0 10.0.0.9 02:00:00:00:00:09\n";

const EXPIRED: &[u8] = b"ttl expired in packet 0\n";

/// The header of a file of frames, and the record of the frame in which the packet leaves.
const FRAMES: &[u8] =
    b"\xd4\xc3\xb2\xa1\x02\x00\x04\x00\x00\x00\x00\x00\x00\x00\x00\x00\x00\x00\x04\x00\x01\x00\x00\x00";

const SENT: &[u8] = b"\x00\x00\x00\x00\x00\x00\x00\x00\x22\x00\x00\x00\x22\x00\x00\x00\
    \x02\x00\x00\x00\x00\x09\x02\xfe\x00\x00\x00\x00\x08\x00\
    \x45\x00\x00\x14\x00\x00\x00\x00\x3f\x01\x01\x00\x01\x02\x03\x04\x0a\x00\x00\x09";

// Ends the test where this doesn't hold.
fn holds(rt: &impl Abort, fact: bool)
    ensures { IsTrue fact }
{
    assert!(rt; fact);
}

// How a run ended, and what it sent.
#[derive(Drop)]
struct Outcome {
    status: u8,
    text: Vec<u8>,
    frames: Vec<u8>,
}

// Appends a record of a packet to 10.0.0.LAST.
fn put_packet(file: &mut Vec<u8>, hops: u8, last: u8) -> Result<(), AllocError> {
    file.extend_from_slice(BEFORE)?;
    file.push(hops)?;
    file.extend_from_slice(SOURCE)?;
    file.extend_from_slice(&[10, 0, 0, last])
}

// A capture of one packet to the neighbor.
fn one_packet(alloc: Global, hops: u8) -> Result<Vec<u8>, AllocError> {
    let mut file = HEADER.to_vec(alloc)?;
    put_packet(&mut file, hops, 9)?;
    Ok(file)
}

// Runs the commands over a capture; the writes of these numbers fail, of the text and of the frames.
fn run_over<R: Threads + Wait + Sync>(
    rt: &R,
    alloc: Global,
    words: &[&str],
    capture: Vec<u8>,
    failing: (&[u32], &[u32]),
) -> Result<Outcome, Fail> {
    let mut given = Vec::new(alloc);
    for word in words {
        given.push(String::from_str(alloc, word)?)?;
    }
    let mut files = Vec::new(alloc);
    files.push((
        String::from_str(alloc, "commands")?,
        COMMANDS.to_vec(alloc)?,
    ))?;
    files.push((String::from_str(alloc, "capture")?, capture))?;
    let mut shelf = MemoryShelf::new(files, Vec::new(alloc));
    let mut text = MemorySink::new(alloc, 10_000, failing.0.to_vec(alloc)?)?;
    let mut frames = MemorySink::new(alloc, 10_000, failing.1.to_vec(alloc)?)?;
    let status = frames_main(
        rt,
        alloc,
        &given,
        &mut shelf,
        &mut text,
        &mut frames,
        &FreeGate,
    );
    Ok(Outcome {
        status,
        text: text.bytes().to_vec(alloc)?,
        frames: frames.bytes().to_vec(alloc)?,
    })
}

// Whether these are the two texts, one after the other.
fn is_both(bytes: &[u8], one: &[u8], other: &[u8]) -> bool {
    bytes.len() == one.len() + other.len() && bytes.starts_with(one) && bytes.ends_with(other)
}

#[test]
fn a_packet_leaves_with_one_hop_less(rt: HostRuntime) -> Result<(), Fail> {
    let capture = one_packet(rt.alloc(), 64)?;
    let ran = run_over(
        &rt,
        rt.alloc(),
        &["commands", "capture"],
        capture,
        (&[], &[]),
    )?;
    holds(&rt, ran.status == 0);
    holds(&rt, ran.text.as_slice() == PRINTED);
    holds(&rt, is_both(&ran.frames, FRAMES, SENT));
    frame_files_are_read_back();
    Ok(())
}

#[test]
fn a_packet_without_a_hop_left_stays(rt: HostRuntime) -> Result<(), Fail> {
    for hops in [0, 1] {
        let capture = one_packet(rt.alloc(), hops)?;
        let ran = run_over(
            &rt,
            rt.alloc(),
            &["commands", "capture"],
            capture,
            (&[], &[]),
        )?;
        holds(&rt, ran.status == 0);
        holds(&rt, is_both(&ran.text, PRINTED, EXPIRED));
        holds(&rt, ran.frames.as_slice() == FRAMES);
    }
    Ok(())
}

#[test]
fn only_packets_for_a_known_neighbor_leave(rt: HostRuntime) -> Result<(), Fail> {
    // The router's own address, an address of its network, and the neighbor.
    let mut capture = HEADER.to_vec(rt.alloc())?;
    for last in [1, 8, 9] {
        put_packet(&mut capture, 64, last)?;
    }
    let ran = run_over(
        &rt,
        rt.alloc(),
        &["commands", "capture"],
        capture,
        (&[], &[]),
    )?;
    holds(&rt, ran.status == 0);
    holds(&rt, is_both(&ran.frames, FRAMES, SENT));
    Ok(())
}

#[test]
fn without_a_capture_the_file_is_a_header(rt: HostRuntime) -> Result<(), Fail> {
    let ran = run_over(
        &rt,
        rt.alloc(),
        &["commands"],
        Vec::new(rt.alloc()),
        (&[], &[]),
    )?;
    holds(&rt, ran.status == 0 && ran.text.is_empty());
    holds(&rt, ran.frames.as_slice() == FRAMES);
    Ok(())
}

#[test]
fn either_stream_may_fail(rt: HostRuntime) -> Result<(), Fail> {
    let words = ["commands", "capture"];
    let capture = one_packet(rt.alloc(), 64)?;
    let ran = run_over(&rt, rt.alloc(), &words, capture, (&[0], &[]))?;
    holds(
        &rt,
        ran.status == 4 && ran.text.is_empty() && ran.frames.is_empty(),
    );
    let capture = one_packet(rt.alloc(), 64)?;
    let ran = run_over(&rt, rt.alloc(), &words, capture, (&[], &[1]))?;
    holds(&rt, ran.status == 4 && ran.text.as_slice() == PRINTED);
    holds(&rt, ran.frames.as_slice() == FRAMES);
    Ok(())
}

#[test]
fn a_seed_is_refused(rt: HostRuntime) -> Result<(), Fail> {
    let ran = run_over(
        &rt,
        rt.alloc(),
        &["--soak", "1"],
        Vec::new(rt.alloc()),
        (&[], &[]),
    )?;
    holds(
        &rt,
        ran.status == 1 && ran.text.is_empty() && ran.frames.is_empty(),
    );
    Ok(())
}
