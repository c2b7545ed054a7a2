// A router with two uplinks and 200 routes, over whole runs.
use crate::outcomes::{files_of, outcome, two_uplinks, udp_packets, words_of};
use fib_outside::{FreeGate, MeetGate, MemoryShelf, MemorySink};
use fib_run::fib_main;
use std::alloc::Global;
use std::sync::Wait;
use std::test::Fail;
use std::thread::Threads;

// The status of these rounds and what they printed, where the write of one number fails.
fn uplinks_outcome<R: Threads + Wait + Sync>(
    rt: &R,
    alloc: Global,
    failing: &[u32],
) -> Result<(u8, Vec<u8>), Fail> {
    let words = words_of(alloc, &["commands", "capture"])?;
    let held = files_of(
        alloc,
        &two_uplinks(alloc, 200, false)?,
        &udp_packets(alloc)?,
    )?;
    let mut shelf = MemoryShelf::new(held, Vec::new(alloc));
    let mut out = MemorySink::new(alloc, 100_000, failing.to_vec(alloc)?)?;
    let status = fib_main(rt, alloc, &words, &mut shelf, &mut out, &FreeGate);
    Ok((status, out.bytes().to_vec(alloc)?))
}

#[test]
fn a_failed_write_leaves_a_first_part(rt: HostRuntime) -> Result<(), Fail> {
    let (status, whole) = uplinks_outcome(&rt, rt.alloc(), &[])?;
    assert_eq!(rt; status, 0);
    assert!(rt; whole.len() > 192 * 40);
    for k in 0..10u32 {
        let (status, text) = uplinks_outcome(&rt, rt.alloc(), &[k])?;
        if status == 0 {
            assert_eq!(rt; text.as_slice(), whole.as_slice(), "write {k}");
        } else {
            assert_eq!(rt; status, 4, "write {k}");
            assert!(rt; text.len() < whole.len() && whole.starts_with(text.as_slice()));
        }
    }
    Ok(())
}

// What is known of a packet's line: its number, whether its flow's bucket is the second uplink's, and the line's words behind the hash.
#[derive(Clone, Copy)]
struct Seen<'a> {
    is_second: bool,
    window: &'a str,
    end: &'a str,
}

// The line of a packet: `packet NUMBER ADDRESS HASH WINDOW END`.
fn read_line(line: &str) -> Option<Seen<'_>> {
    let (_, rest) = line.strip_prefix("packet ")?.split_once(' ')?;
    let (_, rest) = rest.split_once(' ')?;
    let (hash, rest) = rest.split_once(' ')?;
    let (window, end) = rest.split_once(' ')?;
    let Ok(hash) = hash.parse::<u32>() else {
        return None;
    };
    Some(Seen {
        is_second: hash / 2 % 16 >= 8,
        window,
        end,
    })
}

const FIRST: &str = "adj up0 10.1.0.2 02:00:00:00:00:01";

const SECOND: &str = "adj up1 10.2.0.2 02:00:00:00:00:02";

// Before the change: the flow's own uplink.
fn is_before(seen: &Seen<'_>) -> bool {
    seen.window == "209.209-209.209" && seen.end == if seen.is_second { SECOND } else { FIRST }
}

// In the midst of the change a flow that it doesn't touch keeps its uplink, and any other drops or leaves by one of the two.
fn is_amid(seen: &Seen<'_>) -> bool {
    let windows = [
        "209.209-209.209",
        "209.209-209.210",
        "209.210-209.210",
        "209.210-210.210",
        "209.209-210.210",
        "210.210-210.210",
    ];
    let within = windows.iter().any(|w| -> bool { *w == seen.window });
    let kept = seen.end == SECOND;
    let other = seen.end == FIRST || seen.end == "drop";
    within && (kept || (other && !seen.is_second))
}

// After the change all leave by the second.
fn is_after(seen: &Seen<'_>) -> bool {
    seen.window == "210.210-210.210" && seen.end == SECOND
}

// Whether each of the 192 lines is as its round says.
fn are_right(text: &str) -> bool {
    let mut count = 0u32;
    for line in text.lines() {
        let right = match read_line(line) {
            Some(found) if count < 64 => is_before(&found),
            Some(found) if count < 128 => is_amid(&found),
            Some(found) => is_after(&found),
            None => false,
        };
        if !right || count >= 192 {
            return false;
        }
        count += 1;
    }
    count == 192
}

// One run in which the packet of that number meets the change, on so many workers.
fn meets<R: Threads + Wait + Sync>(
    rt: &R,
    alloc: Global,
    packet: u32,
    workers: &str,
) -> Result<bool, Fail> {
    let gate = MeetGate::new(packet, 210, 1_000_000);
    let words = ["--workers", workers, "commands", "capture"];
    let files = (two_uplinks(alloc, 200, true)?, udp_packets(alloc)?);
    let (status, text) = outcome(rt, alloc, &words, (&files.0, &files.1), (&[], &[]), &gate)?;
    let right = str::from_utf8(&text).is_ok_and(|text| -> bool { are_right(text) });
    Ok(gate.met() && status == 0 && right)
}

#[test]
fn an_untouched_flow_keeps_its_uplink(rt: HostRuntime) -> Result<(), Fail> {
    // Each packet of the second round from 64 to 113 meets the change in one run.
    for packet in 64..114u32 {
        let workers = if packet % 2 == 0 { "1" } else { "4" };
        let met = meets(&rt, rt.alloc(), packet, workers)?;
        assert!(rt; met, "{packet}");
    }
    Ok(())
}
