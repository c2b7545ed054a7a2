// Packets as they are sent on.
ghost use Rattle.std.specs.Prelude.{◌≡◌, true, IsTrue, IfOk, length};

use fib_addr::Mac;
use fib_rewrite::{laws, put_frame};
use std::alloc::{AllocError, Global};
use std::process::Abort;
use std::test::Fail;

/// What stands before the packet: the record's header, target and source for interface 3, and the type.
const BEFORE: &[u8] =
    b"\0\0\0\0\0\0\0\0\x22\0\0\0\x22\0\0\0\x02\0\0\0\0\x09\x02\xfe\0\0\0\x03\x08\0";

// Ends the test where this doesn't hold.
fn holds(rt: &impl Abort, fact: bool)
    ensures { IsTrue fact }
{
    assert!(rt; fact);
}

// A packet of twenty bytes with that time to live and checksum.
fn packet(alloc: Global, hops: u8, checksum: u16) -> Result<Vec<u8>, AllocError>
    ensures { IfOk result (λ bytes. length bytes.items ≡ 20) }
{
    let [high, low] = checksum.to_be_bytes();
    let bytes = [
        0x45, 0, 0, 20, 0, 0, 0, 0, hops, 1, high, low, 1, 2, 3, 4, 10, 0, 0, 9,
    ];
    bytes.to_vec(alloc)
}

// What is appended for that packet to a neighbor behind interface 3; None where no hop is left to it.
fn sent(alloc: Global, hops: u8, checksum: u16) -> Result<Option<Vec<u8>>, AllocError> {
    let mut out = Vec::new(alloc);
    let Some(mac) = Mac::new(0x0200_0000_0009) else {
        return Ok(None);
    };
    let live = put_frame(&mut out, &packet(alloc, hops, checksum)?, 3, mac)?;
    Ok(if live { Some(out) } else { None })
}

// Whether that packet leaves, with the other time to live and checksum.
fn leaves_as(alloc: Global, before: (u8, u16), after: (u8, u16)) -> Result<bool, AllocError> {
    let Some(bytes) = sent(alloc, before.0, before.1)? else {
        return Ok(false);
    };
    let whole = packet(alloc, after.0, after.1)?;
    Ok(
        bytes.len() == BEFORE.len() + whole.len()
            && bytes.starts_with(BEFORE)
            && bytes.ends_with(&whole),
    )
}

#[test]
fn the_checksum_follows_the_hops(rt: HostRuntime) -> Result<(), Fail> {
    let alloc = rt.alloc();
    for (before, after) in [
        (0, 0x0100),
        (0x1234, 0x1334),
        (0xfefe, 0xfffe),
        (0xfeff, 0),
        (0xff00, 1),
        (0xffff, 0x0100),
    ] {
        holds(&rt, leaves_as(alloc, (64, before), (63, after))?);
    }
    laws::header_sums_stay();
    laws::flows_stay();
    Ok(())
}

#[test]
fn the_last_hop_is_not_taken(rt: HostRuntime) -> Result<(), Fail> {
    let alloc = rt.alloc();
    holds(&rt, sent(alloc, 0, 7)?.is_none());
    holds(&rt, sent(alloc, 1, 7)?.is_none());
    holds(&rt, leaves_as(alloc, (2, 7), (1, 0x0107))?);
    Ok(())
}
