// The frames in which packets leave.
ghost use Rattle.std.specs.Prelude.{◌≡◌, ◌≤◌, ◌<◌, ◌++◌, length, OnOk};
ghost use Rattle.fib_frames.specs.Frames.{AreInside, packet_in, records_in, sent_by};
ghost use Rattle.std.specs.Prelude.{flat_map};
ghost use Rattle.fib_capture.specs.Written.{record_bytes};
ghost use Rattle.fib_capture.specs.declared.packet.Order.TheVariants.{Little};

use fib_capture::Spans;
use fib_core_results::Record;
use fib_resolve::End;
use fib_rewrite::put_frame;
use std::alloc::AllocError;

/// The packet of that number in a file with these spans, from its IPv4 header on: of at least 20 bytes, or empty where it is no flow.
pub fn packet_in<'a>(bytes: &'a [u8], spans: &Spans, place: u32) -> &'a [u8]
    requires inside { AreInside bytes.now spans.now }
    ensures value { result.now ≡ packet_in bytes.entry.now spans.now place }
    ensures long { 0 < length result.now → 20 ≤ length result.now }
    ensures short { length result.now ≤ length bytes.entry.now }
{
    if place >= spans.count() {
        return &bytes[..0];
    }
    match spans.ipv4(place) {
        Some((start, size)) => {
            let start = start as usize;
            &bytes[start..start + size as usize]
        }
        None => &bytes[..0],
    }
}

// Appends the record of a packet that ends so, where it leaves.
fn put_sent(out: &mut Vec<u8>, packet: &[u8], end: &End) -> Result<(), AllocError>
    requires long { 0 < length packet.now → 20 ≤ length packet.now }
    requires short { length packet.now ≤ 268435456 }
    ensures { OnOk result (out.new.items ≡ out.old.items ++ flat_map (record_bytes Little) (sent_by packet.now end.now)) }
{
    let End::Hop {
        interface,
        next_hop: _,
        mac,
    } = *end
    else {
        return Ok(());
    };
    let Some(mac) = mac else {
        return Ok(());
    };
    if packet.is_empty() {
        return Ok(());
    }
    put_frame(out, packet, interface, mac)?;
    Ok(())
}

/// Appends the records of the packets that leave, of those with these results.
pub fn put_frames(
    out: &mut Vec<u8>,
    bytes: &[u8],
    spans: &Spans,
    results: &[(u32, Record)],
) -> Result<(), AllocError>
    requires inside { AreInside bytes.now spans.now }
    requires short { length bytes.now ≤ 268435456 }
    ensures { OnOk result (out.new.items ≡ out.old.items ++ records_in bytes.now spans.now results.now) }
{
    'results: for kept in results {
        put_sent(out, packet_in(bytes, spans, kept.0), &kept.1.end)?;
    }
    Ok(())
}
