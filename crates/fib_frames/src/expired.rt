// The lines on packets whose time to live is used up.
ghost use Rattle.std.specs.Prelude.{◌≡◌, ◌≤◌, ◌<◌, ◌++◌, length, flat_map, OnOk, if◌then◌else◌, ◌∷◌, []};
ghost use Rattle.fib_frames.specs.Frames.{AreInside, expired_line, expired_text, expires_by};

use crate::frames::packet_in;
use fib_capture::Spans;
use fib_core_results::Record;
use fib_resolve::End;
use std::alloc::AllocError;

// Whether a packet that ends so would leave, but has no hop left.
fn expires(packet: &[u8], end: &End) -> bool
    requires { 0 < length packet.now → 20 ≤ length packet.now }
    ensures { result ≡ expires_by packet.now end.now }
{
    match end {
        End::Hop { mac: Some(_), .. } => packet.is_empty() || packet[8] <= 1,
        _ => false,
    }
}

// Appends the line on a packet.
#[tactic(auto, unfolding(crate::specs::Frames::expired_line))]
fn put_line(out: &mut Vec<u8>, number: u32) -> Result<(), AllocError>
    ensures { OnOk result (out.new.items ≡ out.old.items ++ expired_line number) }
{
    let line = format!(in *out.allocator(); "ttl expired in packet {number}\n")?;
    out.extend_from_slice(line.as_bytes())
}

// Appends the line on a packet that ends so, where it has no hop left.
fn put_if_expired(
    out: &mut Vec<u8>,
    packet: &[u8],
    end: &End,
    number: u32,
) -> Result<(), AllocError>
    requires { 0 < length packet.now → 20 ≤ length packet.now }
    ensures { OnOk result (out.new.items ≡ out.old.items ++ flat_map expired_line
        (if expires_by packet.now end.now then number ∷ [] else [])) }
{
    if expires(packet, end) {
        put_line(out, number)?;
    }
    Ok(())
}

/// Appends the lines on packets with these results that would leave, but have no hop left.
pub fn put_expired(
    out: &mut Vec<u8>,
    bytes: &[u8],
    spans: &Spans,
    results: &[(u32, Record)],
) -> Result<(), AllocError>
    requires { AreInside bytes.now spans.now }
    ensures { OnOk result (out.new.items ≡ out.old.items ++ expired_text bytes.now spans.now results.now) }
{
    'results: for kept in results {
        put_if_expired(out, packet_in(bytes, spans, kept.0), &kept.1.end, kept.0)?;
    }
    Ok(())
}
