// Where the packets of a capture stand in its file.
ghost use Rattle.std.specs.Prelude.{◌≡◌, ◌+◌, ◌≤◌, ◌<◌, ◌^◌, [], Some, length, slice_get, vec_len, IfOk};
ghost use Rattle.fib_capture.specs.Captures.{frames_of, Gives};
ghost use Rattle.fib_capture.specs.Spans.{link_length, span_of, spans_from, spans_of};

use crate::packet::{CaptureError, Link, Order, Packet};
use crate::read::{FILE_HEADER, RECORD_HEADER, next_record, packet_of, read_header};
use std::alloc::{AllocError, Global};
use std::marker::Model;

/// Where the packets of a capture file stand among its bytes, in the order and by the numbers of its `Capture`.
///
/// For whoever sends a capture's packets on without copying them.
#[derive(Debug, Drop)]
pub struct Spans {
    spans: Vec<Option<(u32, u32)>>,
}

impl Model for Spans {
    ghost use Rattle.std.specs.Prelude.{List, ◌<◌, ◌^◌, vec_len};
    ghost use Rattle.fib_capture.specs.Spans.{Span};

    ghost Value = { List Span };

    ghost view = { λ s. s.spans.items };

    ghost invariant = { λ s. vec_len s.spans < 2 ^ 32 };
}

impl Spans {
    /// The spans of the packets of these bytes, at most 268,435,456 of them (256 MiB).
    ///
    /// Refused exactly where and as `Capture::read` refuses them; Memory where none is left.
    #[tactic(auto, unfolding(crate::specs::Spans::spans_of))]
    pub fn read(alloc: Global, bytes: &[u8]) -> Result<Spans, CaptureError>
        requires { length bytes.now ≤ 268435456 }
        ensures { Gives result (spans_of bytes.now) }
    {
        let (order, link) = read_header(bytes)?;
        Ok(read_spans(alloc, order, link, &bytes[FILE_HEADER..])?)
    }

    /// The spans of no file: of no packet. Takes no memory.
    pub fn none(alloc: Global) -> Spans
        ensures { result ≡ [] }
    {
        Spans {
            spans: Vec::new(alloc),
        }
    }

    /// The number of packets, without one that the file's end cuts.
    pub fn count(&self) -> u32
        ensures { result ≡ length self.now }
    {
        self.spans.len() as u32
    }

    /// The span of the packet of that number, which is below the count: the place among the file's bytes of its IPv4 header's
    /// first byte, and the number of its captured bytes from there on. None exactly where the packet is no flow.
    pub fn ipv4(&self, place: u32) -> Option<(u32, u32)>
        requires { place < length self.now }
        ensures { slice_get self.now place ≡ Some result }
    {
        self.spans[place as usize]
    }
}

/// The number of a frame's bytes before its IPv4 header.
fn link_length(link: Link) -> u32
    ensures { result ≡ link_length link }
{
    match link {
        Link::Ethernet => 14,
        Link::Raw => 0,
    }
}

/// The span of a frame whose captured bytes begin at a place of the file.
#[tactic(auto, unfolding(crate::specs::Spans::span_of))]
fn span_of(link: Link, start: u32, frame: &[u8]) -> Option<(u32, u32)>
    requires { start + length frame.now ≤ 268435456 }
    ensures { result ≡ span_of link start frame.now }
{
    match packet_of(link, frame) {
        Packet::Flow { .. } => {
            let before = link_length(link);
            Some((start + before, frame.len() as u32 - before))
        }
        _ => None,
    }
}

/// The spans of the bytes after the file header.
fn read_spans(alloc: Global, order: Order, link: Link, bytes: &[u8]) -> Result<Spans, AllocError>
    requires { 24 + length bytes.now ≤ 268435456 }
    ensures { IfOk result (λ s. s ≡ spans_from link 24 (frames_of order bytes.now)) }
{
    let mut spans = Vec::new(alloc);
    let mut rest = bytes;
    let mut at = FILE_HEADER as u32;
    while let Some((frame, after)) = next_record(order, rest) {
        let start = at + RECORD_HEADER as u32;
        spans.push(span_of(link, start, frame))?;
        at = start + frame.len() as u32;
        rest = after;
    }
    Ok(Spans { spans })
}
