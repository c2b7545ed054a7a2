// One forward reader of captures.
ghost use Rattle.std.specs.Prelude.{◌≡◌, ◌+◌, ◌≤◌, ◌<◌, length, IfOk, IfSome, IsTrue, ◌↔◌, Result, Ok, Err};
ghost use Rattle.fib_capture.specs.Captures.{big_16, big_32, number_at, order_of, link_of, header_of, record_of, records_of, header_length};
ghost use Rattle.fib_capture.specs.Captures.{has_ports, ports_of, is_header, ipv4_packet_of, packet_of, capture_of, Gives};
ghost use Rattle.std.specs.Option.{option_map};

use crate::capture::Capture;
use crate::flow::flow_hash;
use crate::packet::{CaptureError, Link, Order, Packet};
use byteorder::{BigEndian, ByteOrder, LittleEndian};
use fib_addr::Addr;
use std::alloc::{AllocError, Global};

/// The bytes of the file header, and of a record's header.
pub(crate) const FILE_HEADER: usize = 24;

pub(crate) const RECORD_HEADER: usize = 16;

/// The protocols with ports.
const TCP: u8 = 6;

const UDP: u8 = 17;

/// 16 bits at a place, the highest byte first.
fn big_16(bytes: &[u8], at: usize) -> u16
    requires { at + 2 ≤ length bytes.now }
    ensures { result ≡ big_16 bytes.now at }
{
    BigEndian::read_u16(&bytes[at..])
}

/// 32 bits at a place, the highest byte first.
fn big_32(bytes: &[u8], at: usize) -> u32
    requires { at + 4 ≤ length bytes.now }
    ensures { result ≡ big_32 bytes.now at }
{
    BigEndian::read_u32(&bytes[at..])
}

/// A number of the file, in its byte order.
#[tactic(auto, unfolding(crate::specs::Captures::number_at))]
fn number_at(order: Order, bytes: &[u8], at: usize) -> u32
    requires { at + 4 ≤ length bytes.now }
    ensures { result ≡ number_at order bytes.now at }
{
    match order {
        Order::Little => LittleEndian::read_u32(&bytes[at..]),
        Order::Big => big_32(bytes, at),
    }
}

#[tactic(auto, unfolding(crate::specs::Captures::order_of))]
fn order_of(magic: u32) -> Option<Order>
    ensures { result ≡ order_of magic }
{
    match magic {
        0xd4c3_b2a1 | 0x4d3c_b2a1 => Some(Order::Little),
        0xa1b2_c3d4 | 0xa1b2_3c4d => Some(Order::Big),
        _ => None,
    }
}

#[tactic(auto, unfolding(crate::specs::Captures::link_of))]
fn link_of(number: u32) -> Option<Link>
    ensures { result ≡ link_of number }
{
    match number {
        1 => Some(Link::Ethernet),
        101 => Some(Link::Raw),
        _ => None,
    }
}

/// The byte order and the link that the file header tells.
#[tactic(auto, unfolding(crate::specs::Captures::header_of))]
pub(crate) fn read_header(bytes: &[u8]) -> Result<(Order, Link), CaptureError>
    ensures value { result ≡ header_of bytes.now }
    ensures long { IfOk result (λ h. 24 ≤ length bytes.now) }
{
    if bytes.len() < FILE_HEADER {
        return Err(CaptureError::Short);
    }
    let Some(order) = order_of(big_32(bytes, 0)) else {
        return Err(CaptureError::Magic);
    };
    let number = number_at(order, bytes, 20);
    match link_of(number) {
        Some(link) => Ok((order, link)),
        None => Err(CaptureError::LinkType(number)),
    }
}

/// The captured bytes of the first record, and what follows it. None where it is not whole.
#[tactic(auto, unfolding(crate::specs::Captures::record_of))]
pub(crate) fn next_record(order: Order, bytes: &[u8]) -> Option<(&[u8], &[u8])>
    ensures value { record_of order bytes.now ≡ option_map (λ x. (x.0.now, x.1.now)) result }
    ensures shorter { IfSome result (λ x. length x.1.now < length bytes.now) }
{
    if bytes.len() < RECORD_HEADER {
        return None;
    }
    let captured = number_at(order, bytes, 8) as usize;
    let body = &bytes[RECORD_HEADER..];
    if body.len() < captured {
        return None;
    }
    Some(body.split_at(captured))
}

/// Whether the ports of TCP or UDP are captured: they follow the IPv4 header of a first fragment.
fn has_ports(header: &[u8]) -> bool
    requires { 20 ≤ length header.now }
    ensures { result ≡ has_ports header.now }
{
    let with_ports = header[9] == TCP || header[9] == UDP;
    let is_first = big_16(header, 6) % 8192 == 0;
    with_ports && is_first && header_length(header) + 4 <= header.len()
}

/// The number of bytes of an IPv4 header, as its first byte tells: below 64.
fn header_length(header: &[u8]) -> usize
    requires { 1 ≤ length header.now }
    ensures { result ≡ header_length header.now }
{
    4 * usize::from(header[0] % 16)
}

/// The source and the target port, both 0 where none are captured.
#[tactic(auto, unfolding(crate::specs::Captures::ports_of))]
fn ports_of(header: &[u8]) -> (u16, u16)
    requires { 20 ≤ length header.now }
    ensures { result ≡ ports_of header.now }
{
    if !has_ports(header) {
        return (0, 0);
    }
    let at = header_length(header);
    (big_16(header, at), big_16(header, at + 2))
}

/// Whether a packet begins with an IPv4 header of at least 20 bytes.
fn is_header(header: &[u8]) -> bool
    ensures { result ≡ is_header header.now }
{
    header.len() >= 20 && header[0] / 16 == 4 && header[0] % 16 >= 5
}

/// The packet that begins with its IPv4 header.
#[tactic(auto, unfolding(crate::specs::Captures::ipv4_packet_of))]
fn ipv4_packet_of(header: &[u8]) -> Packet
    ensures { result ≡ ipv4_packet_of header.now }
{
    if !is_header(header) {
        return Packet::BadHeader;
    }
    let source = Addr(big_32(header, 12));
    let addr = Addr(big_32(header, 16));
    let (from_port, to_port) = ports_of(header);
    let hash = flow_hash(source, addr, header[9], from_port, to_port);
    Packet::Flow { addr, hash }
}

/// The packet of a frame's captured bytes.
#[tactic(auto, unfolding(crate::specs::Captures::packet_of))]
pub(crate) fn packet_of(link: Link, frame: &[u8]) -> Packet
    ensures { result ≡ packet_of link frame.now }
{
    match link {
        Link::Ethernet if frame.len() >= 14 && big_16(frame, 12) == 0x0800 => {
            ipv4_packet_of(&frame[14..])
        }
        Link::Raw if !frame.is_empty() && frame[0] / 16 == 4 => ipv4_packet_of(frame),
        _ => Packet::NotIpv4,
    }
}

/// The capture of the bytes after the file header.
fn read_records(
    alloc: Global,
    order: Order,
    link: Link,
    bytes: &[u8],
) -> Result<Capture, AllocError>
    ensures { IfOk result (λ c. c ≡ records_of order link bytes.now) }
{
    let mut packets = Vec::new(alloc);
    let mut rest = bytes;
    while let Some((frame, after)) = next_record(order, rest) {
        if packets.len() >= u32::MAX as usize {
            return Err(AllocError);
        }
        packets.push(packet_of(link, frame))?;
        rest = after;
    }
    Ok(Capture::of_packets(packets, !rest.is_empty()))
}

impl Capture {
    /// The capture that these bytes hold: a file header, then records up to the end or to the first that is not whole.
    ///
    /// Short where there are fewer than 24 bytes; else Magic where the first four are no known mark; else LinkType with the header's
    /// link type where it is none of the two. Memory where none is left, also where the bytes hold 2^32 packets or more. Times, original
    /// lengths and the snap length are not looked at.
    #[tactic(auto, unfolding(crate::specs::Captures::capture_of))]
    pub fn read(alloc: Global, bytes: &[u8]) -> Result<Capture, CaptureError>
        ensures { Gives result (capture_of bytes.now) }
    {
        let (order, link) = read_header(bytes)?;
        Ok(read_records(alloc, order, link, &bytes[FILE_HEADER..])?)
    }
}
