// The plain types of captures.

ghost use Rattle.std.specs.Prelude.{◌≡◌};
ghost use Rattle.fib_capture.specs.declared.packet.CaptureError.TheVariants.{Memory};

use fib_addr::Addr;
use std::alloc::AllocError;

/// What a packet of a capture is.
#[derive(Clone, Copy, Debug, PartialEq, Eq)]
pub enum Packet {
    /// An IPv4 packet (RFC 791): its destination, and the hash of its flow.
    Flow { addr: Addr, hash: u32 },
    /// Not an IPv4 packet by its link's type field or by its version.
    NotIpv4,
    /// Fewer than 20 captured bytes of IPv4 header, another version than 4, or a header length below 20 bytes.
    BadHeader,
}

/// Why bytes are no capture.
#[derive(Clone, Copy, Debug, PartialEq, Eq)]
pub enum CaptureError {
    /// Fewer than the 24 bytes of a file header.
    Short,
    /// The first four bytes are not one of the four known marks.
    Magic,
    /// A link type, of that number, other than Ethernet (1) and raw IP (101).
    LinkType(u32),
    /// No memory is left.
    Memory,
}

impl From<AllocError> for CaptureError {
    ghost from_gives = { λ _ e. e ≡ Memory };

    fn from(_: AllocError) -> Self {
        CaptureError::Memory
    }
}

/// The order of the bytes of a capture's numbers.
#[derive(Clone, Copy, Debug, PartialEq, Eq)]
pub enum Order {
    /// The lowest byte first.
    Little,
    /// The highest byte first.
    Big,
}

/// What a captured frame begins with.
#[derive(Clone, Copy, Debug, PartialEq, Eq)]
pub enum Link {
    /// An Ethernet header of 14 bytes.
    Ethernet,
    /// An IP header.
    Raw,
}
