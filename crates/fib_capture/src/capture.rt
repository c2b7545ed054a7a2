// A capture that was read.
ghost use Rattle.std.specs.Prelude.{◌≡◌, ◌<◌, ◌^◌, Some, None, length, slice_get, vec_len, if◌then◌else◌};

use crate::Packet;
use std::marker::Model;

/// The packets of a capture file in order, and the number of the packet that the file's end cuts, where it cuts one.
///
/// Packets are numbered from 0. There are fewer than 2^32.
#[derive(Debug, Drop)]
pub struct Capture {
    packets: Vec<Packet>,
    cut: Option<u32>,
}

impl Model for Capture {
    ghost use Rattle.std.specs.Prelude.{◌<◌, ◌^◌, vec_len};
    ghost use Rattle.fib_capture.specs.Captures.{Capture as CaptureValue};

    ghost Value = { CaptureValue };

    ghost view = { λ c. record { packets = c.packets.items; cut = c.cut } };

    ghost invariant = { λ c. vec_len c.packets < 2 ^ 32 };
}

impl Capture {
    /// The capture of these packets, none of them cut.
    pub fn of_flows(flows: Vec<Packet>) -> Capture
        requires { vec_len flows < 2 ^ 32 }
        ensures packets { result.packets ≡ flows.items }
        ensures whole { result.cut ≡ None }
    {
        Capture {
            packets: flows,
            cut: None,
        }
    }

    /// The capture of these packets, whose next packet is cut where `is_cut`.
    pub(crate) fn of_packets(packets: Vec<Packet>, is_cut: bool) -> Capture
        requires { vec_len packets < 2 ^ 32 }
        ensures { result ≡ record { packets = packets.items; cut = if is_cut then Some (length packets.items) else None } }
    {
        let cut = is_cut.then_some(packets.len() as u32);
        Capture { packets, cut }
    }

    /// The number of packets, without the one that is cut.
    pub fn count(&self) -> u32
        ensures { result ≡ length self.now.packets }
    {
        self.packets.len() as u32
    }

    /// The packet of that number, which is below the count.
    pub fn at(&self, place: u32) -> Packet
        requires { place < length self.now.packets }
        ensures { slice_get self.now.packets place ≡ Some result }
    {
        self.packets[place as usize]
    }

    /// The number of the packet that the file's end cuts; None exactly where it cuts none.
    pub fn cut_at(&self) -> Option<u32>
        ensures { result ≡ self.now.cut }
    {
        self.cut
    }
}
