// How a round opens.
ghost use Rattle.std.specs.Prelude.{◌≡◌, ◌<◌, ◌≤◌, ◌-◌, ◌^◌, length};
ghost use Rattle.fib_rounds.specs.Rounds.{next_opening};

use crate::lines::Stop;
use fib_capture::Capture;

/// A round as it opens: how many lines stand before its own, and the numbers of its first packet and of the next round's.
#[derive(Clone, Copy, Debug, PartialEq, Eq)]
pub struct Opening {
    pub place: u32,
    pub first: u32,
    pub to: u32,
}

/// The round that a line opens which asks for so many packets: it takes the next ones, or those that are left.
pub fn next_round(packets: &Capture, stop: Stop, to: u32) -> Option<Opening>
    requires place { stop.place < 2 ^ 32 - 1 }
    requires inside { to ≤ length packets.now.packets }
    ensures { result ≡ next_opening packets.now.packets stop.place to stop.asked }
{
    let count = stop.asked?;
    Some(Opening {
        place: stop.place + 1,
        first: to,
        to: to + count.min(packets.count() - to),
    })
}
