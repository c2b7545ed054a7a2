// The capture of a run.
ghost use Rattle.std.specs.Prelude.{◌≡◌, ◌≤◌, ◌⊎◌, Ok, Err, true, false, length, option_map, is_some, IfOk, IsErrOf};
ghost use Rattle.fib_outside.specs.Outside.{HasRisen};
ghost use Rattle.fib_capture.specs.Captures.{capture_of};
ghost use Rattle.fib_capture.specs.Spans.{spans_of};
ghost use Rattle.fib_capture.specs.declared.packet.CaptureError.{CaptureError as Cause};
ghost use Rattle.fib_run.specs.Files.{IsLarge, IsRefused};
ghost use Rattle.fib_frames.specs.Frames.{AreInside};
ghost use Rattle.fib_frames.specs.Sends.{IsSeen};

use fib_capture::{Capture, CaptureError, Spans};
use fib_outside::{Part, Shelf};
use fib_run::{Fault, FetchFault, MOST_CAPTURE, fetch_bytes};
use std::alloc::{AllocError, Global};

/// The bytes of a capture's file, its packets, and where they stand among the bytes.
#[derive(Drop)]
pub struct Seen {
    pub bytes: Vec<u8>,
    pub packets: Capture,
    pub spans: Spans,
}

// Finds the packets of a capture among the bytes that they were read from. Spans are refused exactly where packets are: memory is all that can be wanted.
#[tactic(auto, using(fib_capture::proofs::Alike::spans_beside))]
fn find_packets(alloc: Global, bytes: Vec<u8>, packets: Capture) -> Result<Seen, AllocError>
    requires short { length bytes.items ≤ 268435456 }
    requires read { capture_of bytes.items ≡ Ok packets }
    ensures bytes { IfOk result (λ seen. seen.bytes.items ≡ bytes.items) }
    ensures packets { IfOk result (λ seen. seen.packets ≡ packets) }
    ensures spans { IfOk result (λ seen. spans_of bytes.items ≡ Ok seen.spans) }
{
    match Spans::read(alloc, &bytes) {
        Ok(spans) => Ok(Seen {
            bytes,
            packets,
            spans,
        }),
        Err(CaptureError::Memory) => Err(AllocError),
        Err(CaptureError::Short | CaptureError::Magic | CaptureError::LinkType(_)) => {
            unreachable!()
        }
    }
}

// The packets of a file's bytes.
fn see_bytes(alloc: Global, bytes: Vec<u8>) -> Result<Seen, Fault>
    requires { length bytes.items ≤ 268435456 }
    ensures bytes { IfOk result (λ seen. seen.bytes.items ≡ bytes.items) }
    ensures packets { IfOk result (λ seen. capture_of bytes.items ≡ Ok seen.packets) }
    ensures spans { IfOk result (λ seen. spans_of bytes.items ≡ Ok seen.spans) }
    ensures refused { IsErrOf result Fault.Refused → (cause : Cause) × (capture_of bytes.items ≡ Err cause) }
    ensures kinds { IsErrOf result Fault.Commands ⊎ (IsErrOf result Fault.Capture
        ⊎ (IsErrOf result Fault.Write ⊎ IsErrOf result Fault.TooLong)) → ⊥ }
{
    let packets = match Capture::read(alloc, &bytes) {
        Ok(packets) => packets,
        Err(CaptureError::Memory) => return Err(Fault::Memory),
        Err(_) => return Err(Fault::Refused),
    };
    match find_packets(alloc, bytes, packets) {
        Ok(seen) => Ok(seen),
        Err(_) => Err(Fault::Memory),
    }
}

/// The capture that is named, whose file is within its limit of 268,435,456 bytes; no byte and no packet where none is named. The file is read once.
///
/// `Capture` comes only where the shelf's count of captures rose, `TooLong` exactly where the file is past its limit, `Refused` exactly where its bytes are
/// none of a capture, and `Memory` where it was wanted; no other fault does.
#[tactic(auto, using(fib_capture::proofs::Inside::spans_lie))]
pub fn see_capture<H: Shelf>(
    alloc: Global,
    shelf: &mut H,
    name: Option<&str>,
) -> Result<Seen, Fault>
    ensures ok { IfOk result (λ seen. IsSeen (H.holds shelf.old)
        (option_map (λ s. s.now) name.entry) seen.bytes.items seen.packets seen.spans) }
    ensures inside { IfOk result (λ seen. AreInside seen.bytes.items seen.spans) }
    ensures short { IfOk result (λ seen. length seen.bytes.items ≤ 268435456) }
    ensures capture { IsErrOf result Fault.Capture → HasRisen (H.faults shelf.old Part.Capture) (H.faults shelf.new Part.Capture) }
    ensures named { IsErrOf result Fault.Capture → is_some name.entry ≡ true }
    ensures refused { IsErrOf result Fault.Refused → IsRefused (H.holds shelf.old) (option_map (λ s. s.now) name.entry) }
    ensures too_long { IsErrOf result Fault.TooLong → IsLarge (H.holds shelf.old) (option_map (λ s. s.now) name.entry) }
    ensures kinds { IsErrOf result Fault.Commands ⊎ IsErrOf result Fault.Write → ⊥ }
    ensures others { H.faults shelf.new Part.Commands ≡ H.faults shelf.old Part.Commands }
    ensures unused { is_some name.entry ≡ false → shelf.new ≡ shelf.old }
{
    let Some(name) = name else {
        return Ok(Seen {
            bytes: Vec::new(alloc),
            packets: Capture::of_flows(Vec::new(alloc)),
            spans: Spans::none(alloc),
        });
    };
    let bytes = match fetch_bytes(alloc, shelf, Part::Capture, name, MOST_CAPTURE) {
        Ok(bytes) => bytes,
        Err(FetchFault::Unreadable) => return Err(Fault::Capture),
        Err(FetchFault::TooLong) => return Err(Fault::TooLong),
        Err(FetchFault::Memory) => return Err(Fault::Memory),
    };
    see_bytes(alloc, bytes)
}
