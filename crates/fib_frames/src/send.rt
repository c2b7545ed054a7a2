// Where the frames and the lines go.
ghost use Rattle.std.specs.Prelude.{◌≡◌, ◌≤◌, length, OnOk, OnErr, IsErrOf};
ghost use Rattle.fib_outside.specs.Outside.{Appends, HasRisen};
ghost use Rattle.fib_rounds.specs.Writes.{AppendsSome};
ghost use Rattle.fib_frames.specs.Frames.{AreInside, expired_text, file_header, frame_file, records_in};

use crate::expired::put_expired;
use crate::frames::put_frames;
use crate::seen::Seen;
use fib_core_results::Record;
use fib_outside::{Failed, Sink};
use fib_run::{RunFault, put_all};

/// How many results' frames or lines are made before they are written.
const MANY: usize = 256;

// Writes the header of a capture file: in the lowest byte first, with microseconds, of version 2.4, at most 262,144 bytes a frame, Ethernet.
#[tactic(auto, unfolding(crate::specs::Frames::file_header, fib_capture::specs::Written::header_bytes))]
fn write_header<F: Sink>(frames: &mut F) -> Result<(), Failed>
    ensures ok { OnOk result (Appends (F.written frames.old) (F.written frames.new) file_header) }
    ensures err { OnErr result (AppendsSome (F.written frames.old) (F.written frames.new) file_header) }
    ensures failed { OnErr result (HasRisen (F.faults frames.old) (F.faults frames.new)) }
    ensures counted { F.faults frames.old ≤ F.faults frames.new }
{
    put_all(
        frames,
        &[
            0xd4, 0xc3, 0xb2, 0xa1, 2, 0, 4, 0, 0, 0, 0, 0, 0, 0, 0, 0, 0, 0, 4, 0, 1, 0, 0, 0,
        ],
    )
}

// Writes the records of the packets that leave, of those with these results.
fn write_records<F: Sink>(
    frames: &mut F,
    buffer: &mut Vec<u8>,
    seen: &Seen,
    results: &[(u32, Record)],
) -> Result<(), RunFault>
    requires inside { AreInside seen.now.bytes.items seen.now.spans }
    requires short { length seen.now.bytes.items ≤ 268435456 }
    ensures ok { OnOk result (Appends (F.written frames.old) (F.written frames.new)
        (records_in seen.now.bytes.items seen.now.spans results.now)) }
    ensures err { OnErr result (AppendsSome (F.written frames.old) (F.written frames.new)
        (records_in seen.now.bytes.items seen.now.spans results.now)) }
    ensures write { IsErrOf result RunFault.Write → HasRisen (F.faults frames.old) (F.faults frames.new) }
    ensures counted { F.faults frames.old ≤ F.faults frames.new }
{
    let mut at = 0;
    'pieces: while at < results.len() {
        let next = at + (results.len() - at).min(MANY);
        buffer.clear();
        put_frames(buffer, &seen.bytes, &seen.spans, &results[at..next])?;
        put_all(frames, buffer)?;
        at = next;
    }
    Ok(())
}

/// Writes the capture file of the packets that leave, of those with these results: its header, and a record for each of them.
pub fn write_frames<F: Sink>(
    frames: &mut F,
    buffer: &mut Vec<u8>,
    seen: &Seen,
    results: &[(u32, Record)],
) -> Result<(), RunFault>
    requires inside { AreInside seen.now.bytes.items seen.now.spans }
    requires short { length seen.now.bytes.items ≤ 268435456 }
    ensures ok { OnOk result (Appends (F.written frames.old) (F.written frames.new)
        (frame_file seen.now.bytes.items seen.now.spans results.now)) }
    ensures err { OnErr result (AppendsSome (F.written frames.old) (F.written frames.new)
        (frame_file seen.now.bytes.items seen.now.spans results.now)) }
    ensures write { IsErrOf result RunFault.Write → HasRisen (F.faults frames.old) (F.faults frames.new) }
    ensures counted { F.faults frames.old ≤ F.faults frames.new }
{
    write_header(frames)?;
    write_records(frames, buffer, seen, results)
}

/// Writes the lines on packets with these results that would leave, but have no hop left.
pub fn write_expired<K: Sink>(
    text: &mut K,
    buffer: &mut Vec<u8>,
    seen: &Seen,
    results: &[(u32, Record)],
) -> Result<(), RunFault>
    requires { AreInside seen.now.bytes.items seen.now.spans }
    ensures ok { OnOk result (Appends (K.written text.old) (K.written text.new)
        (expired_text seen.now.bytes.items seen.now.spans results.now)) }
    ensures err { OnErr result (AppendsSome (K.written text.old) (K.written text.new)
        (expired_text seen.now.bytes.items seen.now.spans results.now)) }
    ensures write { IsErrOf result RunFault.Write → HasRisen (K.faults text.old) (K.faults text.new) }
    ensures counted { K.faults text.old ≤ K.faults text.new }
{
    let mut at = 0;
    'pieces: while at < results.len() {
        let next = at + (results.len() - at).min(MANY);
        buffer.clear();
        put_expired(buffer, &seen.bytes, &seen.spans, &results[at..next])?;
        put_all(text, buffer)?;
        at = next;
    }
    Ok(())
}
