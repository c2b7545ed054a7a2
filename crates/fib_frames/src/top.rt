// The top call, which does all that the program does.
ghost use Rattle.std.specs.Prelude.{◌≡◌, ◌∷◌, [], ◌⊎◌, ℕ, List, map, string_bytes, true, false, Contains};
ghost use Rattle.fib_outside.specs.Outside.{HasRisen, HasNotRisen};
ghost use Rattle.fib_outside.specs.declared.part.Part.{Part};
ghost use Rattle.fib_run.specs.Files.{IsHeld, MayOpen, MayRefuse, MayBeLong, due, statuses, names_commands, names_capture};
ghost use Rattle.fib_frames.specs.Sends.{GainsBoth, GainsParts, MaySend, NoneGrew, accepts, wanted};

use crate::run::run_job;
use crate::words::read_job;
use fib_outside::{Gate, Part, Shelf, Sink};
use fib_run::{Fault, FileTask};
use std::alloc::{AllocError, Global};
use std::sync::Wait;
use std::thread::Threads;

/// Does all that the program does, and answers its status. The words are those after the program's name.
///
/// - 0: each file that the words name was read to its end, the whole script was run, and all that it prints and sends was written.
/// - 1: the words are not accepted: `fib_tool` refuses them, or they ask for a seed.
/// - 2: the command file could not be read.
/// - 3: the capture could not be read.
/// - 4: a write failed.
/// - 5: the capture has fewer than the 24 bytes of a header, or another magic or link type than the known ones.
/// - 6: memory was wanted.
/// - 7: the command file has more than 4,194,304 bytes or 65,535 lines, or the capture more than 268,435,456 bytes.
///
/// The run ends at the first of these, in the order 1, then 2 and 7 for the commands, then 3, 7 and 5 for the capture, then 4; status 6 may stand in place
/// of any of them and of 0. `text` gains what `fib_tool` prints, and after it a line for each flow that would leave but has no hop left to live. `frames`
/// gains a capture file of the flows that leave. They are of one set of results. Nothing is written before the script runs.
#[tactic(auto, using(fib_run::proofs::Endings::status_2, fib_run::proofs::Endings::status_6))]
pub fn frames_main<R: Threads + Wait + Sync, H: Shelf, K: Sink, F: Sink, G: Gate>(
    rt: &R,
    alloc: Global,
    words: &[String],
    shelf: &mut H,
    text: &mut K,
    frames: &mut F,
    gate: &G,
) -> u8
    // At 0 the two streams have grown by a text and a capture file that belong together, at 4 by first parts of such a pair, at 6 by such parts or by
    // nothing, and else by nothing.
    ensures done { result ≡ 0 → GainsBoth (MaySend (H.holds shelf.old) (wanted (map string_bytes words.now)))
        (K.written text.old) (K.written text.new) (F.written frames.old) (F.written frames.new) }
    ensures part { result ≡ 4 → GainsParts (MaySend (H.holds shelf.old) (wanted (map string_bytes words.now)))
        (K.written text.old) (K.written text.new) (F.written frames.old) (F.written frames.new) }
    ensures wanting { result ≡ 6 → NoneGrew (K.written text.old) (K.written text.new) (F.written frames.old) (F.written frames.new)
        ⊎ GainsParts (MaySend (H.holds shelf.old) (wanted (map string_bytes words.now)))
        (K.written text.old) (K.written text.new) (F.written frames.old) (F.written frames.new) }
    ensures nothing { Contains (1 ∷ 2 ∷ 3 ∷ 5 ∷ 7 ∷ []) result
        → NoneGrew (K.written text.old) (K.written text.new) (F.written frames.old) (F.written frames.new) }

    // The cause of each status.
    ensures usage { result ≡ 1 → accepts (map string_bytes words.now) ≡ false }
    ensures unreadable { result ≡ 2 → HasRisen (H.faults shelf.old Part.Commands) (H.faults shelf.new Part.Commands) }
    ensures capture_unreadable { result ≡ 3 → HasRisen (H.faults shelf.old Part.Capture) (H.faults shelf.new Part.Capture) }
    ensures capture_opened { result ≡ 3 → MayOpen (H.holds shelf.old) (wanted (map string_bytes words.now)) }
    ensures unwritten { result ≡ 4 → HasRisen (K.faults text.old) (K.faults text.new)
        ⊎ HasRisen (F.faults frames.old) (F.faults frames.new) }
    ensures refused { result ≡ 5 → MayRefuse (H.holds shelf.old) (wanted (map string_bytes words.now)) }
    ensures too_long { result ≡ 7 → MayBeLong (H.holds shelf.old) (wanted (map string_bytes words.now)) }

    // Which statuses may come, by what the words ask for.
    ensures status { Contains (statuses (wanted (map string_bytes words.now))) result }
    ensures usage_due { accepts (map string_bytes words.now) ≡ false → Contains (1 ∷ 6 ∷ []) result }

    // Where no fault comes and no memory is wanted, the status is the one that is due by the files' bytes.
    ensures complete { (file bytes : List ℕ) → IsHeld (H.holds shelf.old) (wanted (map string_bytes words.now)) file bytes
        → HasNotRisen (H.faults shelf.old Part.Commands) (H.faults shelf.new Part.Commands)
        → HasNotRisen (H.faults shelf.old Part.Capture) (H.faults shelf.new Part.Capture)
        → HasNotRisen (K.faults text.old) (K.faults text.new) → HasNotRisen (F.faults frames.old) (F.faults frames.new)
        → Contains (due (wanted (map string_bytes words.now)) file bytes ∷ 6 ∷ []) result }

    // No file is touched that the words don't name.
    ensures untouched { names_commands (wanted (map string_bytes words.now)) ≡ false → shelf.new ≡ shelf.old }
    ensures capture_untouched { names_capture (wanted (map string_bytes words.now)) ≡ false
        → H.faults shelf.new Part.Capture ≡ H.faults shelf.old Part.Capture }
{
    let job = match read_job(alloc, words) {
        Ok(Some(job)) => job,
        Ok(None) => return 1,
        Err(AllocError) => return 6,
    };
    let task = FileTask {
        rt,
        alloc,
        gate,
        job,
    };
    match run_job(&task, shelf, text, frames) {
        Ok(()) => 0,
        Err(Fault::Commands) => 2,
        Err(Fault::Capture) => 3,
        Err(Fault::Write) => 4,
        Err(Fault::Refused) => 5,
        Err(Fault::Memory) => 6,
        Err(Fault::TooLong) => 7,
    }
}
