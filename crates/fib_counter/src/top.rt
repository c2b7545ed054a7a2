// The top call, which does all that the program does.
ghost use Rattle.std.specs.Prelude.{◌≡◌, ◌∷◌, [], ◌⊎◌, ℕ, List, map, string_bytes, false, Contains};
ghost use Rattle.fib_outside.specs.Outside.{HasRisen, HasNotRisen};
ghost use Rattle.fib_outside.specs.declared.part.Part.{Part};
ghost use Rattle.fib_rounds.specs.Writes.{Gains};
ghost use Rattle.fib_run.specs.Files.{IsHeld, MayOpen, MayRefuse, MayBeLong, due, statuses, names_commands, names_capture};
ghost use Rattle.fib_run.specs.Output.{FirstPart};
ghost use Rattle.fib_counter.specs.CountOutput.{CountsOf};
ghost use Rattle.fib_counter.specs.Words.{accepts, wanted};

use crate::run::run_asked;
use crate::words::read_words;
use fib_outside::{Gate, Part, Shelf, Sink};
use fib_run::Fault;
use std::alloc::{AllocError, Global};
use std::sync::Wait;
use std::thread::Threads;

/// Does all that the program does, and answers its status. The words are those after the program's name:
/// `[--workers N] [--objects N] COMMANDS CAPTURE`.
///
/// Where the status is 0 the output is one function of words, commands and capture, whatever the number of workers and however they ran: what the
/// lines print, then a line for each total that isn't 0, and last that on a cut packet.
///
/// - 0: both files were read to their ends, the whole script was run, and all output was written.
/// - 1: the words are not accepted.
/// - 2: the command file could not be read.
/// - 3: the capture could not be read.
/// - 4: a write failed.
/// - 5: the capture has fewer than the 24 bytes of a header, or another magic or link type than the known ones.
/// - 6: memory was wanted, or a worker made 2^32 - 1 counts, as none does over a file within its limit.
/// - 7: the command file has more than 4,194,304 bytes or 65,535 lines, or the capture more than 268,435,456 bytes.
///
/// The run ends at the first of these, in the order 1, then 2 and 7 for the commands, then 3, 7 and 5 for the capture, then 4; status 6 may stand in
/// place of any of them and of 0. Nothing is written before all packets are counted.
#[tactic(auto, using(fib_run::proofs::Endings::status_2, fib_run::proofs::Endings::status_6))]
pub fn count_main<R: Threads + Wait + Sync, H: Shelf, K: Sink, G: Gate>(
    rt: &R,
    alloc: Global,
    words: &[String],
    shelf: &mut H,
    out: &mut K,
    gate: &G,
) -> u8
    // At 0 the output has grown by a whole text, at 4 by a first part of one, at 6 by such a part or by nothing, and else by nothing.
    ensures done { result ≡ 0 → Gains (CountsOf (H.holds shelf.old) (wanted (map string_bytes words.now))) (K.written out.old)
        (K.written out.new) }
    ensures part { result ≡ 4 →
        Gains (FirstPart (CountsOf (H.holds shelf.old) (wanted (map string_bytes words.now)))) (K.written out.old) (K.written out.new) }
    ensures wanting { result ≡ 6 → (K.written out.new ≡ K.written out.old)
        ⊎ Gains (FirstPart (CountsOf (H.holds shelf.old) (wanted (map string_bytes words.now)))) (K.written out.old) (K.written out.new) }
    ensures nothing { Contains (1 ∷ 2 ∷ 3 ∷ 5 ∷ 7 ∷ []) result → K.written out.new ≡ K.written out.old }

    // The cause of each status.
    ensures usage { result ≡ 1 → accepts (map string_bytes words.now) ≡ false }
    ensures unreadable { result ≡ 2 → HasRisen (H.faults shelf.old Part.Commands) (H.faults shelf.new Part.Commands) }
    ensures capture_unreadable { result ≡ 3 → HasRisen (H.faults shelf.old Part.Capture) (H.faults shelf.new Part.Capture) }
    ensures capture_opened { result ≡ 3 → MayOpen (H.holds shelf.old) (wanted (map string_bytes words.now)) }
    ensures unwritten { result ≡ 4 → HasRisen (K.faults out.old) (K.faults out.new) }
    ensures refused { result ≡ 5 → MayRefuse (H.holds shelf.old) (wanted (map string_bytes words.now)) }
    ensures too_long { result ≡ 7 → MayBeLong (H.holds shelf.old) (wanted (map string_bytes words.now)) }

    // Which statuses may come, by what the words ask for.
    ensures status { Contains (statuses (wanted (map string_bytes words.now))) result }
    ensures usage_due { accepts (map string_bytes words.now) ≡ false → Contains (1 ∷ 6 ∷ []) result }

    // Where no fault comes and no memory is wanted, the status is the one that is due by the files' bytes.
    ensures complete { (file bytes : List ℕ) → IsHeld (H.holds shelf.old) (wanted (map string_bytes words.now)) file bytes
        → HasNotRisen (H.faults shelf.old Part.Commands) (H.faults shelf.new Part.Commands)
        → HasNotRisen (H.faults shelf.old Part.Capture) (H.faults shelf.new Part.Capture)
        → HasNotRisen (K.faults out.old) (K.faults out.new)
        → Contains (due (wanted (map string_bytes words.now)) file bytes ∷ 6 ∷ []) result }

    // No file is touched that the words don't name.
    ensures untouched { names_commands (wanted (map string_bytes words.now)) ≡ false → shelf.new ≡ shelf.old }
    ensures capture_untouched { names_capture (wanted (map string_bytes words.now)) ≡ false →
        H.faults shelf.new Part.Capture ≡ H.faults shelf.old Part.Capture }
{
    let asked = match read_words(alloc, words) {
        Ok(Some(asked)) => asked,
        Ok(None) => return 1,
        Err(AllocError) => return 6,
    };
    match run_asked(rt, alloc, asked, shelf, out, gate) {
        Ok(()) => 0,
        Err(Fault::Commands) => 2,
        Err(Fault::Capture) => 3,
        Err(Fault::Write) => 4,
        Err(Fault::Refused) => 5,
        Err(Fault::Memory) => 6,
        Err(Fault::TooLong) => 7,
    }
}
