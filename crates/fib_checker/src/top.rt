// The top call, which does all that the program does.
ghost use Rattle.std.specs.Prelude.{◌≡◌, ◌∷◌, [], ◌⊎◌, ℕ, List, None, Some, OnErr, OnOk, IsErrOf, map, string_bytes, Contains};
ghost use Rattle.fib_outside.specs.Outside.{HasNotRisen, HasRisen};
ghost use Rattle.fib_outside.specs.declared.part.Part.{Part};
ghost use Rattle.fib_rounds.specs.Writes.{Gains};
ghost use Rattle.fib_run.specs.Files.{IsLong};
ghost use Rattle.fib_run.specs.Output.{FirstPart};
ghost use Rattle.fib_checker.specs.Runs.{ChecksOf, IsHeld, MayBeLong, due, statuses};
ghost use Rattle.fib_checker.specs.Words.{file_named};

use crate::run::run_script;
use crate::words::file_named;
use fib_outside::{Shelf, Sink};
use fib_run::{Fault, put_all, read_commands};
use std::alloc::Global;

// Runs the command file of this name: reads it, runs all its lines, and writes all that they print at the end.
#[tactic(auto, unfolding(crate::specs::Output::check_output))]
fn run_file<H: Shelf, K: Sink>(
    alloc: Global,
    name: &str,
    shelf: &mut H,
    out: &mut K,
) -> Result<(), Fault>
    ensures done { OnOk result (Gains (ChecksOf (H.holds shelf.old) (Some name.now)) (K.written out.old) (K.written out.new)) }
    ensures first { IsErrOf result Fault.Write →
        Gains (FirstPart (ChecksOf (H.holds shelf.old) (Some name.now))) (K.written out.old) (K.written out.new) }
    ensures nothing { OnErr result ((IsErrOf result Fault.Write → ⊥) → K.written out.new ≡ K.written out.old) }
    ensures unwritten { IsErrOf result Fault.Write → HasRisen (K.faults out.old) (K.faults out.new) }
    ensures commands { IsErrOf result Fault.Commands → HasRisen (H.faults shelf.old Part.Commands) (H.faults shelf.new Part.Commands) }
    ensures too_long { IsErrOf result Fault.TooLong → IsLong (H.holds shelf.old name.now) }
    ensures kinds { IsErrOf result Fault.Capture ⊎ IsErrOf result Fault.Refused → ⊥ }
    ensures capture_untouched { H.faults shelf.new Part.Capture ≡ H.faults shelf.old Part.Capture }
{
    let script = read_commands(alloc, shelf, name)?;
    let Ok(text) = run_script(alloc, &script) else {
        return Err(Fault::Memory);
    };
    match put_all(out, &text) {
        Ok(()) => Ok(()),
        Err(_) => Err(Fault::Write),
    }
}

/// Does all that the program does, and answers its status. The words are those after the program's name: `COMMANDS`.
///
/// Where the status is 0 the output is one function of the command file: what its lines print, in their order.
///
/// - 0: the command file was read to its end, all its lines were run, and all that they print was written.
/// - 1: the words are not one word that begins with no hyphen.
/// - 2: the command file could not be read.
/// - 4: a write failed.
/// - 6: memory was wanted, or a change asked for more than 16,385 turns, as none does within the room.
/// - 7: the command file has more than 4,194,304 bytes or 65,535 lines.
///
/// The run ends at the first of these, in the order 1, then 2 and 7, then 4; status 6 may stand in place of any of them but 1. Nothing is written before
/// all lines are run.
pub fn check_main<H: Shelf, K: Sink>(
    alloc: Global,
    words: &[String],
    shelf: &mut H,
    out: &mut K,
) -> u8
    // At 0 the output has grown by a whole text, at 4 by a first part of one, and else by nothing.
    ensures done { result ≡ 0 →
        Gains (ChecksOf (H.holds shelf.old) (file_named (map string_bytes words.now))) (K.written out.old) (K.written out.new) }
    ensures part { result ≡ 4 →
        Gains (FirstPart (ChecksOf (H.holds shelf.old) (file_named (map string_bytes words.now)))) (K.written out.old) (K.written out.new) }
    ensures nothing { Contains (1 ∷ 2 ∷ 6 ∷ 7 ∷ []) result → K.written out.new ≡ K.written out.old }

    // The cause of each status.
    ensures usage { result ≡ 1 → file_named (map string_bytes words.now) ≡ None }
    ensures unreadable { result ≡ 2 → HasRisen (H.faults shelf.old Part.Commands) (H.faults shelf.new Part.Commands) }
    ensures unwritten { result ≡ 4 → HasRisen (K.faults out.old) (K.faults out.new) }
    ensures too_long { result ≡ 7 → MayBeLong (H.holds shelf.old) (file_named (map string_bytes words.now)) }

    // Which statuses may come, by what the words ask for.
    ensures status { Contains (statuses (file_named (map string_bytes words.now))) result }

    // Where no fault comes and no memory is wanted, the status is the one that is due by the file's bytes.
    ensures complete { (file : List ℕ) → IsHeld (H.holds shelf.old) (file_named (map string_bytes words.now)) file
        → HasNotRisen (H.faults shelf.old Part.Commands) (H.faults shelf.new Part.Commands)
        → HasNotRisen (K.faults out.old) (K.faults out.new)
        → Contains (due (file_named (map string_bytes words.now)) file ∷ 6 ∷ []) result }

    // No file is touched that the words don't name, and no capture is.
    ensures untouched { file_named (map string_bytes words.now) ≡ None → shelf.new ≡ shelf.old }
    ensures capture_untouched { H.faults shelf.new Part.Capture ≡ H.faults shelf.old Part.Capture }
{
    let Some(name) = file_named(words) else {
        return 1;
    };
    match run_file(alloc, name, shelf, out) {
        Ok(()) => 0,
        Err(Fault::Commands) => 2,
        Err(Fault::Write) => 4,
        Err(Fault::Memory) => 6,
        Err(Fault::TooLong) => 7,
        Err(Fault::Capture | Fault::Refused) => unreachable!(),
    }
}
