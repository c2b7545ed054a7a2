// The top call, which does all that the program does.
ghost use Rattle.std.specs.Prelude.{◌≡◌, ◌∷◌, [], ◌⊎◌, ℕ, List, Some, map, string_bytes, true, false, OnOk, OnErr, IsErrOf, Contains};
ghost use Rattle.fib_outside.specs.Outside.{HasRisen, HasNotRisen};
ghost use Rattle.fib_outside.specs.declared.part.Part.{Part};
ghost use Rattle.fib_core.specs.Ranges.{InRange};
ghost use Rattle.fib_rounds.specs.Writes.{Gains};
ghost use Rattle.fib_run.specs.Files.{IsHeld, MayOpen, MayRefuse, MayBeLong, due, statuses, names_commands};
ghost use Rattle.fib_run.specs.Output.{FirstPart};
ghost use Rattle.fib_tracer.specs.TraceOutput.{MayTrace};
ghost use Rattle.fib_tracer.specs.Words.{accepts, sized, wanted, wanted_in};

use crate::run::trace_run;
use crate::words::{Wanted, read_words};
use fib_outside::{Gate, Part, Shelf, Sink};
use fib_rounds::Task;
use fib_run::{Fault, Settings, read_capture, read_commands};
use std::alloc::{AllocError, Global};
use std::sync::Wait;
use std::thread::Threads;

// One worker traces, and at most so many turns follow a change.
fn settings_for(objects: u32) -> Settings
    ensures { result ≡ sized objects }
{
    Settings {
        workers: 1,
        objects,
        walk: 64,
    }
}

// Runs the command file and traces the capture that are named.
fn trace_files<R: Threads + Wait + Sync, H: Shelf, K: Sink, G: Gate>(
    rt: &R,
    alloc: Global,
    wanted: Wanted<'_>,
    shelf: &mut H,
    out: &mut K,
    gate: &G,
) -> Result<(), Fault>
    requires { InRange (sized wanted.objects) }
    ensures done { OnOk result (Gains (MayTrace (H.holds shelf.old) (Some (wanted_in wanted.entry))) (K.written out.old)
        (K.written out.new)) }
    ensures part { OnErr result ((K.written out.new ≡ K.written out.old)
        ⊎ Gains (FirstPart (MayTrace (H.holds shelf.old) (Some (wanted_in wanted.entry)))) (K.written out.old) (K.written out.new)) }
    ensures first { IsErrOf result Fault.Write → Gains (FirstPart (MayTrace (H.holds shelf.old) (Some (wanted_in wanted.entry))))
        (K.written out.old) (K.written out.new) }
    ensures unwritten { IsErrOf result Fault.Write → HasRisen (K.faults out.old) (K.faults out.new) }
    ensures nothing { IsErrOf result Fault.Commands ⊎ (IsErrOf result Fault.Capture
        ⊎ (IsErrOf result Fault.Refused ⊎ IsErrOf result Fault.TooLong)) → K.written out.new ≡ K.written out.old }
    ensures commands { IsErrOf result Fault.Commands → HasRisen (H.faults shelf.old Part.Commands) (H.faults shelf.new Part.Commands) }
    ensures capture { IsErrOf result Fault.Capture → HasRisen (H.faults shelf.old Part.Capture) (H.faults shelf.new Part.Capture) }
    ensures opened { IsErrOf result Fault.Capture → MayOpen (H.holds shelf.old) (Some (wanted_in wanted.entry)) }
    ensures refused { IsErrOf result Fault.Refused → MayRefuse (H.holds shelf.old) (Some (wanted_in wanted.entry)) }
    ensures too_long { IsErrOf result Fault.TooLong → MayBeLong (H.holds shelf.old) (Some (wanted_in wanted.entry)) }
{
    let script = read_commands(alloc, shelf, wanted.commands)?;
    let packets = read_capture(alloc, shelf, Some(wanted.capture))?;
    let task = Task {
        rt,
        alloc,
        gate,
        settings: settings_for(wanted.objects),
        script: &script,
        packets: &packets,
    };
    trace_run(&task, out)?;
    Ok(())
}

/// Does all that the program does, and answers its status. The words are those after the program's name: `[--objects N] COMMANDS CAPTURE`.
///
/// - 0: both files were read to their end, the whole script was run, all packets were traced, and all that it prints was written.
/// - 1: the words are not accepted.
/// - 2: the command file could not be read.
/// - 3: the capture could not be read.
/// - 4: a write failed.
/// - 5: the capture has fewer than the 24 bytes of a header, or another magic or link type than the known ones.
/// - 6: memory was wanted.
/// - 7: the command file has more than 4,194,304 bytes or 65,535 lines, or the capture more than 268,435,456 bytes.
///
/// The run ends at the first of these, in the order 1, then 2 and 7 for the commands, then 3, 7 and 5 for the capture, then 4 as the output is
/// written; status 6 may stand in place of any of them and of 0. Nothing is written before the script was run.
///
/// The lines before the first line `trace`, or all, are run and settled. Then one worker in a thread of its own traces all packets in order, while the
/// lines behind are run. The gate is told of changes and of packets.
#[tactic(auto, using(fib_run::proofs::Endings::status_6))]
pub fn trace_main<R: Threads + Wait + Sync, H: Shelf, K: Sink, G: Gate>(
    rt: &R,
    alloc: Global,
    words: &[String],
    shelf: &mut H,
    out: &mut K,
    gate: &G,
) -> u8
    // At 0 the output has grown by a whole text that may be printed, at 4 by a first part of one, at 6 by such a part or by nothing, and
    // else by nothing.
    ensures done { result ≡ 0 → Gains (MayTrace (H.holds shelf.old) (wanted (map string_bytes words.now))) (K.written out.old)
        (K.written out.new) }
    ensures part { result ≡ 4 → Gains (FirstPart (MayTrace (H.holds shelf.old) (wanted (map string_bytes words.now)))) (K.written out.old)
        (K.written out.new) }
    ensures wanting { result ≡ 6 → (K.written out.new ≡ K.written out.old)
        ⊎ Gains (FirstPart (MayTrace (H.holds shelf.old) (wanted (map string_bytes words.now)))) (K.written out.old) (K.written out.new) }
    ensures nothing { Contains (1 ∷ 2 ∷ 3 ∷ 5 ∷ 7 ∷ []) result → K.written out.new ≡ K.written out.old }

    // The cause of each status.
    ensures usage { result ≡ 1 → accepts (map string_bytes words.now) ≡ false }
    ensures unreadable { result ≡ 2 → HasRisen (H.faults shelf.old Part.Commands) (H.faults shelf.new Part.Commands) }
    ensures capture_unreadable { result ≡ 3 → HasRisen (H.faults shelf.old Part.Capture) (H.faults shelf.new Part.Capture) }
    ensures capture_opened { result ≡ 3 → MayOpen (H.holds shelf.old) (wanted (map string_bytes words.now)) }
    ensures unwritten { result ≡ 4 → HasRisen (K.faults out.old) (K.faults out.new) }
    ensures refused { result ≡ 5 → MayRefuse (H.holds shelf.old) (wanted (map string_bytes words.now)) }
    ensures too_long { result ≡ 7 → MayBeLong (H.holds shelf.old) (wanted (map string_bytes words.now)) }

    // Which statuses may come, by what the words ask for.
    ensures status { Contains (statuses (wanted (map string_bytes words.now))) result }
    ensures usage_due { accepts (map string_bytes words.now) ≡ false → Contains (1 ∷ 6 ∷ []) result }

    // Where no fault comes and no memory is wanted, the status is the one that is due by the files' bytes.
    ensures complete { (file bytes : List ℕ) → IsHeld (H.holds shelf.old) (wanted (map string_bytes words.now)) file bytes
        → HasNotRisen (H.faults shelf.old Part.Commands) (H.faults shelf.new Part.Commands)
        → HasNotRisen (H.faults shelf.old Part.Capture) (H.faults shelf.new Part.Capture)
        → HasNotRisen (K.faults out.old) (K.faults out.new)
        → Contains (due (wanted (map string_bytes words.now)) file bytes ∷ 6 ∷ []) result }

    // No file is touched that the words don't name.
    ensures untouched { names_commands (wanted (map string_bytes words.now)) ≡ false → shelf.new ≡ shelf.old }
{
    let wanted = match read_words(alloc, words) {
        Ok(Some(wanted)) => wanted,
        Ok(None) => return 1,
        Err(AllocError) => return 6,
    };
    match trace_files(rt, alloc, wanted, shelf, out, gate) {
        Ok(()) => 0,
        Err(Fault::Commands) => 2,
        Err(Fault::Capture) => 3,
        Err(Fault::Write) => 4,
        Err(Fault::Refused) => 5,
        Err(Fault::Memory) => 6,
        Err(Fault::TooLong) => 7,
    }
}
