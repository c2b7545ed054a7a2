// Runs of files.
ghost use Rattle.std.specs.Prelude.{◌≡◌, ◌⊎◌, Some, OnOk, OnErr, IsErrOf};
ghost use Rattle.fib_outside.specs.Outside.{HasRisen};
ghost use Rattle.fib_outside.specs.declared.part.Part.{Part};
ghost use Rattle.fib_core.specs.Ranges.{InRange};
ghost use Rattle.fib_rounds.specs.Writes.{Gains};
ghost use Rattle.fib_run.specs.declared.files.Fault.{Fault as FaultValue};
ghost use Rattle.fib_run.specs.Files.{MayBeLong, MayOpen, MayRefuse};
ghost use Rattle.fib_run.specs.Output.{FirstPart};
ghost use Rattle.fib_counter.specs.CountOutput.{CountsOf};
ghost use Rattle.fib_counter.specs.Words.{asked_in};

use crate::count::count;
use crate::words::Asked;
use fib_outside::{Gate, Shelf, Sink};
use fib_rounds::Task;
use fib_run::{Fault, put_all, read_capture, read_commands};
use std::alloc::{AllocError, Global};
use std::sync::Wait;
use std::thread::Threads;

/// Counts what the words ask for: reads both files, runs the one over the other, and writes all that it prints at the end.
pub fn run_asked<R: Threads + Wait + Sync, H: Shelf, K: Sink, G: Gate>(
    rt: &R,
    alloc: Global,
    asked: Asked<'_>,
    shelf: &mut H,
    out: &mut K,
    gate: &G,
) -> Result<(), Fault>
    requires { InRange asked.settings }
    ensures done { OnOk result (Gains (CountsOf (H.holds shelf.old) (Some (asked_in asked.entry))) (K.written out.old)
        (K.written out.new)) }
    ensures first { IsErrOf result Fault.Write →
        Gains (FirstPart (CountsOf (H.holds shelf.old) (Some (asked_in asked.entry)))) (K.written out.old) (K.written out.new) }
    ensures nothing { OnErr result ((IsErrOf result Fault.Write → ⊥) → K.written out.new ≡ K.written out.old) }
    ensures unwritten { IsErrOf result Fault.Write → HasRisen (K.faults out.old) (K.faults out.new) }
    ensures commands { IsErrOf result Fault.Commands → HasRisen (H.faults shelf.old Part.Commands) (H.faults shelf.new Part.Commands) }
    ensures capture { IsErrOf result Fault.Capture → HasRisen (H.faults shelf.old Part.Capture) (H.faults shelf.new Part.Capture) }
    ensures opened { IsErrOf result Fault.Capture → MayOpen (H.holds shelf.old) (Some (asked_in asked.entry)) }
    ensures refused { IsErrOf result Fault.Refused → MayRefuse (H.holds shelf.old) (Some (asked_in asked.entry)) }
    ensures too_long { IsErrOf result Fault.TooLong → MayBeLong (H.holds shelf.old) (Some (asked_in asked.entry)) }
{
    let script = read_commands(alloc, shelf, asked.commands)?;
    let packets = read_capture(alloc, shelf, Some(asked.capture))?;
    let task = Task {
        rt,
        alloc,
        gate,
        settings: asked.settings,
        script: &script,
        packets: &packets,
    };
    match count(&task) {
        Ok(text) => match put_all(out, &text) {
            Ok(()) => Ok(()),
            Err(_) => Err(Fault::Write),
        },
        Err(AllocError) => Err(Fault::Memory),
    }
}
