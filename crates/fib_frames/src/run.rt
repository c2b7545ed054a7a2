// A run, and what it sends.
ghost use Rattle.std.specs.Prelude.{◌≡◌, ◌≤◌, ◌⊎◌, ◌/◌, Some, true, false, length, OnOk, OnErr, IsErrOf};
ghost use Rattle.fib_outside.specs.Outside.{Appends, HasRisen};
ghost use Rattle.fib_outside.specs.declared.part.Part.{Part};
ghost use Rattle.fib_core.specs.Ranges.{InRange};
ghost use Rattle.fib_rounds.specs.Writes.{AppendsSome};
ghost use Rattle.fib_run.specs.Files.{MayBeLong, MayOpen, MayRefuse, names_capture};
ghost use Rattle.fib_run.specs.Jobs.{wants};
ghost use Rattle.fib_frames.specs.Frames.{AreInside, expired_text, frame_file};
ghost use Rattle.fib_frames.specs.Sends.{GainsBoth, GainsParts, MaySend, NoneGrew, Shows};

use crate::seen::{Seen, see_capture};
use crate::send::{write_expired, write_frames};
use fib_commands::Script;
use fib_core_results::Record;
use fib_outside::{Gate, Part, Shelf, Sink};
use fib_rounds_taps::KeptTap;
use fib_run::{Fault, FileTask, RunFault, read_commands, run_to};
use std::alloc::Global;
use std::sync::Wait;
use std::thread::Threads;

// Sends the frames of the packets with these results, and then the lines on those that had no hop left.
fn send<K: Sink, F: Sink>(
    alloc: Global,
    seen: &Seen,
    results: &[(u32, Record)],
    text: &mut K,
    frames: &mut F,
) -> Result<(), RunFault>
    requires inside { AreInside seen.now.bytes.items seen.now.spans }
    requires short { length seen.now.bytes.items ≤ 268435456 }
    ensures lines { OnOk result (Appends (K.written text.old) (K.written text.new)
        (expired_text seen.now.bytes.items seen.now.spans results.now)) }
    ensures sent { OnOk result (Appends (F.written frames.old) (F.written frames.new)
        (frame_file seen.now.bytes.items seen.now.spans results.now)) }
    ensures some_lines { OnErr result (AppendsSome (K.written text.old) (K.written text.new)
        (expired_text seen.now.bytes.items seen.now.spans results.now)) }
    ensures some_sent { OnErr result (AppendsSome (F.written frames.old) (F.written frames.new)
        (frame_file seen.now.bytes.items seen.now.spans results.now)) }
    ensures write { IsErrOf result RunFault.Write → HasRisen (K.faults text.old) (K.faults text.new)
        ⊎ HasRisen (F.faults frames.old) (F.faults frames.new) }
    ensures counted { K.faults text.old ≤ K.faults text.new }
    ensures frames_counted { F.faults frames.old ≤ F.faults frames.new }
{
    let mut buffer = Vec::new(alloc);
    write_frames(frames, &mut buffer, seen, results)?;
    write_expired(text, &mut buffer, seen, results)
}

// Runs a script over a capture that was seen, and sends what it gives.
fn run_seen<R: Threads + Wait + Sync, K: Sink, F: Sink, G: Gate>(
    task: &FileTask<'_, R, G>,
    script: &Script,
    seen: &Seen,
    text: &mut K,
    frames: &mut F,
) -> Result<(), RunFault>
    requires settings { InRange task.now.job.settings }
    requires inside { AreInside seen.now.bytes.items seen.now.spans }
    requires short { length seen.now.bytes.items ≤ 268435456 }
    ensures ok { OnOk result (GainsBoth
        (Shows (task.now.job.settings.objects / 2) script.now seen.now.bytes.items seen.now.packets seen.now.spans)
        (K.written text.old) (K.written text.new) (F.written frames.old) (F.written frames.new)) }
    ensures err { OnErr result (GainsParts
        (Shows (task.now.job.settings.objects / 2) script.now seen.now.bytes.items seen.now.packets seen.now.spans)
        (K.written text.old) (K.written text.new) (F.written frames.old) (F.written frames.new)) }
    ensures write { IsErrOf result RunFault.Write → HasRisen (K.faults text.old) (K.faults text.new)
        ⊎ HasRisen (F.faults frames.old) (F.faults frames.new) }
    ensures counted { K.faults text.old ≤ K.faults text.new }
    ensures frames_counted { F.faults frames.old ≤ F.faults frames.new }
{
    let mut tap = KeptTap::new(task.alloc);
    run_to(
        task.rt,
        task.alloc,
        task.job.settings,
        script,
        &seen.packets,
        text,
        &mut tap,
        task.gate,
    )?;
    send(task.alloc, seen, tap.list(), text, frames)
}

/// Runs the files of a job.
pub fn run_job<R: Threads + Wait + Sync, H: Shelf, K: Sink, F: Sink, G: Gate>(
    task: &FileTask<'_, R, G>,
    shelf: &mut H,
    text: &mut K,
    frames: &mut F,
) -> Result<(), Fault>
    requires { InRange task.now.job.settings }
    ensures done { OnOk result (GainsBoth (MaySend (H.holds shelf.old) (wants task.now.job))
        (K.written text.old) (K.written text.new) (F.written frames.old) (F.written frames.new)) }
    ensures part { OnErr result (NoneGrew (K.written text.old) (K.written text.new) (F.written frames.old) (F.written frames.new)
        ⊎ GainsParts (MaySend (H.holds shelf.old) (wants task.now.job)) (K.written text.old) (K.written text.new)
        (F.written frames.old) (F.written frames.new)) }
    ensures first { IsErrOf result Fault.Write → GainsParts (MaySend (H.holds shelf.old) (wants task.now.job))
        (K.written text.old) (K.written text.new) (F.written frames.old) (F.written frames.new) }
    ensures unwritten { IsErrOf result Fault.Write → HasRisen (K.faults text.old) (K.faults text.new)
        ⊎ HasRisen (F.faults frames.old) (F.faults frames.new) }
    ensures nothing { IsErrOf result Fault.Commands ⊎ (IsErrOf result Fault.Capture
        ⊎ (IsErrOf result Fault.Refused ⊎ IsErrOf result Fault.TooLong))
        → NoneGrew (K.written text.old) (K.written text.new) (F.written frames.old) (F.written frames.new) }
    ensures commands { IsErrOf result Fault.Commands → HasRisen (H.faults shelf.old Part.Commands) (H.faults shelf.new Part.Commands) }
    ensures capture { IsErrOf result Fault.Capture → HasRisen (H.faults shelf.old Part.Capture) (H.faults shelf.new Part.Capture) }
    ensures opened { IsErrOf result Fault.Capture → MayOpen (H.holds shelf.old) (wants task.now.job) }
    ensures refused { IsErrOf result Fault.Refused → MayRefuse (H.holds shelf.old) (wants task.now.job) }
    ensures too_long { IsErrOf result Fault.TooLong → MayBeLong (H.holds shelf.old) (wants task.now.job) }
    ensures untouched { names_capture (wants task.now.job) ≡ false → H.faults shelf.new Part.Capture ≡ H.faults shelf.old Part.Capture }
{
    let script = read_commands(task.alloc, shelf, task.job.commands)?;
    let seen = see_capture(task.alloc, shelf, task.job.capture)?;
    run_seen(task, &script, &seen, text, frames)?;
    Ok(())
}
