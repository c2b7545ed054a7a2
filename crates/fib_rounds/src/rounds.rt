// The rounds of a script.
ghost use Rattle.std.specs.Prelude.{◌≡◌, ◌≤◌, ◌/◌, ◌⊎◌, OnOk, OnErr, IfOk, IsErrOf};
ghost use Rattle.fib_outside.specs.Outside.{HasRisen};
ghost use Rattle.fib_core.specs.Ranges.{InRange};
ghost use Rattle.fib_rounds_homing.specs.Homes.{NoneOut};
ghost use Rattle.fib_rounds.specs.Output.{FirstOutput, Output};
ghost use Rattle.fib_rounds.specs.Runs.{GainsPart, GainsRun, GainsTaken, IsNew};
ghost use Rattle.fib_rounds.specs.Summaries.{summary_of};
ghost use Rattle.fib_rounds.specs.Writes.{Gains};

use crate::fault::RunFault;
use crate::opening::Opening;
use crate::put::{Page, put_all, put_last, write_frames};
use crate::round::run_round;
use crate::summary::Summary;
use crate::task::{Reading, Task};
use fib_capture::Capture;
use fib_cells::{Cells, LiveBoard};
use fib_commands::Script;
use fib_control::Control;
use fib_core::Settings;
use fib_outside::{Gate, Sink};
use fib_rounds_taps::{NoTap, Tap};
use fib_rounds_turns::Progress;
use std::alloc::Global;
use std::sync::Wait;
use std::thread::Threads;

// Runs and prints one round after the other, and then the last line. The tap takes the results as they are printed.
fn run_rounds<'a, R: Threads + Wait + Sync, K: Sink, T: Tap, G: Gate>(
    task: &Task<'_, R, G>,
    control: &mut Control<LiveBoard<'a>>,
    out: &mut K,
    tap: &mut T,
) -> Result<Summary, RunFault>
    requires settings { InRange task.now.settings }
    requires fresh { IsNew task.now.settings.workers (task.now.settings.objects / 2) control.old }
    ensures ok { OnOk result (GainsRun task.now.settings.workers
        (task.now.settings.objects / 2) task.now.script.now task.now.packets.now control.new
        (K.written out.old) (K.written out.new) (T.taken tap.old) (T.taken tap.new)) }
    ensures summary { IfOk result (λ s. s ≡ summary_of (task.now.settings.objects / 2) task.now.script.now task.now.packets.now) }
    ensures some { OnErr result (GainsPart (task.now.settings.objects / 2) task.now.script.now task.now.packets.now
        (K.written out.old) (K.written out.new) (T.taken tap.old) (T.taken tap.new)) }
    ensures write { IsErrOf result RunFault.Write → HasRisen (K.faults out.old) (K.faults out.new)
        ⊎ HasRisen (T.faults tap.old) (T.faults tap.new) }
    ensures counted { K.faults out.old ≤ K.faults out.new }
    ensures tapped { T.faults tap.old ≤ T.faults tap.new }
    ensures none { NoneOut control.new.plane.board }
{
    let mut reading = Reading {
        progress: Progress::new(),
        text: Vec::new(task.alloc),
    };
    let mut counts = Summary::zero();
    let mut refused_lines = 0;
    let mut next = Some(Opening {
        place: 0,
        first: 0,
        to: 0,
    });
    'rounds: while let Some(round) = next {
        reading.text.clear();
        let ran = run_round(task, control, &mut reading, &mut counts, round)?;
        put_all(out, &reading.text)?;
        let page = Page {
            tables: control.tables(),
            packets: task.packets,
        };
        write_frames(
            out,
            tap,
            &mut reading.text,
            &page,
            round,
            ran.places.as_slice(),
        )?;
        refused_lines = ran.refused;
        next = ran.next;
    }
    reading.text.clear();
    put_last(&mut reading.text, task.packets)?;
    put_all(out, &reading.text)?;
    counts.accepted = control.version().applied;
    counts.refused = refused_lines;
    Ok(counts)
}

/// Runs a script over a capture's packets on a control plane before its first change, and answers the run's counts. The tap takes the results, each with
/// its packet's number and in packet order, frame by frame after their lines were written.
///
/// The lines of each round are run in one thread while its packets are forwarded on the control plane's workers in others, which claim them by frames of
/// 256; where no thread can be made, the caller does that work. After a fault, as after Ok, no worker is out. Where the tap fails, that is a fault of
/// the run: Write where it counted one, else Memory.
pub fn run_on<'a, R: Threads + Wait + Sync, K: Sink, T: Tap, G: Gate>(
    rt: &R,
    alloc: Global,
    settings: Settings,
    script: &Script,
    packets: &Capture,
    control: &mut Control<LiveBoard<'a>>,
    out: &mut K,
    tap: &mut T,
    gate: &G,
) -> Result<Summary, RunFault>
    requires settings { InRange settings }
    requires fresh { IsNew settings.workers (settings.objects / 2) control.old }
    ensures ok { OnOk result (GainsRun settings.workers (settings.objects / 2) script.now packets.now control.new
        (K.written out.old) (K.written out.new) (T.taken tap.old) (T.taken tap.new)) }
    ensures summary { IfOk result (λ s. s ≡ summary_of (settings.objects / 2) script.now packets.now) }
    ensures some { OnErr result (GainsPart (settings.objects / 2) script.now packets.now
        (K.written out.old) (K.written out.new) (T.taken tap.old) (T.taken tap.new)) }
    ensures write { IsErrOf result RunFault.Write → HasRisen (K.faults out.old) (K.faults out.new)
        ⊎ HasRisen (T.faults tap.old) (T.faults tap.new) }
    ensures counted { K.faults out.old ≤ K.faults out.new }
    ensures tapped { T.faults tap.old ≤ T.faults tap.new }
    ensures none { NoneOut control.new.plane.board }
{
    let task = Task {
        rt,
        alloc,
        gate,
        settings,
        script,
        packets,
    };
    run_rounds(&task, control, out, tap)
}

/// Runs a script over a capture's packets with these settings, has a tap take the results that are printed, and answers the run's counts: makes the cells,
/// the board and the control plane, and calls [`run_on`].
///
/// After Ok the sink has gained a whole output, and the tap all its results. After a fault each has gained a first part, all or some or nothing, of one
/// output and of that output's results.
pub fn run_to<R: Threads + Wait + Sync, K: Sink, T: Tap, G: Gate>(
    rt: &R,
    alloc: Global,
    settings: Settings,
    script: &Script,
    packets: &Capture,
    out: &mut K,
    tap: &mut T,
    gate: &G,
) -> Result<Summary, RunFault>
    requires settings { InRange settings }
    ensures ok { OnOk result (GainsTaken (settings.objects / 2) script.now packets.now
        (K.written out.old) (K.written out.new) (T.taken tap.old) (T.taken tap.new)) }
    ensures summary { IfOk result (λ s. s ≡ summary_of (settings.objects / 2) script.now packets.now) }
    ensures some { OnErr result (GainsPart (settings.objects / 2) script.now packets.now
        (K.written out.old) (K.written out.new) (T.taken tap.old) (T.taken tap.new)) }
    ensures write { IsErrOf result RunFault.Write → HasRisen (K.faults out.old) (K.faults out.new)
        ⊎ HasRisen (T.faults tap.old) (T.faults tap.new) }
    ensures counted { K.faults out.old ≤ K.faults out.new }
    ensures tapped { T.faults tap.old ≤ T.faults tap.new }
{
    let (cells, seat) = Cells::new(alloc, settings.objects, settings.workers)?;
    let board = LiveBoard::new(&cells, seat);
    let mut control = Control::new(alloc, board)?;
    run_on(
        rt,
        alloc,
        settings,
        script,
        packets,
        &mut control,
        out,
        tap,
        gate,
    )
}

/// Runs a script over a capture's packets with these settings, and answers the run's counts: [`run_to`] where nobody is told of the results.
#[tactic(auto, using(crate::proofs::Beginning::sink_alone))]
pub fn run<R: Threads + Wait + Sync, K: Sink, G: Gate>(
    rt: &R,
    alloc: Global,
    settings: Settings,
    script: &Script,
    packets: &Capture,
    out: &mut K,
    gate: &G,
) -> Result<Summary, RunFault>
    requires settings { InRange settings }
    ensures ok { OnOk result (Gains (Output (settings.objects / 2) script.now packets.now) (K.written out.old) (K.written out.new)) }
    ensures summary { IfOk result (λ s. s ≡ summary_of (settings.objects / 2) script.now packets.now) }
    ensures some { OnErr result (Gains (FirstOutput (settings.objects / 2) script.now packets.now) (K.written out.old)
        (K.written out.new)) }
    ensures write { IsErrOf result RunFault.Write → HasRisen (K.faults out.old) (K.faults out.new) }
    ensures counted { K.faults out.old ≤ K.faults out.new }
{
    let mut tap = NoTap;
    run_to(rt, alloc, settings, script, packets, out, &mut tap, gate)
}
