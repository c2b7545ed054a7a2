// A traced run.
ghost use Rattle.std.specs.Prelude.{◌≡◌, ◌≤◌, ◌/◌, ◌⊎◌, None, OnOk, OnErr, IfOk, IsErrOf, length, take};
ghost use Rattle.fib_outside.specs.Outside.{HasRisen};
ghost use Rattle.fib_core.specs.Ranges.{InRange};
ghost use Rattle.fib_worker_crew.specs.Packets.{Matched};
ghost use Rattle.fib_rounds_homing.specs.Homes.{NoneOut};
ghost use Rattle.fib_rounds_turns.specs.Routers.{applied_in, history_in};
ghost use Rattle.fib_rounds.specs.Rounds.{stage_of};
ghost use Rattle.fib_rounds.specs.Runs.{IsNew};
ghost use Rattle.fib_rounds.specs.Writes.{Gains};
ghost use Rattle.fib_run.specs.Output.{FirstPart};
ghost use Rattle.fib_tracer.specs.Passes.{AreTraced};
ghost use Rattle.fib_tracer.specs.TraceOutput.{HasTold, TraceOutput};
ghost use Rattle.fib_tracer.specs.inner.Going.{HasGone};
ghost use Rattle.fib_tracer.specs.inner.Printing.{IsShort};
ghost use Rattle.fib_tracer.specs.inner.Standing.{IsIdle};

use crate::beside::{Tracer, beside, come_home};
use crate::lines::{lines_before, pass_trace, run_lines};
use crate::log::{Log, Traced};
use crate::put::write_told;
use crate::reading::Reading;
use fib_cells::{Cells, LiveBoard};
use fib_control::Control;
use fib_outside::{Gate, Sink};
use fib_rounds::{RunFault, Task, settle_home};
use fib_rounds_turns::Progress;
use std::alloc::AllocError;
use std::sync::Wait;
use std::thread::Threads;

/// What a traced run is to print: the text of its lines, and the passes of its flows.
#[derive(Drop)]
pub struct Told {
    pub text: Vec<u8>,
    pub passes: Vec<Traced>,
}

// Traces all packets while the lines from a place on are run, and brings the worker home. Room for a pass is made before it leaves.
fn trace_beside<'a, R: Threads + Wait + Sync, G: Gate>(
    task: &Task<'_, R, G>,
    control: &mut Control<LiveBoard<'a>>,
    reading: &mut Reading,
    from: u32,
) -> Result<Vec<Traced>, AllocError>
    requires settings { InRange task.now.settings }
    requires idle { IsIdle task.now.settings.objects control.old }
    requires inside { from ≤ length task.now.script.now }
    requires lines { reading.old.progress.lines ≡ from }
    requires few { applied_in control.old ≤ from }
    requires alone { reading.old.progress.batch ≡ None }
    ensures gone { OnOk result (HasGone (take (length task.now.script.now) task.now.script.now) from
        (stage_of control.old reading.old.progress) reading.old.text.items (length task.now.script.now)
        (stage_of control.new reading.new.progress) reading.new.text.items) }
    ensures traced { IfOk result (λ passes. AreTraced
        (applied_in control.old) (history_in control.new) task.now.packets.now.packets control.new.plane.board.trails passes.items) }
    ensures short { IfOk result (λ passes. Matched IsShort task.now.packets.now.packets passes.items) }
    ensures none { NoneOut control.new.plane.board }
{
    // that a capture has fewer than 2^32 packets leaves the worker a pass for each
    let _count = task.packets.count();
    let log = Log::new(task.alloc, task.settings.objects)?;
    let mut tracer = Tracer {
        seat: Some(control.worker(0)),
        log,
        done: false,
    };
    let ran = beside(task, control, reading, from, &mut tracer);
    let kept = come_home(control, tracer);
    control.tells_board();
    ran?;
    match kept {
        Some(passes) => Ok(passes),
        None => Err(AllocError),
    }
}

/// Runs a script on a control plane before its first change, and traces a capture's packets on a worker of it: the lines before the first `trace`, or
/// all, are run and settled first, and those behind it while the packets are traced. Whatever happened, no worker is out then.
///
/// The control plane must have as many objects as the settings say.
pub fn trace_on<'a, R: Threads + Wait + Sync, G: Gate>(
    task: &Task<'_, R, G>,
    control: &mut Control<LiveBoard<'a>>,
) -> Result<Told, AllocError>
    requires settings { InRange task.now.settings }
    requires fresh { IsNew task.now.settings.workers (task.now.settings.objects / 2) control.old }
    requires objects { control.old.plane.board.objects ≡ task.now.settings.objects }
    ensures told { IfOk result (λ told. HasTold (task.now.settings.objects / 2) task.now.script.now task.now.packets.now control.new told) }
    ensures short { IfOk result (λ told. Matched IsShort task.now.packets.now.packets told.passes.items) }
    ensures none { NoneOut control.new.plane.board }
{
    let mut reading = Reading {
        progress: Progress::new(),
        text: Vec::new(task.alloc),
    };
    let place = lines_before(task.script);
    run_lines(task, control, &mut reading, 0, place)?;
    settle_home(control)?;
    let from = pass_trace(&mut reading.progress, task.script, place);
    let passes = trace_beside(task, control, &mut reading, from)?;
    settle_home(control)?;
    Ok(Told {
        text: reading.text,
        passes,
    })
}

/// Runs a script with these settings, traces a capture's packets beside it, and prints what its lines say, each packet, and the loads of each pass.
///
/// Where a write fails, a first part of that was written; where memory is wanted, a first part or nothing.
pub fn trace_run<R: Threads + Wait + Sync, K: Sink, G: Gate>(
    task: &Task<'_, R, G>,
    out: &mut K,
) -> Result<(), RunFault>
    requires settings { InRange task.now.settings }
    ensures ok { OnOk result (Gains (TraceOutput (task.now.settings.objects / 2) task.now.script.now task.now.packets.now)
        (K.written out.old) (K.written out.new)) }
    ensures part { OnErr result ((K.written out.new ≡ K.written out.old)
        ⊎ Gains (FirstPart (TraceOutput (task.now.settings.objects / 2) task.now.script.now task.now.packets.now)) (K.written out.old)
        (K.written out.new)) }
    ensures first { IsErrOf result RunFault.Write → Gains
        (FirstPart (TraceOutput (task.now.settings.objects / 2) task.now.script.now task.now.packets.now)) (K.written out.old)
        (K.written out.new) }
    ensures write { IsErrOf result RunFault.Write → HasRisen (K.faults out.old) (K.faults out.new) }
    ensures counted { K.faults out.old ≤ K.faults out.new }
{
    let settings = task.settings;
    let (cells, seat) = Cells::new(task.alloc, settings.objects, settings.workers)?;
    let board = LiveBoard::new(&cells, seat);
    let mut control = Control::new(task.alloc, board)?;
    let told = trace_on(task, &mut control)?;
    write_told(out, told, control.tables(), task.packets)
}
