// One worker traces while lines are run.
ghost use Rattle.std.specs.Prelude.{◌≡◌, ◌≤◌, None, Some, OnOk, IfSome, length, take, true};
ghost use Rattle.fib_core_board.specs.Crews.{Seated, board_joined};
ghost use Rattle.fib_control.specs.Controls.{with_board};
ghost use Rattle.fib_rounds_turns.specs.Routers.{KeepsCrew, applied_in};
ghost use Rattle.fib_rounds.specs.Rounds.{stage_of};
ghost use Rattle.fib_tracer.specs.inner.Going.{HasGone};
ghost use Rattle.fib_tracer.specs.inner.Standing.{HasDone, IsOf, IsReady};

use crate::lines::run_lines;
use crate::log::{Log, Traced};
use crate::passes::{Went, trace_all};
use crate::reading::Reading;
use fib_capture::Capture;
use fib_cells::{LiveBoard, WorkerSeat};
use fib_control::Control;
use fib_outside::Gate;
use fib_rounds::Task;
use std::alloc::{AllocError, Global};
use std::sync::Wait;
use std::thread::{Threads, join_mut};

/// The worker that traces: its seat, what it keeps, and whether it kept each of its passes.
#[derive(Drop)]
pub struct Tracer<'a> {
    pub seat: Option<WorkerSeat<'a>>,
    pub log: Log,
    pub done: bool,
}

// It traces all packets.
fn trace_by<'a, G: Gate>(alloc: Global, packets: &Capture, gate: &G, tracer: &mut Tracer<'a>)
    requires { IsReady packets.now.packets tracer.old }
    ensures { HasDone packets.now.packets tracer.old tracer.new }
{
    if let Some(seat) = tracer.seat.take() {
        let Went { seat, kept } = trace_all(alloc, seat, packets, &mut tracer.log, gate);
        tracer.seat = Some(seat);
        tracer.done = kept;
    }
}

/// The worker traces all packets while the lines from a place on are run. Where no thread can be made the lines are run first.
pub fn beside<'a, 'b, R: Threads + Wait + Sync, G: Gate>(
    task: &Task<'_, R, G>,
    control: &mut Control<LiveBoard<'a>>,
    reading: &mut Reading,
    from: u32,
    tracer: &mut Tracer<'b>,
) -> Result<(), AllocError>
    requires ready { IsReady task.now.packets.now.packets tracer.old }
    requires inside { from ≤ length task.now.script.now }
    requires lines { reading.old.progress.lines ≡ from }
    requires few { applied_in control.old ≤ from }
    requires alone { reading.old.progress.batch ≡ None }
    ensures done { HasDone task.now.packets.now.packets tracer.old tracer.new }
    ensures gone { OnOk result (HasGone (take (length task.now.script.now) task.now.script.now) from
        (stage_of control.old reading.old.progress) reading.old.text.items (length task.now.script.now)
        (stage_of control.new reading.new.progress) reading.new.text.items) }
    ensures keeps { KeepsCrew control.old control.new }
{
    let (_, ran) = join_mut(
        task.rt,
        &mut || -> ()
            requires { IsReady task.now.packets.now.packets tracer.now }
            ensures { HasDone task.entry.now.packets.now.packets tracer.entry.now tracer.exit.now }
        { trace_by(task.alloc, task.packets, task.gate, tracer) },
        &mut || -> Result<(), AllocError>
            requires { (from ≤ length task.now.script.now) × (reading.now.progress.lines ≡ from) × (applied_in control.now ≤ from)
                × (reading.now.progress.batch ≡ None) }
        { run_lines(task, control, reading, from, task.script.lines()) },
    );
    ran
}

/// The worker comes home. Its passes, where it kept each.
pub fn come_home<'a>(
    control: &mut Control<LiveBoard<'a>>,
    tracer: Tracer<'a>,
) -> Option<Vec<Traced>>
    requires { IsOf control.old.plane.board.id tracer.seat }
    ensures home { (w : Seated) → tracer.entry.seat ≡ Some w → control.new
        ≡ with_board control.old (board_joined control.old.plane.board w.worker) }
    ensures kept { IfSome result (λ passes. (tracer.entry.done ≡ true) × (passes.items ≡ tracer.entry.log.passes.items)) }
{
    let Tracer { seat, log, done } = tracer;
    if let Some(seat) = seat {
        control.home(seat);
    }
    if !done {
        return None;
    }
    let Log { trail: _, passes } = log;
    Some(passes)
}
