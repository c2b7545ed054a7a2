// All lines of a script, and then the totals of all packets.
ghost use Rattle.std.specs.Prelude.{◌≡◌, ◌<◌, ◌≤◌, ◌/◌, ◌++◌, ◌∷◌, [], ℕ, IfOk, OnOk, OnErr, length};
ghost use Rattle.fib_core_lawful.specs.Claims.{times};
ghost use Rattle.fib_control.specs.Controls.{tables_in};
ghost use Rattle.fib_counts.specs.Counts.{outs};
ghost use Rattle.fib_rounds_homing.specs.Homes.{NoneOut};
ghost use Rattle.fib_core.specs.Ranges.{InRange};
ghost use Rattle.fib_rounds.specs.Runs.{IsNew};
ghost use Rattle.fib_rounds_turns.specs.Routers.{new_router};
ghost use Rattle.fib_counter.specs.CountOutput.{all_totals, class_count, count_output, lines_turn};
ghost use Rattle.fib_counter.specs.inner.Settled.{IsSettledRun};

use crate::lines::run_script;
use crate::posts::{dismiss, muster, work_posts};
use crate::totals::put_totals;
use fib_cells::{Cells, LiveBoard};
use fib_control::Control;
use fib_counts::{Counters, Keeper};
use fib_outside::Gate;
use fib_rounds::{Task, places_for, put_last, settle_home};
use fib_rounds_homing::{bring_home, send_out};
use fib_rounds_turns::Progress;
use fib_worker_crew::Taken;
use std::alloc::AllocError;
use std::sync::Wait;
use std::thread::Threads;

// Forwards all packets on the workers, each of which counts the results of the frames that it claimed. Places, stations and posts are made before a
// worker leaves. Where a worker wanted memory, or counted as often as it may, the totals are not told.
fn count_packets<'a, 'b, R: Threads + Wait + Sync, G: Gate>(
    task: &Task<'_, R, G>,
    control: &mut Control<LiveBoard<'a>>,
    keeper: &mut Keeper<'b>,
) -> Result<(), AllocError>
    requires settings { InRange task.now.settings }
    requires settled { IsSettledRun task.now.settings.workers control.old }
    requires any { 0 < length task.now.packets.now.packets }
    requires none { outs keeper.old.out ≡ 0 }
    requires fresh { keeper.old.tally ≡ [] }
    ensures out { OnOk result (outs keeper.new.out ≡ 0) }
    ensures totals { OnOk result ((w : ℕ) → w < 770 →
        times w keeper.new.tally ≡ class_count (tables_in control.old) task.now.packets.now.packets w) }
    ensures tables { control.new.setup ≡ control.old.setup }
    ensures home { NoneOut control.new.plane.board }
{
    let taken = Taken {
        opened: control.version().applied,
        first: 0,
        to: task.packets.count(),
        base: control.gathered(),
    };
    let workers = task.settings.workers as usize;
    let mut places = places_for(task.alloc, taken.frames())?;
    let mut crew = Vec::with_capacity(task.alloc, workers)?;
    let mut posts = Vec::with_capacity(task.alloc, workers)?;
    let mut back = Vec::with_capacity(task.alloc, workers)?;
    send_out(task.alloc, control, task.settings.workers, &mut crew);
    muster(keeper, crew, &mut posts);
    work_posts(
        task.rt,
        task.alloc,
        task.packets,
        taken,
        task.gate,
        posts.as_mut_slice(),
    );
    let counted = dismiss(keeper, posts, &mut back);
    let done = bring_home(control, back, task.packets, taken, places.as_mut_slice());
    if counted && done {
        Ok(())
    } else {
        Err(AllocError)
    }
}

// Appends the totals of all packets, of which there are some.
fn put_counts<'a, R: Threads + Wait + Sync, G: Gate>(
    task: &Task<'_, R, G>,
    control: &mut Control<LiveBoard<'a>>,
    text: &mut Vec<u8>,
) -> Result<(), AllocError>
    requires settings { InRange task.now.settings }
    requires settled { IsSettledRun task.now.settings.workers control.old }
    requires any { 0 < length task.now.packets.now.packets }
    ensures { OnOk result (text.new.items ≡ text.old.items
        ++ all_totals (tables_in control.old) (class_count (tables_in control.old) task.now.packets.now.packets)) }
{
    let (counters, seat) = Counters::new(task.alloc)?;
    let mut keeper = Keeper::new(&counters, seat);
    count_packets(task, control, &mut keeper)?;
    put_totals(text, control.tables(), &mut keeper)
}

// Appends the totals of all packets. Where there is none, no worker leaves.
fn put_any_counts<'a, R: Threads + Wait + Sync, G: Gate>(
    task: &Task<'_, R, G>,
    control: &mut Control<LiveBoard<'a>>,
    text: &mut Vec<u8>,
) -> Result<(), AllocError>
    requires settings { InRange task.now.settings }
    requires settled { IsSettledRun task.now.settings.workers control.old }
    ensures { OnOk result (text.new.items ≡ text.old.items
        ++ all_totals (tables_in control.old) (class_count (tables_in control.old) task.now.packets.now.packets)) }
{
    if task.packets.count() > 0 {
        put_counts(task, control, text)
    } else {
        Ok(())
    }
}

// Runs all lines and settles.
fn run_lines<'a, R: Threads + Wait + Sync, G: Gate>(
    task: &Task<'_, R, G>,
    control: &mut Control<LiveBoard<'a>>,
    text: &mut Vec<u8>,
) -> Result<(), AllocError>
    requires fresh { IsNew task.now.settings.workers (task.now.settings.objects / 2) control.old }
    ensures settled { OnOk result (IsSettledRun task.now.settings.workers control.new) }
    ensures tables { OnOk result (tables_in control.new
        ≡ (lines_turn 1 (new_router (task.now.settings.objects / 2)) task.now.script.now).0.config.tables) }
    ensures text { OnOk result (text.new.items ≡ text.old.items ++
        (lines_turn 1 (new_router (task.now.settings.objects / 2)) task.now.script.now).1) }
{
    let mut progress = Progress::new();
    run_script(&task.means(), control, &mut progress, text, task.script)?;
    settle_home(control)
}

// What a script and a capture print, on a control plane before its first change.
fn count_on<'a, R: Threads + Wait + Sync, G: Gate>(
    task: &Task<'_, R, G>,
    control: &mut Control<LiveBoard<'a>>,
) -> Result<Vec<u8>, AllocError>
    requires settings { InRange task.now.settings }
    requires fresh { IsNew task.now.settings.workers (task.now.settings.objects / 2) control.old }
    ensures { IfOk result (λ text. text.items ≡ count_output (task.now.settings.objects / 2) task.now.script.now task.now.packets.now) }
{
    let mut text = Vec::new(task.alloc);
    run_lines(task, control, &mut text)?;
    put_any_counts(task, control, &mut text)?;
    put_last(&mut text, task.packets)?;
    Ok(text)
}

/// What a script and a capture print: makes the cells, the board and the control plane, runs all lines, and forwards all packets on the workers, each of
/// which counts what it forwarded. The only error is want of memory.
pub fn count<R: Threads + Wait + Sync, G: Gate>(
    task: &Task<'_, R, G>,
) -> Result<Vec<u8>, AllocError>
    requires settings { InRange task.now.settings }
    ensures { IfOk result (λ text. text.items ≡ count_output (task.now.settings.objects / 2) task.now.script.now task.now.packets.now) }
{
    let (cells, seat) = Cells::new(task.alloc, task.settings.objects, task.settings.workers)?;
    let board = LiveBoard::new(&cells, seat);
    let mut control = Control::new(task.alloc, board)?;
    count_on(task, &mut control)
}
