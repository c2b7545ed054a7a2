// The lines of a script, before and behind the line `trace`.
ghost use Rattle.std.specs.Prelude.{◌≡◌, ◌≤◌, ◌<◌, ◌+◌, ◌++◌, ◌-◌, ◌^◌, None, OnOk, IfOk, drop, length, min, take};
ghost use Rattle.fib_rounds_turns.specs.Routers.{HasGrown, KeepsCrew, applied_in, router_of};
ghost use Rattle.fib_rounds.specs.Rounds.{stage_of};
ghost use Rattle.fib_tracer.specs.Lines.{after_trace, before_trace, is_trace, traced_turn};
ghost use Rattle.fib_tracer.specs.inner.Going.{HasGone};

use crate::reading::Reading;
use fib_base_lines::Words;
use fib_commands::Script;
use fib_control::Control;
use fib_core_board::Board;
use fib_outside::Gate;
use fib_rounds::Task;
use fib_rounds_turns::{Progress, pass_line, refuse_line, run_change_line};
use std::alloc::AllocError;
use std::sync::Wait;
use std::thread::Threads;

/// What a line prints that a traced script doesn't know.
const NOT_TRACED: &str = "not traced";

// Whether a line is the one word `trace`.
#[tactic(auto, unfolding(crate::specs::Lines::is_trace))]
fn is_trace(line: &[u8]) -> bool
    ensures { result ≡ is_trace line.now }
{
    let words = Words::new(line);
    words.next_is("trace") && words.count() == 1
}

/// How many lines stand before the first `trace`: all of them where there is none.
pub fn lines_before(script: &Script) -> u32
    ensures before { take result script.now ≡ before_trace script.now }
    ensures after { drop (result + 1) script.now ≡ after_trace script.now }
    ensures inside { result ≤ length script.now }
{
    let mut place = 0;
    'lines: while place < script.lines() {
        if is_trace(script.line(place + 1)) {
            return place;
        }
        place += 1;
    }
    place
}

/// Passes over the line in that place, where there is one: it is counted, and does nothing. Answers how many lines are behind then.
pub fn pass_trace(progress: &mut Progress, script: &Script, place: u32) -> u32
    requires inside { place ≤ length script.now }
    requires lines { progress.old.lines ≡ place }
    requires alone { progress.old.batch ≡ None }
    ensures next { result ≡ min (place + 1) (length script.now) }
    ensures lines { progress.new.lines ≡ result }
    ensures refused { progress.new.refused ≡ progress.old.refused }
    ensures alone { progress.new.batch ≡ None }
{
    if place < script.lines() {
        pass_line(progress);
        return place + 1;
    }
    place
}

// Does what a line says, where it is a change, and refuses any other.
#[tactic(auto, unfolding(crate::specs::Lines::traced_turn))]
fn run_line<R: Threads + Wait + Sync, G: Gate, B: Board>(
    task: &Task<'_, R, G>,
    control: &mut Control<B>,
    reading: &mut Reading,
    line: &[u8],
) -> Result<(), AllocError>
    requires few { applied_in control.old ≤ reading.old.progress.lines }
    requires most { reading.old.progress.lines < 2 ^ 32 - 1 }
    requires alone { reading.old.progress.batch ≡ None }
    ensures router { OnOk result (router_of control.new reading.new.progress
        ≡ (traced_turn (reading.old.progress.lines + 1) (router_of control.old reading.old.progress) line.now).0) }
    ensures text { OnOk result (reading.new.text.items ≡ reading.old.text.items
        ++ (traced_turn (reading.old.progress.lines + 1) (router_of control.old reading.old.progress) line.now).1) }
    ensures grown { HasGrown control.old control.new }
    ensures lines { OnOk result (reading.new.progress.lines ≡ reading.old.progress.lines + 1) }
    ensures few { OnOk result (applied_in control.new ≤ reading.new.progress.lines) }
    ensures alone { OnOk result (reading.new.progress.batch ≡ None) }
    ensures keeps { KeepsCrew control.old control.new }
{
    if is_trace(line) {
        return refuse_line(&mut reading.progress, &mut reading.text, NOT_TRACED);
    }
    run_change_line(
        &task.means(),
        control,
        &mut reading.progress,
        &mut reading.text,
        line,
        NOT_TRACED,
    )
}

/// Runs the lines from one place up to another. So many lines were run before.
pub fn run_lines<R: Threads + Wait + Sync, G: Gate, B: Board>(
    task: &Task<'_, R, G>,
    control: &mut Control<B>,
    reading: &mut Reading,
    from: u32,
    to: u32,
) -> Result<(), AllocError>
    requires order { from ≤ to }
    requires inside { to ≤ length task.now.script.now }
    requires lines { reading.old.progress.lines ≡ from }
    requires few { applied_in control.old ≤ from }
    requires alone { reading.old.progress.batch ≡ None }
    ensures gone { OnOk result (HasGone (take to task.now.script.now) from
        (stage_of control.old reading.old.progress) reading.old.text.items to
        (stage_of control.new reading.new.progress) reading.new.text.items) }
    ensures lines { OnOk result (reading.new.progress.lines ≡ to) }
    ensures few { OnOk result (applied_in control.new ≤ to) }
    ensures alone { OnOk result (reading.new.progress.batch ≡ None) }
    ensures keeps { KeepsCrew control.old control.new }
{
    let mut place = from;
    'lines: while place < to {
        run_line(task, control, reading, task.script.line(place + 1))?;
        place += 1;
    }
    Ok(())
}
