// The lines of a program that knows changes alone: it has no batches, and refuses all other lines with a text of its own.
ghost use Rattle.std.specs.Prelude.{◌≡◌, ◌++◌, ◌+◌, ◌-◌, ◌<◌, ◌≤◌, ◌^◌, OnOk, OnErr, IfSome, None, codes};
ghost use Rattle.fib_commands.specs.Lines.{IsWrittenLine};
ghost use Rattle.fib_print.specs.Lines.{message};
ghost use Rattle.fib_rounds_turns.specs.Routers.{HasGrown, KeepsCrew, Stands, applied_in, counted, one_refused, router_of};
ghost use Rattle.fib_rounds_turns.specs.Turns.{change_line, change_turn_of};
ghost use Rattle.fib_rounds_turns.specs.inner.Done.{HasTurned};

use crate::means::Means;
use crate::progress::Progress;
use crate::turn::{change, said};
use fib_commands::Line;
use fib_control::Control;
use fib_core_board::Board;
use fib_outside::Gate;
use fib_print::put_message;
use std::alloc::AllocError;
use std::sync::Wait;

// Refuses the line that was counted last with this text.
fn refuse(progress: &mut Progress, out: &mut Vec<u8>, text: &str) -> Result<(), AllocError>
    requires fewer { progress.old.refused < progress.old.lines }
    requires alone { progress.old.batch ≡ None }
    ensures progress { progress.new ≡ one_refused progress.old }
    ensures text { OnOk result (out.new.items ≡ out.old.items ++ message progress.old.lines text.now) }
    ensures err { OnErr result (out.new.items ≡ out.old.items) }
{
    progress.refuse();
    put_message(out, progress.lines(), text)
}

/// Refuses the next line with this text: it is counted and makes no change. After want of memory it is counted as refused, and nothing is printed.
pub fn refuse_line(progress: &mut Progress, out: &mut Vec<u8>, text: &str) -> Result<(), AllocError>
    requires most { progress.old.lines < 2 ^ 32 - 1 }
    requires alone { progress.old.batch ≡ None }
    ensures progress { progress.new ≡ one_refused (counted progress.old) }
    ensures text { OnOk result (out.new.items ≡ out.old.items ++ message (progress.old.lines + 1) text.now) }
    ensures err { OnErr result (out.new.items ≡ out.old.items) }
{
    pass_line(progress);
    refuse(progress, out, text)
}

/// Counts the next line, which does nothing.
pub fn pass_line(progress: &mut Progress)
    requires most { progress.old.lines < 2 ^ 32 - 1 }
    requires alone { progress.old.batch ≡ None }
    ensures progress { progress.new ≡ counted progress.old }
    ensures fewer { progress.new.refused < progress.new.lines }
{
    // No batch is open, so none is taken out.
    let _none = progress.next_line();
}

// Does what a line that was counted says.
fn run_said<R: Wait, G: Gate, B: Board>(
    means: &Means<'_, R, G>,
    control: &mut Control<B>,
    progress: &mut Progress,
    out: &mut Vec<u8>,
    said: Option<Line>,
    text: &str,
) -> Result<(), AllocError>
    requires written { IfSome said IsWrittenLine }
    requires few { applied_in control.old < progress.old.lines }
    requires fewer { progress.old.refused < progress.old.lines }
    requires alone { progress.old.batch ≡ None }
    ensures did { HasTurned (router_of control.old progress.old)
        (change_line text.now progress.old.lines (router_of control.old progress.old) said)
        control.old control.new progress.new out.old.items out.new.items result }
    ensures lines { progress.new.lines ≡ progress.old.lines }
{
    match said {
        Some(Line::Nothing) => Ok(()),
        Some(Line::Change(edit)) => change(means, control, progress, out, &edit),
        Some(_) => refuse(progress, out, text),
        None => refuse(progress, out, "syntax"),
    }
}

/// Does what a line says in a program that knows changes alone, and appends what it prints: a change is made or refused with its cause, a line that is
/// none of the grammar is refused as `syntax`, and any other line that does something with the text that is given. Lines are numbered from 1: this one's
/// number is that of the lines so far and one.
///
/// The gate is told of changes, and turns follow them, as by [`run_line`](crate::run_line). After want of memory the tables are those before the line or
/// those after it, and the history is that of their versions.
#[tactic(auto, unfolding(crate::specs::Turns::change_turn_of))]
pub fn run_change_line<R: Wait, G: Gate, B: Board>(
    means: &Means<'_, R, G>,
    control: &mut Control<B>,
    progress: &mut Progress,
    out: &mut Vec<u8>,
    line: &[u8],
    text: &str,
) -> Result<(), AllocError>
    requires few { applied_in control.old ≤ progress.old.lines }
    requires most { progress.old.lines < 2 ^ 32 - 1 }
    requires alone { progress.old.batch ≡ None }
    ensures router { OnOk result (router_of control.new progress.new ≡
        (change_turn_of text.now (progress.old.lines + 1) (router_of control.old progress.old) line.now).0) }
    ensures text { OnOk result (out.new.items ≡ out.old.items ++
        (change_turn_of text.now (progress.old.lines + 1) (router_of control.old progress.old) line.now).1) }
    ensures stands { Stands control.new (router_of control.old progress.old)
        (change_turn_of text.now (progress.old.lines + 1) (router_of control.old progress.old) line.now).0 }
    ensures grown { HasGrown control.old control.new }
    ensures lines { OnOk result (progress.new.lines ≡ progress.old.lines + 1) }
    ensures few { OnOk result (applied_in control.new ≤ progress.new.lines) }
    ensures alone { OnOk result (progress.new.batch ≡ None) }
    ensures keeps { KeepsCrew control.old control.new }
{
    let said = said(means.alloc, line)?;
    pass_line(progress);
    run_said(means, control, progress, out, said, text)
}
