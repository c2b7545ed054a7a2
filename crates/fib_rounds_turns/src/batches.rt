// What a line does within a batch.
ghost use Rattle.std.specs.Prelude.{◌≡◌, ◌++◌, ◌+◌, ◌<◌, OnOk, IfSome, None, Some};
ghost use Rattle.fib_commands.specs.Lines.{IsWrittenLine};
ghost use Rattle.fib_resolve.specs.Reachable.{IsWritten};
ghost use Rattle.fib_print.specs.Lines.{message};
ghost use Rattle.fib_rounds_turns.specs.Routers.{applied_in, one_refused, router_of, spoiled, with_edit, with_kept};
ghost use Rattle.fib_rounds_turns.specs.Turns.{line_at, commit_turn, within};
ghost use Rattle.fib_rounds_turns.specs.inner.Done.{HasTurned};
ghost use Rattle.fib_rounds_turns.specs.inner.Kept.{FitsLast};

use crate::changes::{Unmade, apply_all, walk_on};
use crate::means::Means;
use crate::progress::{Batch, Progress};
use fib_commands::Line;
use fib_control::Control;
use fib_core_board::Board;
use fib_outside::Gate;
use fib_print::{BatchFault, put_batch, put_message, put_refusal};
use fib_resolve::Edit;
use std::alloc::AllocError;
use std::sync::Wait;

// The number of the line that wrote the edit at that place.
fn line_at(batch: &Batch, place: u32) -> u32
    ensures { result ≡ line_at batch.now place }
{
    batch
        .lines
        .as_slice()
        .get(place as usize)
        .copied()
        .unwrap_or(0)
}

// Makes all edits of a batch as one change, or names the first that is refused.
#[tactic(auto, unfolding(crate::specs::Turns::commit_turn))]
fn commit<R: Wait, G: Gate, B: Board>(
    means: &Means<'_, R, G>,
    control: &mut Control<B>,
    progress: &mut Progress,
    batch: &Batch,
    out: &mut Vec<u8>,
) -> Result<(), AllocError>
    requires few { applied_in control.old < progress.old.lines }
    requires taken { FitsLast progress.old batch.now }
    requires alone { progress.old.batch ≡ None }
    ensures did { HasTurned (router_of control.old progress.old)
        (commit_turn progress.old.lines
        (router_of control.old progress.old) batch.now) control.old control.new progress.new out.old.items out.new.items result }
    ensures lines { progress.new.lines ≡ progress.old.lines }
{
    let number = progress.lines();
    if batch.spoiled {
        progress.refuse();
        return put_batch(out, number, BatchFault::Spoiled);
    }
    let next = control.version().applied + 1;
    means.gate.changing(next);
    match apply_all(means.rt, control, batch.edits.as_slice())? {
        None => {
            means.gate.applied(next);
            walk_on(control, means.walk)
        }
        Some(Unmade { place, refusal }) => {
            progress.refuse();
            put_refusal(out, line_at(batch, place), refusal)
        }
    }
}

// Spoils a batch by a line that is refused.
fn spoil(
    progress: &mut Progress,
    batch: Batch,
    out: &mut Vec<u8>,
    text: &str,
) -> Result<(), AllocError>
    requires taken { FitsLast progress.old batch }
    requires alone { progress.old.batch ≡ None }
    ensures progress { progress.new ≡ with_kept (one_refused progress.old) (spoiled batch) }
    ensures text { OnOk result (out.new.items ≡ out.old.items ++ message progress.old.lines text.now) }
{
    let mut batch = batch;
    batch.spoiled = true;
    progress.refuse();
    progress.keep(batch);
    put_message(out, progress.lines(), text)
}

// Keeps the edit of a line until the batch is committed.
fn keep(progress: &mut Progress, batch: Batch, edit: Edit) -> Result<(), AllocError>
    requires written { IsWritten edit }
    requires taken { FitsLast progress.old batch }
    ensures progress { OnOk result (progress.new ≡ with_kept progress.old (with_edit batch progress.old.lines edit)) }
    ensures lines { progress.new.lines ≡ progress.old.lines }
{
    let mut batch = batch;
    batch.lines.push(progress.lines())?;
    match batch.edits.push(edit) {
        Ok(()) => {
            progress.keep(batch);
            Ok(())
        }
        Err(_) => Err(AllocError),
    }
}

/// A line within this batch, which was taken out of what is kept.
pub fn within<R: Wait, G: Gate, B: Board>(
    means: &Means<'_, R, G>,
    control: &mut Control<B>,
    progress: &mut Progress,
    batch: Batch,
    out: &mut Vec<u8>,
    said: Option<Line>,
) -> Result<(), AllocError>
    requires written { IfSome said IsWrittenLine }
    requires few { applied_in control.old < progress.old.lines }
    requires taken { FitsLast progress.old batch }
    requires alone { progress.old.batch ≡ None }
    ensures did { HasTurned (router_of control.old progress.old)
        (within progress.old.lines
        (router_of control.old progress.old) batch said) control.old control.new progress.new out.old.items out.new.items result }
    ensures lines { progress.new.lines ≡ progress.old.lines }
{
    let Some(line) = said else {
        return spoil(progress, batch, out, "syntax");
    };
    match line {
        Line::Nothing => {
            progress.keep(batch);
            Ok(())
        }
        Line::Change(edit) => keep(progress, batch, edit),
        Line::Commit => commit(means, control, progress, &batch, out),
        _ => spoil(progress, batch, out, "in a batch"),
    }
}
