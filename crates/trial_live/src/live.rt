//! Steps of a control plane over live cells with its workers.
ghost use Rattle.std.specs.Prelude.{IfOk, IfSome, length, true, ◌+◌, ◌<◌, ◌-◌, ◌^◌, ◌≡◌};
ghost use Rattle.std.specs.List.{AllByRecursion};
ghost use Rattle.fib_resolve.specs.Reachable.{IsWritten};
ghost use Rattle.fib_cells.specs.Seats.{id_in};
ghost use Rattle.trial_live.specs.Crewed.{IsHome, SameCrew};

use fib_addr::Addr;
use fib_cells::{Cells, ControlSeat, LiveBoard};
use fib_commands::{Line, read_line};
use fib_control::Control;
use fib_core::Record;
use fib_resolve::Edit;
use fib_worker::{Finished, Worker};
use std::alloc::{AllocError, Global};
use trial_plain::changes;
use trial_plain::steps::Answers;

/// A control over words, with their crew.
pub fn live<'a>(
    alloc: Global,
    cells: &'a Cells,
    seat: ControlSeat,
) -> Result<Control<LiveBoard<'a>>, AllocError>
    requires words { seat.id ≡ id_in cells.now }
    requires home { IsHome seat }
    ensures { IfOk result (λ c. SameCrew seat c.plane.board) }
{
    Control::new(alloc, LiveBoard::new(cells, seat))
}

/// The edit of a line. None where the line asks for none, or there is no memory.
pub fn edit_of(alloc: Global, line: &str) -> Option<Edit>
    ensures { IfSome result IsWritten }
{
    match read_line(alloc, line.as_bytes()) {
        Ok(Line::Change(edit)) => Some(edit),
        _ => None,
    }
}

/// Whether one more version may begin.
pub fn has_version_left(control: &Control<LiveBoard<'_>>) -> bool
    ensures { result ≡ true → control.now.plane.board.log.version.applied < 2 ^ 32 - 1 }
{
    control.version().applied != u32::MAX
}

/// Makes a change, and answers its version. None where it isn't made.
pub fn change(control: &mut Control<LiveBoard<'_>>, edit: &Edit) -> Option<u32>
    requires { IsWritten edit.now }
    ensures { SameCrew control.old.plane.board control.new.plane.board }
{
    if !has_version_left(control) {
        return None;
    }
    match control.apply(edit) {
        Ok(version) => Some(version),
        Err(_) => None,
    }
}

/// Makes the change of a line, and answers its version. None where it isn't made.
pub fn change_by(alloc: Global, control: &mut Control<LiveBoard<'_>>, line: &str) -> Option<u32>
    ensures { SameCrew control.old.plane.board control.new.plane.board }
{
    match edit_of(alloc, line) {
        Some(edit) => change(control, &edit),
        None => None,
    }
}

/// Makes these changes as one, and answers its version. None where it isn't made.
pub fn change_all(control: &mut Control<LiveBoard<'_>>, edits: &[Edit]) -> Option<u32>
    requires written { AllByRecursion IsWritten edits.now }
    requires few { length edits.now < 2 ^ 32 }
    ensures { SameCrew control.old.plane.board control.new.plane.board }
{
    if !has_version_left(control) {
        return None;
    }
    match control.apply_all(edits) {
        Ok(version) => Some(version),
        Err(_) => None,
    }
}

/// Settles the last version, all workers being at home, and answers its number. None where there is no memory.
pub fn settle_home(control: &mut Control<LiveBoard<'_>>) -> Option<u32>
    requires { IsHome control.old.plane.board }
    ensures { SameCrew control.old.plane.board control.new.plane.board }
{
    match control.settle_alone() {
        Ok(version) => Some(version),
        Err(_) => None,
    }
}

/// A change with all its turns. How many copies of edges a scan leaves then; None where it isn't made.
pub fn restack(control: &mut Control<LiveBoard<'_>>, edit: &Edit) -> Option<u32>
    requires { IsWritten edit.now }
    ensures { SameCrew control.old.plane.board control.new.plane.board }
{
    change(control, edit)?;
    match control.walk() {
        Ok(()) => Some(control.scan()),
        Err(_) => None,
    }
}

/// What a worker answers for a packet to `addr` with that flow hash. None where it has no pass left.
pub fn pass<'a>(worker: Worker<'a>, addr: Addr, hash: u32) -> Option<(Worker<'a>, Record)>
    ensures { IfSome result (λ r. r.0.id ≡ worker.entry.id) }
{
    if worker.passes_left() == 0 {
        return None;
    }
    let Finished { worker, result } = worker.forward(addr, hash);
    Some((worker, result))
}

/// Makes the changes of so many versions from that one on. None where one isn't made, or makes another version.
pub fn apply_from(
    alloc: Global,
    control: &mut Control<LiveBoard<'_>>,
    version: u32,
    count: u32,
) -> Option<()>
    requires { version + count < 2 ^ 32 }
    ensures { SameCrew control.old.plane.board control.new.plane.board }
{
    for place in 0..count {
        let edit = changes::change(alloc, version + place).ok()?;
        if change(control, &edit)? != version + place {
            return None;
        }
    }
    Some(())
}

/// Scans, retries, and tries to settle.
pub fn calm(control: &mut Control<LiveBoard<'_>>) -> Answers
    ensures { SameCrew control.old.plane.board control.new.plane.board }
{
    let retired = control.scan();
    let deferred = control.retry();
    let settled = control.mark_settled();
    Answers {
        retired,
        deferred,
        settled,
    }
}
