// A control plane over a plain board, a step at a time. What isn't a pass's own call leaves all passes as they are.
ghost use Rattle.std.specs.Prelude.{IfOk, IsOk, OnOk, [], length, true, ◌+◌, ◌<◌, ◌^◌, ◌≡◌};
ghost use Rattle.std.specs.List.{AllByRecursion};
ghost use Rattle.fib_core_board.specs.Told.{IsWithinLimits};
ghost use Rattle.fib_resolve.specs.Reachable.{IsWritten};
ghost use Rattle.fib_control.specs.Controls.{IsQuiet};
ghost use Rattle.trial_plain.specs.Calm.{AreCalm};
ghost use Rattle.trial_plain.specs.Seats.{IsHome, IsUnchanged, first_seats, seats_in};

use crate::changes::{change, changes};
use crate::trouble::{Trouble, of_apply, of_apply_all};
use fib_addr::Prefix;
use fib_control::{Busy, Control};
use fib_core_plainboard::PlainBoard;
use fib_resolve::Edit;
use fib_stack::Turn;
use std::alloc::Global;

/// How many objects a trial has that crowds none.
pub(crate) const FEW: u32 = 200;

/// A control over that many objects, with one worker.
pub fn fresh_over(alloc: Global, objects: u32) -> Result<Control<PlainBoard>, Trouble>
    requires { IsWithinLimits objects 1 }
    ensures { IfOk result (λ c. seats_in c ≡ first_seats) }
{
    let board = PlainBoard::new(alloc, objects, 1)?;
    match Control::new(alloc, board) {
        Ok(control) => Ok(control),
        Err(_) => Err(Trouble::Memory),
    }
}

/// Makes an edit, and answers the version.
pub fn make(control: &mut Control<PlainBoard>, edit: &Edit) -> Result<u32, Trouble>
    requires { IsWritten edit.now }
    ensures { seats_in control.new ≡ seats_in control.old }
{
    if control.version().applied == u32::MAX {
        return Err(Trouble::Refused);
    }
    match control.apply(edit) {
        Ok(version) => Ok(version),
        Err(error) => Err(of_apply(error)),
    }
}

/// Makes the change of this version.
pub fn apply(alloc: Global, control: &mut Control<PlainBoard>, version: u32) -> Result<(), Trouble>
    ensures { OnOk result (seats_in control.new ≡ seats_in control.old) }
{
    let edit = change(alloc, version)?;
    if make(control, &edit)? == version {
        return Ok(());
    }
    Err(Trouble::Otherwise)
}

/// Makes edits as one change, and answers the version.
pub fn make_all(control: &mut Control<PlainBoard>, edits: &[Edit]) -> Result<u32, Trouble>
    requires written { AllByRecursion IsWritten edits.now }
    requires few { length edits.now < 2 ^ 32 }
    ensures { seats_in control.new ≡ seats_in control.old }
{
    if control.version().applied == u32::MAX {
        return Err(Trouble::Refused);
    }
    match control.apply_all(edits) {
        Ok(version) => Ok(version),
        Err(error) => Err(of_apply_all(error)),
    }
}

/// Makes the changes of so many versions from this one on as one change, which makes this version.
pub fn apply_all(
    alloc: Global,
    control: &mut Control<PlainBoard>,
    version: u32,
    count: u32,
) -> Result<(), Trouble>
    requires { version + count < 2 ^ 32 }
    ensures { OnOk result (seats_in control.new ≡ seats_in control.old) }
{
    let edits = changes(alloc, version, count)?;
    if make_all(control, edits.as_slice())? == version {
        return Ok(());
    }
    Err(Trouble::Otherwise)
}

/// One turn.
pub fn turn(control: &mut Control<PlainBoard>) -> Result<Turn, Trouble>
    ensures { OnOk result (seats_in control.new ≡ seats_in control.old) }
{
    match control.turn() {
        Ok(turn) => Ok(turn),
        Err(_) => Err(Trouble::Memory),
    }
}

// Whether it was this prefix's.
fn is_of(turn: &Turn, prefix: Prefix) -> bool {
    match turn {
        Turn::Restacked { entry, .. } => *entry == prefix,
        Turn::Idle => false,
    }
}

// Whether nothing is queued.
fn is_done(control: &Control<PlainBoard>) -> bool
    ensures { result ≡ true → control.now.queue ≡ [] }
{
    control.queued() == 0
}

/// Turns until none is queued. Answers what the last turn of that prefix did; Idle if it had none.
pub fn turns(control: &mut Control<PlainBoard>, prefix: Prefix) -> Result<Turn, Trouble>
    ensures seats { OnOk result (seats_in control.new ≡ seats_in control.old) }
    ensures none { OnOk result (control.new.queue ≡ []) }
{
    let mut last = Turn::Idle;
    for _count in 0..100 {
        if is_done(control) {
            return Ok(last);
        }
        let turn = turn(control)?;
        if is_of(&turn, prefix) {
            last = turn;
        }
    }
    Err(Trouble::Endless)
}

/// Turns until none is queued, with a retry after each: so many buckets stay deferred until the turn of that prefix, and none from then on.
pub fn turns_and_retries(
    control: &mut Control<PlainBoard>,
    prefix: Prefix,
    deferred: u32,
) -> Result<(), Trouble>
    ensures seats { OnOk result (seats_in control.new ≡ seats_in control.old) }
    ensures none { OnOk result (control.new.queue ≡ []) }
{
    let mut left = deferred;
    for _count in 0..100 {
        if is_done(control) {
            return Ok(());
        }
        let turn = turn(control)?;
        if is_of(&turn, prefix) {
            left = 0;
        }
        if retry(control) != left {
            return Err(Trouble::Otherwise);
        }
    }
    Err(Trouble::Endless)
}

/// Turns until none is queued, in one call.
pub fn walk(control: &mut Control<PlainBoard>) -> Result<(), Trouble>
    ensures seats { OnOk result (seats_in control.new ≡ seats_in control.old) }
    ensures none { OnOk result (control.new.queue ≡ []) }
{
    match control.walk() {
        Ok(()) => Ok(()),
        Err(_) => Err(Trouble::Memory),
    }
}

/// What a look, a retry and settling answer.
#[derive(Clone, Copy, Debug, PartialEq, Eq)]
pub struct Answers {
    /// The retired copies that are left.
    pub retired: u32,
    /// The buckets that stay deferred.
    pub deferred: u32,
    /// The version that is settled now.
    pub settled: Result<u32, Busy>,
}

/// Looks what no pass stands on any more. Answers how many copies are left.
pub fn scan(control: &mut Control<PlainBoard>) -> u32
    ensures seats { seats_in control.new ≡ seats_in control.old }
    ensures kept { IsUnchanged control.old control.new }
    ensures alone { IsHome (seats_in control.old) → (result ≡ 0) × (control.new.plane.board.union.retired ≡ []) }
{
    control.scan()
}

/// Tries what is deferred. Answers how many buckets stay so.
pub fn retry(control: &mut Control<PlainBoard>) -> u32
    ensures seats { seats_in control.new ≡ seats_in control.old }
    ensures kept { IsUnchanged control.old control.new }
    ensures calm { control.old.queue ≡ [] → control.old.plane.board.union.retired ≡ [] → (result ≡ 0) × IsQuiet control.new }
{
    control.retry()
}

/// Tries to settle.
pub fn settle(control: &mut Control<PlainBoard>) -> Result<u32, Busy>
    ensures seats { seats_in control.new ≡ seats_in control.old }
    ensures kept { IsUnchanged control.old control.new }
    ensures settles { IsQuiet control.old → IsOk result }
    ensures quiet { IsQuiet control.old → IsQuiet control.new }
{
    control.mark_settled()
}

/// Scans, retries, and tries to settle. Where nobody is out and nothing is queued, nothing is left, and the last version is settled.
pub fn calm(control: &mut Control<PlainBoard>) -> Answers
    ensures seats { seats_in control.new ≡ seats_in control.old }
    ensures kept { IsUnchanged control.old control.new }
    ensures calm { IsHome (seats_in control.old) → control.old.queue ≡ [] → AreCalm result × IsQuiet control.new }
{
    let retired = scan(control);
    let deferred = retry(control);
    let settled = settle(control);
    Answers {
        retired,
        deferred,
        settled,
    }
}
