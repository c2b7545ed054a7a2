// What lines do to the control plane.
ghost use Rattle.std.specs.Prelude.{◌≡◌, ◌+◌, ◌-◌, ◌<◌, ◌^◌, OnOk, length};
ghost use Rattle.std.specs.List.{AllByRecursion};
ghost use Rattle.fib_resolve.specs.Reachable.{IsWritten};
ghost use Rattle.fib_control.specs.Controls.{IsBeneath, IsQuiet};
ghost use Rattle.fib_rounds_turns.specs.Routers.{KeepsCrew, applied_in};
ghost use Rattle.fib_rounds_turns.specs.Changes.{HasApplied, HasAppliedAll, Stays};

use fib_control::{ApplyError, BatchApplyError, Control};
use fib_core_board::Board;
use fib_resolve::{Edit, Refusal};
use fib_stack::Turn;
use std::alloc::AllocError;
use std::sync::Wait;

/// Settles all changes. It waits for nothing but passes that run.
#[tactic(auto, using(crate::proofs::Keeping::settled_stays, crate::proofs::Keeping::settled_keeps))]
pub fn settle<R: Wait, B: Board>(rt: &R, control: &mut Control<B>) -> Result<(), AllocError>
    ensures quiet { OnOk result (IsQuiet control.new) }
    ensures stays { Stays control.old control.new }
    ensures keeps { KeepsCrew control.old control.new }
{
    match control.settle(rt) {
        Ok(_) => Ok(()),
        Err(_) => Err(AllocError),
    }
}

// At most so many turns.
#[tactic(auto, using(crate::proofs::Keeping::beneath_same, fib_control::proofs::Walked::beneath_then))]
fn turns<B: Board>(control: &mut Control<B>, most: u32) -> Result<(), AllocError>
    ensures { IsBeneath control.old control.new }
{
    for _turn in 0..most {
        match control.turn() {
            Ok(Turn::Idle) => return Ok(()),
            Ok(Turn::Restacked { .. }) => {}
            Err(_) => return Err(AllocError),
        }
    }
    Ok(())
}

// The same, and then one scan and one retry.
#[tactic(auto, using(fib_control::proofs::Walked::beneath_then))]
fn turns_and_retry<B: Board>(control: &mut Control<B>, most: u32) -> Result<(), AllocError>
    ensures { IsBeneath control.old control.new }
{
    turns(control, most)?;
    control.scan();
    control.retry();
    Ok(())
}

/// At most so many turns, one scan and one retry. After want of memory the turns that were done stand.
#[tactic(auto, using(crate::proofs::Keeping::beneath_stays, crate::proofs::Keeping::beneath_keeps))]
pub fn walk_on<B: Board>(control: &mut Control<B>, most: u32) -> Result<(), AllocError>
    ensures stays { Stays control.old control.new }
    ensures keeps { KeepsCrew control.old control.new }
{
    turns_and_retry(control, most)
}

// Makes an edit of a quiet control plane, which is never crowded.
#[tactic(auto, using(crate::proofs::Keeping::same_stays, crate::proofs::Keeping::same_keeps, crate::proofs::Keeping::changed_changes, crate::proofs::Keeping::changed_keeps))]
fn apply_quiet<B: Board>(
    control: &mut Control<B>,
    edit: &Edit,
) -> Result<Option<Refusal>, AllocError>
    requires quiet { IsQuiet control.old }
    requires written { IsWritten edit.now }
    requires few { applied_in control.old < 2 ^ 32 - 1 }
    ensures applied { HasApplied control.old control.new edit.now result }
    ensures keeps { KeepsCrew control.old control.new }
{
    match control.apply(edit) {
        Ok(_) => Ok(None),
        Err(ApplyError::Refused(refusal)) => Ok(Some(refusal)),
        Err(ApplyError::Memory) => Err(AllocError),
        Err(ApplyError::Crowded { .. }) => unreachable!(),
    }
}

// Settles, and then makes the edit.
#[tactic(auto, using(crate::proofs::Keeping::applied_later, crate::proofs::Keeping::keeps_then))]
fn apply_settled<R: Wait, B: Board>(
    rt: &R,
    control: &mut Control<B>,
    edit: &Edit,
) -> Result<Option<Refusal>, AllocError>
    requires written { IsWritten edit.now }
    requires few { applied_in control.old < 2 ^ 32 - 1 }
    ensures applied { HasApplied control.old control.new edit.now result }
    ensures keeps { KeepsCrew control.old control.new }
{
    settle(rt, control)?;
    apply_quiet(control, edit)
}

/// Makes an edit, or answers why it is refused. A control plane that is crowded is settled first. After want of memory no change was made.
#[tactic(auto, using(crate::proofs::Keeping::same_stays, crate::proofs::Keeping::same_keeps, crate::proofs::Keeping::changed_changes, crate::proofs::Keeping::changed_keeps))]
pub fn apply<R: Wait, B: Board>(
    rt: &R,
    control: &mut Control<B>,
    edit: &Edit,
) -> Result<Option<Refusal>, AllocError>
    requires written { IsWritten edit.now }
    requires few { applied_in control.old < 2 ^ 32 - 1 }
    ensures applied { HasApplied control.old control.new edit.now result }
    ensures keeps { KeepsCrew control.old control.new }
{
    match control.apply(edit) {
        Ok(_) => Ok(None),
        Err(ApplyError::Refused(refusal)) => Ok(Some(refusal)),
        Err(ApplyError::Memory) => Err(AllocError),
        Err(ApplyError::Crowded { .. }) => apply_settled(rt, control, edit),
    }
}

/// The first edit of a batch that is refused: its place, counted from 0, and why.
#[derive(Clone, Copy, Debug, PartialEq, Eq)]
pub struct Unmade {
    pub place: u32,
    pub refusal: Refusal,
}

// Makes several edits of a quiet control plane as one change.
#[tactic(auto, using(crate::proofs::Keeping::same_stays, crate::proofs::Keeping::same_keeps, crate::proofs::Keeping::changed_changes, crate::proofs::Keeping::changed_keeps))]
fn apply_all_quiet<B: Board>(
    control: &mut Control<B>,
    edits: &[Edit],
) -> Result<Option<Unmade>, AllocError>
    requires quiet { IsQuiet control.old }
    requires written { AllByRecursion IsWritten edits.now }
    requires many { length edits.now < 2 ^ 32 }
    requires few { applied_in control.old < 2 ^ 32 - 1 }
    ensures applied { HasAppliedAll control.old control.new edits.now result }
    ensures keeps { KeepsCrew control.old control.new }
{
    match control.apply_all(edits) {
        Ok(_) => Ok(None),
        Err(BatchApplyError::Refused { place, refusal }) => Ok(Some(Unmade { place, refusal })),
        Err(BatchApplyError::Memory) => Err(AllocError),
        Err(BatchApplyError::Crowded { .. }) => unreachable!(),
    }
}

// Settles, and then makes the edits as one change.
#[tactic(auto, using(crate::proofs::Keeping::applied_all_later, crate::proofs::Keeping::keeps_then))]
fn apply_all_settled<R: Wait, B: Board>(
    rt: &R,
    control: &mut Control<B>,
    edits: &[Edit],
) -> Result<Option<Unmade>, AllocError>
    requires written { AllByRecursion IsWritten edits.now }
    requires many { length edits.now < 2 ^ 32 }
    requires few { applied_in control.old < 2 ^ 32 - 1 }
    ensures applied { HasAppliedAll control.old control.new edits.now result }
    ensures keeps { KeepsCrew control.old control.new }
{
    settle(rt, control)?;
    apply_all_quiet(control, edits)
}

/// Makes several edits as one change, or answers which is the first that is refused. A control plane that is crowded is settled first. After want of
/// memory no change was made.
#[tactic(auto, using(crate::proofs::Keeping::same_stays, crate::proofs::Keeping::same_keeps, crate::proofs::Keeping::changed_changes, crate::proofs::Keeping::changed_keeps))]
pub fn apply_all<R: Wait, B: Board>(
    rt: &R,
    control: &mut Control<B>,
    edits: &[Edit],
) -> Result<Option<Unmade>, AllocError>
    requires written { AllByRecursion IsWritten edits.now }
    requires many { length edits.now < 2 ^ 32 }
    requires few { applied_in control.old < 2 ^ 32 - 1 }
    ensures applied { HasAppliedAll control.old control.new edits.now result }
    ensures keeps { KeepsCrew control.old control.new }
{
    match control.apply_all(edits) {
        Ok(_) => Ok(None),
        Err(BatchApplyError::Refused { place, refusal }) => Ok(Some(Unmade { place, refusal })),
        Err(BatchApplyError::Memory) => Err(AllocError),
        Err(BatchApplyError::Crowded { .. }) => apply_all_settled(rt, control, edits),
    }
}
