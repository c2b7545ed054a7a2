// A pass that is held keeps what changes give up, until one finds too few objects; once it has ended there are enough again.
ghost use Rattle.std.specs.Prelude.{IfErr, IfOk, IfSome, OnOk, [], ◌-◌, ◌<◌, ◌^◌, ◌≡◌, ◌⊎◌};
ghost use Rattle.fib_resolve.specs.Reachable.{IsWritten};
ghost use Rattle.fib_resolve.specs.declared.types.Edit.{Edit as EditValue};
ghost use Rattle.fib_core_board.specs.Told.{IsWithinLimits};
ghost use Rattle.fib_control.specs.Controls.{IsQuiet, TellsApply};
ghost use Rattle.trial_plain.specs.Calm.{AreCalm};
ghost use Rattle.trial_plain.specs.Crowding.{AreTooFew, IsUnrefused, picked};
ghost use Rattle.trial_plain.specs.Seats.{IsRested, first_seats, seats_in};
ghost use Rattle.fib_control.specs.Controls.{Control as Seen};

use crate::changes::{coming, going};
use crate::held::{base, go_on, hold, settle_all};
use crate::steps::{Answers, calm, make, walk};
use crate::trial::{Trial, found_by};
use crate::trouble::Trouble;
use fib_addr::Addr;
use fib_control::{ApplyError, Control};
use fib_core::Record;
use fib_core_plainboard::PlainBoard;
use fib_resolve::Edit;
use std::alloc::Global;

/// What is said of a change for which too few objects are free.
#[derive(Clone, Copy, Debug, PartialEq, Eq)]
pub struct Crowd {
    /// How many changes were made before it.
    pub made: u32,
    /// How many objects are free.
    pub free: u32,
    /// How many its tables take.
    pub wanted: u32,
}

/// What is said of an edit that isn't made.
pub fn crowd_of(error: ApplyError, made: u32) -> Result<Crowd, Trouble>
    ensures made { IfOk result (λ x. x.made ≡ made) }
    ensures few { IfOk result (λ x. (c : Seen) (e : EditValue) → TellsApply c e error → AreTooFew c e x) }
{
    match error {
        ApplyError::Refused(_) => Err(Trouble::Refused),
        ApplyError::Crowded { free, wanted } => Ok(Crowd { made, free, wanted }),
        ApplyError::Memory => Err(Trouble::Memory),
    }
}

// Makes an edit where enough objects are free. What is said where too few are.
fn try_one(
    control: &mut Control<PlainBoard>,
    edit: &Edit,
    made: u32,
) -> Result<Option<Crowd>, Trouble>
    requires { IsWritten edit.now }
    ensures seats { OnOk result (seats_in control.new ≡ seats_in control.old) }
    ensures made { IfOk result (λ o. IfSome o (λ x. x.made ≡ made)) }
    ensures few { IfOk result (λ o. IfSome o (AreTooFew control.new edit.now)) }
    ensures queue { IfOk result (λ o. IfSome o (λ x. control.new.queue ≡ control.old.queue)) }
{
    if control.version().applied == u32::MAX {
        return Err(Trouble::Refused);
    }
    match control.apply(edit) {
        Ok(_) => Ok(None),
        Err(error) => match crowd_of(error, made) {
            Ok(crowd) => Ok(Some(crowd)),
            Err(trouble) => Err(trouble),
        },
    }
}

/// The edit at that place, of two that take turns.
pub fn pick<'a>(place: u32, edit: &'a Edit, other: &'a Edit) -> &'a Edit
    ensures { result.now ≡ picked place edit.now other.now }
{
    if place % 2 == 0 {
        return edit;
    }
    other
}

// Makes two edits in turn, each with all its turns, until too few objects are free for one.
fn until_crowded(
    control: &mut Control<PlainBoard>,
    edit: &Edit,
    other: &Edit,
    most: u32,
) -> Result<Crowd, Trouble>
    requires written { IsWritten edit.now × IsWritten other.now }
    requires none { control.old.queue ≡ [] }
    ensures seats { OnOk result (seats_in control.new ≡ seats_in control.old) }
    ensures none { OnOk result (control.new.queue ≡ []) }
    ensures few { IfOk result (λ x. AreTooFew control.new (picked x.made edit.now other.now) x) }
{
    for place in 0..most {
        match try_one(control, pick(place, edit, other), place) {
            Ok(Some(crowd)) => return Ok(crowd),
            Ok(None) => walk(control)?,
            Err(trouble) => return Err(trouble),
        }
    }
    Err(Trouble::Endless)
}

// An edit that isn't refused is made on a quiet control, where there is memory and a version for it.
fn make_now(control: &mut Control<PlainBoard>, edit: &Edit) -> Result<u32, Trouble>
    requires written { IsWritten edit.now }
    requires quiet { IsQuiet control.old }
    requires taken { IsUnrefused control.old edit.now }
    ensures { IfErr result (λ t. (t ≡ Trouble.Memory) ⊎ (control.old.plane.board.log.version.applied ≡ 2 ^ 32 - 1)) }
{
    if control.version().applied == u32::MAX {
        return Err(Trouble::Refused);
    }
    match control.apply(edit) {
        Ok(version) => Ok(version),
        Err(ApplyError::Memory) => Err(Trouble::Memory),
        Err(ApplyError::Refused(_)) => unreachable!(),
        Err(ApplyError::Crowded { .. }) => unreachable!(),
    }
}

/// What is found.
#[derive(Clone, Copy, Debug, PartialEq, Eq)]
pub struct Crowded {
    /// How many objects are used before the pass begins.
    pub used: u32,
    /// What is said of the first change that isn't made.
    pub crowd: Crowd,
    /// What the pass answers.
    pub record: Record,
    pub ended: Answers,
    /// The version of the same change, made then.
    pub version: u32,
}

// A pass is held after so many hops while two edits are made in turn. Once it has ended and nothing waits, the edit that was one too many is made.
fn crowd_while_held(
    control: &mut Control<PlainBoard>,
    edit: &Edit,
    other: &Edit,
    hops: u32,
) -> Result<Crowded, Trouble>
    requires seats { seats_in control.old ≡ first_seats }
    requires none { control.old.queue ≡ [] }
    requires written { IsWritten edit.now × IsWritten other.now }
    ensures calm { IfOk result (λ found. AreCalm found.ended) }
    ensures few { IfOk result (λ found. found.crowd.free < found.crowd.wanted) }
{
    let used = control.used();
    let end = hold(control, Addr(0x1401_0101), 0, hops);
    let crowd = until_crowded(control, edit, other, 20)?;
    let record = go_on(control, end)?;
    let ended = calm(control);
    let version = make_now(control, pick(crowd.made, edit, other))?;
    Ok(Crowded {
        used,
        crowd,
        record,
        ended,
        version,
    })
}

// eth0 is up and has 10.0.0.1/24, and that is settled.
fn settle_base(alloc: Global, control: &mut Control<PlainBoard>) -> Result<(), Trouble>
    ensures seats { OnOk result (seats_in control.new ≡ seats_in control.old) }
    ensures none { OnOk result (control.new.queue ≡ []) }
{
    base(alloc, control)?;
    settle_all(control)
}

// And so is 20.0.0.0/8.
fn settle_route(alloc: Global, control: &mut Control<PlainBoard>) -> Result<(), Trouble>
    ensures seats { OnOk result (seats_in control.new ≡ seats_in control.old) }
    ensures none { OnOk result (control.new.queue ≡ []) }
{
    base(alloc, control)?;
    let route = coming(alloc)?;
    make(control, &route)?;
    settle_all(control)
}

// The route comes first.
fn crowd_above(
    alloc: Global,
    control: &mut Control<PlainBoard>,
    hops: u32,
) -> Result<Crowded, Trouble>
    requires { seats_in control.old ≡ first_seats }
    ensures calm { IfOk result (λ found. AreCalm found.ended) }
    ensures few { IfOk result (λ found. found.crowd.free < found.crowd.wanted) }
{
    settle_base(alloc, control)?;
    let edit = coming(alloc)?;
    let other = going(alloc)?;
    crowd_while_held(control, &edit, &other, hops)
}

// The route is there, and goes first.
fn crowd_below(
    alloc: Global,
    control: &mut Control<PlainBoard>,
    hops: u32,
) -> Result<Crowded, Trouble>
    requires { seats_in control.old ≡ first_seats }
    ensures calm { IfOk result (λ found. AreCalm found.ended) }
    ensures few { IfOk result (λ found. found.crowd.free < found.crowd.wanted) }
{
    settle_route(alloc, control)?;
    let edit = going(alloc)?;
    let other = coming(alloc)?;
    crowd_while_held(control, &edit, &other, hops)
}

// After so many hops.
#[derive(Clone, Copy)]
struct Above(u32);

impl Trial for Above {
    type Found = Crowded;

    ghost is_so = { λ found. AreCalm found.ended × (found.crowd.free < found.crowd.wanted) };

    fn find(&self, alloc: Global, control: &mut Control<PlainBoard>) -> Result<Crowded, Trouble> {
        let found = crowd_above(alloc, control, self.0)?;
        Ok(found)
    }
}

/// A pass to 20.1.1.1 is held after so many hops while 20.0.0.0/8 comes and goes, over that many objects.
pub fn crowded_after(alloc: Global, objects: u32, hops: u32) -> Result<Crowded, Trouble>
    requires { IsWithinLimits objects 1 }
    ensures calm { IfOk result (λ found. AreCalm found.ended) }
    ensures few { IfOk result (λ found. found.crowd.free < found.crowd.wanted) }
{
    let found = found_by(alloc, objects, &Above(hops))?;
    Ok(found)
}

// After so many hops.
#[derive(Clone, Copy)]
struct Below(u32);

impl Trial for Below {
    type Found = Crowded;

    ghost is_so = { λ found. AreCalm found.ended × (found.crowd.free < found.crowd.wanted) };

    fn find(&self, alloc: Global, control: &mut Control<PlainBoard>) -> Result<Crowded, Trouble> {
        let found = crowd_below(alloc, control, self.0)?;
        Ok(found)
    }
}

/// The same where 20.0.0.0/8 is there as the pass begins: after one hop it stands on the ply below the root.
pub fn crowded_below(alloc: Global, objects: u32, hops: u32) -> Result<Crowded, Trouble>
    requires { IsWithinLimits objects 1 }
    ensures calm { IfOk result (λ found. AreCalm found.ended) }
    ensures few { IfOk result (λ found. found.crowd.free < found.crowd.wanted) }
{
    let found = found_by(alloc, objects, &Below(hops))?;
    Ok(found)
}
