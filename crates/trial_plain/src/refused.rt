//! A pass is held while routes change, and each call that wants memory is made a second time: until then all is as it was, and then it comes to its end.
ghost use Rattle.std.specs.Prelude.{IfOk, OnOk, [], true, ◌≡◌};
ghost use Rattle.fib_resolve.specs.Reachable.{IsWritten};
ghost use Rattle.trial_plain.specs.Calm.{AreCalm};
ghost use Rattle.trial_plain.specs.Seats.{first_seats, seats_in};

use crate::changes::{change, eight};
use crate::held::{Found, go_on, hold, look_up};
use crate::steps::{FEW, calm, make};
use crate::trial::{Trial, found_by};
use crate::trouble::Trouble;
use fib_addr::{Addr, Prefix};
use fib_control::Control;
use fib_core::Version;
use fib_core_plainboard::PlainBoard;
use fib_resolve::{Edit, End};
use fib_stack::Turn;
use std::alloc::Global;

// Within 50.0.0.0/8, and within 60.0.0.0/8.
const FIFTY: Addr = Addr(0x3201_0101);

const SIXTY: Addr = Addr(0x3c01_0101);

// What is seen of a control plane from outside: its version and counts, its entries with their size, and where two walks over its cells end.
#[derive(Clone, Copy, Debug, PartialEq, Eq)]
struct Seen {
    version: Version,
    waiting: (usize, u32),
    used: u32,
    entries: (usize, u32),
    ends: (End, End),
}

fn look_at(control: &Control<PlainBoard>) -> Seen {
    Seen {
        version: control.version(),
        waiting: (control.queued(), control.deferred()),
        used: control.used(),
        entries: (control.entries().len(), control.entries().size()),
        ends: (control.lookup(FIFTY, 0), control.lookup(SIXTY, 0)),
    }
}

// The change of this version; where memory is wanted for it, once more.
fn change_again(alloc: Global, version: u32) -> Result<Edit, Trouble>
    ensures { IfOk result IsWritten }
{
    match change(alloc, version) {
        Err(Trouble::Memory) => change(alloc, version),
        other => other,
    }
}

// Makes the edit. Where it wants memory nothing may have changed, and it is made once more.
fn make_again(control: &mut Control<PlainBoard>, edit: &Edit) -> Result<u32, Trouble>
    requires { IsWritten edit.now }
    ensures { seats_in control.new ≡ seats_in control.old }
{
    let before = look_at(control);
    match make(control, edit) {
        Err(Trouble::Memory) if look_at(control) == before => make(control, edit),
        Err(_) => Err(Trouble::Otherwise),
        Ok(version) => Ok(version),
    }
}

// Makes the change of this version.
fn apply_again(
    alloc: Global,
    control: &mut Control<PlainBoard>,
    version: u32,
) -> Result<(), Trouble>
    ensures { seats_in control.new ≡ seats_in control.old }
{
    let edit = change_again(alloc, version)?;
    if make_again(control, &edit)? == version {
        return Ok(());
    }
    Err(Trouble::Otherwise)
}

// Makes the changes of the versions from one up to another.
fn apply_each(
    alloc: Global,
    control: &mut Control<PlainBoard>,
    first: u32,
    last: u32,
) -> Result<(), Trouble>
    ensures { seats_in control.new ≡ seats_in control.old }
{
    for version in first..=last {
        apply_again(alloc, control, version)?;
    }
    Ok(())
}

// One turn. Where it wants memory nothing may have changed, and it comes once more.
fn turn_again(control: &mut Control<PlainBoard>) -> Result<Turn, Trouble>
    ensures { seats_in control.new ≡ seats_in control.old }
{
    let before = look_at(control);
    if let Ok(turn) = control.turn() {
        return Ok(turn);
    }
    if look_at(control) != before {
        return Err(Trouble::Otherwise);
    }
    match control.turn() {
        Ok(turn) => Ok(turn),
        Err(_) => Err(Trouble::Memory),
    }
}

// Whether nothing is queued.
fn is_done(control: &Control<PlainBoard>) -> bool
    ensures { result ≡ true → control.now.queue ≡ [] }
{
    control.queued() == 0
}

fn is_of(turn: &Turn, prefix: Prefix) -> bool {
    match turn {
        Turn::Restacked { entry, .. } => *entry == prefix,
        Turn::Idle => false,
    }
}

// Turns until none is queued. Answers what the last turn of that prefix did; Idle if it had none.
fn turns_again(control: &mut Control<PlainBoard>, prefix: Prefix) -> Result<Turn, Trouble>
    ensures seats { seats_in control.new ≡ seats_in control.old }
    ensures none { OnOk result (control.new.queue ≡ []) }
{
    let mut last = Turn::Idle;
    for _count in 0..100 {
        if is_done(control) {
            return Ok(last);
        }
        let turn = turn_again(control)?;
        if is_of(&turn, prefix) {
            last = turn;
        }
    }
    Err(Trouble::Endless)
}

// 50.0.0.0/8 is over 60.0.0.1, and 60.0.0.0/8 over 10.0.0.7. Version 5 is settled.
fn route(alloc: Global, control: &mut Control<PlainBoard>) -> Result<(), Trouble>
    ensures { seats_in control.new ≡ seats_in control.old }
{
    apply_each(alloc, control, 1, 5)?;
    turns_again(control, eight(60))?;
    if calm(control).settled.is_err() {
        return Err(Trouble::Otherwise);
    }
    Ok(())
}

// 50.0.0.0/8 is over 10.0.0.8, and then 60.0.0.0/8 over 50.0.0.1. Answers the turn of 60.0.0.0/8.
fn turn_round(alloc: Global, control: &mut Control<PlainBoard>) -> Result<Turn, Trouble>
    ensures seats { seats_in control.new ≡ seats_in control.old }
    ensures none { OnOk result (control.new.queue ≡ []) }
{
    apply_each(alloc, control, 6, 7)?;
    turns_again(control, eight(60))?;
    apply_each(alloc, control, 8, 9)?;
    turns_again(control, eight(60))
}

// A pass is held after so many hops meanwhile, on a control before its first change.
fn hold_again(alloc: Global, control: &mut Control<PlainBoard>, most: u32) -> Result<Found, Trouble>
    requires { seats_in control.old ≡ first_seats }
    ensures { IfOk result (λ found. AreCalm found.ended) }
{
    route(alloc, control)?;
    let end = hold(control, FIFTY, 0, most);
    let turn = turn_round(alloc, control)?;
    let deferred = control.deferred();
    let held = calm(control);
    let record = go_on(control, end)?;
    let ended = calm(control);
    let end = look_up(control, SIXTY)?;
    Ok(Found {
        turn,
        deferred,
        held,
        record,
        ended,
        end,
    })
}

// After so many hops.
#[derive(Clone, Copy)]
struct HeldAgain(u32);

impl Trial for HeldAgain {
    type Found = Found;

    ghost is_so = { λ found. AreCalm found.ended };

    fn find(&self, alloc: Global, control: &mut Control<PlainBoard>) -> Result<Found, Trouble> {
        hold_again(alloc, control, self.0)
    }
}

/// What `held_after` finds, where one call may want memory once: it changes nothing then, and is made again.
pub fn held_with_a_refusal(alloc: Global, most: u32) -> Result<Found, Trouble>
    ensures { IfOk result (λ found. AreCalm found.ended) }
{
    match found_by(alloc, FEW, &HeldAgain(most)) {
        Err(Trouble::Memory) => found_by(alloc, FEW, &HeldAgain(most)),
        other => other,
    }
}
