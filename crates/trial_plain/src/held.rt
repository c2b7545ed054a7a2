// A pass that is held while two routes come to lead to each other: the buckets that would close a cycle with what it stands on wait for its end.
ghost use Rattle.std.specs.Prelude.{IfOk, None, OnOk, Some, [], ℕ, ◌+◌, ◌≡◌};
ghost use Rattle.fib_core_board.specs.Boards.{Pass};
ghost use Rattle.fib_core_plainboard.specs.Passes.{IsAlong, pass_of};
ghost use Rattle.trial_plain.specs.Calm.{AreCalm};
ghost use Rattle.trial_plain.specs.Seats.{IsHeld, IsUnchanged, IsRested, first_seats, seats_in};

use crate::changes::eight;
use crate::steps::{Answers, FEW, apply, apply_all, calm, turns, turns_and_retries, walk};
use crate::trial::{Trial, found_by};
use crate::trouble::Trouble;
use fib_addr::Addr;
use fib_control::Control;
use fib_core::Record;
use fib_core_plainboard::{Passes, PlainBoard};
use fib_resolve::End;
use fib_stack::Turn;
use std::alloc::Global;

// More hops than a pass makes: there are 131,072 objects at most, and none comes twice.
const MOST: u32 = 200_000;

// Worker 0 begins a pass.
fn begin(control: &mut Control<PlainBoard>, addr: Addr, hash: u32)
    requires { IsRested 1 (seats_in control.old) }
    ensures held { (n : ℕ) → IsRested n (seats_in control.old) → IsHeld n None (seats_in control.new) }
    ensures kept { IsUnchanged control.old control.new }
{
    control.begin(0, addr, hash);
}

// It goes on by one hop.
fn hop(control: &mut Control<PlainBoard>) -> Option<End>
    requires { IsHeld 0 None (seats_in control.old) }
    ensures held { (n : ℕ) → IsHeld n None (seats_in control.old) → IsHeld n result (seats_in control.new) }
    ensures kept { IsUnchanged control.old control.new }
{
    control.hop(0)
}

// Or by so many, unless it ends.
fn hops(control: &mut Control<PlainBoard>, most: u32) -> Option<End>
    requires { IsHeld 0 None (seats_in control.old) }
    ensures held { (n : ℕ) → IsHeld n None (seats_in control.old) → IsHeld n result (seats_in control.new) }
    ensures kept { IsUnchanged control.old control.new }
{
    for _count in 0..most {
        if let Some(end) = hop(control) {
            return Some(end);
        }
    }
    None
}

/// Goes on by so many hops, unless it has its end, or ends.
pub fn hops_more(control: &mut Control<PlainBoard>, end: Option<End>, most: u32) -> Option<End>
    requires { IsHeld 0 end (seats_in control.old) }
    ensures held { (n : ℕ) → IsHeld n end (seats_in control.old) → IsHeld n result (seats_in control.new) }
    ensures kept { IsUnchanged control.old control.new }
{
    match end {
        Some(_) => end,
        None => hops(control, most),
    }
}

// It ends.
fn finish(control: &mut Control<PlainBoard>, end: End) -> Record
    requires { IsHeld 0 (Some end) (seats_in control.old) }
    ensures rested { (n : ℕ) → IsHeld (n + 1) (Some end) (seats_in control.old) → IsRested n (seats_in control.new) }
    ensures kept { IsUnchanged control.old control.new }
{
    // Only clauses name the end.
    let _end = end;
    control.end(0)
}

/// The pass goes on to its end.
pub fn go_on(control: &mut Control<PlainBoard>, end: Option<End>) -> Result<Record, Trouble>
    requires { IsHeld 0 end (seats_in control.old) }
    ensures rested { OnOk result ((n : ℕ) → IsHeld (n + 1) end (seats_in control.old) → IsRested n (seats_in control.new)) }
    ensures kept { OnOk result (IsUnchanged control.old control.new) }
{
    match hops_more(control, end, MOST) {
        Some(end) => Ok(finish(control, end)),
        None => Err(Trouble::Endless),
    }
}

/// A whole pass with flow hash 0.
pub fn look_up(control: &mut Control<PlainBoard>, addr: Addr) -> Result<End, Trouble>
    requires { IsRested 1 (seats_in control.old) }
{
    begin(control, addr, 0);
    match go_on(control, None) {
        Ok(record) => Ok(record.end),
        Err(trouble) => Err(trouble),
    }
}

/// eth0 is up and has 10.0.0.1/24. No turn came yet.
pub fn base(alloc: Global, control: &mut Control<PlainBoard>) -> Result<(), Trouble>
    ensures { OnOk result (seats_in control.new ≡ seats_in control.old) }
{
    apply(alloc, control, 1)?;
    apply(alloc, control, 2)?;
    apply(alloc, control, 3)
}

/// Turns, a scan and a retry; then the version is settled.
pub fn settle_all(control: &mut Control<PlainBoard>) -> Result<(), Trouble>
    ensures seats { OnOk result (seats_in control.new ≡ seats_in control.old) }
    ensures none { OnOk result (control.new.queue ≡ []) }
{
    walk(control)?;
    if calm(control).settled.is_err() {
        return Err(Trouble::Otherwise);
    }
    Ok(())
}

// 50.0.0.0/8 is over 60.0.0.1, and 60.0.0.0/8 over 10.0.0.7. Version 5 is settled.
fn route(alloc: Global, control: &mut Control<PlainBoard>) -> Result<(), Trouble>
    ensures { OnOk result (seats_in control.new ≡ seats_in control.old) }
{
    base(alloc, control)?;
    apply(alloc, control, 4)?;
    apply(alloc, control, 5)?;
    settle_all(control)
}

/// How the routes come to lead to each other.
#[derive(Clone, Copy, Debug, PartialEq, Eq)]
pub enum Made {
    /// By two edits and then two, with all turns after each two.
    InTurn,
    /// By the four as one change.
    AtOnce,
}

// 50.0.0.0/8 is over 10.0.0.8, and then 60.0.0.0/8 over 50.0.0.1. Answers the turn of 60.0.0.0/8.
fn turn_by_two(alloc: Global, control: &mut Control<PlainBoard>) -> Result<Turn, Trouble>
    ensures seats { OnOk result (seats_in control.new ≡ seats_in control.old) }
    ensures none { OnOk result (control.new.queue ≡ []) }
{
    apply(alloc, control, 6)?;
    apply(alloc, control, 7)?;
    walk(control)?;
    apply(alloc, control, 8)?;
    apply(alloc, control, 9)?;
    turns(control, eight(60))
}

// Both at once.
fn turn_at_once(alloc: Global, control: &mut Control<PlainBoard>) -> Result<Turn, Trouble>
    ensures seats { OnOk result (seats_in control.new ≡ seats_in control.old) }
    ensures none { OnOk result (control.new.queue ≡ []) }
{
    apply_all(alloc, control, 6, 4)?;
    turns(control, eight(60))
}

fn turn_round(alloc: Global, control: &mut Control<PlainBoard>, made: Made) -> Result<Turn, Trouble>
    ensures seats { OnOk result (seats_in control.new ≡ seats_in control.old) }
    ensures none { OnOk result (control.new.queue ≡ []) }
{
    match made {
        Made::InTurn => turn_by_two(alloc, control),
        Made::AtOnce => turn_at_once(alloc, control),
    }
}

/// A pass begins and comes so many hops far, unless it ends before.
pub fn hold(control: &mut Control<PlainBoard>, addr: Addr, hash: u32, most: u32) -> Option<End>
    requires { IsRested 1 (seats_in control.old) }
    ensures held { (n : ℕ) → IsRested n (seats_in control.old) → IsHeld n result (seats_in control.new) }
    ensures kept { IsUnchanged control.old control.new }
{
    begin(control, addr, hash);
    hops(control, most)
}

// The pass that is held goes along the union, whatever was put beneath it.
fn goes_along<P: Passes>(over: &P)
    ensures { (q : Pass) → pass_of (P.board over.now) 0 ≡ Some q → IsAlong (P.board over.now) q.loads }
{
    over.tells_of_passes()
}

/// What is found while a pass is held, and after its end.
#[derive(Clone, Copy, Debug, PartialEq, Eq)]
pub struct Found {
    /// The turn of 60.0.0.0/8, which would have closed the cycle.
    pub turn: Turn,
    /// The buckets that are deferred then.
    pub deferred: u32,
    pub held: Answers,
    /// What the pass answers.
    pub record: Record,
    pub ended: Answers,
    /// Where a packet to 60.1.1.1 ends then.
    pub end: End,
}

// The same on a control before its first change.
fn hold_while_turned(
    alloc: Global,
    control: &mut Control<PlainBoard>,
    most: u32,
    made: Made,
) -> Result<Found, Trouble>
    requires { seats_in control.old ≡ first_seats }
    ensures { IfOk result (λ found. AreCalm found.ended) }
{
    route(alloc, control)?;
    let end = hold(control, Addr(0x3201_0101), 0, most);
    let turn = turn_round(alloc, control, made)?;
    goes_along(control);
    let deferred = control.deferred();
    let held = calm(control);
    let record = go_on(control, end)?;
    let ended = calm(control);
    let end = look_up(control, Addr(0x3c01_0101))?;
    Ok(Found {
        turn,
        deferred,
        held,
        record,
        ended,
        end,
    })
}

// After so many hops, beneath changes that are made so.
#[derive(Clone, Copy)]
struct HeldAfter {
    most: u32,
    made: Made,
}

impl Trial for HeldAfter {
    type Found = Found;

    ghost is_so = { λ found. AreCalm found.ended };

    fn find(&self, alloc: Global, control: &mut Control<PlainBoard>) -> Result<Found, Trouble> {
        hold_while_turned(alloc, control, self.most, self.made)
    }
}

/// A pass to 50.1.1.1 is held after so many hops while the routes change. Once it has ended, nothing is left to wait for.
pub fn held_after(alloc: Global, most: u32, made: Made) -> Result<Found, Trouble>
    ensures { IfOk result (λ found. AreCalm found.ended) }
{
    found_by(alloc, FEW, &HeldAfter { most, made })
}

/// What is found where 60.0.0.0/8 is deleted while its buckets are deferred.
#[derive(Clone, Copy, Debug, PartialEq, Eq)]
pub struct Deleted {
    /// What the pass answers.
    pub record: Record,
    pub ended: Answers,
    /// Where a packet to 60.1.1.1 ends then.
    pub end: End,
}

// The same on a control before its first change.
fn delete_while_held(alloc: Global, control: &mut Control<PlainBoard>) -> Result<Deleted, Trouble>
    requires { seats_in control.old ≡ first_seats }
    ensures { IfOk result (λ found. AreCalm found.ended) }
{
    route(alloc, control)?;
    let end = hold(control, Addr(0x3201_0101), 0, 3);
    turn_by_two(alloc, control)?;
    apply(alloc, control, 10)?;
    turns_and_retries(control, eight(60), 16)?;
    let record = go_on(control, end)?;
    let ended = calm(control);
    let end = look_up(control, Addr(0x3c01_0101))?;
    Ok(Deleted { record, ended, end })
}

#[derive(Clone, Copy)]
struct DeletedWhileHeld;

impl Trial for DeletedWhileHeld {
    type Found = Deleted;

    ghost is_so = { λ found. AreCalm found.ended };

    fn find(&self, alloc: Global, control: &mut Control<PlainBoard>) -> Result<Deleted, Trouble> {
        delete_while_held(alloc, control)
    }
}

/// A pass to 50.1.1.1 is held after three hops while the routes change and 60.0.0.0/8 is deleted: its buckets stay deferred until its turn, and
/// none from then on.
pub fn deleted_while_held(alloc: Global) -> Result<Deleted, Trouble>
    ensures { IfOk result (λ found. AreCalm found.ended) }
{
    found_by(alloc, FEW, &DeletedWhileHeld)
}
