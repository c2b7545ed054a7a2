// Each trial over live cells, on one thread.
ghost use Rattle.trial_live.specs.Crewed.{IsManned};
ghost use Rattle.fib_core_board.specs.Told.{IsWithinLimits};

use fib_cells::{Cells, LiveBoard};
use fib_control::Control;
use fib_core::Version;
use fib_resolve::End;
use std::alloc::Global;
use std::test::Fail;
use trial_live::alone::{
    Heard, Held, Told, fresh, hear_of_a_fourth_change, hold_beneath_a_change, tell_of_a_change,
};
use trial_live::crowded::{First, crowd_at};
use trial_live::held::hold_at;
use trial_plain::crowded::{Crowded, crowded_after, crowded_below};
use trial_plain::held::{Found, Made, held_after};
use trial_plain::trouble::Trouble;

// What is tried over cells of its own with four workers.
pub trait Trial {
    type Found;

    fn find(&self, alloc: Global, control: &mut Control<LiveBoard<'_>>) -> Option<Self::Found>
        requires { IsManned 4 control.old.plane.board };
}

// What is found over that many objects. None where memory is wanted.
//
// The one owner of a control here, with one way out after it is made: each way out of an owner takes long to prove.
pub fn over_cells<T: Trial>(alloc: Global, objects: u32, trial: &T) -> Option<T::Found>
    requires { IsWithinLimits objects 4 }
{
    let (cells, seat) = Cells::new(alloc, objects, 4).ok()?;
    let mut control = fresh(alloc, &cells, seat)?;
    trial.find(alloc, &mut control)
}

#[derive(Clone, Copy)]
struct Telling;

impl Trial for Telling {
    type Found = Told;

    fn find(&self, alloc: Global, control: &mut Control<LiveBoard<'_>>) -> Option<Told> {
        tell_of_a_change(alloc, control)
    }
}

#[derive(Clone, Copy)]
struct Holding;

impl Trial for Holding {
    type Found = Held;

    fn find(&self, alloc: Global, control: &mut Control<LiveBoard<'_>>) -> Option<Held> {
        hold_beneath_a_change(alloc, control)
    }
}

// After so many hops.
#[derive(Clone, Copy)]
struct HoldingAt(u32);

impl Trial for HoldingAt {
    type Found = Found;

    fn find(&self, alloc: Global, control: &mut Control<LiveBoard<'_>>) -> Option<Found> {
        hold_at(alloc, control, self.0)
    }
}

// The route stood in version 4, which was settled, and not in version 5, which was settled while the worker rested.
fn is_told(found: &Told) -> bool {
    found.before.lo == Version::settled_at(4)
        && found.before.hi == Version::settled_at(4)
        && found.before.end != End::Drop
        && found.left == Some(0)
        && found.settled == Some(5)
        && found.after.lo == Version::settled_at(5)
        && found.after.end == End::Drop
        && found.passes_left == 9_223_372_036_854_775_805
}

fn tells(alloc: Global) -> bool {
    match over_cells(alloc, 1024, &Telling) {
        Some(found) => is_told(&found),
        None => false,
    }
}

#[test]
fn a_worker_goes_by_what_is_settled(rt: HostRuntime) -> Result<(), Fail> {
    assert!(rt; tells(rt.alloc()));
    Ok(())
}

#[derive(Clone, Copy)]
struct Hearing;

impl Trial for Hearing {
    type Found = Heard;

    fn find(&self, alloc: Global, control: &mut Control<LiveBoard<'_>>) -> Option<Heard> {
        hear_of_a_fourth_change(alloc, control)
    }
}

// The pass begins no earlier than the note, and the worker knows what it saw at its end.
fn is_heard(found: &Heard) -> bool {
    found.after.lo.settled >= 3
        && found.after.lo.applied >= 4
        && found.knows.settled >= found.after.hi.settled
        && found.knows.applied >= found.after.hi.applied
}

fn hears(alloc: Global) -> bool {
    match over_cells(alloc, 1024, &Hearing) {
        Some(found) => is_heard(&found),
        None => false,
    }
}

#[test]
fn a_worker_hears_of_a_fourth_change(rt: HostRuntime) -> Result<(), Fail> {
    assert!(rt; hears(rt.alloc()));
    Ok(())
}

// Copies were left while the pass ran, and none after it; then version 5 was settled.
fn is_held(found: &Held) -> bool {
    found.left > Some(0)
        && found.record.lo == Version::settled_at(4)
        && found.record.hi.applied == 5
        && found.then == 0
        && found.settled == Some(5)
}

fn holds(alloc: Global) -> bool {
    match over_cells(alloc, 1024, &Holding) {
        Some(found) => is_held(&found),
        None => false,
    }
}

#[test]
fn a_held_pass_keeps_copies(rt: HostRuntime) -> Result<(), Fail> {
    assert!(rt; holds(rt.alloc()));
    Ok(())
}

// Whether that is what one finds over the plain board.
fn holds_alike(alloc: Global, hops: u32) -> bool {
    let (Some(live), Ok(plain)) = (
        over_cells(alloc, 200, &HoldingAt(hops)),
        held_after(alloc, hops, Made::InTurn),
    ) else {
        return false;
    };
    live == plain
}

#[test]
fn a_pass_is_held_at_each_hop(rt: HostRuntime) -> Result<(), Fail> {
    for hops in 0..8 {
        assert!(rt; holds_alike(rt.alloc(), hops), "{hops} hops");
    }
    Ok(())
}

// What is found over 80 objects with eight workers, of which seven rest.
fn crowded_at(alloc: Global, first: First, hops: u32) -> Option<Crowded> {
    let (cells, seat) = Cells::new(alloc, 80, 8).ok()?;
    let mut control = fresh(alloc, &cells, seat)?;
    crowd_at(alloc, &mut control, first, hops)
}

// What one worker finds over the plain board.
fn crowded_plain(alloc: Global, first: First, hops: u32) -> Result<Crowded, Trouble> {
    match first {
        First::Comes => crowded_after(alloc, 80, hops),
        First::Goes => crowded_below(alloc, 80, hops),
    }
}

fn crowds_alike(alloc: Global, first: First, hops: u32) -> bool {
    let (Some(live), Ok(plain)) = (
        crowded_at(alloc, first, hops),
        crowded_plain(alloc, first, hops),
    ) else {
        return false;
    };
    live == plain
}

#[test]
fn seven_at_rest_keep_nothing(rt: HostRuntime) -> Result<(), Fail> {
    for hops in 0..3 {
        let right = crowds_alike(rt.alloc(), First::Comes, hops)
            && crowds_alike(rt.alloc(), First::Goes, hops);
        assert!(rt; right, "{hops} hops");
    }
    Ok(())
}
