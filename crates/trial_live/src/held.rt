//! A pass that is held at each of its hops while two routes come to lead to each other.
ghost use Rattle.std.specs.Prelude.{◌+◌, ◌<◌, ◌^◌, ◌≡◌};
ghost use Rattle.fib_core_lawful.specs.State.{left_of};
ghost use Rattle.trial_live.specs.Crewed.{IsManned, SameCrew};

use crate::alone::finished;
use crate::live::{apply_from, calm, pass, settle_home};
use fib_addr::{Addr, Prefix};
use fib_cells::LiveBoard;
use fib_control::Control;
use fib_stack::Turn;
use fib_worker::{Finished, Step, Worker};
use std::alloc::Global;
use trial_plain::changes::eight;
use trial_plain::held::Found;
use trial_plain::steps::Answers;

// Whether it was this prefix's.
fn is_of(turn: &Turn, prefix: Prefix) -> bool {
    match turn {
        Turn::Restacked { entry, .. } => *entry == prefix,
        Turn::Idle => false,
    }
}

// Turns until none is queued. Answers what the last turn of that prefix did: Idle if it had none. None where memory is wanted.
fn turns(control: &mut Control<LiveBoard<'_>>, prefix: Prefix) -> Option<Turn>
    ensures { SameCrew control.old.plane.board control.new.plane.board }
{
    let mut last = Turn::Idle;
    for _count in 0..100 {
        if control.queued() == 0 {
            return Some(last);
        }
        let turn = control.turn().ok()?;
        if is_of(&turn, prefix) {
            last = turn;
        }
    }
    None
}

// What is found beneath the pass.
#[derive(Clone, Copy, Debug, PartialEq, Eq)]
struct Beneath {
    // The turn of 60.0.0.0/8, which would have closed the cycle.
    turn: Turn,
    // The buckets that are deferred then.
    deferred: u32,
    answers: Answers,
}

// 50.0.0.0/8 comes to be over 10.0.0.8, and then 60.0.0.0/8 over 50.0.0.1. None where memory is wanted.
fn turn_round(alloc: Global, control: &mut Control<LiveBoard<'_>>) -> Option<Beneath>
    ensures { SameCrew control.old.plane.board control.new.plane.board }
{
    apply_from(alloc, control, 6, 2)?;
    control.walk().ok()?;
    apply_from(alloc, control, 8, 2)?;
    let turn = turns(control, eight(60))?;
    let deferred = control.deferred();
    let answers = calm(control);
    Some(Beneath {
        turn,
        deferred,
        answers,
    })
}

// A pass to 50.1.1.1 is held after so many hops, or at its end, while the routes change.
fn held_for<'a>(
    alloc: Global,
    control: &mut Control<LiveBoard<'a>>,
    worker: Worker<'a>,
    most: u32,
) -> (Option<Beneath>, Finished<'a>)
    requires left { 0 < left_of worker.worker.pass }
    ensures crew { SameCrew control.old.plane.board control.new.plane.board }
    ensures same { result.1.worker.id ≡ worker.entry.id }
{
    let mut pass = worker.begin(Addr(0x3201_0101), 0);
    for _count in 0..most {
        match pass.hop() {
            Step::More(on) => pass = on,
            Step::Finish(done) => {
                let found = turn_round(alloc, control);
                return (found, done.end());
            }
        }
    }
    let found = turn_round(alloc, control);
    (found, finished(pass))
}

// Worker 2 leaves, is held after so many hops, makes one pass more and comes home. None where memory or a pass is wanted.
fn hold<'a>(alloc: Global, control: &mut Control<LiveBoard<'a>>, most: u32) -> Option<Found>
    requires { IsManned 4 control.old.plane.board }
{
    let worker = Worker::new(control.worker(2));
    if worker.passes_left() == 0 {
        return None;
    }
    let (beneath, Finished { worker, result }) = held_for(alloc, control, worker, most);
    let ended = calm(control);
    let (worker, last) = pass(worker, Addr(0x3c01_0101), 0)?;
    control.home(worker.into_seat());
    let Beneath {
        turn,
        deferred,
        answers,
    } = beneath?;
    Some(Found {
        turn,
        deferred,
        held: answers,
        record: result,
        ended,
        end: last.end,
    })
}

/// 50.0.0.0/8 is over 60.0.0.1 and 60.0.0.0/8 over 10.0.0.7, and that is settled as version 5. A pass to 50.1.1.1 is held after so many hops while
/// both routes change. None where memory is wanted.
pub fn hold_at<'a>(alloc: Global, control: &mut Control<LiveBoard<'a>>, most: u32) -> Option<Found>
    requires { IsManned 4 control.old.plane.board }
{
    apply_from(alloc, control, 1, 5)?;
    settle_home(control)?;
    hold(alloc, control, most)
}
