//! A control over few objects is crowded while one worker's pass is held, seven workers more being out and at rest.
ghost use Rattle.std.specs.Prelude.{IfSome, ◌<◌, ◌≡◌};
ghost use Rattle.fib_resolve.specs.Reachable.{IsWritten};
ghost use Rattle.fib_core_lawful.specs.State.{left_of};
ghost use Rattle.fib_core_board.specs.Crews.{MaySend, board_sent};
ghost use Rattle.trial_live.specs.Crewed.{IsManned, SameCrew};

use crate::alone::finished;
use crate::live::{apply_from, calm, change, has_version_left, settle_home};
use fib_addr::Addr;
use fib_cells::LiveBoard;
use fib_control::Control;
use fib_resolve::Edit;
use fib_worker::{Finished, Step, Worker};
use std::alloc::Global;
use trial_plain::changes::{coming, going};
use trial_plain::crowded::{Crowd, Crowded, crowd_of, pick};
use trial_plain::steps::Answers;
use trial_plain::trouble::Trouble;

// Makes an edit where enough objects are free. What is said where too few are.
fn try_one(
    control: &mut Control<LiveBoard<'_>>,
    edit: &Edit,
    made: u32,
) -> Result<Option<Crowd>, Trouble>
    requires { IsWritten edit.now }
    ensures { SameCrew control.old.plane.board control.new.plane.board }
{
    if !has_version_left(control) {
        return Err(Trouble::Refused);
    }
    match control.apply(edit) {
        Ok(_) => Ok(None),
        Err(error) => match crowd_of(error, made) {
            Ok(crowd) => Ok(Some(crowd)),
            Err(trouble) => Err(trouble),
        },
    }
}

// Makes two edits in turn, each with all its turns, until too few objects are free for one. None where memory is wanted.
fn until_crowded(control: &mut Control<LiveBoard<'_>>, edit: &Edit, other: &Edit) -> Option<Crowd>
    requires written { IsWritten edit.now × IsWritten other.now }
    ensures crew { SameCrew control.old.plane.board control.new.plane.board }
{
    for place in 0..20 {
        match try_one(control, pick(place, edit, other), place) {
            Ok(Some(crowd)) => return Some(crowd),
            Ok(None) => control.walk().ok()?,
            Err(_) => return None,
        }
    }
    None
}

// A pass to 20.1.1.1 is held after so many hops, or at its end, while the edits are made.
fn held_for<'a>(
    control: &mut Control<LiveBoard<'a>>,
    worker: Worker<'a>,
    edit: &Edit,
    other: &Edit,
    most: u32,
) -> (Option<Crowd>, Finished<'a>)
    requires left { 0 < left_of worker.worker.pass }
    requires written { IsWritten edit.now × IsWritten other.now }
    ensures crew { SameCrew control.old.plane.board control.new.plane.board }
    ensures same { result.1.worker.id ≡ worker.entry.id }
{
    let mut pass = worker.begin(Addr(0x1401_0101), 0);
    for _count in 0..most {
        match pass.hop() {
            Step::More(on) => pass = on,
            Step::Finish(done) => {
                let crowd = until_crowded(control, edit, other);
                return (crowd, done.end());
            }
        }
    }
    let crowd = until_crowded(control, edit, other);
    (crowd, finished(pass))
}

// A worker leaves.
fn sent<'a>(control: &mut Control<LiveBoard<'a>>, number: u32) -> Worker<'a>
    requires { MaySend control.old.plane.board number }
    ensures board { control.new.plane.board ≡ board_sent control.old.plane.board number }
    ensures of { result.id ≡ control.old.plane.board.id }
{
    Worker::new(control.worker(number))
}

// Workers 0 to 6 leave, and rest.
fn seven<'a>(control: &mut Control<LiveBoard<'a>>) -> [Worker<'a>; 7]
    requires { IsManned 8 control.old.plane.board }
    ensures id { control.new.plane.board.id ≡ control.old.plane.board.id }
    ensures last { MaySend control.new.plane.board 7 }
{
    let a = sent(control, 0);
    let b = sent(control, 1);
    let c = sent(control, 2);
    let d = sent(control, 3);
    let e = sent(control, 4);
    let f = sent(control, 5);
    let g = sent(control, 6);
    [a, b, c, d, e, f, g]
}

// Worker 7 is held after so many hops while two edits are made in turn, and comes home; then the edit that was one too many is made. None where memory
// or a pass is wanted.
fn crowd_while_held<'a>(
    control: &mut Control<LiveBoard<'a>>,
    edit: &Edit,
    other: &Edit,
    most: u32,
) -> Option<Crowded>
    requires may { MaySend control.old.plane.board 7 }
    requires written { IsWritten edit.now × IsWritten other.now }
{
    let used = control.used();
    let worker = sent(control, 7);
    if worker.passes_left() == 0 {
        return None;
    }
    let (crowd, Finished { worker, result }) = held_for(control, worker, edit, other, most);
    control.home(worker.into_seat());
    let crowd = crowd?;
    let ended = calm(control);
    let version = change(control, pick(crowd.made, edit, other))?;
    Some(Crowded {
        used,
        crowd,
        record: result,
        ended,
        version,
    })
}

/// What comes first.
#[derive(Clone, Copy, Debug, PartialEq, Eq)]
pub enum First {
    /// The route isn't there as the pass begins, and comes first.
    Comes,
    /// It is there, and goes first.
    Goes,
}

// eth0 is up and has 10.0.0.1/24, and with it or not there is 20.0.0.0/8. That is settled. None where memory is wanted.
fn set_up(alloc: Global, control: &mut Control<LiveBoard<'_>>, first: First) -> Option<()>
    requires { IsManned 8 control.old.plane.board }
    ensures { SameCrew control.old.plane.board control.new.plane.board }
{
    apply_from(alloc, control, 1, 3)?;
    if first == First::Goes {
        let route = coming(alloc).ok()?;
        change(control, &route)?;
    }
    settle_home(control)?;
    Some(())
}

// Both edits, in their order.
fn edits(alloc: Global, first: First) -> Option<(Edit, Edit)>
    ensures { IfSome result (λ both. IsWritten both.0 × IsWritten both.1) }
{
    let route = coming(alloc).ok()?;
    let gone = going(alloc).ok()?;
    match first {
        First::Comes => Some((route, gone)),
        First::Goes => Some((gone, route)),
    }
}

/// A pass to 20.1.1.1 is held after so many hops while 20.0.0.0/8 comes and goes; seven workers are out and at rest all the time. None where memory is
/// wanted.
pub fn crowd_at<'a>(
    alloc: Global,
    control: &mut Control<LiveBoard<'a>>,
    first: First,
    most: u32,
) -> Option<Crowded>
    requires { IsManned 8 control.old.plane.board }
{
    set_up(alloc, control, first)?;
    let (edit, other) = edits(alloc, first)?;
    // The seven seats are out and at rest: none of them comes home.
    let _resting = seven(control);
    crowd_while_held(control, &edit, &other, most)
}
