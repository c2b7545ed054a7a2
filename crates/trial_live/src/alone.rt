//! A worker and the control plane on one thread.
ghost use Rattle.std.specs.Prelude.{IfSome, ◌<◌, ◌≡◌};
ghost use Rattle.fib_resolve.specs.Reachable.{IsWritten};
ghost use Rattle.fib_core_lawful.specs.State.{left_of};
ghost use Rattle.fib_cells.specs.Seats.{id_in};
ghost use Rattle.trial_live.specs.Crewed.{IsHome, IsManned, SameCrew};

use crate::live::{change, change_by, edit_of, live, pass, restack, settle_home};
use fib_addr::Addr;
use fib_cells::{Cells, ControlSeat, LiveBoard};
use fib_control::Control;
use fib_core::{Record, Version};
use fib_resolve::Edit;
use fib_worker::{Finished, Pass, Step, Worker};
use std::alloc::Global;

// Within 50.0.0.0/8.
const REMOTE: Addr = Addr(0x3201_0101);

// The worker that forwards.
const NUMBER: u32 = 2;

/// Gives eth0 10.0.0.1/24, and has 50.0.0.0/8 go by way of 10.0.0.7. Answers the last change's version; None where one isn't made.
pub fn set_up(alloc: Global, control: &mut Control<LiveBoard<'_>>) -> Option<u32>
    ensures { SameCrew control.old.plane.board control.new.plane.board }
{
    change_by(alloc, control, "create interface eth0")?;
    change_by(alloc, control, "set interface state eth0 up")?;
    change_by(alloc, control, "set interface ip address eth0 10.0.0.1/24")?;
    change_by(alloc, control, "ip route add 50.0.0.0/8 via 10.0.0.7")
}

/// What a worker finds that forwards a packet to 50.1.1.1, once before that route is deleted and once after it was told so.
#[derive(Clone, Copy, Debug, PartialEq, Eq)]
pub struct Told {
    pub before: Record,
    /// The copies of edges that a scan left, while the worker was out and at rest.
    pub left: Option<u32>,
    /// The version that was settled while the worker was out.
    pub settled: Option<u32>,
    pub after: Record,
    /// The passes that are left to the worker at home.
    pub passes_left: u64,
}

// The worker leaves, forwards, rests during the edit, is told, forwards and comes home.
fn tell<'a>(control: &mut Control<LiveBoard<'a>>, edit: &Edit) -> Option<Told>
    requires written { IsWritten edit.now }
    requires manned { IsManned 4 control.old.plane.board }
{
    let worker = Worker::new(control.worker(NUMBER));
    let (worker, before) = pass(worker, REMOTE, 5)?;
    let left = restack(control, edit);
    let settled = control.mark_settled().ok();
    let note = control.note();
    let worker = Worker::new(worker.into_seat().told(note));
    let (worker, after) = pass(worker, REMOTE, 5)?;
    control.home(worker.into_seat());
    Some(Told {
        before,
        left,
        settled,
        after,
        passes_left: control.passes_left(NUMBER),
    })
}

/// Settles, and then does what `Told` says. None where memory is wanted.
pub fn tell_of_a_change<'a>(alloc: Global, control: &mut Control<LiveBoard<'a>>) -> Option<Told>
    requires { IsManned 4 control.old.plane.board }
{
    set_up(alloc, control)?;
    settle_home(control)?;
    let edit = edit_of(alloc, "ip route del 50.0.0.0/8")?;
    tell(control, &edit)
}

/// What a worker answers that left before a change and was told of it by a note, while no turn came yet; and what it knows then.
#[derive(Clone, Copy, Debug, PartialEq, Eq)]
pub struct Heard {
    pub after: Record,
    pub knows: Version,
}

// The worker leaves and rests during the edit, is told, forwards and comes home.
fn hear<'a>(control: &mut Control<LiveBoard<'a>>, edit: &Edit) -> Option<Heard>
    requires written { IsWritten edit.now }
    requires manned { IsManned 4 control.old.plane.board }
{
    let worker = Worker::new(control.worker(NUMBER));
    let made = change(control, edit);
    let note = control.note();
    let worker = Worker::new(worker.into_seat().told(note));
    let (worker, after) = pass(worker, REMOTE, 5)?;
    let knows = worker.knows();
    control.home(worker.into_seat());
    made?;
    Some(Heard { after, knows })
}

/// Gives eth0 10.0.0.1/24 and settles that as version 3; then a worker leaves and hears of a fourth change. None where memory is wanted.
pub fn hear_of_a_fourth_change<'a>(
    alloc: Global,
    control: &mut Control<LiveBoard<'a>>,
) -> Option<Heard>
    requires { IsManned 4 control.old.plane.board }
{
    change_by(alloc, control, "create interface eth0")?;
    change_by(alloc, control, "set interface state eth0 up")?;
    change_by(alloc, control, "set interface ip address eth0 10.0.0.1/24")?;
    settle_home(control)?;
    let edit = edit_of(alloc, "ip route add 50.0.0.0/8 via 10.0.0.7")?;
    hear(control, &edit)
}

/// The rest of a pass.
pub fn finished<'a>(mut pass: Pass<'a>) -> Finished<'a>
    ensures { result.worker.id ≡ pass.entry.seat.id }
{
    loop {
        // The count of hops tells that they are fewer than the objects, so the loop ends.
        let _hops = pass.hops();
        match pass.hop() {
            Step::More(on) => pass = on,
            Step::Finish(done) => return done.end(),
        }
    }
}

// A pass that is held after its first hop, beneath which a change is made. How many copies a scan leaves then.
fn held_beneath<'a>(
    control: &mut Control<LiveBoard<'a>>,
    worker: Worker<'a>,
    edit: &Edit,
) -> (Option<u32>, Finished<'a>)
    requires left { 0 < left_of worker.worker.pass }
    requires written { IsWritten edit.now }
    ensures crew { SameCrew control.old.plane.board control.new.plane.board }
    ensures same { result.1.worker.id ≡ worker.entry.id }
{
    match worker.begin(REMOTE, 5).hop() {
        Step::Finish(done) => (None, done.end()),
        Step::More(pass) => {
            let left = restack(control, edit);
            (left, finished(pass))
        }
    }
}

/// What a worker finds whose pass for 50.1.1.1 is held while that route is deleted.
#[derive(Clone, Copy, Debug, PartialEq, Eq)]
pub struct Held {
    /// The copies of edges that a scan left meanwhile.
    pub left: Option<u32>,
    pub record: Record,
    /// The copies that a scan leaves after the pass.
    pub then: u32,
    /// The version that is settled then.
    pub settled: Option<u32>,
}

// The worker leaves, is held beneath the edit, and comes home.
fn hold<'a>(control: &mut Control<LiveBoard<'a>>, edit: &Edit) -> Option<Held>
    requires written { IsWritten edit.now }
    requires manned { IsManned 4 control.old.plane.board }
{
    let worker = Worker::new(control.worker(NUMBER));
    if worker.passes_left() == 0 {
        return None;
    }
    let (left, Finished { worker, result }) = held_beneath(control, worker, edit);
    let then = control.scan();
    let settled = control.mark_settled().ok();
    control.home(worker.into_seat());
    Some(Held {
        left,
        record: result,
        then,
        settled,
    })
}

/// Settles, and then does what `Held` says. None where memory is wanted.
pub fn hold_beneath_a_change<'a>(
    alloc: Global,
    control: &mut Control<LiveBoard<'a>>,
) -> Option<Held>
    requires { IsManned 4 control.old.plane.board }
{
    set_up(alloc, control)?;
    settle_home(control)?;
    let edit = edit_of(alloc, "ip route del 50.0.0.0/8")?;
    hold(control, &edit)
}

/// A control over words, with their crew. None where memory is wanted.
pub fn fresh<'a>(
    alloc: Global,
    cells: &'a Cells,
    seat: ControlSeat,
) -> Option<Control<LiveBoard<'a>>>
    requires words { seat.id ≡ id_in cells.now }
    requires home { IsHome seat }
    ensures { IfSome result (λ c. SameCrew seat c.plane.board) }
{
    live(alloc, cells, seat).ok()
}
