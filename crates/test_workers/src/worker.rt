// Passes on live cells, all on one thread.
ghost use Rattle.std.specs.Prelude.{IfOk, OnOk, ◌<◌, ◌≡◌};
ghost use Rattle.fib_core_lawful.specs.State.{left_of};
ghost use Rattle.trial_filling.specs.inner.Filling.{IsChanging};
ghost use Rattle.fib_cells.specs.Seats.{fresh_live, id_in};

use crate::expect::{holds, same};
use crate::standing::filled_board;
use fib_addr::Addr;
use fib_cells::{Cells, ControlSeat, LiveBoard};
use fib_core::{Record, Version, Word};
use fib_core_board::{Board, Crew};
use fib_plane::Plane;
use fib_resolve::{End, Tables};
use fib_worker::{Finished, Pass, Step, Worker};
use std::alloc::Global;
use std::test::Fail;

// The rest of a pass.
fn finished<'a>(mut pass: Pass<'a>) -> Finished<'a>
    ensures { result.worker.id ≡ pass.entry.seat.id }
{
    loop {
        // The count of hops tells that they are fewer than the objects, so the loop ends.
        let _hops = pass.hops();
        match pass.hop() {
            Step::More(on) => pass = on,
            Step::Finish(done) => return done.end(),
        }
    }
}

// A pass whose first two hops are made one by one, and how many it has made then.
fn two_hops<'a>(worker: Worker<'a>, addr: Addr, hash: u32) -> (u32, Finished<'a>)
    requires { 0 < left_of worker.worker.pass }
    ensures { result.1.worker.id ≡ worker.entry.id }
{
    let pass = worker.begin(addr, hash);
    match pass.hop() {
        Step::Finish(done) => (done.hops(), done.end()),
        Step::More(pass) => match pass.hop() {
            Step::Finish(done) => (done.hops(), done.end()),
            Step::More(pass) => (pass.hops(), finished(pass)),
        },
    }
}

// What a pass over fresh cells answers.
fn dropped(addr: Addr, hash: u32) -> Record {
    Record {
        addr,
        hash,
        lo: Version::settled_at(0),
        hi: Version::settled_at(0),
        end: End::Drop,
    }
}

#[test]
fn a_pass_hop_by_hop(rt: HostRuntime) -> Result<(), Fail> {
    let (cells, seat) = Cells::new(rt.alloc(), 64, 2)?;
    let mut board = LiveBoard::new(&cells, seat);
    let worker = Worker::new(board.worker(1));
    same(&rt, worker.number(), 1);
    same(&rt, worker.knows(), Version::settled_at(0));
    let (hops, Finished { worker, result }) = two_hops(worker, Addr(7), 9);
    same(&rt, hops, 1);
    same(&rt, result, dropped(Addr(7), 9));
    same(&rt, worker.passes_left(), 9_223_372_036_854_775_806);
    board.home(worker.into_seat());
    same(&rt, board.scan(1), 2);
    Ok(())
}

#[test]
fn one_of_eight_forwards(rt: HostRuntime) -> Result<(), Fail> {
    let (cells, seat) = Cells::new(rt.alloc(), 64, 8)?;
    let mut board = LiveBoard::new(&cells, seat);
    let mut worker = Worker::new(board.worker(0));
    let resting = [
        board.worker(1),
        board.worker(2),
        board.worker(3),
        board.worker(4),
        board.worker(5),
        board.worker(6),
        board.worker(7),
    ];
    same(&rt, worker.claim(), 0);
    same(&rt, worker.claims_left(), 4_294_967_294);
    let Finished { worker, result } = worker.forward(Addr(0xFFFF_FFFF), 5);
    same(&rt, result, dropped(Addr(0xFFFF_FFFF), 5));
    same(&rt, board.scan(0), 2);
    same(&rt, board.scan(7), 0);
    board.home(worker.into_seat());
    same(&rt, board.gathered(), 1);
    drop(resting);
    holds(&rt, board.is_out(7));
    Ok(())
}

// A plane over live cells.
fn fresh_plane<'a>(
    alloc: Global,
    cells: &'a Cells,
    seat: ControlSeat,
) -> Result<Plane<LiveBoard<'a>>, Fail>
    requires { seat ≡ fresh_live (id_in cells.now) 64 2 }
    ensures { IfOk result (λ p. p.plane.board ≡ fresh_live (id_in cells.now) 64 2) }
{
    Ok(Plane::new(alloc, LiveBoard::new(cells, seat))?)
}

#[test]
fn a_worker_on_a_plane(rt: HostRuntime) -> Result<(), Fail> {
    let (cells, seat) = Cells::new(rt.alloc(), 64, 2)?;
    let mut plane = fresh_plane(rt.alloc(), &cells, seat)?;
    let seat = plane.worker(1);
    holds(&rt, plane.is_out(1));
    let note = plane.note();
    let worker = Worker::new(seat.told(note));
    let (hops, Finished { worker, result }) = two_hops(worker, Addr(7), 9);
    same(&rt, hops, 1);
    same(&rt, result, dropped(Addr(7), 9));
    plane.home(worker.into_seat());
    holds(&rt, !plane.is_out(1));
    same(&rt, plane.gathered(), 0);
    same(&rt, plane.passes_left(1), 9_223_372_036_854_775_806);
    plane.tells();
    Ok(())
}

// A pass to 7.0.0.0, held after so many hops, beneath which a number is stored into an object that no pass can reach and cleared again.
fn held_beneath_a_change<'a>(
    board: &mut LiveBoard<'a>,
    worker: Worker<'a>,
    held: u32,
) -> Finished<'a>
    requires left { 0 < left_of worker.worker.pass }
    requires changing { IsChanging board.old }
    ensures changing { IsChanging board.new }
    ensures others { (board.new.id ≡ board.old.id) × (board.new.workers ≡ board.old.workers) × (board.new.objects ≡ board.old.objects) }
    ensures same { result.worker.id ≡ worker.entry.id }
{
    let mut pass = worker.begin(Addr(0x0700_0000), 5);
    for _ in 0..held {
        match pass.hop() {
            Step::More(on) => pass = on,
            Step::Finish(done) => {
                beneath(board);
                return done.end();
            }
        }
    }
    beneath(board);
    finished(pass)
}

// The stores of a change that touches nothing.
fn beneath(board: &mut LiveBoard<'_>)
    requires { IsChanging board.old }
    ensures changing { IsChanging board.new }
    ensures others { (board.new.id ≡ board.old.id) × (board.new.workers ≡ board.old.workers) × (board.new.objects ≡ board.old.objects) }
{
    board.store(20, 0, Word::Plain(7));
    board.store(20, 0, Word::Drop);
}

#[test]
fn a_change_beneath_held_passes(rt: HostRuntime) -> Result<(), Fail> {
    let (cells, seat) = Cells::new(rt.alloc(), 64, 1)?;
    let mut board = filled_board(&cells, seat);
    same(&rt, board.load(0, 0), Word::ToPly(1));
    let tables = Tables::fresh(rt.alloc());
    board.begin_version(&tables);
    let version = Version {
        settled: 0,
        applied: 1,
    };
    same(&rt, board.version(), version);
    let mut worker = Worker::new(board.worker(0));
    for held in 0..4 {
        if worker.passes_left() == 0 {
            return Err(Fail::from("no passes left"));
        }
        let Finished {
            worker: after,
            result,
        } = held_beneath_a_change(&mut board, worker, held);
        worker = after;
        same(&rt, (result.lo, result.hi), (version, version));
        same(&rt, result.end, End::Drop);
    }
    board.home(worker.into_seat());
    same(&rt, board.load(20, 0), Word::Drop);
    same(&rt, board.scan(0), 8);
    board.settle_version();
    same(&rt, board.version(), Version::settled_at(1));
    board.tells();
    Ok(())
}
