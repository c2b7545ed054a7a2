// A worker in a thread of its own, beside a change by the control plane.
ghost use Rattle.std.specs.Prelude.{ℕ, All, IfSome, length, slice_index_or, ◌<◌, ◌≡◌};
ghost use Rattle.trial_filling.specs.inner.Filling.{IsChanging};
ghost use Rattle.test_workers.specs.declared.threads.Job.{Job as Work};
ghost use Rattle.test_workers.specs.Homes.{IsOf, MayRun, SameBoard, SameSeat};

use crate::expect::same;
use crate::standing::filled_board;
use fib_addr::Addr;
use fib_cells::{Cells, LiveBoard};
use fib_core::{Version, Word};
use fib_core_board::{Board, Crew};
use fib_resolve::{End, Tables};
use fib_worker::{Finished, Worker};
use std::test::Fail;
use std::thread::{Threads, for_each_mut};

// Each packet is one claim.
const PACKETS: u64 = 1000;

const WITHIN: Version = Version {
    settled: 0,
    applied: 1,
};

// What one thread does: a worker forwards, or the control plane stores.
#[derive(Drop)]
struct Job<'a> {
    worker: Option<Worker<'a>>,
    board: Option<LiveBoard<'a>>,
}

// Forwards packets by claims to the last. None where an answer is wrong.
fn forward_claims<'a>(mut worker: Worker<'a>) -> Option<Worker<'a>>
    ensures { IsOf worker.entry.id result }
{
    for _ in 0..PACKETS + 1 {
        if worker.claims_left() == 0 {
            return None;
        }
        if worker.passes_left() == 0 {
            return None;
        }
        let packet = worker.claim();
        if packet >= PACKETS {
            return Some(worker);
        }
        let Finished {
            worker: after,
            result,
        } = worker.forward(Addr(packet as u32), packet as u32);
        worker = after;
        if result.lo != WITHIN {
            return None;
        }
        if result.end != End::Drop {
            return None;
        }
    }
    None
}

// Stores a number into an object that no pass can reach, and clears it, again and again.
fn store_beneath<'a>(mut board: LiveBoard<'a>) -> LiveBoard<'a>
    requires { IsChanging board }
    ensures changing { IsChanging result }
    ensures same { result.id ≡ board.entry.id }
{
    for _ in 0..200 {
        board.store(20, 0, Word::Plain(7));
        board.store(20, 0, Word::Drop);
    }
    board
}

fn run_job(job: &mut Job<'_>)
    requires { MayRun job.old.board }
    ensures { (SameSeat job.old.worker job.new.worker) × SameBoard job.old.board job.new.board }
{
    if let Some(worker) = job.worker.take() {
        job.worker = forward_claims(worker);
    }
    if let Some(board) = job.board.take() {
        job.board = Some(store_beneath(board));
    }
}

fn run_all<R: Threads + Sync>(rt: &R, jobs: &mut [Job<'_>])
    requires { All (λ (j : Work). MayRun j.board) jobs.old }
    ensures long { length jobs.new ≡ length jobs.old }
    ensures each { (i : ℕ) (d : Work) → i < length jobs.old
        → SameSeat (slice_index_or jobs.old i d).worker (slice_index_or jobs.new i d).worker
        × SameBoard (slice_index_or jobs.old i d).board (slice_index_or jobs.new i d).board }
{
    for_each_mut(
        rt,
        jobs,
        8,
        &|_, job: &mut Job| -> ()
            requires { MayRun job.now.board }
            ensures { SameSeat job.entry.now.worker job.exit.now.worker × SameBoard job.entry.now.board job.exit.now.board }
        { run_job(job) },
    );
}

fn worker_in<'a>(jobs: &mut [Job<'a>]) -> Option<Worker<'a>>
    requires { 1 < length jobs.old }
    ensures taken { (d : Work) → result ≡ (slice_index_or jobs.old 0 d).worker }
    ensures other { (d : Work) → slice_index_or jobs.new 1 d ≡ slice_index_or jobs.old 1 d }
    ensures long { length jobs.new ≡ length jobs.old }
{
    jobs[0].worker.take()
}

fn board_in<'a>(jobs: &mut [Job<'a>]) -> Option<LiveBoard<'a>>
    requires { 1 < length jobs.old }
    ensures { (d : Work) → result ≡ (slice_index_or jobs.old 1 d).board }
{
    jobs[1].board.take()
}

fn run_both<'a, R: Threads + Sync>(
    rt: &R,
    jobs: &mut [Job<'a>],
) -> (Option<Worker<'a>>, Option<LiveBoard<'a>>)
    requires two { 1 < length jobs.old }
    requires may { All (λ (j : Work). MayRun j.board) jobs.old }
    ensures { (d : Work) → SameSeat (slice_index_or jobs.old 0 d).worker result.0 × SameBoard (slice_index_or jobs.old 1 d).board result.1 }
{
    run_all(rt, jobs);
    let worker = worker_in(jobs);
    let board = board_in(jobs);
    (worker, board)
}

// The worker's job and the control plane's, side by side.
fn beside<'a, R: Threads + Sync>(
    rt: &R,
    worker: Worker<'a>,
    board: LiveBoard<'a>,
) -> Option<(Worker<'a>, LiveBoard<'a>)>
    requires { IsChanging board }
    ensures { IfSome result (λ r. (r.0.id ≡ worker.entry.id) × (r.1.id ≡ board.entry.id) × IsChanging r.1) }
{
    let mut jobs = [
        Job {
            worker: Some(worker),
            board: None,
        },
        Job {
            worker: None,
            board: Some(board),
        },
    ];
    let (worker, board) = run_both(rt, &mut jobs);
    Some((worker?, board?))
}

#[test]
fn a_worker_beside_a_change(rt: HostRuntime) -> Result<(), Fail> {
    let (cells, seat) = Cells::new(rt.alloc(), 64, 1)?;
    let mut board = filled_board(&cells, seat);
    let tables = Tables::fresh(rt.alloc());
    board.begin_version(&tables);
    let worker = Worker::new(board.worker(0));
    let (worker, mut board) = beside(&rt, worker, board).ok_or("a wrong answer")?;
    board.home(worker.into_seat());
    same(&rt, board.gathered(), PACKETS + 1);
    same(&rt, board.scan(0), 2 * PACKETS);
    board.settle_version();
    board.tells();
    Ok(())
}
