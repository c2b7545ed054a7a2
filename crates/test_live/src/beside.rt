// Four workers in threads of their own, beside changes by the control plane. All of their results are judged.
ghost use Rattle.std.specs.Prelude.{ℕ, All, IfSome, List, length, slice_index_or, ◌<◌, ◌≡◌, ◌^◌};
ghost use Rattle.std.specs.List.{AllByRecursion};
ghost use Rattle.fib_resolve.specs.Reachable.{IsWritten};
ghost use Rattle.fib_core_board.specs.Crews.{MaySend, board_sent};
ghost use Rattle.test_workers.specs.Homes.{IsOf};
ghost use Rattle.trial_live.specs.Crewed.{IsManned, SameCrew};
ghost use Rattle.test_live.specs.Stays.{StaysOf};
ghost use Rattle.test_live.specs.declared.beside.Job.{Job as Work};

use crate::judge::{Kept, Meaning, Verdict, judge, meanings};
use crate::pace::Pace;
use fib_addr::Addr;
use fib_cells::{Cells, LiveBoard};
use fib_control::Control;
use fib_core::Record;
use fib_resolve::Edit;
use fib_worker::Worker;
use std::alloc::Global;
use std::sync::Wait;
use std::test::Fail;
use std::thread::{Threads, for_each_mut, join_mut};
use trial_live::alone::fresh;
use trial_live::live::{self, change_by, edit_of, pass, settle_home};

const CHANGES: u32 = 200;

// How many packets a worker forwards beside one change: 10,000 beside all of them.
const SHARE: u32 = 50;

// One change before the others. 50.0.0.0/8 is over eth0, and so is 70.0.0.0/8, which no change touches.
const FIRST: [&str; 10] = [
    "create interface eth0",
    "set interface state eth0 up",
    "set interface ip address eth0 10.0.0.1/24",
    "create interface eth1",
    "set interface state eth1 up",
    "set interface ip address eth1 10.1.0.1/24",
    "set ip neighbor eth0 10.0.0.7 02:00:00:00:00:07",
    "set ip neighbor eth1 10.1.0.7 02:00:00:00:01:07",
    "ip route add 50.0.0.0/8 via 10.0.0.7",
    "ip route add 70.0.0.0/8 via 10.0.0.7",
];

// The changes, again and again.
fn line_of(number: u32) -> &'static str {
    match number % 8 {
        0 => "ip route add 50.0.0.0/8 via 10.1.0.7",
        1 => "ip route add 60.0.0.0/8 via 50.0.0.1",
        2 => "set interface state eth1 down",
        3 => "set interface state eth1 up",
        4 => "set ip neighbor eth1 10.1.0.7 02:00:00:00:01:08",
        5 => "ip route del 60.0.0.0/8",
        6 => "ip route del 50.0.0.0/8 via 10.1.0.7",
        _ => "set ip neighbor eth1 10.1.0.7 02:00:00:00:01:07",
    }
}

// Where a packet goes: within 50.0.0.0/8, 60.0.0.0/8 or 70.0.0.0/8, or to the router itself.
fn addr_of(packet: u32) -> Addr {
    match packet % 4 {
        0 => Addr(0x3200_0000 + packet % 0x1_0000),
        1 => Addr(0x3c00_0000 + packet % 0x1_0000),
        2 => Addr(0x4600_0000 + packet % 0x1_0000),
        _ => Addr(0x0a00_0001),
    }
}

// A worker, and what its passes answered.
#[derive(Drop)]
struct Job<'a> {
    worker: Option<Worker<'a>>,
    results: Vec<Record>,
}

// Forwards one packet. None where no pass is left, or there is no memory for its result.
fn forward_one<'a>(worker: Worker<'a>, packet: u32, results: &mut Vec<Record>) -> Option<Worker<'a>>
    ensures { IsOf worker.entry.id result }
{
    let (worker, result) = pass(worker, addr_of(packet), packet / 4)?;
    results.push(result).ok()?;
    Some(worker)
}

// Forwards the packets that go beside one change.
fn forward_share<'a>(
    mut worker: Worker<'a>,
    number: u32,
    results: &mut Vec<Record>,
) -> Option<Worker<'a>>
    ensures { IsOf worker.entry.id result }
{
    for packet in 0..SHARE {
        worker = forward_one(
            worker,
            number.wrapping_mul(SHARE).wrapping_add(packet),
            results,
        )?;
    }
    Some(worker)
}

fn forward_all<'a>(
    pace: &Pace,
    mut worker: Worker<'a>,
    results: &mut Vec<Record>,
) -> Option<Worker<'a>>
    ensures { IsOf worker.entry.id result }
{
    for number in 0..CHANGES {
        pace.wait_for_change(number + 1);
        worker = forward_share(worker, number, results)?;
        pace.finish_share();
    }
    Some(worker)
}

fn run_job(pace: &Pace, job: &mut Job<'_>)
    ensures { StaysOf job.old.worker job.new.worker }
{
    if let Some(worker) = job.worker.take() {
        job.worker = forward_all(pace, worker, &mut job.results);
    }
}

fn run_all<R: Threads + Sync>(rt: &R, pace: &Pace, jobs: &mut [Job<'_>])
    ensures long { length jobs.new ≡ length jobs.old }
    ensures each { (i : ℕ) (d : Work) → i < length jobs.old
        → StaysOf (slice_index_or jobs.old i d).worker (slice_index_or jobs.new i d).worker }
{
    for_each_mut(
        rt,
        jobs,
        8,
        &|_, job: &mut Job| -> ()
            ensures { StaysOf job.entry.now.worker job.exit.now.worker }
        { run_job(pace, job) },
    );
}

// Makes one change and settles it beside the passes. Each fourth is held before its turns until all workers forwarded beneath it. Whether all went well.
fn change_one<R: Wait>(
    rt: &R,
    alloc: Global,
    pace: &Pace,
    control: &mut Control<LiveBoard<'_>>,
    number: u32,
    history: &mut Vec<Kept>,
) -> bool
    ensures { control.new.plane.board.id ≡ control.old.plane.board.id }
{
    if change_by(alloc, control, line_of(number)).is_none() {
        return false;
    }
    pace.begin();
    if !keep(alloc, control, history) {
        return false;
    }
    if number % 4 == 0 {
        pace.wait_for_shares(number.wrapping_add(1).wrapping_mul(4));
    }
    control.settle(rt).is_ok()
}

// Keeps a copy of the tables. False where there is no memory.
fn keep(alloc: Global, control: &Control<LiveBoard<'_>>, history: &mut Vec<Kept>) -> bool {
    match Kept::copied(alloc, control.tables()) {
        Some(kept) => history.push(kept).is_ok(),
        None => false,
    }
}

// How many changes were made.
fn change_all<R: Wait>(
    rt: &R,
    alloc: Global,
    pace: &Pace,
    control: &mut Control<LiveBoard<'_>>,
    history: &mut Vec<Kept>,
) -> u32
    ensures { control.new.plane.board.id ≡ control.old.plane.board.id }
{
    for number in 0..CHANGES {
        if !change_one(rt, alloc, pace, control, number, history) {
            return number;
        }
    }
    CHANGES
}

// The workers' jobs and the changes, side by side. How many changes were made.
fn beside<'a, 'b, R: Threads + Wait + Sync>(
    rt: &R,
    alloc: Global,
    control: &mut Control<LiveBoard<'a>>,
    jobs: &mut [Job<'b>],
    history: &mut Vec<Kept>,
) -> u32
    ensures id { control.new.plane.board.id ≡ control.old.plane.board.id }
    ensures long { length jobs.new ≡ length jobs.old }
    ensures each { (i : ℕ) (d : Work) → i < length jobs.old
        → StaysOf (slice_index_or jobs.old i d).worker (slice_index_or jobs.new i d).worker }
{
    let pace = Pace::new();
    let (_, made) = join_mut(
        rt,
        &mut || -> ()
            ensures { (i : ℕ) (d : Work) → i < length jobs.entry.now
                → StaysOf (slice_index_or jobs.entry.now i d).worker (slice_index_or jobs.exit.now i d).worker }
        { run_all(rt, &pace, jobs) },
        &mut || -> u32
            ensures { control.exit.now.plane.board.id ≡ control.entry.now.plane.board.id }
        { change_all(rt, alloc, &pace, control, history) },
    );
    made
}

// A worker's job.
fn sent<'a>(alloc: Global, control: &mut Control<LiveBoard<'a>>, number: u32) -> Job<'a>
    requires { MaySend control.old.plane.board number }
    ensures board { control.new.plane.board ≡ board_sent control.old.plane.board number }
    ensures of { IsOf control.old.plane.board.id result.worker }
{
    Job {
        worker: Some(Worker::new(control.worker(number))),
        results: Vec::new(alloc),
    }
}

// Those of all four.
fn jobs_of<'a>(alloc: Global, control: &mut Control<LiveBoard<'a>>) -> [Job<'a>; 4]
    requires { IsManned 4 control.old.plane.board }
    ensures id { control.new.plane.board.id ≡ control.old.plane.board.id }
    ensures of { All (λ (j : Work). IsOf control.old.plane.board.id j.worker) result }
{
    let one = sent(alloc, control, 0);
    let two = sent(alloc, control, 1);
    let three = sent(alloc, control, 2);
    let four = sent(alloc, control, 3);
    [one, two, three, four]
}

fn worker_in<'a>(jobs: &mut [Job<'a>], place: usize) -> Option<Worker<'a>>
    requires { place < length jobs.old }
    ensures of { (id : List ℕ) → All (λ (j : Work). IsOf id j.worker) jobs.old → IsOf id result }
    ensures rest { (id : List ℕ) → All (λ (j : Work). IsOf id j.worker) jobs.old → All (λ (j : Work). IsOf id j.worker) jobs.new }
    ensures long { length jobs.new ≡ length jobs.old }
{
    jobs[place].worker.take()
}

// Takes a worker home. Whether it was there.
fn take_one<'a>(control: &mut Control<LiveBoard<'a>>, worker: Option<Worker<'a>>) -> bool
    requires { IsOf control.old.plane.board.id worker }
    ensures { control.new.plane.board.id ≡ control.old.plane.board.id }
{
    match worker {
        Some(worker) => {
            control.home(worker.into_seat());
            true
        }
        None => false,
    }
}

// Takes the workers home. Whether all four came.
fn take_home<'a>(control: &mut Control<LiveBoard<'a>>, jobs: &mut [Job<'a>]) -> bool
    requires long { 3 < length jobs.old }
    requires of { All (λ (j : Work). IsOf control.old.plane.board.id j.worker) jobs.old }
{
    let mut all = true;
    for place in 0..4 {
        let worker = worker_in(jobs, place);
        let came = take_one(control, worker);
        all = all && came;
    }
    all
}

// The edits of the first lines. None where memory is wanted.
fn first_edits(alloc: Global) -> Option<Vec<Edit>>
    ensures written { IfSome result (λ v. AllByRecursion IsWritten v.items) }
    ensures few { IfSome result (λ v. length v.items < 2 ^ 32) }
{
    let mut edits = Vec::new(alloc);
    for number in 0..10 {
        let edit = edit_of(alloc, FIRST[number])?;
        edits.push(edit).ok()?;
    }
    Some(edits)
}

// Makes the first lines one change and settles it. False where memory is wanted.
fn begin(alloc: Global, control: &mut Control<LiveBoard<'_>>) -> bool
    requires { IsManned 4 control.old.plane.board }
    ensures { SameCrew control.old.plane.board control.new.plane.board }
{
    let Some(edits) = first_edits(alloc) else {
        return false;
    };
    if live::change_all(control, edits.as_slice()).is_none() {
        return false;
    }
    settle_home(control).is_some()
}

// The tables of the versions so far: the fresh ones, and those that the first lines make. None where memory is wanted.
fn first_tables(alloc: Global, control: &mut Control<LiveBoard<'_>>) -> Option<Vec<Kept>>
    requires { IsManned 4 control.old.plane.board }
    ensures { SameCrew control.old.plane.board control.new.plane.board }
{
    let mut history = Vec::new(alloc);
    if keep(alloc, control, &mut history)
        && begin(alloc, control)
        && keep(alloc, control, &mut history)
    {
        return Some(history);
    }
    None
}

// What is found.
#[derive(Clone, Copy, Debug, PartialEq, Eq)]
struct Found {
    // How many changes were made beside the workers.
    made: u32,
    // Whether nothing waits after them.
    quiet: bool,
    verdict: Verdict,
}

// Judges the results of all jobs. False where there is no memory.
fn judge_jobs(
    alloc: Global,
    versions: &[Meaning<'_>],
    jobs: &[Job<'_>],
    verdict: &mut Verdict,
) -> bool {
    for job in jobs {
        if !judge(alloc, versions, job.results.as_slice(), verdict) {
            return false;
        }
    }
    true
}

// Judges them over a history. None where there is no memory.
fn judge_all(alloc: Global, history: &[Kept], jobs: &[Job<'_>]) -> Option<Verdict> {
    let versions = meanings(alloc, history)?;
    let mut verdict = Verdict {
        good: 0,
        wrong: 0,
        beneath: 0,
    };
    if judge_jobs(alloc, versions.as_slice(), jobs, &mut verdict) {
        Some(verdict)
    } else {
        None
    }
}

// The workers forward beside the changes and come home. How many changes were made; None where a worker is missing.
fn run_jobs<'a, R: Threads + Wait + Sync>(
    rt: &R,
    alloc: Global,
    control: &mut Control<LiveBoard<'a>>,
    jobs: &mut [Job<'a>],
    history: &mut Vec<Kept>,
) -> Option<u32>
    requires long { 3 < length jobs.old }
    requires of { All (λ (j : Work). IsOf control.old.plane.board.id j.worker) jobs.old }
{
    let made = beside(rt, alloc, control, jobs, history);
    let all = take_home(control, jobs);
    if all { Some(made) } else { None }
}

// Four workers forward beside the changes and come home, and all results are judged. None where memory is wanted.
fn run<R: Threads + Wait + Sync>(
    rt: &R,
    alloc: Global,
    control: &mut Control<LiveBoard<'_>>,
) -> Option<Found>
    requires { IsManned 4 control.old.plane.board }
{
    let mut history = first_tables(alloc, control)?;
    let mut jobs = jobs_of(alloc, control);
    let made = run_jobs(rt, alloc, control, &mut jobs, &mut history)?;
    let verdict = judge_all(alloc, history.as_slice(), &jobs)?;
    Some(Found {
        made,
        quiet: control.is_quiet(),
        verdict,
    })
}

// Beneath each fourth change all four shares were forwarded before its turns.
fn is_as_told(found: &Found) -> bool {
    found.made == CHANGES
        && found.quiet
        && found.verdict.good == 40_000
        && found.verdict.wrong == 0
        && found.verdict.beneath >= 10_000
}

// What is found over fresh cells. None where memory is wanted. One way out after the control is made: each takes long to prove.
fn forwarded<R: Threads + Wait + Sync>(rt: &R, alloc: Global) -> Option<Found> {
    let (cells, seat) = Cells::new(alloc, 1024, 4).ok()?;
    let mut control = fresh(alloc, &cells, seat)?;
    run(rt, alloc, &mut control)
}

fn forwards<R: Threads + Wait + Sync>(rt: &R, alloc: Global) -> bool {
    match forwarded(rt, alloc) {
        Some(found) => is_as_told(&found),
        None => false,
    }
}

#[test]
fn four_workers_beside_200_changes(rt: HostRuntime) -> Result<(), Fail> {
    assert!(rt; forwards(&rt, rt.alloc()));
    Ok(())
}
