// One round.
ghost use Rattle.std.specs.Prelude.{◌≡◌, ◌<◌, ◌≤◌, ◌+◌, ◌-◌, ◌^◌, ◌++◌, [], ℕ, All, length, drop, IfOk, IfSome, OnOk, Some};
ghost use Rattle.fib_core_board.specs.Boards.{Board};
ghost use Rattle.fib_control.specs.Controls.{Control as ControlValue, tables_in};
ghost use Rattle.fib_worker_crew.specs.Packets.{span};
ghost use Rattle.fib_rounds_homing.specs.Homes.{IsHome, NoneOut};
ghost use Rattle.fib_rounds_homing.specs.Places.{AreFilled, joined, parts_of, results_at};
ghost use Rattle.fib_rounds_homing.specs.Stations.{AreBackFrom, IsCrew, IsReadyFor};
ghost use Rattle.fib_rounds_turns.specs.Routers.{KeepsCrew, applied_in, history_in, router_of};
ghost use Rattle.fib_rounds_turns.specs.Changes.{Stays};
ghost use Rattle.fib_rounds.specs.Counts.{IsSmall};
ghost use Rattle.fib_rounds.specs.Packets.{packets_text};
ghost use Rattle.fib_rounds.specs.Stages.{IsHistory};
ghost use Rattle.fib_rounds.specs.Summaries.{with_ends, with_results};
ghost use Rattle.fib_rounds.specs.Rounds.{GoesOn, HasRun, MayOpen, StopsAt, closed_by, closed_router, closed_text, counts_from, lines_run, stage_of};
ghost use Rattle.fib_rounds.specs.inner.Forwarded.{HasForwardedRound, IsAtRest};

use crate::counts::count_ends;
use crate::lines::{Stop, run_lines};
use crate::opening::{Opening, next_round};
use crate::summary::Summary;
use crate::task::{Reading, Task};
use fib_cells::LiveBoard;
use fib_control::Control;
use fib_outside::Gate;
use fib_rounds_homing::{Station, bring_home, forward_all, send_out};
use fib_rounds_turns::{Progress, finish};
use fib_worker_crew::{Results, Taken};
use std::alloc::{AllocError, Global};
use std::sync::Wait;
use std::thread::{Threads, join_mut};

/// How a round ended: the one that comes next, None at the script's end, the results of its frames, and how many lines are refused so far.
#[derive(Drop)]
pub struct Ran {
    pub next: Option<Opening>,
    pub places: Vec<Option<Results>>,
    pub refused: u32,
}

// Where a round's lines stopped, and the results of its frames.
#[derive(Drop)]
struct Forwarded {
    stop: Stop,
    places: Vec<Option<Results>>,
}

// The workers forward while the lines from a place on are run. Where no thread can be made the lines are run first.
fn beside<'a, 'b, R: Threads + Wait + Sync, G: Gate>(
    task: &Task<'_, R, G>,
    control: &mut Control<LiveBoard<'a>>,
    reading: &mut Reading,
    from: u32,
    taken: Taken,
    crew: &mut Vec<Station<'b>>,
) -> Result<Stop, AllocError>
    requires order { taken.first ≤ taken.to }
    requires packets { taken.to ≤ length task.now.packets.now.packets }
    requires ready { All (IsReadyFor task.now.packets.now taken) crew.old.items }
    requires inside { from ≤ length task.now.script.now }
    requires lines { reading.old.progress.lines ≡ from }
    requires few { applied_in control.old ≤ from }
    ensures long { length crew.new.items ≡ length crew.old.items }
    ensures back { (b : Board) → IsCrew b 0 crew.old.items → AreBackFrom task.now.packets.now taken b crew.new.items }
    ensures on { IfOk result (λ stop. GoesOn task.now.script.now from
        (stage_of control.old reading.old.progress) reading.old.text.items stop.place
        (stage_of control.new reading.new.progress) reading.new.text.items) }
    ensures stops { IfOk result (λ stop. StopsAt (drop stop.place task.now.script.now)
        (router_of control.new reading.new.progress) stop.asked) }
    ensures later { IfOk result (λ stop. from ≤ stop.place) }
    ensures inside { IfOk result (λ stop. stop.place ≤ length task.now.script.now) }
    ensures short { IfOk result (λ stop. stop.place ≤ 65535) }
    ensures few { IfOk result (λ stop. applied_in control.new ≤ stop.place) }
    ensures lines { IfOk result (λ stop. reading.new.progress.lines ≡ lines_run stop.place stop.asked) }
    ensures history { IfOk result (λ stop. IsHistory (stage_of control.old reading.old.progress)
        → IsHistory (stage_of control.new reading.new.progress)) }
    ensures keeps { KeepsCrew control.old control.new }
{
    let (_, stop) = join_mut(
        task.rt,
        &mut || -> ()
            requires { (taken.first ≤ taken.to) × (taken.to ≤ length task.now.packets.now.packets)
                × All (IsReadyFor task.now.packets.now taken) crew.now.items }
            ensures { (length crew.exit.now.items ≡ length crew.entry.now.items)
                × ((b : Board) → IsCrew b 0 crew.entry.now.items
                → AreBackFrom task.entry.now.packets.now taken b crew.exit.now.items) }
        { forward_all(task.rt, task.alloc, task.packets, taken, task.gate, crew) },
        &mut || -> Result<Stop, AllocError>
            requires { (from ≤ length task.now.script.now) × (reading.now.progress.lines ≡ from) × (applied_in control.now ≤ from) }
        {
            let means = task.means();
            run_lines(
                &means,
                control,
                &mut reading.progress,
                &mut reading.text,
                task.script,
                from,
            )
        },
    );
    stop
}

/// A place for the results of each of so many frames, all of them empty.
pub fn places_for(alloc: Global, count: u32) -> Result<Vec<Option<Results>>, AllocError>
    ensures { IfOk result (λ v. length v.items ≡ count) }
{
    let mut places = Vec::with_capacity(alloc, count as usize)?;
    for _place in 0..count {
        places.push(None)?;
    }
    Ok(places)
}

// Runs a round's lines while its workers forward its packets, and brings them home. Places and stations are made before a worker leaves.
fn forward_round<'a, R: Threads + Wait + Sync, G: Gate>(
    task: &Task<'_, R, G>,
    control: &mut Control<LiveBoard<'a>>,
    reading: &mut Reading,
    round: Opening,
) -> Result<Forwarded, AllocError>
    requires may { MayOpen task.now.script.now task.now.packets.now.packets round }
    requires any { round.first < round.to }
    requires lines { reading.old.progress.lines ≡ round.place }
    requires few { applied_in control.old ≤ round.place }
    requires rests { IsAtRest task.now.settings.workers round.place control.old }
    requires workers { 0 < task.now.settings.workers }
    requires most { task.now.settings.workers ≤ 8 }
    requires short { round.place ≤ 65535 }
    ensures none { NoneOut control.new.plane.board }
    ensures ran { IfOk result
        (λ f. HasForwardedRound task.now.script.now task.now.packets.now.packets round control.old reading.old.progress
        reading.old.text.items f.stop control.new reading.new.progress reading.new.text.items f.places.items) }
{
    let taken = Taken {
        opened: control.version().applied,
        first: round.first,
        to: round.to,
        base: control.gathered(),
    };
    let mut places = places_for(task.alloc, taken.frames())?;
    let mut crew = Vec::with_capacity(task.alloc, task.settings.workers as usize)?;
    send_out(task.alloc, control, task.settings.workers, &mut crew);
    let stop = beside(task, control, reading, round.place, taken, &mut crew);
    let done = bring_home(control, crew, task.packets, taken, places.as_mut_slice());
    let stop = stop?;
    if !done {
        return Err(AllocError);
    }
    Ok(Forwarded { stop, places })
}

// A round without packets sends no worker out.
fn run_alone<R: Threads + Wait + Sync, G: Gate>(
    task: &Task<'_, R, G>,
    control: &mut Control<LiveBoard<'_>>,
    reading: &mut Reading,
    round: Opening,
) -> Result<Forwarded, AllocError>
    requires may { MayOpen task.now.script.now task.now.packets.now.packets round }
    requires none { round.first ≡ round.to }
    requires lines { reading.old.progress.lines ≡ round.place }
    requires few { applied_in control.old ≤ round.place }
    requires rests { (n : ℕ) × IsAtRest n round.place control.old }
    ensures none { NoneOut control.new.plane.board }
    ensures ran { IfOk result
        (λ f. HasForwardedRound task.now.script.now task.now.packets.now.packets round control.old reading.old.progress
        reading.old.text.items f.stop control.new reading.new.progress reading.new.text.items f.places.items) }
{
    let stop = run_lines(
        &task.means(),
        control,
        &mut reading.progress,
        &mut reading.text,
        task.script,
        round.place,
    )?;
    Ok(Forwarded {
        stop,
        places: Vec::new(task.alloc),
    })
}

// Counts the ends of a frame's results.
fn count_place(counts: &mut Summary, place: &Option<Results>)
    requires small { (n : ℕ) × IsSmall n counts.old × (n + length (results_at place.now) < 2 ^ 64 - 1) }
    ensures counts { counts.new ≡ with_ends counts.old (results_at place.now) }
    ensures small { (n : ℕ) → IsSmall n counts.old → IsSmall (n + length (results_at place.now)) counts.new }
{
    if let Some(results) = place {
        count_ends(counts, results.list());
    }
}

// Counts the ends of a round's results.
fn count_places(counts: &mut Summary, places: &[Option<Results>])
    requires small { (n : ℕ) × IsSmall n counts.old × (n + length (joined (parts_of places.now)) < 2 ^ 64 - 1) }
    ensures counts { counts.new ≡ with_ends counts.old (joined (parts_of places.now)) }
    ensures small { (n : ℕ) → IsSmall n counts.old → IsSmall (n + length (joined (parts_of places.now))) counts.new }
{
    for place in places {
        count_place(counts, place);
    }
}

// Counts the packets of a round that closes, and their ends where it had no line.
fn count_round(counts: &mut Summary, quiet: bool, round: Opening, places: &[Option<Results>])
    requires order { round.first ≤ round.to }
    requires small { IsSmall (round.first + round.first) counts.old }
    requires few { length (joined (parts_of places.now)) ≤ round.to - round.first }
    ensures counts { counts.new ≡ with_results counts.old quiet (round.to - round.first) (joined (parts_of places.now)) }
    ensures small { IsSmall (round.to + round.to) counts.new }
{
    let taken = u64::from(round.to - round.first);
    counts.packets += taken;
    if quiet {
        counts.quiet += taken;
        count_places(counts, places);
    }
}

// Where no line asks for packets the script is at its end, and a batch that is left is refused. Answers how many lines are refused in all.
fn finish_at_end(
    progress: &Progress,
    text: &mut Vec<u8>,
    asked: Option<u32>,
) -> Result<u32, AllocError>
    ensures refused { IfOk result (λ n. (c : ControlValue) → n ≡ (closed_router (router_of c progress.now) asked).refused) }
    ensures text { OnOk result ((c : ControlValue) → text.new.items ≡ text.old.items ++ closed_text (router_of c progress.now) asked) }
{
    match asked {
        Some(_) => Ok(progress.refused()),
        None => finish(progress, text),
    }
}

// Runs a round's lines and, where it has packets, its workers beside them.
fn run_beside<'a, R: Threads + Wait + Sync, G: Gate>(
    task: &Task<'_, R, G>,
    control: &mut Control<LiveBoard<'a>>,
    reading: &mut Reading,
    round: Opening,
) -> Result<Forwarded, AllocError>
    requires may { MayOpen task.now.script.now task.now.packets.now.packets round }
    requires lines { reading.old.progress.lines ≡ round.place }
    requires few { applied_in control.old ≤ round.place }
    requires rests { IsAtRest task.now.settings.workers round.place control.old }
    requires workers { 0 < task.now.settings.workers }
    requires most { task.now.settings.workers ≤ 8 }
    requires short { round.place ≤ 65535 }
    ensures none { NoneOut control.new.plane.board }
    ensures ran { IfOk result
        (λ f. HasForwardedRound task.now.script.now task.now.packets.now.packets round control.old reading.old.progress
        reading.old.text.items f.stop control.new reading.new.progress reading.new.text.items f.places.items) }
{
    if round.first == round.to {
        return run_alone(task, control, reading, round);
    }
    forward_round(task, control, reading, round)
}

/// Settles where all workers are home: nobody waits. After want of memory the turns that were done stand.
pub fn settle_home(control: &mut Control<LiveBoard<'_>>) -> Result<(), AllocError>
    requires { NoneOut control.old.plane.board }
    ensures stays { Stays control.old control.new }
    ensures keeps { KeepsCrew control.old control.new }
    ensures settled { OnOk result (control.new.plane.board.log.version.settled ≡ applied_in control.new) }
{
    match control.settle_alone() {
        Ok(_) => Ok(()),
        Err(_) => Err(AllocError),
    }
}

/// Runs a round: its lines, beside them its workers, and brings them home and settles.
pub fn run_round<'a, R: Threads + Wait + Sync, G: Gate>(
    task: &Task<'_, R, G>,
    control: &mut Control<LiveBoard<'a>>,
    reading: &mut Reading,
    counts: &mut Summary,
    round: Opening,
) -> Result<Ran, AllocError>
    requires may { MayOpen task.now.script.now task.now.packets.now.packets round }
    requires lines { reading.old.progress.lines ≡ round.place }
    requires few { applied_in control.old ≤ round.place }
    requires small { IsSmall (round.first + round.first) counts.old }
    requires rests { IsAtRest task.now.settings.workers round.place control.old }
    requires workers { 0 < task.now.settings.workers }
    requires most { task.now.settings.workers ≤ 8 }
    requires none { reading.old.text.items ≡ [] }
    requires history { IsHistory (stage_of control.old reading.old.progress) }
    ensures none { NoneOut control.new.plane.board }
    ensures ran { IfOk result (λ r. HasRun task.now.script.now task.now.packets.now (stage_of control.old reading.old.progress) round
        (closed_by (stage_of control.new reading.new.progress) r.next) r.next (joined (parts_of r.places.items))
        (reading.new.text.items ++ packets_text (tables_in control.new) round.first (span task.now.packets.now.packets round.first round.to)
        (joined (parts_of r.places.items)))) }
    ensures home { IfOk result (λ r. IsHome (applied_in control.old) round.first
        (length control.old.plane.board.gathered) task.now.settings.workers
        (span task.now.packets.now.packets round.first round.to) control.old.plane.board control.new.plane.board r.places.items) }
    ensures refused { IfOk result (λ r. r.refused ≡ (closed_by (stage_of control.new reading.new.progress) r.next).router.refused) }
    ensures settled { IfOk result (λ r. control.new.plane.board.log.version.settled ≡ applied_in control.new) }
    ensures counts { IfOk result (λ r. counts_from task.now.packets.now task.now.script.now
        (closed_by (stage_of control.new reading.new.progress) r.next) r.next counts.new
        ≡ counts_from task.now.packets.now task.now.script.now (stage_of control.old reading.old.progress) (Some round) counts.old) }
    ensures may { IfOk result (λ r. IfSome r.next (MayOpen task.now.script.now task.now.packets.now.packets)) }
    ensures later { IfOk result (λ r. IfSome r.next (λ o. round.place < o.place)) }
    ensures follows { IfOk result (λ r. IfSome r.next (λ o. o.first ≡ round.to)) }
    ensures lines { IfOk result (λ r. IfSome r.next (λ o. reading.new.progress.lines ≡ o.place)) }
    ensures few { IfOk result (λ r. IfSome r.next (λ o. applied_in control.new ≤ o.place)) }
    ensures small { IfOk result (λ r. IfSome r.next (λ o. IsSmall (o.first + o.first) counts.new)) }
    ensures rests { IfOk result (λ r. IfSome r.next (λ o. IsAtRest task.now.settings.workers o.place control.new)) }
    ensures history { IfOk result (λ r. IsHistory (stage_of control.new reading.new.progress)) }
    ensures filled { IfOk result (λ r. AreFilled (applied_in control.old) round.first (history_in control.new)
        (span task.now.packets.now.packets round.first round.to) 0 r.places.items) }
{
    // that a script has at most 65,535 lines keeps the numbers of a round small
    let _lines = task.script.lines();
    let Forwarded { stop, places } = run_beside(task, control, reading, round)?;
    settle_home(control)?;
    let refused = finish_at_end(&reading.progress, &mut reading.text, stop.asked)?;
    count_round(counts, stop.place == round.place, round, places.as_slice());
    Ok(Ran {
        next: next_round(task.packets, stop, round.to),
        places,
        refused,
    })
}
