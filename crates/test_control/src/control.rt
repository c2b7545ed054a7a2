// A control plane over a plain board, by its calls.
ghost use Rattle.std.specs.Prelude.{IfOk, ◌<◌, ◌^◌, length};
ghost use Rattle.std.specs.List.{AllByRecursion};
ghost use Rattle.fib_resolve.specs.Reachable.{IsWritten};
ghost use Rattle.test_control.specs.Rested.{IsRested};

use crate::config::name;
use fib_addr::{Addr, Prefix};
use fib_control::{ApplyError, BatchApplyError, Control};
use fib_core::Version;
use fib_core_plainboard::{Passes, PlainBoard};
use fib_resolve::{Edit, End, List, Need, PathSpec, Refusal, SpecKind};
use fib_stack::Turn;
use std::alloc::Global;
use std::test::Fail;

// Over 200 objects and one worker, who is at rest.
fn fresh(alloc: Global) -> Result<Control<PlainBoard>, Fail>
    ensures { IfOk result (λ c. IsRested c.plane.board) }
{
    let board = PlainBoard::new(alloc, 200, 1)?;
    match Control::new(alloc, board) {
        Ok(control) => Ok(control),
        Err(_) => Err("no memory".into()),
    }
}

// An interface that is up and has 10.0.0.1/24; and 50.0.0.0/8 over 10.0.0.7.
fn edit_of(alloc: Global, number: u32) -> Result<Edit, Fail>
    ensures { IfOk result IsWritten }
{
    match number {
        0 => Ok(Edit::CreateInterface(name(alloc, "eth0")?)),
        1 => Ok(Edit::SetState {
            name: name(alloc, "eth0")?,
            up: true,
        }),
        2 => Ok(Edit::AddAddress {
            name: name(alloc, "eth0")?,
            addr: Addr(0x0a00_0001),
            len: 24,
        }),
        _ => {
            let mut paths = List::new(alloc);
            paths.push(PathSpec {
                kind: SpecKind::Recursive(Addr(0x0a00_0007)),
                weight: 1,
                preference: 0,
                need: Need::Any,
            })?;
            Ok(Edit::AddRoute {
                prefix: Prefix::masked(Addr(0x3200_0000), 8),
                api: false,
                paths,
            })
        }
    }
}

// Why it isn't made, if it isn't.
fn apply(control: &mut Control<PlainBoard>, edit: &Edit) -> Result<u32, ApplyError>
    requires { IsWritten edit.now }
{
    if control.version().applied == u32::MAX {
        return Err(ApplyError::Memory);
    }
    control.apply(edit)
}

fn applied(alloc: Global, control: &mut Control<PlainBoard>, number: u32) -> Result<u32, Fail> {
    let edit = edit_of(alloc, number)?;
    match apply(control, &edit) {
        Ok(version) => Ok(version),
        Err(ApplyError::Refused(_)) => Err("refused".into()),
        Err(ApplyError::Crowded { .. }) => Err("crowded".into()),
        Err(ApplyError::Memory) => Err("no memory".into()),
    }
}

// Turns until none is queued, at most so many. Answers how many there were.
fn turns(control: &mut Control<PlainBoard>, most: u32) -> Result<u32, Fail> {
    for turn in 0..most {
        match control.turn() {
            Ok(Turn::Idle) => return Ok(turn),
            Ok(Turn::Restacked { .. }) => {}
            Err(_) => return Err("a turn wants memory".into()),
        }
    }
    Err("no end".into())
}

// What a control answers at any time, and where it sends a packet to 50.1.1.1.
#[derive(Clone, Copy, Debug, PartialEq, Eq)]
struct Seen {
    used: u32,
    version: Version,
    queued: usize,
    deferred: u32,
    retired: u32,
    entries: usize,
    routes: usize,
    end: End,
}

fn look_at(control: &Control<PlainBoard>) -> Seen {
    Seen {
        used: control.used(),
        version: control.version(),
        queued: control.queued(),
        deferred: control.deferred(),
        retired: control.retired(),
        entries: control.entries().len(),
        routes: control.tables().routes.len(),
        end: control.lookup(Addr(0x3201_0101), 5),
    }
}

// What a scan, a retry and settling answer.
#[derive(Clone, Copy, Debug, PartialEq, Eq)]
struct Rest {
    left: u32,
    late: u32,
    settled: Option<u32>,
    quiet: bool,
}

fn wind_up(control: &mut Control<PlainBoard>) -> Rest {
    Rest {
        left: control.scan(),
        late: control.retry(),
        settled: control.mark_settled().ok(),
        quiet: control.is_quiet(),
    }
}

// Nothing waited, and this version is settled.
fn settled(version: u32) -> Rest {
    Rest {
        left: 0,
        late: 0,
        settled: Some(version),
        quiet: true,
    }
}

// A control before its first change.
fn is_fresh(control: &mut Control<PlainBoard>) -> bool {
    let found = look_at(control);
    found.used == 20
        && found.version == Version::settled_at(0)
        && found.entries == 5
        && found.end == End::Drop
        && wind_up(control) == settled(0)
}

// Whether a first line again is refused, and 0.0.0.0/0 has its object all the while.
fn refuses_again(alloc: Global, control: &mut Control<PlainBoard>) -> Result<bool, Fail> {
    let again = edit_of(alloc, 0)?;
    let refused = Err(ApplyError::Refused(Refusal::InterfaceExists));
    Ok(apply(control, &again) == refused && control.object_of(Prefix::masked(Addr(0), 0)).is_some())
}

// What is queued, how many turns it makes, and what is left then.
fn turned(control: &mut Control<PlainBoard>) -> Result<(usize, u32, Rest), Fail> {
    let queued = control.queued();
    let count = turns(control, 10)?;
    Ok((queued, count, wind_up(control)))
}

// Three lines without a turn.
fn base(alloc: Global, control: &mut Control<PlainBoard>) -> Result<u32, Fail> {
    applied(alloc, control, 0)?;
    applied(alloc, control, 1)?;
    applied(alloc, control, 2)
}

fn three_lines(
    alloc: Global,
    control: &mut Control<PlainBoard>,
) -> Result<(usize, u32, Rest), Fail> {
    base(alloc, control)?;
    turned(control)
}

fn and_a_route(
    alloc: Global,
    control: &mut Control<PlainBoard>,
) -> Result<(usize, u32, Rest), Fail> {
    applied(alloc, control, 3)?;
    turned(control)
}

fn are_right(alloc: Global, control: &mut Control<PlainBoard>) -> Result<bool, Fail> {
    let first = three_lines(alloc, control)?;
    let second = and_a_route(alloc, control)?;
    let refused = refuses_again(alloc, control)?;
    Ok(first == (4, 4, settled(3)) && second == (2, 2, settled(4)) && refused)
}

// Why they aren't made, if they aren't.
fn apply_all(control: &mut Control<PlainBoard>, edits: &[Edit]) -> Result<u32, BatchApplyError>
    requires written { AllByRecursion IsWritten edits.now }
    requires few { length edits.now < 2 ^ 32 }
{
    if control.version().applied == u32::MAX {
        return Err(BatchApplyError::Memory);
    }
    control.apply_all(edits)
}

// The edits of these numbers.
fn edits_of(alloc: Global, numbers: &[u32]) -> Result<Vec<Edit>, Fail>
    requires { length numbers.now < 100 }
    ensures written { IfOk result (λ v. AllByRecursion IsWritten v.items) }
    ensures few { IfOk result (λ v. length v.items < 2 ^ 32) }
{
    let mut edits = Vec::new(alloc);
    for place in 0..numbers.len() {
        edits.push(edit_of(alloc, numbers[place])?)?;
    }
    Ok(edits)
}

fn batch(
    alloc: Global,
    control: &mut Control<PlainBoard>,
    numbers: &[u32],
) -> Result<Result<u32, BatchApplyError>, Fail>
    requires { length numbers.now < 100 }
{
    let edits = edits_of(alloc, numbers)?;
    Ok(apply_all(control, edits.as_slice()))
}

// A batch, its turns, and what is left.
fn batch_done(
    alloc: Global,
    control: &mut Control<PlainBoard>,
    numbers: &[u32],
) -> Result<(Option<u32>, u32, Rest), Fail>
    requires { length numbers.now < 100 }
{
    let made = batch(alloc, control, numbers)?.ok();
    Ok((made, turns(control, 10)?, wind_up(control)))
}

fn is_one_change(alloc: Global, control: &mut Control<PlainBoard>) -> Result<bool, Fail> {
    let found = batch_done(alloc, control, &[0, 1, 2, 3])?;
    Ok(found == (Some(1), 6, settled(1)))
}

// Whether a batch is refused for its third edit.
fn is_refused(alloc: Global, control: &mut Control<PlainBoard>) -> Result<bool, Fail> {
    let refusal = Refusal::InterfaceExists;
    Ok(batch(alloc, control, &[0, 2, 0])? == Err(BatchApplyError::Refused { place: 2, refusal }))
}

fn is_taken_back(alloc: Global, control: &mut Control<PlainBoard>) -> Result<bool, Fail> {
    let refused = is_refused(alloc, control)?;
    Ok(refused && control.tables().interfaces.len() == 0 && wind_up(control) == settled(0))
}

// Whether a packet to 50.1.1.1 is dropped, after two hops.
fn drops(control: &mut Control<PlainBoard>) -> Result<bool, Fail>
    requires { IsRested control.old.plane.board }
{
    if control.running(0) {
        return Err("a pass runs".into());
    }
    control.begin(0, Addr(0x3201_0101), 5);
    if control.hop(0).is_some() {
        return Err("the first hop ends".into());
    }
    control.tells_of_passes();
    match control.hop(0) {
        Some(_) => Ok(control.end(0).end == End::Drop),
        None => Err("the second hop doesn't end".into()),
    }
}

// How many things there are to do on a control of their own.
const SCENES: u32 = 5;

fn is_right(alloc: Global, control: &mut Control<PlainBoard>, scene: u32) -> Result<bool, Fail>
    requires { IsRested control.old.plane.board }
{
    match scene {
        0 => Ok(is_fresh(control)),
        1 => are_right(alloc, control),
        2 => is_one_change(alloc, control),
        3 => is_taken_back(alloc, control),
        _ => drops(control),
    }
}

// The one owner of a control: the prover follows every way out past it.
fn plays(alloc: Global, scene: u32) -> Result<bool, Fail> {
    let mut control = fresh(alloc)?;
    is_right(alloc, &mut control, scene)
}

// A fresh control; three lines and a route; a batch as one change; a refused batch; a pass beneath a fresh control.
#[test]
fn what_a_control_does(rt: HostRuntime) -> Result<(), Fail> {
    for scene in 0..SCENES {
        if !plays(rt.alloc(), scene)? {
            return Err("a scene went otherwise".into());
        }
    }
    Ok(())
}
