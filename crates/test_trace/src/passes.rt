// One packet over live cells, traced before a change and after it with the same trail.
ghost use Rattle.std.specs.Prelude.{◌≡◌, ◌≤◌, IfSome};
ghost use Rattle.fib_resolve.specs.Reachable.{IsWritten};
ghost use Rattle.trial_live.specs.Crewed.{IsManned};

use fib_addr::Addr;
use fib_cells::{Cells, LiveBoard, WorkerSeat};
use fib_control::Control;
use fib_core::{Record, Version, Word};
use fib_resolve::{Edit, End};
use fib_trace::{Load, Trail, trace};
use std::alloc::Global;
use std::test::Fail;
use trial_live::alone::{fresh, set_up};
use trial_live::live::{edit_of, restack, settle_home};

/// Within 50.0.0.0/8, which is led by way of 10.0.0.7 on eth0.
const REMOTE: Addr = Addr(0x3201_0101);

const HASH: u32 = 5;

/// As many objects as any board has.
const MOST: u32 = 131_072;

/// What a pass answers, and its loads.
#[derive(Drop)]
struct Told {
    result: Record,
    loads: Vec<Load>,
}

// A pass of the seat; None where it has none left, or memory is wanted.
fn traced<'a>(
    alloc: Global,
    seat: WorkerSeat<'a>,
    trail: &mut Trail,
) -> Option<(WorkerSeat<'a>, Told)>
    requires room { seat.worker.objects ≤ trail.old.objects }
    ensures same { IfSome result (λ r. (r.0.id ≡ seat.entry.id) × (r.0.worker.number ≡ seat.entry.worker.number)) }
    ensures objects { IfSome result (λ r. r.0.worker.objects ≡ seat.entry.worker.objects) }
    ensures room { trail.new.objects ≡ trail.old.objects }
{
    if seat.passes_left() == 0 {
        return None;
    }
    let (seat, result) = trace(seat, REMOTE, HASH, trail);
    let loads = trail.loads().to_vec(alloc).ok()?;
    Some((seat, Told { result, loads }))
}

// A worker leaves and traces the packet, rests while the edit is made and settled, is told of that, traces the packet again and comes home.
fn trace_twice<'a>(
    alloc: Global,
    control: &mut Control<LiveBoard<'a>>,
    edit: &Edit,
    trail: &mut Trail,
) -> Option<(Told, Told)>
    requires written { IsWritten edit.now }
    requires manned { IsManned 4 control.old.plane.board }
    requires room { MOST ≤ trail.old.objects }
{
    control.tells_board();
    let (seat, before) = traced(alloc, control.worker(0), trail)?;
    restack(control, edit)?;
    control.mark_settled().ok()?;
    let seat = seat.told(control.note());
    let (seat, after) = traced(alloc, seat, trail)?;
    control.home(seat);
    Some((before, after))
}

// Sets the route up, settles, and traces twice, the route being deleted in between. None where memory is wanted.
fn trace_a_route<'a>(
    alloc: Global,
    control: &mut Control<LiveBoard<'a>>,
    trail: &mut Trail,
) -> Option<(Told, Told)>
    requires manned { IsManned 4 control.old.plane.board }
    requires room { MOST ≤ trail.old.objects }
{
    set_up(alloc, control)?;
    settle_home(control)?;
    let edit = edit_of(alloc, "ip route del 50.0.0.0/8")?;
    trace_twice(alloc, control, &edit, trail)
}

// Both passes, on a control plane of its own over 1,024 objects. None where memory is wanted.
fn before_and_after(alloc: Global) -> Option<(Told, Told)> {
    let mut trail = Trail::new(alloc, MOST).ok()?;
    if trail.objects() != MOST || !trail.loads().is_empty() {
        return None;
    }
    let (cells, seat) = Cells::new(alloc, 1024, 4).ok()?;
    let mut control = fresh(alloc, &cells, seat)?;
    trace_a_route(alloc, &mut control, &mut trail)
}

/// The slots: two plies by the address's digits, two balances by the hash and half of it, and the adjacency's three words.
const SLOTS: [u32; 7] = [3, 2, 5, 2, 0, 1, 2];

// Where an edge leads.
fn target(word: Word) -> Option<u32> {
    match word {
        Word::ToPly(object) | Word::ToBalance(object) | Word::ToAdjacency(object) => Some(object),
        Word::Drop | Word::Receive | Word::Glean(_) | Word::Plain(_) => None,
    }
}

// Whether each load is of the object to which the word before it led, the first of object 0, and an edge never of an object that was left.
fn is_a_walk(loads: &[Load]) -> bool {
    let mut at = 0;
    for (place, load) in loads.iter().enumerate() {
        if load.object != at {
            return false;
        }
        if let Some(object) = target(load.word) {
            if loads[..=place]
                .iter()
                .any(|seen| -> bool { seen.object == object })
            {
                return false;
            }
            at = object;
        }
    }
    true
}

// The words of the last three loads.
fn last_words(loads: &[Load]) -> Option<[Word; 3]> {
    let [.., first, second, third] = loads else {
        return None;
    };
    Some([first.word, second.word, third.word])
}

fn are_slots(loads: &[Load], slots: &[u32]) -> bool {
    loads.len() == slots.len()
        && loads
            .iter()
            .zip(slots)
            .all(|pair| -> bool { pair.0.slot == *pair.1 })
}

#[test]
fn a_trail_tells_the_last_pass_alone(rt: HostRuntime) -> Result<(), Fail> {
    let Some((before, after)) = before_and_after(rt.alloc()) else {
        return Err("memory is wanted".into());
    };
    let loads = before.loads.as_slice();
    assert!(rt; are_slots(loads, &SLOTS) && is_a_walk(loads), "{loads:?}");
    let held = [Word::Plain(0), Word::Plain(0x0a00_0007), Word::Plain(0)];
    assert_eq!(rt; last_words(loads), Some(held));
    let end = End::Hop {
        interface: 0,
        next_hop: Addr(0x0a00_0007),
        mac: None,
    };
    assert_eq!(rt;
        before.result,
        Record {
            addr: REMOTE,
            hash: HASH,
            lo: Version::settled_at(4),
            hi: Version::settled_at(4),
            end
        }
    );
    // What is left is the balance of 0.0.0.0/0, at the same slot.
    let loads = after.loads.as_slice();
    assert!(rt; are_slots(loads, &[3, 5]) && is_a_walk(loads), "{loads:?}");
    assert!(rt;
        loads
            .last()
            .is_some_and(|load| -> bool { load.word == Word::Drop })
    );
    assert_eq!(rt;
        after.result,
        Record {
            addr: REMOTE,
            hash: HASH,
            lo: Version::settled_at(5),
            hi: Version::settled_at(5),
            end: End::Drop
        }
    );
    Ok(())
}
