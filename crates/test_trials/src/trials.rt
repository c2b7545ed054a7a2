// What the trials answer. Each test has one owner of what it looks at, and one assertion: the prover follows every way out past every owner.
ghost use Rattle.std.specs.Prelude.{◌≡◌};
ghost use Rattle.fib_pool.specs.declared.object.AdjacencyRecord.{AdjacencyRecord};
ghost use Rattle.fib_plane.specs.Views.{promise_of, view_of};
ghost use Rattle.fib_control_quiet.specs.Early.{IsEmpty, IsTried};

use fib_addr::{Addr, Prefix};
use fib_control::Busy;
use fib_core::{Record, Version};
use fib_core_plainboard::PlainBoard;
use fib_plane::Plane;
use fib_plane_view::Objects;
use fib_ply::PrefixTable;
use fib_resolve::End;
use fib_stack::Turn;
use std::alloc::Global;
use std::test::Fail;
use trial_plain::alone::three_lines;
use trial_plain::changes::eight;
use trial_plain::crowded::{Crowd, Crowded, crowded_after, crowded_below};
use trial_plain::held::{Deleted, Found, Made, deleted_while_held, held_after};
use trial_plain::prefixes::{add_new, first_balance, fresh, remove_both, started};
use trial_plain::records::{first_user, kept_at, let_go, listed_users, second_user, user_goes};
use trial_plain::sets::{Numbers, is_right};
use trial_plain::steps::Answers;
use trial_plain::trouble::Trouble;

// Whether plies come with a host below an eight, and go again.
fn plies_come_and_go(
    alloc: Global,
    shared: &mut Plane<PlainBoard>,
    table: &mut PrefixTable,
) -> Result<bool, Trouble>
    requires { IsTried (promise_of shared.old.plane.board) table.old (view_of shared.old.plane) }
{
    table.tells();
    let net = Prefix::masked(Addr(0x0A00_0000), 8);
    let host = Prefix::host(Addr(0x0A01_0203));
    let stores = add_new(alloc, shared, table, net)?;
    let one = (stores, shared.used(), table.plies());
    let stores = add_new(alloc, shared, table, host)?;
    let both = (stores, shared.used(), table.plies());
    let retired = remove_both(shared, table, host, net)?;
    let none = (retired, shared.used(), table.plies());
    Ok(one == (18, 4, 2) && both == (103, 11, 8) && none == (0, 4, 1))
}

#[test]
fn a_host_below_an_eight_takes_six_plies_more(rt: HostRuntime) -> Result<(), Fail> {
    let (mut shared, mut table) = started(rt.alloc())?;
    assert!(rt; plies_come_and_go(rt.alloc(), &mut shared, &mut table)?);
    Ok(())
}

// Whether a record takes an object, and gives it back.
fn record_comes_and_goes(shared: &mut Plane<PlainBoard>) -> Result<bool, Trouble>
    requires empty { IsEmpty (promise_of shared.old.plane.board) (view_of shared.old.plane) }
    requires none { (m : AdjacencyRecord) → (view_of shared.old.plane).users m ≡ 0 }
{
    let object = first_user(shared)?;
    let used = (shared.free(), shared.stored(), shared.retired());
    user_goes(shared, object);
    let freed = (shared.free(), shared.stored());
    shared.room(3)?;
    Ok(used == (126, 3, 0) && freed == (127, 6) && shared.spare() >= 3)
}

#[test]
fn a_record_comes_and_goes(rt: HostRuntime) -> Result<(), Fail> {
    let mut shared = fresh(rt.alloc())?;
    assert!(rt; record_comes_and_goes(&mut shared)?);
    Ok(())
}

// Whether equal records are one object, and it is told what is kept there.
fn equal_records_share(shared: &mut Plane<PlainBoard>) -> Result<bool, Trouble>
    requires empty { IsEmpty (promise_of shared.old.plane.board) (view_of shared.old.plane) }
    requires none { (m : AdjacencyRecord) → (view_of shared.old.plane).users m ≡ 0 }
{
    let first = first_user(shared)?;
    let kept = kept_at(shared, first);
    let second = second_user(shared)?;
    let is_kept = kept.interface == 3 && kept.next_hop == Addr(7) && kept.mac == None;
    Ok(is_kept && first == second && (shared.free(), shared.stored()) == (126, 3))
}

#[test]
fn equal_records_are_one_object(rt: HostRuntime) -> Result<(), Fail> {
    let mut shared = fresh(rt.alloc())?;
    assert!(rt; equal_records_share(&mut shared)?);
    Ok(())
}

#[test]
fn a_list_takes_and_gives_its_records(rt: HostRuntime) -> Result<(), Fail> {
    let mut shared = fresh(rt.alloc())?;
    let free = listed_users(rt.alloc(), &mut shared)?;
    assert_eq!(rt; (free, shared.free()), (126, 127));
    Ok(())
}

// Whether a balance takes an object, and gives it back.
fn balance_comes_and_goes(shared: &mut Plane<PlainBoard>) -> Result<bool, Trouble>
    requires { IsEmpty (promise_of shared.old.plane.board) (view_of shared.old.plane) }
{
    let object = first_balance(shared)?;
    let held = shared.free();
    let_go(shared, object);
    Ok((held, shared.free()) == (126, 127))
}

#[test]
fn a_balance_comes_and_goes(rt: HostRuntime) -> Result<(), Fail> {
    let mut shared = fresh(rt.alloc())?;
    assert!(rt; balance_comes_and_goes(&mut shared)?);
    Ok(())
}

// Whether a table over a plane of its own leads right with a random set of prefixes.
fn set_is_right(alloc: Global, numbers: &mut Numbers) -> Result<bool, Trouble> {
    let (mut shared, mut table) = started(alloc)?;
    is_right(alloc, &mut shared, &mut table, numbers)
}

#[test]
fn random_sets_lead_to_the_longest_match(rt: HostRuntime) -> Result<(), Fail> {
    let mut numbers = Numbers::new(3);
    for set in 0..200 {
        assert!(rt; set_is_right(rt.alloc(), &mut numbers)?, "set {set}");
    }
    Ok(())
}

#[test]
fn three_lines_are_settled_alone(rt: HostRuntime) -> Result<(), Fail> {
    let settled = three_lines(rt.alloc())?;
    let busy = Busy {
        queued: 4,
        deferred: 0,
        retired: 0,
    };
    assert_eq!(rt; settled.before, Err(busy));
    assert_eq!(rt; (settled.version, settled.used), (3, 31));
    Ok(())
}

fn hop_to(next_hop: u32) -> End {
    End::Hop {
        interface: 0,
        next_hop: Addr(next_hop),
        mac: None,
    }
}

// Where a pass ends that was held after so many hops. The third brings it to the object of 60.0.0.1/32, the fourth to that of 60.0.0.0/8, and the
// seventh is its last.
fn end_after(hops: u32) -> End {
    if hops <= 2 {
        return hop_to(0x0a00_0008);
    }
    if hops <= 4 {
        return End::Drop;
    }
    hop_to(0x0a00_0007)
}

// Whether the buckets of 60.0.0.0/8 wait for the pass.
fn waits(found: &Found) -> bool {
    match found.held.settled {
        Ok(_) => false,
        Err(busy) => {
            (found.deferred, found.held.deferred) == (16, 16)
                && (busy.queued, busy.deferred) == (0, 16)
                && busy.retired == found.held.retired
                && busy.retired > 0
        }
    }
}

// Whether nothing waits any more, and this version is settled.
fn is_calm(answers: &Answers, version: u32) -> bool {
    *answers
        == Answers {
            retired: 0,
            deferred: 0,
            settled: Ok(version),
        }
}

// Whether the pass saw the versions from 5, which was settled, to that one.
fn spans(record: &Record, last: u32) -> bool {
    record.lo == Version::settled_at(5)
        && record.hi
            == Version {
                settled: 5,
                applied: last,
            }
}

// Whether that is what is found of a pass that was held after so many hops, where the last version is that one.
fn is_found(found: &Found, hops: u32, last: u32) -> bool {
    let turn = Turn::Restacked {
        entry: eight(60),
        stores: 16,
        dropped: 16,
    };
    found.turn == turn
        && waits(found)
        && spans(&found.record, last)
        && found.record.end == end_after(hops)
        && is_calm(&found.ended, last)
        && found.end == hop_to(0x0a00_0008)
}

fn finds(alloc: Global, hops: u32, made: Made, last: u32) -> Result<bool, Trouble> {
    match held_after(alloc, hops, made) {
        Ok(found) => Ok(is_found(&found, hops, last)),
        Err(trouble) => Err(trouble),
    }
}

#[test]
fn sixteen_buckets_wait_for_a_held_pass(rt: HostRuntime) -> Result<(), Fail> {
    for hops in 0..8 {
        assert!(rt; finds(rt.alloc(), hops, Made::InTurn, 9)?, "{hops} hops");
    }
    Ok(())
}

#[test]
fn sixteen_buckets_wait_where_a_batch_turns_routes(rt: HostRuntime) -> Result<(), Fail> {
    for hops in 0..8 {
        assert!(rt; finds(rt.alloc(), hops, Made::AtOnce, 6)?, "{hops} hops");
    }
    Ok(())
}

// Whether that is what is found where the route is deleted.
fn is_deleted(deleted: &Deleted) -> bool {
    deleted.record.end == End::Drop && is_calm(&deleted.ended, 10) && deleted.end == End::Drop
}

fn deletes(alloc: Global) -> Result<bool, Trouble> {
    match deleted_while_held(alloc) {
        Ok(deleted) => Ok(is_deleted(&deleted)),
        Err(trouble) => Err(trouble),
    }
}

#[test]
fn a_route_is_deleted_while_its_buckets_wait(rt: HostRuntime) -> Result<(), Fail> {
    assert!(rt; deletes(rt.alloc())?);
    Ok(())
}

// A pass that saw the versions from that one, which was settled, to 11.
fn is_pass(record: &Record, settled: u32, end: End) -> bool {
    record.lo == Version::settled_at(settled)
        && record.hi
            == Version {
                settled,
                applied: 11,
            }
        && record.end == end
}

// Whether the change was one too many after so many, and is made as version 12 once nothing waits.
fn is_crowded(found: &Crowded, used: u32, made: u32) -> bool {
    let crowd = Crowd {
        made,
        free: 33,
        wanted: 35,
    };
    found.used == used && found.crowd == crowd && is_calm(&found.ended, 11) && found.version == 12
}

fn crowds_above(alloc: Global, hops: u32) -> Result<bool, Trouble> {
    match crowded_after(alloc, 80, hops) {
        Ok(found) => Ok(is_crowded(&found, 31, 8) && is_pass(&found.record, 3, End::Drop)),
        Err(trouble) => Err(trouble),
    }
}

#[test]
fn a_held_pass_crowds_eighty_objects(rt: HostRuntime) -> Result<(), Fail> {
    for hops in 0..3 {
        assert!(rt; crowds_above(rt.alloc(), hops)?, "{hops} hops");
    }
    Ok(())
}

// By its second hop the pass is on the route's object, which it leads to its old end.
fn crowds_below(alloc: Global, hops: u32) -> Result<bool, Trouble> {
    let end = if hops < 2 {
        End::Drop
    } else {
        hop_to(0x0a00_0007)
    };
    match crowded_below(alloc, 80, hops) {
        Ok(found) => Ok(is_crowded(&found, 35, 7) && is_pass(&found.record, 4, end)),
        Err(trouble) => Err(trouble),
    }
}

#[test]
fn so_does_one_on_a_ply_that_comes_and_goes(rt: HostRuntime) -> Result<(), Fail> {
    for hops in 0..3 {
        assert!(rt; crowds_below(rt.alloc(), hops)?, "{hops} hops");
    }
    Ok(())
}
