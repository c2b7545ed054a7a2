// Seats on counters.
ghost use Rattle.std.specs.Prelude.{◌≡◌};

use fib_addr::{Addr, Mac};
use fib_counts::{CountSeat, Counters, Keeper, is_counted};
use fib_resolve::End;
use std::alloc::{AllocError, Global};
use std::test::Fail;
use std::thread::{Threads, join_mut};

// Counts an end so often. Answers false where there is no word for it, or the seat has counted as often as it may.
fn count_often(seat: &mut CountSeat<'_>, end: &End, times: u32) -> bool
    ensures { seat.new.id ≡ seat.old.id }
{
    if !is_counted(end) {
        return false;
    }
    for _time in 0..times {
        if seat.left() == 0 {
            return false;
        }
        seat.count(end);
    }
    true
}

// An end that leaves by an interface, with a MAC or without.
fn hop(interface: u32, mac: Option<Mac>) -> End {
    End::Hop {
        interface,
        next_hop: Addr(0x0a00_0009),
        mac,
    }
}

// What is found after two seats counted side by side: how many were out, how much came home, and six totals.
#[derive(Clone, Copy, Debug, PartialEq, Eq)]
struct Found {
    counted: (bool, bool),
    out: u32,
    added: u64,
    totals: [u64; 6],
}

// Both seats add to the word of drops, and each to words of its own.
fn both_count<R: Threads + Sync>(
    rt: &R,
    one: &mut CountSeat<'_>,
    two: &mut CountSeat<'_>,
    mac: Mac,
) -> (bool, bool)
    ensures one { one.new.id ≡ one.old.id }
    ensures two { two.new.id ≡ two.old.id }
{
    join_mut(
        rt,
        &mut || -> bool
            ensures { one.exit.now.id ≡ one.entry.now.id }
        {
            count_often(one, &End::Drop, 10_000)
                && count_often(one, &End::Glean(255), 3)
                && count_often(one, &hop(7, None), 5)
        },
        &mut || -> bool
            ensures { two.exit.now.id ≡ two.entry.now.id }
        {
            count_often(two, &End::Drop, 20_000)
                && count_often(two, &End::Receive, 4)
                && count_often(two, &hop(7, Some(mac)), 6)
        },
    )
}

// Two seats leave, count and come home.
fn side_by_side<R: Threads + Sync>(rt: &R, alloc: Global, mac: Mac) -> Result<Found, AllocError> {
    let (counters, seat) = Counters::new(alloc)?;
    let mut keeper = Keeper::new(&counters, seat);
    let mut one = keeper.seat();
    let mut two = keeper.seat();
    let out = keeper.out();
    let counted = both_count(rt, &mut one, &mut two, mac);
    keeper.home(one);
    keeper.home(two);
    Ok(Found {
        counted,
        out,
        added: keeper.added(),
        totals: [
            keeper.total(0),
            keeper.total(1),
            keeper.total(257),
            keeper.total(265),
            keeper.total(521),
            keeper.total(769),
        ],
    })
}

const WANTED: Found = Found {
    counted: (true, true),
    out: 2,
    added: 30_018,
    totals: [30_000, 4, 3, 6, 5, 0],
};

#[test]
fn two_seats_count_side_by_side(rt: HostRuntime) -> Result<(), Fail> {
    let mac = Mac::of_bytes([2, 0, 0], [0, 0, 9]);
    let found = side_by_side(&rt, rt.alloc(), mac)?;
    assert_eq!(rt; found, WANTED);
    Ok(())
}

#[test]
fn an_interface_beyond_all_tables_is_not_counted(rt: HostRuntime) -> Result<(), Fail> {
    let beyond = [End::Glean(768), hop(512, None), hop(u32::MAX, None)];
    for end in &beyond {
        assert!(rt; !is_counted(end));
    }
    Ok(())
}
