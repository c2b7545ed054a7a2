// Each public call.
ghost use Rattle.std.specs.Prelude.{IfOk, None, replicate, ◌≡◌};
ghost use Rattle.trial_filling.specs.inner.Filling.{IsReady};

use crate::expect::{holds, same};
use fib_addr::Addr;
use fib_core::{Record, Version, Word};
use fib_core_board::Board;
use fib_core_plainboard::{Passes, PlainBoard};
use fib_resolve::{End, Tables};
use std::alloc::{AllocError, Global};
use std::test::Fail;
use trial_filling::fill;

#[test]
fn a_pass_on_a_fresh_board(rt: HostRuntime) -> Result<(), Fail> {
    let mut board = PlainBoard::new(rt.alloc(), 64, 2)?;
    board.tells();
    same(&rt, board.objects(), 64);
    same(&rt, board.workers(), 2);
    same(&rt, board.version(), Version::settled_at(0));
    same(&rt, board.load(63, 15), Word::Drop);
    same(&rt, board.passes_left(1), 9_223_372_036_854_775_807);
    holds(&rt, !board.running(1));
    board.begin(1, Addr(7), 9);
    holds(&rt, board.running(1));
    same(&rt, board.scan(1), 1);
    let end = board.hop(1).ok_or("an edge")?;
    same(&rt, end, End::Drop);
    let record = board.end(1);
    same(
        &rt,
        record,
        Record {
            addr: Addr(7),
            hash: 9,
            lo: Version::settled_at(0),
            hi: Version::settled_at(0),
            end: End::Drop,
        },
    );
    holds(&rt, !board.running(1));
    same(&rt, board.scan(1), 2);
    same(&rt, board.passes_left(1), 9_223_372_036_854_775_806);
    Ok(())
}

// A board of 64 objects and one worker whose cells stand for the fresh tables.
fn filled_board(alloc: Global) -> Result<PlainBoard, AllocError>
    ensures ready { IfOk result IsReady }
    ensures passes { IfOk result (λ b. b.passes ≡ replicate 8 None) }
    ensures rests { IfOk result (λ b. b.rests ≡ replicate 8 0) }
{
    let mut board = PlainBoard::new(alloc, 64, 1)?;
    fill(&mut board);
    Ok(board)
}

#[test]
fn a_change_beneath_a_pass(rt: HostRuntime) -> Result<(), Fail> {
    let mut board = filled_board(rt.alloc())?;
    let tables = Tables::fresh(rt.alloc());
    board.begin_version(&tables);
    same(
        &rt,
        board.version(),
        Version {
            settled: 0,
            applied: 1,
        },
    );
    same(&rt, board.load(0, 0), Word::ToPly(1));
    board.begin(0, Addr(0x0700_0000), 5);
    if board.hop(0).is_some() {
        return Err(Fail::from("no edge to the ply"));
    }
    board.tells_of_passes();
    board.store(20, 0, Word::Plain(7));
    same(&rt, board.load(20, 0), Word::Plain(7));
    if board.hop(0).is_some() {
        return Err(Fail::from("no edge to the balance"));
    }
    board.store(20, 0, Word::Drop);
    same(&rt, board.scan(0), 1);
    let end = board.hop(0).ok_or("an edge")?;
    same(&rt, end, End::Drop);
    let record = board.end(0);
    same(&rt, record.lo, board.version());
    board.settle_version();
    same(&rt, board.version(), Version::settled_at(1));
    Ok(())
}
