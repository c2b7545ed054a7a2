// Each public call, with ample memory, on one thread.
use crate::expect::{holds, same};
use fib_cells::{Cells, LiveBoard};
use fib_core::{Version, Word};
use fib_core_board::{Board, Crew};
use std::test::Fail;

#[test]
fn what_a_fresh_board_has(rt: HostRuntime) -> Result<(), Fail> {
    let (cells, seat) = Cells::new(rt.alloc(), 64, 8)?;
    let mut board = LiveBoard::new(&cells, seat);
    board.tells();
    same(&rt, board.objects(), 64);
    same(&rt, board.workers(), 8);
    same(&rt, board.version(), Version::settled_at(0));
    same(&rt, board.load(63, 15), Word::Drop);
    same(&rt, board.passes_left(7), 9_223_372_036_854_775_807);
    same(&rt, board.scan(7), 0);
    holds(&rt, !board.is_out(7));
    same(&rt, board.gathered(), 0);
    Ok(())
}

#[test]
fn a_seat_leaves_and_comes_home(rt: HostRuntime) -> Result<(), Fail> {
    let (cells, seat) = Cells::new(rt.alloc(), 64, 8)?;
    let mut board = LiveBoard::new(&cells, seat);
    let seat = board.worker(7);
    holds(&rt, board.is_out(7));
    let note = board.note();
    same(&rt, note.version(), Version::settled_at(0));
    let mut seat = seat.told(note);
    same(&rt, seat.number(), 7);
    same(&rt, seat.knows(), Version::settled_at(0));
    same(&rt, seat.claims_left(), 4_294_967_295);
    same(&rt, seat.claim(), 0);
    same(&rt, seat.claim(), 1);
    let mut walking = seat.start();
    let lo = walking.version();
    let word = walking.word(3);
    let at = walking.at();
    let hi = walking.version();
    let looked = board.scan(7);
    let seat = walking.stop();
    same(
        &rt,
        (lo, hi),
        (Version::settled_at(0), Version::settled_at(0)),
    );
    same(&rt, word, Word::Drop);
    same(&rt, (at, looked), (0, 1));
    same(&rt, seat.passes_left(), 9_223_372_036_854_775_806);
    same(&rt, seat.claims_left(), 4_294_967_293);
    board.home(seat);
    board.tells();
    holds(&rt, !board.is_out(7));
    same(&rt, board.scan(7), 2);
    same(&rt, board.passes_left(7), 9_223_372_036_854_775_806);
    same(&rt, board.gathered(), 2);
    Ok(())
}

#[test]
fn two_seats_draw_claims_in_turn(rt: HostRuntime) -> Result<(), Fail> {
    let (cells, seat) = Cells::new(rt.alloc(), 64, 2)?;
    let mut board = LiveBoard::new(&cells, seat);
    let mut one = board.worker(0);
    let mut other = board.worker(1);
    same(&rt, one.claim(), 0);
    same(&rt, other.claim(), 1);
    same(&rt, one.claim(), 2);
    board.home(other);
    holds(&rt, board.is_out(0));
    board.home(one);
    same(&rt, board.gathered(), 3);
    Ok(())
}
