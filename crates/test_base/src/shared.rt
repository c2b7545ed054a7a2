// Each law, and a fresh plane over a plain board.
use crate::expect::same;
use fib_core_plainboard::PlainBoard;
use fib_plane::{Plane, laws};
use std::alloc::{AllocError, Global};
use std::test::Fail;

fn fresh(alloc: Global) -> Result<Plane<PlainBoard>, AllocError> {
    let board = PlainBoard::new(alloc, 64, 2)?;
    Plane::new(alloc, board)
}

#[test]
fn each_law() {
    laws::what_is_in_use_is_counted();
}

#[test]
fn the_root_alone_is_used(rt: HostRuntime) -> Result<(), Fail> {
    let shared = fresh(rt.alloc())?;
    shared.tells();
    same(&rt, shared.used(), 1);
    Ok(())
}
