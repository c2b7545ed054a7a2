// What a fresh plane has, and a pass over it. Puts, takes and scans are tested through the prefix table and the control plane, which meet what these
// ask.
ghost use Rattle.std.specs.Prelude.{IfOk, [], ◌≡◌};
ghost use Rattle.fib_core_board.specs.Told.{IsWithinLimits};
ghost use Rattle.fib_pool.specs.Objects.{fresh_objects};
ghost use Rattle.fib_core_plainboard.specs.Passes.{fresh_plain};

use fib_addr::Addr;
use fib_core::{Version, Word};
use fib_core_plainboard::{Passes, PlainBoard};
use fib_plane::{Plane, laws};
use fib_plane_view::Objects;
use fib_resolve::End;
use std::alloc::{AllocError, Global};
use std::test::Fail;

// A plane over so many objects and workers. The prover takes ten times as long where these are numerals.
fn plane_over(alloc: Global, objects: u32, workers: u32) -> Result<Plane<PlainBoard>, AllocError>
    requires { IsWithinLimits objects workers }
    ensures board { IfOk result (λ p. p.plane.board ≡ fresh_plain objects workers) }
    ensures objects { IfOk result (λ p. p.plane.objects ≡ fresh_objects objects) }
    ensures records { IfOk result (λ p. p.plane.records ≡ []) }
{
    let board = PlainBoard::new(alloc, objects, workers)?;
    Plane::new(alloc, board)
}

/// A plane over 64 objects and two workers.
fn fresh(alloc: Global) -> Result<Plane<PlainBoard>, AllocError>
    ensures board { IfOk result (λ p. p.plane.board ≡ fresh_plain 64 2) }
    ensures objects { IfOk result (λ p. p.plane.objects ≡ fresh_objects 64) }
    ensures records { IfOk result (λ p. p.plane.records ≡ []) }
{
    plane_over(alloc, 64, 2)
}

#[test]
fn each_law() {
    laws::the_first_put_may_be_made();
    laws::the_root_may_be_emptied();
    laws::what_is_held_stays();
    laws::what_is_in_use_is_counted();
}

#[test]
fn what_a_fresh_plane_has(rt: HostRuntime) -> Result<(), Fail> {
    let mut plane = fresh(rt.alloc())?;
    plane.tells();
    plane.room(5)?;
    let has_room = plane.spare() >= 5;
    let is_empty = plane.load(63, 15) == Word::Drop;
    let objects = (plane.used(), plane.free());
    let edges = (plane.stored(), plane.retired());
    let version = plane.version();
    let left = plane.passes_left(1);
    assert!(rt;
        has_room
            && is_empty
            && objects == (1, 63)
            && edges == (0, 0)
            && version == Version::settled_at(0)
            && left == 9_223_372_036_854_775_807
    );
    Ok(())
}

#[test]
fn a_pass_over_a_fresh_plane(rt: HostRuntime) -> Result<(), Fail> {
    let mut plane = fresh(rt.alloc())?;
    let before = plane.running(1);
    plane.begin(1, Addr(7), 9);
    let after = plane.running(1);
    plane.tells_of_passes();
    let end = plane.hop(1).ok_or("an edge")?;
    let record = plane.end(1);
    assert!(rt;
        !before && after && end == End::Drop && record.end == End::Drop && record.addr == Addr(7)
    );
    Ok(())
}
