// A pass's walk to its end. The loops over plies and over balances are loops of their own: each has one kind of cell to load.
ghost use Rattle.std.specs.Prelude.{◌≡◌};
ghost use Rattle.fib_core.specs.declared.stage.Stage.TheVariants.{Ended};
ghost use Rattle.fib_worker.specs.inner.Runs.{IsUnderWay, WithTrail};

use crate::hops::hop_on;
use fib_addr::Addr;
use fib_cells::WalkingSeat;
use fib_core::Stage;
use fib_resolve::End;

// Hops while it stands on a ply.
#[inline(always)]
fn below_plies(seat: &mut WalkingSeat<'_>, first: Stage, addr: Addr, hash: u32) -> Stage
    requires { IsUnderWay addr hash seat.old.worker first }
    ensures words { seat.new.id ≡ seat.old.id }
    ensures known { WithTrail seat.old.worker seat.new.worker }
    ensures way { IsUnderWay addr hash seat.new.worker result }
{
    let mut stage = first;
    loop {
        match stage {
            Stage::Ply { .. } => stage = hop_on(seat, stage, addr, hash),
            _ => return stage,
        }
    }
}

// Hops while it stands on a balance.
#[inline(always)]
fn below_balances(seat: &mut WalkingSeat<'_>, first: Stage, addr: Addr, hash: u32) -> Stage
    requires { IsUnderWay addr hash seat.old.worker first }
    ensures words { seat.new.id ≡ seat.old.id }
    ensures known { WithTrail seat.old.worker seat.new.worker }
    ensures way { IsUnderWay addr hash seat.new.worker result }
{
    let mut stage = first;
    loop {
        match stage {
            Stage::Balance { .. } => stage = hop_on(seat, stage, addr, hash),
            _ => return stage,
        }
    }
}

/// Hops to the end. It needs no limit: no object is visited twice.
#[inline(always)]
pub fn walk(seat: &mut WalkingSeat<'_>, first: Stage, addr: Addr, hash: u32) -> End
    requires { IsUnderWay addr hash seat.old.worker first }
    ensures words { seat.new.id ≡ seat.old.id }
    ensures known { WithTrail seat.old.worker seat.new.worker }
    ensures way { IsUnderWay addr hash seat.new.worker (Ended result) }
{
    let stage = below_plies(seat, first, addr, hash);
    let mut stage = below_balances(seat, stage, addr, hash);
    loop {
        match stage {
            Stage::Ended(end) => return end,
            _ => stage = hop_on(seat, stage, addr, hash),
        }
    }
}
