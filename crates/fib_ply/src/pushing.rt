// Cells are pointed at the best prefixes of a set.
ghost use Rattle.std.specs.Prelude.{◌≡◌, ℕ, Bool, ◌+◌, ◌*◌, ◌/◌, ◌^◌, ◌<◌, ◌≤◌};
ghost use Rattle.fib_plane_view.specs.Frames.{Beside};
ghost use Rattle.fib_ply.specs.Calls.{DropsNone};
ghost use Rattle.fib_ply.specs.Prefixes.{Look};
ghost use Rattle.fib_ply.specs.Served.{Paths, Watch};
ghost use Rattle.fib_ply.specs.Plies.{IsAt};
ghost use Rattle.fib_ply.specs.inner.Change.{IsSpent, ahead};

use crate::calls::put;
use crate::places::find;
use crate::set::Prefixes;
use fib_core::Word;
use fib_plane_view::Objects;

/// Points the cell of the address at the best prefix of the set. Answers the first address after the cell's.
pub fn push<P: Objects, S: Prefixes>(set: &S, on: &mut P, addr: u32) -> u64
    requires ready { (wants : Watch) × (there : ℕ → ℕ → Bool) × (old : Look) × (n : Paths)
        × IsAt wants there old (S.look set.now) addr n (P.view on.old)
        × (wants.promise ≡ P.promise on.old) × (ahead n (P.view on.old) addr ≤ (P.view on.old).spare) }
    ensures change { (wants : Watch) (there : ℕ → ℕ → Bool) (old : Look) (n : Paths)
        → IsAt wants there old (S.look set.now) addr n (P.view on.old)
        → IsAt wants there old (S.look set.now) result n (P.view on.new) × IsSpent n (P.view on.old) (P.view on.new) addr result }
    ensures promise { P.promise on.new ≡ P.promise on.old }
    ensures beside { Beside (P.view on.old) (P.view on.new) }
    ensures none_dropped { DropsNone (P.view on.old) (P.view on.new) }
    ensures further { addr < result }
    ensures free { (P.view on.old).free ≤ (P.view on.new).free }
{
    let at = find(on, addr);
    let shift = 28 - 4 * at.depth;
    let block = addr >> shift;
    let object = set.best(4 * (at.depth + 1), block).unwrap();
    put(on, at.ply, at.slot, Word::ToBalance(object));
    (u64::from(block) + 1) << shift
}

/// Points the cells of the addresses from `from` up to `to` at the best prefixes of the set.
pub fn refresh<P: Objects, S: Prefixes>(set: &S, on: &mut P, from: u64, to: u64)
    requires ready { (wants : Watch) × (there : ℕ → ℕ → Bool) × (old : Look) × (n : Paths)
        × IsAt wants there old (S.look set.now) from n (P.view on.old)
        × (wants.promise ≡ P.promise on.old) × (ahead n (P.view on.old) from ≤ (P.view on.old).spare) }
    requires range { to ≤ 2 ^ 32 }
    ensures promise { P.promise on.new ≡ P.promise on.old }
    ensures beside { Beside (P.view on.old) (P.view on.new) }
    ensures none_dropped { DropsNone (P.view on.old) (P.view on.new) }
    ensures free { (P.view on.old).free ≤ (P.view on.new).free }
    ensures change { (wants : Watch) (there : ℕ → ℕ → Bool) (old : Look) (n : Paths)
        → IsAt wants there old (S.look set.now) from n (P.view on.old)
        → (pos : ℕ) × (to ≤ pos) × IsAt wants there old (S.look set.now) pos n (P.view on.new)
        × IsSpent n (P.view on.old) (P.view on.new) from pos }
{
    let mut pos = from;
    while pos < to {
        pos = push(set, on, pos as u32);
    }
}
