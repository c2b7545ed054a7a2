// Plies that no prefix needs leave.
ghost use Rattle.std.specs.Prelude.{◌≡◌, ℕ, ◌+◌, ◌-◌, ◌*◌, ◌/◌, ◌^◌, ◌<◌, ◌≤◌};
ghost use Rattle.fib_plane_view.specs.Frames.{Beside};
ghost use Rattle.fib_ply.specs.Calls.{DropsNone};
ghost use Rattle.fib_ply.specs.Prefixes.{Needs};
ghost use Rattle.fib_ply.specs.inner.Change.{CanPrune, CanPruneAt, Prunes, UnlinksTo};

use crate::calls::{let_go, put};
use crate::places::{Leaf, find_leaf};
use crate::set::Prefixes;
use fib_core::Word;
use fib_plane_view::Objects;

/// Unlinks the last ply on the path of the address, and lets it go.
pub fn unlink<P: Objects, S: Prefixes>(set: &S, on: &mut P, leaf: Leaf, addr: u32) -> Leaf
    requires ready { CanPruneAt (P.promise on.old) (S.look set.now) addr (P.view on.old) leaf.above leaf.ply leaf.depth leaf.slot }
    requires deep { 1 ≤ leaf.depth }
    requires free { Needs (S.look set.now) leaf.depth (addr / 2 ^ (32 - 4 * leaf.depth)) → ⊥ }
    ensures next { UnlinksTo (S.look set.now) addr (P.view on.old) (P.view on.new) (leaf.above, leaf.ply, leaf.depth, leaf.slot)
        (result.above, result.ply, result.depth, result.slot) }
    ensures promise { P.promise on.new ≡ P.promise on.old }
    ensures beside { Beside (P.view on.old) (P.view on.new) }
    ensures none_dropped { DropsNone (P.view on.old) (P.view on.new) }
    ensures higher { result.depth < leaf.depth }
    ensures free { (P.view on.old).free ≤ (P.view on.new).free }
{
    let block = addr >> (32 - 4 * leaf.depth);
    // No prefix tells the ply's cells apart: each holds the best balance of its block.
    let Word::ToBalance(object) = on.word(leaf.ply, leaf.slot) else {
        unreachable!()
    };
    let slot = block % 16;
    put(on, leaf.above, slot, Word::ToBalance(object));
    let_go(on, leaf.ply);
    find_leaf(on, addr)
}

/// Unlinks each ply on the path of the address that no prefix needs. Answers how many.
pub fn prune<P: Objects, S: Prefixes>(set: &S, on: &mut P, addr: u32) -> u32
    requires { CanPrune (P.promise on.old) (S.look set.now) addr (P.view on.old) }
    ensures few { result ≤ 7 }
    ensures free { (P.view on.old).free ≤ (P.view on.new).free }
    ensures promise { P.promise on.new ≡ P.promise on.old }
    ensures beside { Beside (P.view on.old) (P.view on.new) }
    ensures none_dropped { DropsNone (P.view on.old) (P.view on.new) }
    ensures pruned { Prunes (S.look set.now) addr (P.view on.old) (P.view on.new) result }
{
    let mut leaf = find_leaf(on, addr);
    let mut plies = 0;
    while leaf.depth > 0 && !set.needs(leaf.depth, addr >> (32 - 4 * leaf.depth)) {
        leaf = unlink(set, on, leaf, addr);
        plies += 1;
    }
    plies
}
