// New plies.
ghost use Rattle.std.specs.Prelude.{◌≡◌, ℕ, Bool, ◌+◌, ◌-◌, ◌*◌, ◌/◌, ◌^◌, ◌<◌, ◌≤◌};
ghost use Rattle.fib_core.specs.declared.word.Word.TheVariants.{Drop, ToBalance};
ghost use Rattle.fib_plane_view.specs.Frames.{Beside};
ghost use Rattle.fib_ply.specs.Calls.{DropsNone};
ghost use Rattle.fib_plane_view.specs.View.{IsBalance, Stores};
ghost use Rattle.fib_ply.specs.Prefixes.{Look};
ghost use Rattle.fib_ply.specs.inner.View.{Frame, HoldsNoMore};
ghost use Rattle.fib_ply.specs.Served.{Paths, Watch};
ghost use Rattle.fib_ply.specs.inner.Change.{Aside, CanFill, Grows, IsCellOf, IsPaid, IsUnderWay, IsUnderWayAt, WereBare, plus};
ghost use Rattle.fib_ply.specs.Plies.{IsAt};

use crate::calls::{put, take};
use crate::places::{Place, find};
use fib_core::Word;
use fib_plane_view::Objects;

/// Points every cell of a new ply at one balance.
pub fn fill<P: Objects>(on: &mut P, ply: u32, object: u32)
    requires ready { CanFill (P.promise on.old) (P.view on.old) ply object }
    requires empty { (slot : ℕ) → slot < 16 → (P.view on.old).cell ply slot ≡ Drop }
    requires balance { IsBalance (P.view on.old) object }
    ensures aside { Aside (P.view on.old) (P.view on.new) ply object }
    ensures filled { (slot : ℕ) → slot < 16 → (P.view on.new).cell ply slot ≡ ToBalance object }
    ensures free { (P.view on.old).free ≤ (P.view on.new).free }
    ensures spare { (P.view on.old).spare ≤ (P.view on.new).spare }
    ensures stores { Stores (P.view on.old) (P.view on.new) 16 }
    ensures frame { Frame (P.view on.old) (P.view on.new) }
    ensures plies { HoldsNoMore (P.view on.old) (P.view on.new) }
    ensures promise { P.promise on.new ≡ P.promise on.old }
    ensures beside { Beside (P.view on.old) (P.view on.new) }
    ensures none_dropped { DropsNone (P.view on.old) (P.view on.new) }
{
    on.fill(ply, Word::ToBalance(object));
}

/// Puts a ply below a cell that has none, and answers the address's cell of the new ply.
pub fn sprout<P: Objects>(on: &mut P, at: Place, addr: u32) -> Place
    requires ready { IsUnderWayAt (P.promise on.old) (P.view on.old) addr at.ply at.depth at.slot }
    requires room { (at.depth < 7) × (0 < (P.view on.old).free) × (0 < (P.view on.old).spare) }
    ensures sprouted { (wants : Watch) (there : ℕ → ℕ → Bool) (old new : Look) (pos : ℕ) (n : Paths)
        → IsAt wants there old new pos n (P.view on.old)
        → IsCellOf n (P.view on.old) addr at.ply at.depth at.slot
        → (m : Paths) × IsAt wants (plus there (at.depth + 1) (addr / 2 ^ (28 - 4 * at.depth))) old new pos m (P.view on.new)
        × IsCellOf m (P.view on.new) addr result.ply result.depth result.slot × IsPaid n m (P.view on.old) (P.view on.new) 1 }
    ensures deeper { result.depth ≡ at.depth + 1 }
    ensures free { (P.view on.old).free ≤ (P.view on.new).free + 1 }
    ensures spare { (P.view on.old).spare ≤ (P.view on.new).spare + 1 }
    ensures frame { Frame (P.view on.old) (P.view on.new) }
    ensures promise { P.promise on.new ≡ P.promise on.old }
    ensures beside { Beside (P.view on.old) (P.view on.new) }
    ensures none_dropped { DropsNone (P.view on.old) (P.view on.new) }
{
    let Word::ToBalance(object) = on.word(at.ply, at.slot) else {
        unreachable!()
    };
    let Some(ply) = take(on) else { unreachable!() };
    fill(on, ply, object);
    put(on, at.ply, at.slot, Word::ToPly(ply));
    let depth = at.depth + 1;
    let slot = (addr >> (28 - 4 * depth)) % 16;
    Place { ply, depth, slot }
}

/// Puts plies on the path of the address until there is one of that depth. Answers how many.
pub fn grow<P: Objects>(on: &mut P, addr: u32, depth: u32) -> u32
    requires ready { IsUnderWay (P.promise on.old) (P.view on.old) }
    requires room { (depth ≤ 7) × (depth ≤ (P.view on.old).free) × (depth ≤ (P.view on.old).spare) }
    ensures few { result ≤ depth }
    ensures free { (P.view on.old).free ≤ (P.view on.new).free + result }
    ensures bare { WereBare (P.view on.old) addr depth result }
    ensures frame { Frame (P.view on.old) (P.view on.new) }
    ensures promise { P.promise on.new ≡ P.promise on.old }
    ensures beside { Beside (P.view on.old) (P.view on.new) }
    ensures none_dropped { DropsNone (P.view on.old) (P.view on.new) }
    ensures grows { Grows (P.view on.old) (P.view on.new) addr depth result }
{
    let mut at = find(on, addr);
    let mut plies = 0;
    while at.depth < depth {
        at = sprout(on, at, addr);
        plies += 1;
    }
    plies
}
