// The calls of a plane, as the table makes them.
ghost use Rattle.std.specs.Prelude.{◌≡◌, ℕ, ◌<◌, false, true, IfSome, IfNone};
ghost use Rattle.fib_pool.specs.declared.object.Kind.TheVariants as kinds;
ghost use Rattle.fib_plane_view.specs.View.{HasKind, IsLive, IsStanding, IsTaken, IsLetGo, leads};
ghost use Rattle.fib_plane_view.specs.Promise.{MayLetGo, MayPut};
ghost use Rattle.fib_plane_view.specs.Frames.{Beside};
ghost use Rattle.fib_ply.specs.Calls.{DropsNone};
ghost use Rattle.fib_ply.specs.inner.View.{IsSent};
ghost use Rattle.fib_ply.specs.inner.Change.{IsCalm};

use fib_core::Word;
use fib_plane_view::Objects;
use fib_pool::Kind;

/// Stores an edge that closes no cycle into a ply. It is not dropped.
pub fn put<P: Objects>(on: &mut P, object: u32, slot: u32, word: Word)
    requires inside { slot < 16 }
    requires ply { ((P.view on.old).is_ply object ≡ true) × IsStanding (P.view on.old) object }
    requires target { (y : ℕ) → leads word y → IsLive (P.view on.old) y }
    requires spare { (y : ℕ) → leads ((P.view on.old).cell object slot) y → 0 < (P.view on.old).spare }
    requires promise { MayPut (P.promise on.old) (P.view on.old) object slot word }
    requires kind { HasKind (P.view on.old) object word }
    requires calm { IsCalm (P.view on.old) object word }
    ensures put { IsSent (P.view on.old) (P.view on.new) object slot word }
    ensures beside { Beside (P.view on.old) (P.view on.new) }
    ensures none_dropped { DropsNone (P.view on.old) (P.view on.new) }
    ensures promise { P.promise on.new ≡ P.promise on.old }
{
    // The word is there then: it is not dropped, since it closes no cycle.
    let _ = on.put(object, slot, word);
}

/// Takes a ply.
pub fn take<P: Objects>(on: &mut P) -> Option<u32>
    ensures some { IfSome result (λ c. IsTaken (P.view on.old) (P.view on.new) kinds.Ply c) }
    ensures beside { IfSome result (λ c. Beside (P.view on.old) (P.view on.new)) }
    ensures none_dropped { IfSome result (λ c. DropsNone (P.view on.old) (P.view on.new)) }
    ensures none { IfNone result ((P.view on.old).free ≡ 0) }
    ensures promise { P.promise on.new ≡ P.promise on.old }
{
    on.take(Kind::Ply)
}

/// Lets a ply go.
pub fn let_go<P: Objects>(on: &mut P, object: u32)
    requires ply { ((P.view on.old).is_held object ≡ true) × ((P.view on.old).is_ply object ≡ true) }
    requires promise { MayLetGo (P.promise on.old) (P.view on.old) object }
    ensures gone { IsLetGo (P.view on.old) (P.view on.new) object }
    ensures beside { Beside (P.view on.old) (P.view on.new) }
    ensures none_dropped { DropsNone (P.view on.old) (P.view on.new) }
    ensures promise { P.promise on.new ≡ P.promise on.old }
{
    on.let_go(object);
}
