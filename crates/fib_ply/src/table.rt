// Prefixes come and go.
ghost use Rattle.std.specs.Prelude.{◌≡◌, ℕ, Bool, ◌+◌, ◌-◌, ◌*◌, ◌/◌, ◌^◌, ◌<◌, ◌≤◌, None, length};
ghost use Rattle.fib_core.specs.declared.word.Word.TheVariants.{Drop};
ghost use Rattle.fib_plane_view.specs.Frames.{Beside};
ghost use Rattle.fib_ply.specs.Calls.{DropsNone};
ghost use Rattle.fib_plane_view.specs.View.{IsBalance};
ghost use Rattle.fib_ply.specs.Prefixes.{Needs};
ghost use Rattle.fib_ply.specs.Served.{Paths, Watch};
ghost use Rattle.fib_ply.specs.inner.Change.{CanAdd, CanRemove, IsAdded, IsRemoved, added, removed};
ghost use Rattle.fib_ply.specs.Plies.{IsTable};

use crate::growing::grow;
use crate::pruning::prune;
use crate::pushing::refresh;
use crate::set::Prefixes;
use fib_plane_view::Objects;

/// Puts a prefix into the table. Answers how many plies came.
pub fn add<P: Objects, S: Prefixes>(set: &mut S, on: &mut P, len: u32, top: u32, object: u32) -> u32
    requires table { CanAdd (P.promise on.old) (S.look set.old) (P.view on.old) len top object }
    requires prefix { (1 ≤ len) × (len ≤ 32) × (top < 2 ^ len) }
    requires absent { S.look set.old len top ≡ None }
    requires balance { IsBalance (P.view on.old) object
        × ((P.promise on.old).applied ≡ 0 → (t : ℕ) → t < 16 → (P.view on.old).cell object t ≡ Drop) }
    requires free { 7 ≤ (P.view on.old).free }
    requires room { 0 < S.room set.old }
    ensures few { result ≤ 7 }
    ensures within { result ≤ (len - 1) / 4 }
    ensures free { (P.view on.old).free ≤ (P.view on.new).free + result }
    ensures bare { (d : ℕ) → (len - 1) / 4 < d + result → d ≤ (len - 1) / 4
        → Needs (S.look set.old) d (top * 2 ^ (32 - len) / 2 ^ (32 - 4 * d)) → ⊥ }
    ensures look { S.look set.new ≡ added (S.look set.old) len top object }
    ensures room { S.room set.old ≤ S.room set.new + 1 }
    ensures promise { P.promise on.new ≡ P.promise on.old }
    ensures beside { Beside (P.view on.old) (P.view on.new) }
    ensures none_dropped { DropsNone (P.view on.old) (P.view on.new) }
    ensures table { IsAdded (P.promise on.old) (S.look set.old) (S.look set.new) (P.view on.old) (P.view on.new) result }
{
    let shift = 32 - len;
    let depth = (len - 1) / 4;
    let plies = grow(on, top << shift, depth);
    set.insert(len, top, object);
    refresh(
        set,
        on,
        u64::from(top) << shift,
        (u64::from(top) + 1) << shift,
    );
    plies
}

/// Takes a prefix out of the table. Answers how many plies left.
pub fn remove<P: Objects, S: Prefixes>(set: &mut S, on: &mut P, len: u32, top: u32) -> u32
    requires table { CanRemove (P.promise on.old) (S.look set.old) (P.view on.old) len top }
    requires prefix { (1 ≤ len) × (len ≤ 32) × (top < 2 ^ len) }
    ensures few { result ≤ 7 }
    ensures free { (P.view on.old).free ≤ (P.view on.new).free }
    ensures look { S.look set.new ≡ removed (S.look set.old) len top }
    ensures room { S.room set.old ≤ S.room set.new }
    ensures promise { P.promise on.new ≡ P.promise on.old }
    ensures beside { Beside (P.view on.old) (P.view on.new) }
    ensures none_dropped { DropsNone (P.view on.old) (P.view on.new) }
    ensures table { IsRemoved (P.promise on.old) (S.look set.old) (S.look set.new) (P.view on.old) (P.view on.new) result }
{
    let shift = 32 - len;
    set.remove(len, top);
    refresh(
        set,
        on,
        u64::from(top) << shift,
        (u64::from(top) + 1) << shift,
    );
    prune(set, on, top << shift)
}
