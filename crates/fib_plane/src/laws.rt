// What puts ask can be met, and what the calls keep. A law each, the contract of a call without a body.
ghost use Rattle.std.specs.Prelude.{List, Option, ℕ, [], ◌*◌, ◌+◌, ◌<◌, ◌≡◌, ◌≢◌};
ghost use Rattle.fib_union.specs.Unions.{owner};
ghost use Rattle.fib_core.specs.declared.word.Word.TheVariants as words;
ghost use Rattle.fib_core_lawful.specs.State.{first_control};
ghost use Rattle.fib_pool.specs.declared.object.Object.{Object};
ghost use Rattle.fib_pool.specs.Objects.{IsLive};
ghost use Rattle.fib_core_board.specs.Boards.{Board, Pass, board_of, word_in};
ghost use Rattle.fib_core_board.specs.May.{Allows};
ghost use Rattle.fib_plane.specs.Planes.{IsHeld, IsSwept, Plane};
ghost use Rattle.fib_plane.specs.Puts.{MayPut};
ghost use Rattle.fib_plane.specs.Sound.{IsPlane};
ghost use Rattle.fib_plane.specs.Views.{view_of};
ghost use Rattle.fib_plane_view.specs.View.{IsLive as IsUsed};

/// What a put asks can be met: on a fresh board an edge from object 0 to a balance in object 1 may be put.
pub fn the_first_put_may_be_made()
    ensures { (p : Plane) (id : List ℕ) (passes : List (Option Pass)) (objects workers : ℕ)
        → 1 < objects → p.board ≡ board_of id [] passes (first_control objects workers)
        → MayPut p 0 (words.ToBalance 1) }
{}

/// And before the first change a Drop may be put in the place of the root's only edge.
pub fn the_root_may_be_emptied()
    ensures { (p : Plane) (o : ℕ)
        → IsPlane p → Allows p.board → p.board.log.version.applied ≡ 0
        → word_in p.board 0 ≡ words.ToBalance o
        → ((s : ℕ) → s < 16 → s ≢ 0 → word_in p.board s ≡ words.Drop)
        → MayPut p 0 words.Drop }
{}

/// What is held is not cleared: it stays held, and its cells stay.
pub fn what_is_held_stays()
    ensures held { (b c : Board) (xs ys : List (Option Object)) (o : ℕ)
        → IsSwept b c xs ys → IsHeld b xs o → IsHeld c ys o }
    ensures cells { (b c : Board) (xs ys : List (Option Object)) (k : ℕ)
        → IsSwept b c xs ys → IsHeld b xs (owner k) → word_in c k ≡ word_in b k }
{}

/// An object in use is counted.
pub fn what_is_in_use_is_counted()
    ensures { (p : Plane) (x : ℕ) → IsPlane p → IsUsed (view_of p) x → IsLive p.objects x }
{}
