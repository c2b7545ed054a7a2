// The root's first cells.
ghost use Rattle.std.specs.Prelude.{◌≡◌, ◌≤◌};
ghost use Rattle.fib_plane_view.specs.Frames.{Beside};
ghost use Rattle.fib_ply.specs.Calls.{DropsNone};
ghost use Rattle.fib_ply.specs.Blank.{IsBlank};

use crate::calls::put;
use fib_core::Word;
use fib_plane_view::Objects;

/// Points every cell of the root at one balance.
pub fn begin<P: Objects>(on: &mut P, object: u32)
    requires blank { IsBlank (P.promise on.old) (P.view on.old) object 0 }
    ensures begun { IsBlank (P.promise on.new) (P.view on.new) object 16 }
    ensures free { (P.view on.old).free ≤ (P.view on.new).free }
    ensures promise { P.promise on.new ≡ P.promise on.old }
    ensures beside { Beside (P.view on.old) (P.view on.new) }
    ensures none_dropped { DropsNone (P.view on.old) (P.view on.new) }
{
    for slot in 0..16 {
        put(on, 0, slot, Word::ToBalance(object));
    }
}
