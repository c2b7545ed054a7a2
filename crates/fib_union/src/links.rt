// The retired edges of each object, as a chain through the list of all.
ghost use Rattle.std.specs.Prelude.{◌≡◌, ℕ, ◌+◌, ◌-◌, ◌<◌, ◌≤◌, ◌^◌, ◌++◌, ◌∷◌, [], length, map, vec_len, vec_capacity};
ghost use Rattle.fib_union.specs.Unions.{owner};
ghost use Rattle.fib_union.specs.inner.Fields.{IsLinked, plain};

use crate::newest::Newest;
use crate::retired::RetiredEdge;

/// One retired edge more, the newest.
pub fn retire(retired: &mut Vec<RetiredEdge>, newest: &mut Newest, cell: u64, to: u32)
    requires linked { IsLinked (length newest.old) newest.old retired.old.items }
    requires cell { owner cell < length newest.old }
    requires room { vec_len retired.old < vec_capacity retired.old }
    requires few { length retired.old.items < 2 ^ 32 - 1 }
    ensures retired { map plain retired.new.items ≡ map plain retired.old.items ++ (cell, to) ∷ [] }
    ensures linked { IsLinked (length newest.old) newest.new retired.new.items }
    ensures capacity { vec_capacity retired.old ≤ vec_capacity retired.new }
{
    let object = (cell / 16) as usize;
    let place = retired.len() as u32 + 1;
    let back = place - newest.of(object);
    if retired.push(RetiredEdge { cell, to, back }).is_err() {
        unreachable!();
    }
    newest.set(object, place);
}
