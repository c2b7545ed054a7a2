// Looks at the workers' pass words.
ghost use Rattle.std.specs.Prelude.{List, length, vec_capacity, ℕ, [], ◌+◌, ◌<◌, ◌≡◌, ◌≤◌};
ghost use Rattle.fib_union.specs.Unions.{into, times};
ghost use Rattle.fib_core_board.specs.Boards.{board_scans, union_of};
ghost use Rattle.fib_plane.specs.Planes.{AreAtRest};
ghost use Rattle.fib_plane.specs.inner.Joined.{AreDying, IsDropped, IsLoose};

use crate::counted::Counted;
use crate::sweep;
use fib_core_board::Board;
use fib_pool::Pool;
use fib_union::Union;

/// Each pass word is looked at once; the edges that leave are counted still.
pub(crate) fn look_all<B: Board>(board: &mut Counted<B>, union: &mut Union, pool: &Pool)
    requires { IsLoose board.old union.old pool.now }
    ensures loose { IsLoose board.new union.new pool.now }
    ensures scanned { (words : List ℕ) × (length words ≡ board.old.workers) × (board.new ≡ board_scans 0 words board.old)
        × AreAtRest board.old words }
    ensures counts { (o : ℕ) → into (union_of board.new) o + times o union.new.left ≡ into (union_of board.old) o + times o union.old.left }
    ensures spare { union.old.spare ≤ union.new.spare }
{
    for worker in 0..board.workers() {
        let word = board.scan(worker);
        union.look(worker as usize, word);
    }
}

/// What left is counted no more.
pub(crate) fn drop_left<B: Board>(
    board: &Counted<B>,
    union: &mut Union,
    pool: &mut Pool,
    dying: &mut Vec<u32>,
)
    requires loose { IsLoose board.now union.old pool.old }
    requires dying { AreDying pool.old dying.old.items }
    requires room { length pool.old ≤ vec_capacity dying.old }
    ensures loose { IsLoose board.now union.new pool.new }
    ensures left { union.new.left ≡ [] }
    ensures dying { AreDying pool.new dying.new.items }
    ensures dropped { IsDropped union.old.left pool.old pool.new }
    ensures spare { union.old.spare ≤ union.new.spare }
    ensures room { length pool.new ≤ vec_capacity dying.new }
    ensures kept { vec_capacity dying.old ≤ vec_capacity dying.new }
{
    while let Some(target) = union.left() {
        sweep::drop_edge(pool, dying, Some(target));
    }
}
