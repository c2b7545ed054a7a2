// A board with the pool of its objects, the adjacency records and the union of its edges.
ghost use Rattle.std.specs.Prelude.{IfOk, IsSome, Some, option_map, length, slice_index, ℕ, [], ◌*◌, ◌+◌, ◌-◌, ◌<◌, ◌≡◌};
ghost use Rattle.fib_base_interned.specs.Interned.{kept_of};
ghost use Rattle.fib_pool.specs.Objects.{IsLive as IsCounted, free_in, fresh_objects};
ghost use Rattle.fib_core_lawful.specs.State.{left_of};
ghost use Rattle.fib_core_board.specs.Boards.{IsFresh, board_begun, board_settled, word_in};
ghost use Rattle.fib_core_board.specs.May.{MayBegin, MaySettle};
ghost use Rattle.fib_plane_view.specs.View.{IsLive, IsPlane};
ghost use Rattle.fib_plane.specs.Sound.{IsPlane as IsTold};
ghost use Rattle.fib_plane.specs.Props.{AreRecorded-prop, IsPlane-prop};
ghost use Rattle.fib_plane.specs.Views.{AreRecorded, IsBare, plane_of, promise_of, view_of};

use crate::counted::{Cell, Counted};
use fib_core::{Version, Word};
use fib_core_board::Board;
use fib_pool::{AdjTable, AdjacencyRecord, Pool};
use fib_resolve::Tables;
use fib_union::Union;
use std::alloc::{AllocError, Global};
use std::marker::Model;

/// A board's objects in the control plane's hands, as the prefix table and the stack of buckets stand on them.
///
/// An object is counted once for each edge into it, current or retired, and once more while it is held: by `take` until `let_go`, or as the
/// object of an adjacency record. One that is counted no more is cleared and given back in the call that took its last count. Edges have the
/// kinds of the objects that they join, and each adjacency is a record's.
pub struct Plane<B: Board> {
    pub(crate) board: Counted<B>,
    pub(crate) union: Union,
    pub(crate) pool: Pool,
    pub(crate) table: AdjTable,
    /// The objects that are counted no more, while they wait for being cleared; with room for all.
    pub(crate) dying: Vec<u32>,
    ghost sound: { IsPlane (view_of (plane_of board union pool table)) } by { IsPlane-prop (view_of (plane_of board union pool table)) },
    ghost recorded: { AreRecorded (plane_of board union pool table) } by { AreRecorded-prop (plane_of board union pool table) },
}

// The prover follows what a drop does here, once, and not at every way out past an owner.
impl<B: Board + Drop> Drop for Plane<B> {
    fn drop(self) {
        let Plane {
            board: _,
            union: _,
            pool: _,
            table: _,
            dying: _,
        } = self;
    }
}

impl<B: Board> Model for Plane<B> {
    ghost use Rattle.std.specs.Prelude.{vec_capacity};
    ghost use Rattle.std.specs.Coded.{codes};
    ghost use Rattle.fib_plane.specs.Props.{whole_code};
    ghost use Rattle.fib_plane.specs.Views.{Whole, plane_of};
    ghost use Rattle.fib_plane.specs.inner.Joined.{IsAtRest};

    ghost Value = { Whole };

    ghost coded = { whole_code (Prim.hlevel (codes)) };

    ghost view = { λ p. record { plane = plane_of p.board p.union p.pool p.table; sound = p.sound; recorded = p.recorded } };

    ghost invariant = { λ p. IsAtRest p.board p.union p.pool p.table p.dying.items (vec_capacity p.dying) };
}

impl<B: Board + Drop> Plane<B> {
    /// The plane over a fresh board: object 0 is the root's ply, and all others are free. There is no room for stores that replace edges yet.
    pub fn new(alloc: Global, board: B) -> Result<Plane<B>, AllocError>
        requires { IsFresh (B.view board) }
        ensures board { IfOk result (λ p. p.plane.board ≡ B.view board) }
        ensures objects { IfOk result (λ p. p.plane.objects ≡ fresh_objects (B.view board).objects) }
        ensures records { IfOk result (λ p. p.plane.records ≡ []) }
        ensures bare { IfOk result (λ p. IsBare (promise_of p.plane.board) (view_of p.plane)) }
    {
        let objects = board.objects();
        let union = Union::new(alloc, objects, board.workers())?;
        let pool = Pool::new(alloc, objects)?;
        let dying = Vec::with_capacity(alloc, objects as usize)?;
        let table = AdjTable::new(alloc);
        let _ = table.count();
        board.tells();
        Ok(Plane {
            board: Counted::new(board),
            union,
            pool,
            table,
            dying,
        })
    }
}

impl<B: Board> Plane<B> {
    /// What holds of every plane, and that what is counted in it is in use as its users see it. Does nothing.
    pub fn tells(&self)
        ensures told { IsTold self.now.plane }
        ensures seen { (object : ℕ) → IsCounted self.now.plane.objects object → IsLive (view_of self.now.plane) object }
    {
        self.board.tells();
        let _ = self.table.count();
    }

    /// The word in a cell.
    pub fn load(&self, object: u32, slot: u32) -> Word
        requires object { object < self.now.plane.board.objects }
        requires slot { slot < 16 }
        ensures { result ≡ word_in self.now.plane.board (16 * object + slot) }
    {
        self.board.load(Cell { object, slot })
    }

    /// How many objects aren't free.
    pub fn used(&self) -> u32
        ensures { result ≡ length self.now.plane.objects - free_in self.now.plane.objects }
    {
        self.pool.used()
    }

    /// The version, as it was stored last.
    pub fn version(&self) -> Version
        ensures { result ≡ self.now.plane.board.log.version }
    {
        self.board.version()
    }

    /// How many passes are left to a worker. While the worker is out it is what it was when the worker left.
    pub fn passes_left(&self, worker: u32) -> u64
        requires { worker < self.now.plane.board.workers }
        ensures { result ≡ left_of (slice_index self.now.plane.board.rests worker) }
    {
        self.board.passes_left(worker)
    }

    /// Begins a version with these tables.
    pub fn begin_version(&mut self, next: &Tables)
        requires { MayBegin self.old.plane.board next.now }
        ensures { self.new.plane ≡ record self.old.plane { board = board_begun self.old.plane.board next.now } }
    {
        self.board.begin_version(next)
    }

    /// Settles the version: the cells stand for its tables, and nothing is retired.
    pub fn settle_version(&mut self)
        requires { MaySettle self.old.plane.board }
        ensures { self.new.plane ≡ record self.old.plane { board = board_settled self.old.plane.board } }
    {
        self.board.settle_version()
    }

    /// The record of an object of which one is kept.
    pub fn record(&self, object: u32) -> AdjacencyRecord
        requires { IsSome (kept_of self.now.plane.records object) }
        ensures { option_map (λ k. k.content) (kept_of self.now.plane.records object) ≡ Some result }
    {
        self.table.record(object)
    }
}
