// The calls of a plane that the prefix table and the stack of buckets make.
ghost use Rattle.std.specs.Prelude.{IfNone, IfOk, IfSome, Ok, OnErr, OnOk, Some, [], ◌⊎◌, length, true, ℕ, ◌*◌, ◌+◌, ◌-◌, ◌%◌, ◌<◌, ◌^◌, ◌≡◌, ◌≢◌, ◌≤◌};
ghost use Rattle.fib_core.specs.declared.word.Word.TheVariants as words;
ghost use Rattle.fib_core.specs.Words.{IsRoomy};
ghost use Rattle.fib_pool.specs.declared.object.AdjacencyRecord.{AdjacencyRecord};
ghost use Rattle.fib_pool.specs.declared.object.Kind.TheVariants as kinds;
ghost use Rattle.fib_pool.specs.Objects as pool;
ghost use Rattle.fib_pool.specs.Records.{IsNew, adjacency};
ghost use Rattle.fib_core_board.specs.Boards.{HasNoPly};
ghost use Rattle.fib_plane_view.specs.Promise.{MayClear, MayLetGo, MayPut};
ghost use Rattle.fib_plane_view.specs.Stores.{IsFreed, StoresEach};
ghost use Rattle.fib_plane_view.specs.declared.put.Put.TheVariants as answers;
ghost use Rattle.fib_plane.specs.Views.{promise_of, view_of};
ghost use Rattle.fib_plane_view.specs.View.{Closes, GaveRecord, HasKind, HasRoom, IsLetGo, IsLive, IsPut, IsRecord, IsScanned, IsStanding};
ghost use Rattle.fib_plane_view.specs.View.{IsTaken, TookOne, leads};
ghost use Rattle.fib_plane.specs.Planes as planes;
ghost use Rattle.fib_plane.specs.Puts as puts;
ghost use Rattle.fib_plane.specs.Records as records;

use crate::counted::Cell;
use crate::plane::Plane;
use crate::{records, replace, scan, sweep};
use fib_addr::{Addr, Mac};
use fib_core::Word;
use fib_core_board::Board;
use fib_plane_view::{Objects, Put};
use fib_pool::Kind;
use std::alloc::AllocError;

/// The number in a word has its room: an interface and an object have 32 bits.
fn has_room(word: Word)
    requires { (n : ℕ) → word ≡ words.Plain n → ⊥ }
    ensures { IsRoomy word }
{
    match word {
        Word::Glean(_interface) => {}
        Word::ToPly(_object) | Word::ToBalance(_object) | Word::ToAdjacency(_object) => {}
        Word::Drop | Word::Receive | Word::Plain(_) => {}
    }
}

impl<B: Board> Plane<B> {
    /// Puts a word into an empty cell of an object that is held. It closes no cycle, so it is stored, and nothing leaves.
    fn lay(&mut self, object: u32, slot: u32, word: Word)
        requires slot { slot < 16 }
        requires held { (view_of self.old.plane).is_held object ≡ true }
        requires empty { (view_of self.old.plane).cell object slot ≡ words.Drop }
        requires other { word ≢ words.Drop }
        requires target { (y : ℕ) → leads word y → IsLive (view_of self.old.plane) y }
        requires kind { HasKind (view_of self.old.plane) object word }
        requires far { Closes (view_of self.old.plane) object word → ⊥ }
        requires promise { MayPut (promise_of self.old.plane.board) (view_of self.old.plane) object slot word }
        ensures put { IsPut (view_of self.old.plane) (view_of self.new.plane) object slot word answers.Stored }
        ensures stores { StoresEach (λ x s. (x ≡ object) × (s ≡ slot)) (view_of self.old.plane) (view_of self.new.plane) }
        ensures promise { promise_of self.new.plane.board ≡ promise_of self.old.plane.board }
    {
        self.board.tells();
        let _ = self.table.count();
        has_room(word);
        replace::lay(
            &mut self.board,
            &mut self.union,
            &mut self.pool,
            Cell { object, slot },
            word,
        );
    }
}

impl<B: Board> Objects for Plane<B> {
    ghost use Rattle.fib_plane.specs.Views.{promise_of, view_of};

    ghost view = { λ p. view_of p.plane };

    ghost promise = { λ p. promise_of p.plane.board };

    fn word(&self, object: u32, slot: u32) -> Word {
        self.board.tells();
        let _ = self.table.count();
        self.board.load(Cell { object, slot })
    }

    fn free(&self) -> u32 {
        self.pool.free()
    }

    fn retired(&self) -> u32 {
        self.union.retired()
    }

    fn stored(&self) -> u64 {
        self.board.stores()
    }

    fn spare(&self) -> u32 {
        self.union.spare()
    }

    fn room(&mut self, stores: u32) -> Result<(), AllocError>
        ensures same { HasRoom (view_of self.old.plane) (view_of self.new.plane) }
        ensures room { OnOk result (stores ≤ (view_of self.new.plane).spare) }
        ensures promise { promise_of self.new.plane.board ≡ promise_of self.old.plane.board }
        ensures plane { self.new.plane ≡ record self.old.plane { spare = self.new.plane.spare } }
    {
        self.union.reserve(stores)
    }

    fn put(&mut self, object: u32, slot: u32, word: Word) -> Put
        requires slot { slot < 16 }
        requires standing { IsStanding (view_of self.old.plane) object }
        requires target { (y : ℕ) → leads word y → IsLive (view_of self.old.plane) y }
        requires kind { HasKind (view_of self.old.plane) object word }
        requires calm { (view_of self.old.plane).is_ply object ≡ true → Closes (view_of self.old.plane) object word → ⊥ }
        requires spare { (y : ℕ) → leads ((view_of self.old.plane).cell object slot) y → 0 < (view_of self.old.plane).spare }
        requires promise { MayPut (promise_of self.old.plane.board) (view_of self.old.plane) object slot word }
        ensures put { IsPut (view_of self.old.plane) (view_of self.new.plane) object slot word result }
        ensures stores { StoresEach (λ x s. ((x ≡ object) × (s ≡ slot)) ⊎ IsFreed (view_of self.old.plane) (view_of self.new.plane) x)
            (view_of self.old.plane) (view_of self.new.plane) }
        ensures promise { promise_of self.new.plane.board ≡ promise_of self.old.plane.board }
        ensures plane { puts.IsPlanePut self.old.plane self.new.plane (16 * object + slot) word result }
    {
        self.board.tells();
        let _ = self.table.count();
        has_room(word);
        let cell = Cell { object, slot };
        let found = self.board.load(cell);
        if replace::same(found, word) {
            return Put::Same;
        }
        replace::change(
            &mut self.board,
            &mut self.union,
            &mut self.pool,
            &mut self.dying,
            cell,
            word,
        )
    }

    fn fill(&mut self, object: u32, word: Word) {
        for slot in 0..16 {
            self.lay(object, slot, word);
        }
    }

    fn take(&mut self, kind: Kind) -> Option<u32>
        requires { kind ≢ kinds.Adjacency }
        ensures some { IfSome result (λ c. IsTaken (view_of self.old.plane) (view_of self.new.plane) kind c) }
        ensures none { IfNone result ((view_of self.old.plane).free ≡ 0) }
        ensures same { IfNone result (view_of self.new.plane ≡ view_of self.old.plane) }
        ensures promise { promise_of self.new.plane.board ≡ promise_of self.old.plane.board }
        ensures plane { self.new.plane ≡ record self.old.plane { objects = self.new.plane.objects } }
        ensures taken { IfSome result (λ o. pool.TookObject self.old.plane.objects self.new.plane.objects o kind) }
        ensures plies { IfSome result (λ o. HasNoPly self.new.plane.board o) }
        ensures untouched { IfNone result (self.new.plane ≡ self.old.plane) }
    {
        self.board.tells();
        let _ = self.table.count();
        self.pool.take(kind)
    }

    fn let_go(&mut self, object: u32)
        requires held { (view_of self.old.plane).is_held object ≡ true }
        requires promise { MayLetGo (promise_of self.old.plane.board) (view_of self.old.plane) object }
        ensures gone { IsLetGo (view_of self.old.plane) (view_of self.new.plane) object }
        ensures promise { promise_of self.new.plane.board ≡ promise_of self.old.plane.board }
        ensures swept { planes.IsSwept self.old.plane.board self.new.plane.board
            (planes.released self.old.plane object) self.new.plane.objects }
        ensures records { self.new.plane.records ≡ self.old.plane.records }
    {
        self.board.tells();
        let _ = self.table.count();
        sweep::drop_edge(&mut self.pool, &mut self.dying, Some(object));
        sweep::sweep(
            &mut self.board,
            &mut self.union,
            &mut self.pool,
            &mut self.dying,
        );
    }

    fn take_adj(
        &mut self,
        interface: u32,
        next_hop: Addr,
        mac: Option<Mac>,
    ) -> Result<Option<u32>, AllocError>
        requires few { (view_of self.old.plane).users (adjacency interface next_hop mac) < 2 ^ 32 - 1 }
        requires promise { MayClear (promise_of self.old.plane.board) (view_of self.old.plane) }
        ensures took { TookOne (view_of self.old.plane) (view_of self.new.plane) (adjacency interface next_hop mac) result }
        ensures stores { StoresEach (λ x s. (result ≡ Ok (Some x)) × (IsLive (view_of self.old.plane) x → ⊥))
            (view_of self.old.plane) (view_of self.new.plane) }
        ensures promise { promise_of self.new.plane.board ≡ promise_of self.old.plane.board }
        ensures plane { IfOk result (λ o. IfSome o
            (λ x. records.TookRecord self.old.plane self.new.plane (adjacency interface next_hop mac) x)) }
        ensures new { IfOk result (λ o. IfNone o (IsNew self.old.plane.records (adjacency interface next_hop mac))) }
        ensures none { IfOk result (λ o. IfNone o (self.new.plane ≡ self.old.plane)) }
        ensures err { OnErr result (self.new.plane ≡ self.old.plane) }
    {
        self.board.tells();
        let _ = self.table.count();
        let found = self
            .table
            .take_adj(&mut self.pool, interface, next_hop, mac)?;
        let taken = match found {
            Some(taken) => taken,
            None => return Ok(None),
        };
        if taken.fresh {
            let record = self.table.record(taken.object);
            records::fill(
                &mut self.board,
                &mut self.union,
                &self.pool,
                taken.object,
                &record,
            );
            return Ok(Some(taken.object));
        }
        Ok(Some(taken.object))
    }

    fn give_adj(&mut self, object: u32)
        requires record { IsRecord (view_of self.old.plane) object }
        requires promise { MayClear (promise_of self.old.plane.board) (view_of self.old.plane) }
        ensures stores { StoresEach (λ x s. IsFreed (view_of self.old.plane) (view_of self.new.plane) x)
            (view_of self.old.plane) (view_of self.new.plane) }
        ensures gave { (m : AdjacencyRecord) → (view_of self.old.plane).record_of m ≡ Some object
            → GaveRecord (view_of self.old.plane) (view_of self.new.plane) m }
        ensures promise { promise_of self.new.plane.board ≡ promise_of self.old.plane.board }
        ensures plane { records.GaveRecord self.old.plane self.new.plane object }
    {
        self.board.tells();
        let _ = self.table.count();
        if !self.table.give_adj(object) {
            return;
        }
        sweep::drop_edge(&mut self.pool, &mut self.dying, Some(object));
        sweep::sweep(
            &mut self.board,
            &mut self.union,
            &mut self.pool,
            &mut self.dying,
        );
    }

    fn scan(&mut self) -> u32
        requires { MayClear (promise_of self.old.plane.board) (view_of self.old.plane) }
        ensures alone { (promise_of self.old.plane.board).alone ≡ true → (view_of self.new.plane).retired ≡ [] }
        ensures scanned { IsScanned (view_of self.old.plane) (view_of self.new.plane) result }
        ensures promise { promise_of self.new.plane.board ≡ promise_of self.old.plane.board }
        ensures plane { planes.IsPlaneScanned self.old.plane self.new.plane }
    {
        self.board.tells();
        let _ = self.table.count();
        if self.union.retired() == 0 {
            return 0;
        }
        scan::look_all(&mut self.board, &mut self.union, &self.pool);
        scan::drop_left(
            &self.board,
            &mut self.union,
            &mut self.pool,
            &mut self.dying,
        );
        let left = self.union.retired();
        sweep::sweep(
            &mut self.board,
            &mut self.union,
            &mut self.pool,
            &mut self.dying,
        );
        left
    }

    ghost sound = { λ p. p.sound };
}
