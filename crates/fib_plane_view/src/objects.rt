// Shared objects in the control plane's hands.
ghost use Rattle.std.specs.Prelude.{◌≡◌, ◌≢◌, ℕ, ◌+◌, ◌-◌, ◌^◌, ◌%◌, ◌<◌, ◌≤◌, ◌⊎◌, Option, Ok, Some, true, false, IfSome, IfNone, OnOk, OnErr, [], length};
ghost use Rattle.fib_core.specs.declared.word.Word.TheVariants as words;
ghost use Rattle.fib_pool.specs.declared.object.Kind.TheVariants as kinds;
ghost use Rattle.fib_pool.specs.declared.object.AdjacencyRecord.{AdjacencyRecord};
ghost use Rattle.fib_pool.specs.Records.{adjacency};
ghost use Rattle.fib_plane_view.specs.View.{Closes, Fills, GaveRecord, HasKind, HasRoom, IsEmpty, IsLetGo, IsLive, IsPlane, IsPut};
ghost use Rattle.fib_plane_view.specs.View.{IsRecord, IsScanned, IsStanding, IsTaken, LeadsElsewhere, TookOne, View, leads};
ghost use Rattle.fib_plane_view.specs.Promise.{MayClear, MayLetGo, MayPut, Promise};
ghost use Rattle.fib_plane_view.specs.Stores.{IsFreed, StoresEach};

use crate::put::Put;
use fib_addr::{Addr, Mac};
use fib_core::Word;
use fib_pool::Kind;
use std::alloc::AllocError;

/// Numbered objects of sixteen cells each, which workers read while the control plane changes them.
///
/// No call takes memory but `room` and `take_adj`. The calls ask that what workers are promised stays so; what is promised no call here changes.
pub trait Objects {
    /// Cells, edges, what is held, adjacency records, and counts.
    ghost view: { Self → View };

    /// The versions on which the promise rests.
    ghost promise: { Self → Promise };

    /// The word in a cell of an object that is in use.
    fn word(&self, object: u32, slot: u32) -> Word
        requires slot { slot < 16 }
        requires live { IsLive (view self.now) object }
        ensures { result ≡ (view self.now).cell object slot };

    /// How many objects are free.
    fn free(&self) -> u32
        ensures { result ≡ (view self.now).free };

    /// How many retired copies of edges are kept.
    fn retired(&self) -> u32
        ensures { result ≡ length (view self.now).retired };

    /// How many stores there were, modulo 2^64.
    fn stored(&self) -> u64
        ensures { result ≡ (view self.now).stored % 2 ^ 64 };

    /// How many more stores may replace an edge.
    fn spare(&self) -> u32
        ensures { result ≡ (view self.now).spare };

    /// Makes room for this many stores that replace an edge. After want of memory all but the room is as before.
    fn room(&mut self, stores: u32) -> Result<(), AllocError>
        ensures same { HasRoom (view self.old) (view self.new) }
        ensures room { OnOk result (stores ≤ (view self.new).spare) }
        ensures promise { promise self.new ≡ promise self.old };

    /// Puts a word into a cell of an object that is held, or of object 0, if it is not there and closes no cycle. There must be room where the
    /// cell holds an edge.
    fn put(&mut self, object: u32, slot: u32, word: Word) -> Put
        requires slot { slot < 16 }
        requires standing { IsStanding (view self.old) object }
        requires target { (y : ℕ) → leads word y → IsLive (view self.old) y }
        requires kind { HasKind (view self.old) object word }
        requires calm { (view self.old).is_ply object ≡ true → Closes (view self.old) object word → ⊥ }
        requires spare { (y : ℕ) → leads ((view self.old).cell object slot) y → 0 < (view self.old).spare }
        requires promise { MayPut (promise self.old) (view self.old) object slot word }
        ensures put { IsPut (view self.old) (view self.new) object slot word result }
        ensures stores { StoresEach (λ x s. ((x ≡ object) × (s ≡ slot)) ⊎ IsFreed (view self.old) (view self.new) x)
            (view self.old) (view self.new) }
        ensures promise { promise self.new ≡ promise self.old };

    /// Puts a word into each of the sixteen cells of an object that is held, whose cells are empty and to which no edge leads: as sixteen puts, the
    /// first cell first, each of which stores it. What is asked of a put is asked of each of them, in the view that those before it leave.
    fn fill(&mut self, object: u32, word: Word)
        requires empty { IsEmpty (view self.old) object }
        requires other { word ≢ words.Drop }
        requires target { LeadsElsewhere (view self.old) object word }
        requires kind { HasKind (view self.old) object word }
        requires promise { (s : ℕ) (m : View) → s < 16 → Fills (view self.old) object word s m
            → MayPut (promise self.old) m object s word }
        ensures fills { Fills (view self.old) object word 16 (view self.new) }
        ensures cells { (s : ℕ) → s < 16 → (view self.new).cell object s ≡ word }
        ensures stores { StoresEach (λ x s. (x ≡ object) × (s < 16)) (view self.old) (view self.new) }
        ensures promise { promise self.new ≡ promise self.old };

    /// Takes a free object as a ply or a balance, and holds it. None exactly where none is free.
    fn take(&mut self, kind: Kind) -> Option<u32>
        requires { kind ≢ kinds.Adjacency }
        ensures some { IfSome result (λ c. IsTaken (view self.old) (view self.new) kind c) }
        ensures none { IfNone result ((view self.old).free ≡ 0) }
        ensures same { IfNone result (view self.new ≡ view self.old) }
        ensures promise { promise self.new ≡ promise self.old };

    /// Holds the object no more.
    fn let_go(&mut self, object: u32)
        requires held { (view self.old).is_held object ≡ true }
        requires promise { MayLetGo (promise self.old) (view self.old) object }
        ensures gone { IsLetGo (view self.old) (view self.new) object }
        ensures promise { promise self.new ≡ promise self.old };

    /// The object of an adjacency record, with one user more. None exactly where no equal record is kept and no object is free.
    fn take_adj(
        &mut self,
        interface: u32,
        next_hop: Addr,
        mac: Option<Mac>,
    ) -> Result<Option<u32>, AllocError>
        requires few { (view self.old).users (adjacency interface next_hop mac) < 2 ^ 32 - 1 }
        requires promise { MayClear (promise self.old) (view self.old) }
        ensures took { TookOne (view self.old) (view self.new) (adjacency interface next_hop mac) result }
        ensures stores { StoresEach (λ x s. (result ≡ Ok (Some x)) × (IsLive (view self.old) x → ⊥)) (view self.old) (view self.new) }
        ensures promise { promise self.new ≡ promise self.old };

    /// One user less of the record whose object this is.
    fn give_adj(&mut self, object: u32)
        requires record { IsRecord (view self.old) object }
        requires promise { MayClear (promise self.old) (view self.old) }
        ensures stores { StoresEach (λ x s. IsFreed (view self.old) (view self.new) x) (view self.old) (view self.new) }
        ensures gave { (m : AdjacencyRecord) → (view self.old).record_of m ≡ Some object → GaveRecord (view self.old) (view self.new) m }
        ensures promise { promise self.new ≡ promise self.old };

    /// Lets retired edges go that every worker has passed. Answers how many are left.
    fn scan(&mut self) -> u32
        requires { MayClear (promise self.old) (view self.old) }
        ensures alone { (promise self.old).alone ≡ true → (view self.new).retired ≡ [] }
        ensures scanned { IsScanned (view self.old) (view self.new) result }
        ensures promise { promise self.new ≡ promise self.old };

    ghost sound: { (p : Self) → IsPlane (view p) };
}
