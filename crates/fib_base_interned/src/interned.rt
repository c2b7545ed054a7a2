// A store whose numbers the caller gives.
ghost use Rattle.std.specs.Prelude.{◌≡◌, ◌<◌, ◌-◌, ◌+◌, ◌^◌, ◌↔◌, ℕ, [], length, map, Some, None, true, IsSome, IsTrue, IfOk, IfSome};
ghost use Rattle.std.specs.Prelude.{IfNone, OnOk, OnErr, slice_get, option_map};
ghost use Rattle.fib_base_interned.specs.Interned.{Kept, kept_of, users_of, AreInterned, IsFound, IsAbsent, IsLastToGo, Takes, TakesBack, Gives, untaken};

use indexmap::{Equivalent, IndexMap};
use std::alloc::{AllocError, Global};
use std::collections::HashMap;
use std::hash::Hash;
use std::marker::Model;

/// What is known of a content that is kept, beside the content.
#[derive(Clone, Copy, Debug)]
struct Held {
    id: u64,
    users: u32,
}

/// Contents that are kept once, however many use them, each under a number that the caller chose. Contracts see them in the order of
/// their places.
pub struct Interned<T: Eq + Hash> {
    rows: IndexMap<T, Held>,
    places: HashMap<u64, usize>,
}

// The prover follows what a drop does here, once, and not at every way out past an owner.
impl<T: Eq + Hash + Drop> Drop for Interned<T> {
    fn drop(self) {
        let Interned { rows: _, places: _ } = self;
    }
}

impl<T: Eq + Hash> Model for Interned<T> {
    ghost use Rattle.std.specs.Prelude.{List, map, nat_eq};
    ghost use Rattle.std.specs.HashMap.{get};
    ghost use Rattle.fib_base_interned.specs.Interned.{Kept};
    ghost use Rattle.fib_base_interned.specs.inner.Book.{IsBook, kept_with};

    ghost Value = { List (Kept T) };

    ghost view = { λ s. map (λ e. kept_with e.0 e.1.id e.1.users) s.rows.entries };

    ghost invariant = { λ s. IsBook (map (λ e. kept_with e.0 e.1.id e.1.users) s.rows.entries) (get nat_eq s.places) };
}

impl<T: Eq + Hash + Drop> Interned<T> {
    /// Nothing is kept. Takes no memory yet.
    pub fn new(alloc: Global) -> Interned<T>
        ensures { result ≡ [] }
    {
        Interned {
            rows: IndexMap::new(alloc),
            places: HashMap::new(alloc),
        }
    }

    /// How many contents are kept.
    pub fn count(&self) -> usize
        ensures count { result ≡ length self.now }
        ensures interned { AreInterned self.now }
    {
        self.rows.len()
    }

    /// The number at a place: places are the numbers below `count`, and any `give` may change the order.
    pub fn at(&self, place: usize) -> u64
        requires { place < length self.now }
        ensures { Some result ≡ option_map (λ k. k.id) (slice_get self.now place) }
    {
        let Some((_, held)) = self.rows.get_index(place) else {
            unreachable!()
        };
        held.id
    }

    /// Whether something is kept under the number.
    pub fn has(&self, id: u64) -> bool
        ensures { IsTrue result ↔ IsSome (kept_of self.now id) }
    {
        self.places.contains_key(&id)
    }

    /// What is kept under a number.
    pub fn content(&self, id: u64) -> &T
        requires { IsSome (kept_of self.now id) }
        ensures { option_map (λ k. k.content) (kept_of self.now id) ≡ Some result.now }
    {
        let place = self.place(id);
        let Some((content, _)) = self.rows.get_index(place) else {
            unreachable!()
        };
        content
    }

    /// How many use what is kept under a number.
    pub fn users(&self, id: u64) -> u32
        requires { IsSome (kept_of self.now id) }
        ensures count { result ≡ users_of self.now id }
        ensures some { 0 < result }
    {
        let place = self.place(id);
        let Some((_, held)) = self.rows.get_index(place) else {
            unreachable!()
        };
        held.users
    }

    /// The number under which an equal content is kept. None exactly where none is kept.
    pub fn find<Q: Equivalent<T>>(&self, content: Q) -> Option<u64>
        ensures found { IfSome result (λ id. IsFound (Q.equivalent content) self.now id) }
        ensures absent { IfNone result (IsAbsent (Q.equivalent content) self.now) }
    {
        let (_, _, held) = self.rows.get_full(content)?;
        Some(held.id)
    }

    /// One user more of what is kept under a number. Takes no memory.
    pub fn hold(&mut self, id: u64)
        requires kept { IsSome (kept_of self.old id) }
        requires room { users_of self.old id < 2 ^ 32 - 1 }
        ensures held { (k : Kept T) → kept_of self.old id ≡ Some k → Takes self.old self.new k.content id }
        ensures interned { AreInterned self.new }
        ensures back { TakesBack self.old self.new id }
    {
        let place = self.place(id);
        self.raise(place);
    }

    /// Keeps a content under a number, with one user. After want of memory all is as before.
    pub fn add(&mut self, id: u64, content: T) -> Result<(), AllocError>
        requires number { kept_of self.old id ≡ None }
        requires absent { IsAbsent (T.eq content) self.old }
        ensures added { OnOk result (Takes self.old self.new content id) }
        ensures interned { OnOk result (AreInterned self.new) }
        ensures back { OnOk result (TakesBack self.old self.new id) }
        ensures err { OnErr result (self.new ≡ self.old) }
    {
        let place = self.rows.len();
        self.places.reserve(1)?;
        self.rows.insert(content, Held { id, users: 1 })?;
        let Ok(_) = self.places.insert(id, place) else {
            unreachable!()
        };
        Ok(())
    }

    /// One user less of what is kept under a number: it is forgotten with its last user. True exactly where it is. Takes no memory.
    pub fn give(&mut self, id: u64) -> bool
        requires { IsSome (kept_of self.old id) }
        ensures given { Gives self.old self.new id }
        ensures forgotten { IsTrue result ↔ (kept_of self.new id ≡ None) }
        ensures interned { AreInterned self.new }
    {
        let place = self.place(id);
        if self.users(id) > 1 {
            self.lower(place);
            return false;
        }
        self.forget(place);
        true
    }

    /// Takes back what was last taken under a number, of what wasn't taken back: all is as before that. Takes no memory.
    pub fn take_back(&mut self, id: u64)
        requires kept { IsSome (kept_of self.old id) }
        requires last { IsLastToGo self.old id }
        ensures back { self.new ≡ untaken id self.old }
        ensures given { Gives self.old self.new id }
        ensures interned { AreInterned self.new }
    {
        // The count tells that the contents are interned: a number stands at one place.
        let _count = self.count();
        let place = self.place(id);
        if self.users(id) > 1 {
            self.lower(place);
        } else {
            self.forget(place);
        }
    }

    fn raise(&mut self, place: usize)
        requires within { place < length self.old }
        requires room { (k : Kept T) → slice_get self.old place ≡ Some k → k.users < 2 ^ 32 - 1 }
        ensures taken { (k : Kept T) → slice_get self.old place ≡ Some k → Takes self.old self.new k.content k.id }
        ensures interned { AreInterned self.new }
        ensures back { (k : Kept T) → slice_get self.old place ≡ Some k → TakesBack self.old self.new k.id }
    {
        let (_, held) = self.rows.pair_mut(place);
        held.users += 1;
    }

    fn lower(&mut self, place: usize)
        requires within { place < length self.old }
        requires held { (k : Kept T) → slice_get self.old place ≡ Some k → 1 < k.users }
        ensures given { (k : Kept T) → slice_get self.old place ≡ Some k → Gives self.old self.new k.id }
        ensures interned { AreInterned self.new }
        ensures back { (k : Kept T) → slice_get self.old place ≡ Some k → self.new ≡ untaken k.id self.old }
    {
        let (_, held) = self.rows.pair_mut(place);
        held.users -= 1;
    }

    fn forget(&mut self, place: usize)
        requires within { place < length self.old }
        requires held { (k : Kept T) → slice_get self.old place ≡ Some k → k.users ≡ 1 }
        ensures given { (k : Kept T) → slice_get self.old place ≡ Some k → Gives self.old self.new k.id }
        ensures interned { AreInterned self.new }
        ensures back { (k : Kept T) → slice_get self.old place ≡ Some k → place + 1 ≡ length self.old → self.new ≡ untaken k.id self.old }
    {
        let Some((_, gone)) = self.rows.swap_remove_index(place) else {
            unreachable!()
        };
        self.places.remove(&gone.id);
        if let Some((_, moved)) = self.rows.get_index(place) {
            let moved = moved.id;
            if let Some(spot) = self.places.get_mut(&moved) {
                *spot = place;
            }
        }
    }

    fn place(&self, id: u64) -> usize
        requires { IsSome (kept_of self.now id) }
        ensures { slice_get self.now result ≡ kept_of self.now id }
    {
        let Some(place) = self.places.get(&id) else {
            unreachable!()
        };
        *place
    }
}
