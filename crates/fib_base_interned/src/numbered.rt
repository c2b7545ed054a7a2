// A store that gives its numbers itself.
ghost use Rattle.std.specs.Prelude.{◌≡◌, ◌<◌, ◌-◌, ◌^◌, ◌↔◌, [], length, Some, None, IsSome, IsTrue, IfOk, IfSome, IfNone, OnOk, OnErr, slice_get, option_map};
ghost use Rattle.fib_base_interned.specs.Interned.{Kept, kept_of, users_of, AreInterned, IsFound, IsAbsent, IsLastToGo, Takes, TakesBack, Gives, untaken};

use crate::Interned;
use indexmap::Equivalent;
use std::alloc::{AllocError, Global};
use std::hash::Hash;
use std::marker::Model;

/// Contents that are kept once, however many use them, each under a number that the store chose. Contracts see them in the order of
/// their places.
///
/// The numbers rise, so that a number stands for one content for as long as the store lives.
#[derive(Drop)]
pub struct Numbered<T: Eq + Hash> {
    rows: Interned<T>,
    next: u64,
}

impl<T: Eq + Hash> Model for Numbered<T> {
    ghost use Rattle.std.specs.Prelude.{List};
    ghost use Rattle.fib_base_interned.specs.Interned.{Kept};
    ghost use Rattle.fib_base_interned.specs.inner.Book.{AreBelow};

    ghost Value = { List (Kept T) };

    ghost view = { λ s. s.rows };

    ghost invariant = { λ s. AreBelow s.next s.rows };
}

impl<T: Eq + Hash + Drop> Numbered<T> {
    /// Nothing is kept. Takes no memory yet.
    pub fn new(alloc: Global) -> Numbered<T>
        ensures { result ≡ [] }
    {
        Numbered {
            rows: Interned::new(alloc),
            next: 0,
        }
    }

    /// How many contents are kept.
    pub fn count(&self) -> usize
        ensures count { result ≡ length self.now }
        ensures interned { AreInterned self.now }
    {
        self.rows.count()
    }

    /// The number at a place: places are the numbers below `count`, and any `give` may change the order.
    pub fn at(&self, place: usize) -> u64
        requires { place < length self.now }
        ensures { Some result ≡ option_map (λ k. k.id) (slice_get self.now place) }
    {
        self.rows.at(place)
    }

    /// Whether something is kept under the number.
    pub fn has(&self, id: u64) -> bool
        ensures { IsTrue result ↔ IsSome (kept_of self.now id) }
    {
        self.rows.has(id)
    }

    /// What is kept under a number.
    pub fn content(&self, id: u64) -> &T
        requires { IsSome (kept_of self.now id) }
        ensures { option_map (λ k. k.content) (kept_of self.now id) ≡ Some result.now }
    {
        self.rows.content(id)
    }

    /// How many use what is kept under a number.
    pub fn users(&self, id: u64) -> u32
        requires { IsSome (kept_of self.now id) }
        ensures count { result ≡ users_of self.now id }
        ensures some { 0 < result }
    {
        self.rows.users(id)
    }

    /// The number under which an equal content is kept. None exactly where none is kept.
    pub fn find<Q: Equivalent<T>>(&self, content: Q) -> Option<u64>
        ensures found { IfSome result (λ id. IsFound (Q.equivalent content) self.now id) }
        ensures absent { IfNone result (IsAbsent (Q.equivalent content) self.now) }
    {
        self.rows.find(content)
    }

    /// One user more of what is kept under a number. Takes no memory.
    pub fn hold(&mut self, id: u64)
        requires kept { IsSome (kept_of self.old id) }
        requires room { users_of self.old id < 2 ^ 32 - 1 }
        ensures held { (k : Kept T) → kept_of self.old id ≡ Some k → Takes self.old self.new k.content id }
        ensures interned { AreInterned self.new }
        ensures back { TakesBack self.old self.new id }
    {
        self.rows.hold(id);
    }

    /// Keeps a content under a number that nothing bears, with one user. After want of memory all is as before.
    pub fn add(&mut self, content: T) -> Result<u64, AllocError>
        requires { IsAbsent (T.eq content) self.old }
        ensures added { IfOk result (λ id. Takes self.old self.new content id) }
        ensures number { IfOk result (λ id. kept_of self.old id ≡ None) }
        ensures interned { OnOk result (AreInterned self.new) }
        ensures back { IfOk result (λ id. TakesBack self.old self.new id) }
        ensures err { OnErr result (self.new ≡ self.old) }
    {
        if self.next == u64::MAX {
            return Err(AllocError);
        }
        let id = self.next;
        self.rows.add(id, content)?;
        self.next += 1;
        Ok(id)
    }

    /// One user less of what is kept under a number: it is forgotten with its last user. True exactly where it is. Takes no memory.
    pub fn give(&mut self, id: u64) -> bool
        requires { IsSome (kept_of self.old id) }
        ensures given { Gives self.old self.new id }
        ensures forgotten { IsTrue result ↔ (kept_of self.new id ≡ None) }
        ensures interned { AreInterned self.new }
    {
        self.rows.give(id)
    }

    /// Takes back what was last taken under a number, of what wasn't taken back: all is as before that. Takes no memory.
    pub fn take_back(&mut self, id: u64)
        requires kept { IsSome (kept_of self.old id) }
        requires last { IsLastToGo self.old id }
        ensures back { self.new ≡ untaken id self.old }
        ensures given { Gives self.old self.new id }
        ensures interned { AreInterned self.new }
    {
        self.rows.take_back(id);
    }
}
