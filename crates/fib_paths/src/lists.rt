// Kept path-lists.
ghost use Rattle.std.specs.Prelude.{◌≡◌, ◌≢◌, ◌<◌, ◌-◌, ◌^◌, [], length, Some, IsSome, IsTrue, ◌↔◌, IfOk, IfSome, IfNone, OnErr, Contains};
ghost use Rattle.std.specs.Prelude.{slice_get, option_map};
ghost use Rattle.fib_base_interned.specs.Interned.{kept_of, users_of, untaken, AreInterned, IsLastToGo, Takes, TakesBack, Gives};
ghost use Rattle.fib_paths.specs.PathLists.{IsUsedLess, KeptList};

use fib_base_interned::Numbered;
use fib_resolve::Path;
use std::alloc::{AllocError, Global};
use std::marker::Model;

/// The number of a kept path-list. No number is given twice.
#[derive(Clone, Copy, PartialEq, Eq, PartialOrd, Ord, Debug, Hash)]
pub struct PathListId(u64);

impl Model for PathListId {
    ghost use Rattle.std.specs.Prelude.{ℕ};

    ghost Value = { ℕ };

    ghost view = { λ s. s.0 };

    ghost inverse = { λ n. record { 0 = n } };
}

/// Path-lists that are kept once, however many use them. Contracts see them in the order of their places.
#[derive(Drop)]
pub struct PathLists {
    rows: Numbered<Vec<Path>>,
    alloc: Global,
}

impl Model for PathLists {
    ghost use Rattle.std.specs.Prelude.{List, map};
    ghost use Rattle.fib_resolve.specs.declared.types.Path.{Path as PathValue};
    ghost use Rattle.fib_base_interned.specs.Interned.{Kept};
    ghost use Rattle.fib_paths.specs.inner.Vectors.{listed, AreApart};

    ghost Value = { List (Kept (List PathValue)) };

    ghost view = { λ s. map listed s.rows };

    ghost invariant = { λ s. AreApart s.rows };
}

impl PathLists {
    /// No list is kept. Takes no memory yet.
    pub fn new(alloc: Global) -> PathLists
        ensures { result ≡ [] }
    {
        PathLists {
            rows: Numbered::new(alloc),
            alloc,
        }
    }

    /// The number of kept lists.
    pub fn count(&self) -> usize
        ensures count { result ≡ length self.now }
        ensures interned { AreInterned self.now }
    {
        self.rows.count()
    }

    /// The number of the list at that place: places are the numbers below `count`, and any `give` may change the order.
    pub fn at(&self, place: usize) -> PathListId
        requires { place < length self.now }
        ensures { Some result ≡ option_map (λ k. k.id) (slice_get self.now place) }
    {
        PathListId(self.rows.at(place))
    }

    /// The paths of a kept list.
    pub fn content(&self, id: PathListId) -> &[Path]
        requires { IsSome (kept_of self.now id) }
        ensures { option_map (λ k. k.content) (kept_of self.now id) ≡ Some result.now }
    {
        self.rows.content(id.0).as_slice()
    }

    /// How many use a kept list.
    pub fn users(&self, id: PathListId) -> u32
        requires { IsSome (kept_of self.now id) }
        ensures count { result ≡ users_of self.now id }
        ensures some { 0 < result }
    {
        self.rows.users(id.0)
    }

    /// The number of the list with that content; None exactly where none is kept.
    pub fn find(&self, content: &[Path]) -> Option<PathListId>
        ensures found { IfSome result (λ id. option_map (λ k. k.content) (kept_of self.now id) ≡ Some content.now) }
        ensures absent { IfNone result ((k : KeptList) → Contains self.now k → k.content ≢ content.now) }
    {
        match self.rows.find(content) {
            Some(id) => Some(PathListId(id)),
            None => None,
        }
    }

    /// Whether the list with that content, if there is one, may have a user more.
    pub fn has_room(&self, content: &[Path]) -> bool
        ensures { IsTrue result ↔ IsUsedLess self.now content.now (2 ^ 32 - 1) }
    {
        // The count tells that the lists are interned: each is there once, and has a user.
        let _count = self.rows.count();
        match self.rows.find(content) {
            Some(id) => self.rows.users(id) < u32::MAX,
            None => true,
        }
    }

    /// The number of the content: that of the equal list that is kept, which gets one user more, or that of a new list with one user.
    /// After want of memory all is as before.
    pub fn take(&mut self, content: &[Path]) -> Result<PathListId, AllocError>
        requires { IsUsedLess self.old content.now (2 ^ 32 - 1) }
        ensures taken { IfOk result (λ id. Takes self.old self.new content.now id) }
        ensures interned { AreInterned self.new }
        ensures back { IfOk result (λ id. TakesBack self.old self.new id) }
        ensures err { OnErr result (self.new ≡ self.old) }
    {
        // The count tells that the lists are interned: each is there once, and has a user.
        let _count = self.rows.count();
        if let Some(id) = self.rows.find(content) {
            self.rows.hold(id);
            return Ok(PathListId(id));
        }
        let copied = content.to_vec(self.alloc)?;
        let id = self.rows.add(copied)?;
        Ok(PathListId(id))
    }

    /// One user more of a kept list. Takes no memory.
    pub fn hold(&mut self, id: PathListId)
        requires kept { IsSome (kept_of self.old id) }
        requires room { users_of self.old id < 2 ^ 32 - 1 }
        ensures held { (k : KeptList) → kept_of self.old id ≡ Some k → Takes self.old self.new k.content id }
        ensures interned { AreInterned self.new }
    {
        self.rows.hold(id.0);
    }

    /// One user less: the list is forgotten with its last one. Takes no memory.
    pub fn give(&mut self, id: PathListId)
        requires { IsSome (kept_of self.old id) }
        ensures given { Gives self.old self.new id }
        ensures interned { AreInterned self.new }
    {
        self.rows.give(id.0);
    }

    /// Takes back what was last taken, of what wasn't taken back: all is as before that. Takes no memory.
    pub fn take_back(&mut self, id: PathListId)
        requires kept { IsSome (kept_of self.old id) }
        requires last { IsLastToGo self.old id }
        ensures back { self.new ≡ untaken id self.old }
        ensures interned { AreInterned self.new }
    {
        // The count tells that the vectors are interned: a number stands at one place.
        let _count = self.rows.count();
        self.rows.take_back(id.0);
    }
}
