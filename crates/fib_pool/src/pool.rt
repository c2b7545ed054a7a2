// Objects by number.
ghost use Rattle.std.specs.Prelude.{◌≡◌, ℕ, ◌+◌, ◌-◌, ◌<◌, ◌≤◌, ◌^◌, ◌↔◌, length, slice_set, Some, None, IfOk, IfSome, IfNone, IsTrue};
ghost use Rattle.fib_pool.specs.Objects.{at, count_of, free_in, TookObject, IsLive, IsDying, with_count, as_new, fresh_objects};

use crate::object::{Kind, Object};
use std::alloc::{AllocError, Global};
use std::marker::Model;

/// The objects of a table, numbered from 0: which are free, and of the others the kind and the count. Contracts see what each object
/// is, and nothing where it is free. No call but `new` takes memory.
///
/// Object 0 is the root's ply.
pub struct Pool {
    objects: Vec<Option<Object>>,
    /// The free objects, the next to be taken last.
    idle: Vec<u32>,
}

// The prover follows what a drop does here, once, and not at every way out past an owner.
impl Drop for Pool {
    fn drop(self) {
        let Pool {
            objects: _,
            idle: _,
        } = self;
    }
}

impl Model for Pool {
    ghost use Rattle.std.specs.Prelude.{List, Option, vec_capacity};
    ghost use Rattle.fib_pool.specs.declared.object.Object.{Object as TakenObject};
    ghost use Rattle.fib_pool.specs.inner.Idle.{IsPool};

    ghost Value = { List (Option TakenObject) };

    ghost view = { λ p. p.objects.items };

    ghost invariant = { λ p. IsPool p.objects.items p.idle.items (vec_capacity p.idle) };
}

impl Pool {
    /// This many objects, of which 0 is a ply with count 1 and all others are free.
    pub fn new(alloc: Global, objects: u32) -> Result<Pool, AllocError>
        requires { 0 < objects }
        ensures { IfOk result (λ p. p ≡ fresh_objects objects) }
    {
        let mut all: Vec<Option<Object>> = Vec::from_elem(alloc, None, objects as usize)?;
        let mut idle = Vec::with_capacity(alloc, objects as usize)?;
        for number in 1..objects {
            idle.push(objects - number)?;
        }
        all[0] = Some(Object {
            kind: Kind::Ply,
            count: 1,
        });
        Ok(Pool { objects: all, idle })
    }

    /// An object that was free, now with this kind and count 1. None exactly where none is free.
    pub fn take(&mut self, kind: Kind) -> Option<u32>
        ensures taken { IfSome result (λ o. TookObject self.old self.new o kind) }
        ensures free { IfSome result (λ o. free_in self.new + 1 ≡ free_in self.old) }
        ensures none { IfNone result (free_in self.old ≡ 0) }
        ensures same { IfNone result (self.new ≡ self.old) }
    {
        let object = self.idle.pop()?;
        self.objects[object as usize] = Some(Object { kind, count: 1 });
        Some(object)
    }

    /// How often a live object is counted.
    pub fn count(&self, object: u32) -> u64
        requires { IsLive self.now object }
        ensures { result ≡ count_of self.now object }
    {
        match self.objects[object as usize] {
            Some(taken) => taken.count,
            None => 0,
        }
    }

    /// The kind of a live object.
    pub fn kind(&self, object: u32) -> Kind
        requires { IsLive self.now object }
        ensures { at self.now object ≡ Some record { kind = result; count = count_of self.now object } }
    {
        match self.objects[object as usize] {
            Some(taken) => taken.kind,
            None => Kind::Ply,
        }
    }

    /// Whether the object is free.
    pub fn is_free(&self, object: u32) -> bool
        requires { object < length self.now }
        ensures { IsTrue result ↔ (at self.now object ≡ None) }
    {
        self.objects[object as usize].is_none()
    }

    /// Counts a live object once more.
    pub fn hold(&mut self, object: u32)
        requires live { IsLive self.old object }
        requires few { count_of self.old object < 2 ^ 64 - 1 }
        ensures counted { self.new ≡ with_count self.old object (count_of self.old object + 1) }
        ensures free { free_in self.new ≡ free_in self.old }
    {
        if let Some(taken) = self.objects[object as usize] {
            self.objects[object as usize] = Some(Object {
                kind: taken.kind,
                count: taken.count + 1,
            });
        }
    }

    /// Counts a live object once less. True exactly where it is counted no more: it is then to be given back.
    pub fn release(&mut self, object: u32) -> bool
        requires { IsLive self.old object }
        ensures counted { self.new ≡ with_count self.old object (count_of self.old object - 1) }
        ensures free { free_in self.new ≡ free_in self.old }
        ensures last { IsTrue result ↔ (count_of self.old object ≡ 1) }
    {
        let Some(taken) = self.objects[object as usize] else {
            return false;
        };
        let count = taken.count - 1;
        self.objects[object as usize] = Some(Object {
            kind: taken.kind,
            count,
        });
        count == 0
    }

    /// Gives an object back that is counted no more: it is free then.
    pub fn put_back(&mut self, object: u32)
        requires { IsDying self.old object }
        ensures given { self.new ≡ slice_set self.old object None }
        ensures free { free_in self.new ≡ free_in self.old + 1 }
    {
        self.objects[object as usize] = None;
        if self.idle.push(object).is_err() {
            unreachable!();
        }
    }

    /// How many objects there are.
    pub fn len(&self) -> u32
        ensures { result ≡ length self.now }
    {
        self.objects.len() as u32
    }

    /// How many objects are free.
    pub fn free(&self) -> u32
        ensures { result ≡ free_in self.now }
    {
        self.idle.len() as u32
    }

    /// How many are not.
    pub fn used(&self) -> u32
        ensures { result ≡ length self.now - free_in self.now }
    {
        (self.objects.len() - self.idle.len()) as u32
    }
}
