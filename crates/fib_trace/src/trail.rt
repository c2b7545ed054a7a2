// The loads of a pass.
ghost use Rattle.std.specs.Prelude.{◌≡◌, ◌<◌, ◌≤◌, ◌+◌, ◌++◌, ◌∷◌, [], length, IfOk};

use crate::load::Load;
use std::alloc::{AllocError, Global};
use std::marker::Model;

/// The loads of one pass, the first one first, and room for those of any pass over so many objects.
#[derive(Drop)]
pub struct Trail {
    loads: Vec<Load>,
    objects: u32,
}

impl Model for Trail {
    ghost use Rattle.std.specs.Prelude.{◌≤◌, ◌+◌, length, vec_capacity};
    ghost use Rattle.fib_trace.specs.Traces.{Trace};

    ghost Value = { Trace };

    ghost view = { λ t. record { loads = t.loads.items; objects = t.objects } };

    ghost invariant = { λ t. (t.objects + 2 ≤ vec_capacity t.loads) × (length t.loads.items ≤ t.objects + 2) };
}

impl Trail {
    /// No loads yet, and room for those of any pass over so many objects: a pass visits no object twice and loads one word of each, but three
    /// of an adjacency, where it ends.
    pub fn new(alloc: Global, objects: u32) -> Result<Trail, AllocError>
        ensures { IfOk result (λ t. t ≡ record { loads = []; objects = objects }) }
    {
        Ok(Trail {
            loads: Vec::with_capacity(alloc, objects as usize + 2)?,
            objects,
        })
    }

    /// The loads of the last pass, the first one first; none where no pass was traced.
    pub fn loads(&self) -> &[Load]
        ensures loads { result.now ≡ self.now.loads }
        ensures few { length result.now ≤ self.now.objects + 2 }
    {
        &self.loads
    }

    /// For how many objects there is room.
    pub fn objects(&self) -> u32
        ensures { result ≡ self.now.objects }
    {
        self.objects
    }

    // Forgets the loads.
    pub(crate) fn clear(&mut self)
        ensures { self.new ≡ record { loads = []; objects = self.old.objects } }
    {
        self.loads.clear();
    }

    // One load more, for which there is room.
    pub(crate) fn keep(&mut self, load: Load)
        requires { length self.old.loads < self.old.objects + 2 }
        ensures { self.new ≡ record { loads = self.old.loads ++ load ∷ []; objects = self.old.objects } }
    {
        self.loads.push_reserved(load);
    }
}
