// The results that a worker keeps.
ghost use Rattle.std.specs.Prelude.{◌≡◌, ◌<◌, ◌≤◌, ◌+◌, ◌-◌, ◌^◌, ◌++◌, ◌∷◌, [], IfOk, min};

use fib_core::Record;
use std::alloc::{AllocError, Global};
use std::marker::Model;

/// Results with their packets' numbers, and room for more.
#[derive(Drop)]
pub struct Results {
    held: Vec<(u32, Record)>,
}

impl Model for Results {
    ghost use Rattle.std.specs.Prelude.{◌-◌, vec_len, vec_capacity};
    ghost use Rattle.fib_worker_crew.specs.Results.{Kept};

    ghost Value = { Kept };

    ghost view = { λ r. record { list = r.held.items; spare = vec_capacity r.held - vec_len r.held } };
}

impl Results {
    /// None yet, and room for so many.
    pub fn new(alloc: Global, room: u32) -> Result<Results, AllocError>
        ensures empty { IfOk result (λ r. r.list ≡ []) }
        ensures room { IfOk result (λ r. room ≤ r.spare) }
    {
        Ok(Results {
            held: Vec::with_capacity(alloc, room as usize)?,
        })
    }

    /// The results so far, each with its packet's number.
    pub fn list(&self) -> &[(u32, Record)]
        ensures { result.now ≡ self.now.list }
    {
        &self.held
    }

    /// How many more results there is room for, 4,294,967,295 at most.
    pub fn spare(&self) -> u32
        ensures { result ≡ min self.now.spare (2 ^ 32 - 1) }
    {
        let spare = self.held.capacity() - self.held.len();
        u32::try_from(spare).unwrap_or(u32::MAX)
    }

    /// One more result, for which there must be room. Takes no memory.
    pub fn push(&mut self, number: u32, answer: Record)
        requires { 0 < self.old.spare }
        ensures list { self.new.list ≡ self.old.list ++ (number, answer) ∷ [] }
        ensures spare { self.old.spare ≤ self.new.spare + 1 }
    {
        self.held.push_reserved((number, answer));
    }
}
