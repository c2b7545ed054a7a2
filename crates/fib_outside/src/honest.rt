// The outside without faults.
ghost use Rattle.std.specs.Prelude.{◌≡◌, ◌++◌, ◌↔◌, [], Some, None, length, take, drop, min, unwrap_or, IsTrue, IfSome, IfOk, IsOk, IsOkAnd};
ghost use Rattle.fib_outside.specs.Outside.{Appends};
ghost use Rattle.fib_outside.specs.Memory.{files_in, file_of};

use crate::files::Files;
use crate::{Failed, Part, Shelf, Sink};
use std::alloc::Global;
use std::marker::Model;

/// Files in memory that are always there: a name that no file has holds no bytes. No call fails.
/// Contracts see it as a record of the files, the part that is open, and what is left of its file.
#[derive(Drop)]
pub struct HonestShelf {
    files: Files,
    fetched: Option<Part>,
}

impl Model for HonestShelf {
    ghost use Rattle.fib_outside.specs.Memory.{Honest};

    ghost Value = { Honest };

    ghost view = { λ s. record { files = s.files.files; fetched = s.fetched; left = s.files.left } };
}

impl HonestShelf {
    /// A shelf of these files; of two of one name the first counts.
    pub fn new(files: Vec<(String, Vec<u8>)>) -> HonestShelf
        ensures { result ≡ record { files = files_in files.items; fetched = None; left = [] } }
    {
        HonestShelf {
            files: Files::new(files),
            fetched: None,
        }
    }
}

impl Shelf for HonestShelf {
    ghost use Rattle.std.specs.Prelude.{[], Some, unwrap_or};
    ghost use Rattle.fib_outside.specs.Memory.{file_of};

    ghost holds = { λ s name. Some (unwrap_or (file_of s.files name) []) };

    ghost fetched = { λ s. s.fetched };

    ghost left = { λ s. Some s.left };

    ghost faults = { λ s part. 0 };

    /// Takes no memory.
    fn fetch(&mut self, part: Part, name: &str) -> Result<(), Failed>
        ensures ok { IsOk result }
        ensures after { self.new ≡ record self.old { fetched = Some part; left = unwrap_or (file_of self.old.files name.now) [] } }
    {
        let _ = self.files.open(name);
        self.fetched = Some(part);
        Ok(())
    }

    /// Takes no memory.
    fn read(&mut self, into: &mut [u8]) -> Result<usize, Failed>
        ensures ok { IsOkAnd result (λ n. n ≡ min (length into.old) (length self.old.left)) }
        ensures bytes { IfOk result (λ n. into.new ≡ take n self.old.left ++ drop n into.old) }
        ensures after { IfOk result (λ n. self.new ≡ record self.old { left = drop n self.old.left }) }
    {
        Ok(self.files.read(into))
    }
}

/// A stream in memory that never fails: where it lacks memory it takes the bytes all the same, and no longer tells what was
/// written. Contracts see what was written, while that is told.
#[derive(Drop)]
pub struct HonestSink {
    bytes: Vec<u8>,
    lost: bool,
}

impl Model for HonestSink {
    ghost use Rattle.std.specs.Prelude.{ℕ, List, Option, Some, None, if◌then◌else◌};

    ghost Value = { Option (List ℕ) };

    ghost view = { λ s. if s.lost then None else Some s.bytes.items };
}

impl HonestSink {
    /// A stream to which nothing was written. Takes no memory yet.
    pub fn new(alloc: Global) -> HonestSink
        ensures { result ≡ Some [] }
    {
        HonestSink {
            bytes: Vec::new(alloc),
            lost: false,
        }
    }

    /// Whether some bytes were lost for want of memory: what was written is no longer told, and never will be.
    pub fn lost(&self) -> bool
        ensures { IsTrue result ↔ (self.now ≡ None) }
    {
        self.lost
    }

    /// What was written, while that is told.
    pub fn bytes(&self) -> &[u8]
        ensures { IfSome self.now (λ written. result.now ≡ written) }
    {
        &self.bytes
    }
}

impl Sink for HonestSink {
    ghost written = { λ s. s };

    ghost faults = { λ s. 0 };

    /// Takes the whole piece. Where memory is wanted for it, what was written is told no longer.
    fn write(&mut self, bytes: &[u8]) -> Result<usize, Failed>
        ensures ok { IsOkAnd result (λ n. n ≡ length bytes.now) }
        ensures after { Appends self.old self.new bytes.now }
    {
        if !self.lost && self.bytes.extend_from_slice(bytes).is_err() {
            self.lost = true;
        }
        Ok(bytes.len())
    }
}
