// Where a run's output goes.
ghost use Rattle.std.specs.Prelude.{◌≡◌, ◌<◌, ◌≤◌, [], ℕ, List, Option, Some, length, take, true, false, if◌then◌else◌, IfOk, OnErr};
ghost use Rattle.fib_outside.specs.Outside.{HasRisen, Appends};
ghost use Rattle.fib_outside.specs.Memory.{is_listed, write_fails, after_fault, after_write};

use crate::Failed;
use std::alloc::{AllocError, Global};
use std::marker::Model;

/// A stream of output.
pub trait Sink {
    /// What was written to it, where that is told.
    ghost written: { Self → Option (List ℕ) };

    /// How often it has failed. The count never falls, and one that stands at 2^64 - 1 counts as risen.
    ghost faults: { Self → ℕ };

    /// Writes some of the bytes from the first on, and answers how many: of a piece that is not empty at least one.
    /// Where it fails it has written nothing, and counted a fault.
    fn write(&mut self, bytes: &[u8]) -> Result<usize, Failed>
        ensures within { IfOk result (λ n. n ≤ length bytes.now) }
        ensures progress { IfOk result (λ n. 0 < length bytes.now → 0 < n) }
        ensures ok { IfOk result (λ n. Appends (written self.old) (written self.new) (take n bytes.now)) }
        ensures failed { OnErr result (HasRisen (faults self.old) (faults self.new)) }
        ensures err { OnErr result (written self.new ≡ written self.old) }
        ensures counted { faults self.old ≤ faults self.new };
}

/// A stream in memory that fails where it is told to. Contracts see it as a record of what was written, its whole room, the
/// numbers of the writes that fail, the writes so far and the faults so far.
#[derive(Drop)]
pub struct MemorySink {
    bytes: Vec<u8>,
    room: usize,
    failing: Vec<u32>,
    writes: u64,
    faults: u64,
}

impl Model for MemorySink {
    ghost use Rattle.std.specs.Prelude.{◌≤◌, vec_len, vec_capacity};
    ghost use Rattle.fib_outside.specs.Memory.{Stream};

    ghost Value = { Stream };

    ghost view = { λ s. record {
      written = s.bytes.items;
      room = s.room;
      failing = s.failing.items;
      writes = s.writes;
      faults =
          s.faults;
    } };

    ghost invariant = { λ s. (vec_len s.bytes ≤ s.room) × (s.room ≤ vec_capacity s.bytes) };
}

impl MemorySink {
    /// A stream with room for so many bytes, for which it takes memory at once. The writes of the given numbers fail, counted
    /// from 0, and those of a piece longer than the room left.
    pub fn new(alloc: Global, room: u32, failing: Vec<u32>) -> Result<MemorySink, AllocError>
        ensures { IfOk result (λ s. s ≡ record { written = []; room = room; failing = failing.items; writes = 0; faults = 0 }) }
    {
        let room = room as usize;
        Ok(MemorySink {
            bytes: Vec::with_capacity(alloc, room)?,
            room,
            failing,
            writes: 0,
            faults: 0,
        })
    }

    /// What was written.
    pub fn bytes(&self) -> &[u8]
        ensures { result.now ≡ self.now.written }
    {
        &self.bytes
    }
}

// Whether a number is listed. None of more than 32 bits is.
pub fn is_listed(numbers: &[u32], number: u64) -> bool
    ensures { result ≡ is_listed numbers.now number }
{
    numbers.iter().any(|n| u64::from(*n) == number)
}

impl Sink for MemorySink {
    ghost written = { λ s. Some s.written };

    ghost faults = { λ s. s.faults };

    /// Writes the whole piece or nothing, and takes no memory.
    fn write(&mut self, bytes: &[u8]) -> Result<usize, Failed>
        ensures ok { IfOk result (λ n. (n ≡ length bytes.now) × (write_fails self.old bytes.now ≡ false)) }
        ensures err { OnErr result (write_fails self.old bytes.now ≡ true) }
        ensures after { self.new ≡ (if write_fails self.old bytes.now then after_fault self.old else after_write self.old bytes.now) }
    {
        let number = self.writes;
        self.writes = number.saturating_add(1);
        let fits = bytes.len() <= self.room - self.bytes.len();
        if is_listed(&self.failing, number) || !fits {
            self.faults = self.faults.saturating_add(1);
            return Err(Failed);
        }
        let Ok(()) = self.bytes.extend_from_slice(bytes) else {
            unreachable!()
        };
        Ok(bytes.len())
    }
}
