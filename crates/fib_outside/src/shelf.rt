// Where a run's files come from.
ghost use Rattle.std.specs.Prelude.{◌≡◌, ◌≢◌, ◌++◌, ◌<◌, ◌≤◌, [], ℕ, List, Option, Some, None, true, false, length, take, drop, min};
ghost use Rattle.std.specs.Prelude.{if◌then◌else◌, IfOk, OnOk, OnErr, IsSome, is_ok, is_err};
ghost use Rattle.fib_outside.specs.Outside.{HasRisen, Consumes, IsAtEnd};
ghost use Rattle.fib_outside.specs.FaultCounts.{no_faults};
ghost use Rattle.fib_outside.specs.Memory.{files_in, fetch_fails, after_refusal, after_fetch, read_fails, after_read, after_read_fault};
ghost use Rattle.fib_outside.specs.Memory.{is_read_listed, new_shelf};

use crate::faults::Faults;
use crate::files::Files;
use crate::sink::is_listed;
use crate::{Failed, Part};
use std::marker::Model;

/// A place of files, of which one at a time is open.
pub trait Shelf {
    ghost use Rattle.fib_outside.specs.declared.part.Part.{Part};

    /// The bytes of a name, where they are told. No call changes them.
    ghost holds: { Self → List ℕ → Option (List ℕ) };

    /// The part of the last fetch, where that was Ok: its file is open.
    ghost fetched: { Self → Option Part };

    /// The bytes of the open file that were not read yet, where they are told.
    ghost left: { Self → Option (List ℕ) };

    /// How often the file of a part has failed. No count falls, and one that stands at 2^64 - 1 counts as risen.
    ghost faults: { Self → Part → ℕ };

    /// Opens the file of this name as the file of this part. A missing name is a fault of the part.
    fn fetch(&mut self, part: Part, name: &str) -> Result<(), Failed>
        ensures fetched { fetched self.new ≡ (if is_ok result then Some part else None) }
        ensures ok { OnOk result (left self.new ≡ holds self.old name.now) }
        ensures failed { OnErr result (HasRisen (faults self.old part) (faults self.new part)) }
        ensures counted { faults self.old part ≤ faults self.new part }
        ensures others { (other : Part) → other ≢ part → faults self.new other ≡ faults self.old other }
        ensures same { (file : List ℕ) → holds self.new file ≡ holds self.old file };

    /// Reads the next bytes of the open file, and answers how many. Where there is room for one, none is the end of the file.
    /// Where it fails it has taken no byte, and counted a fault of the open part.
    fn read(&mut self, into: &mut [u8]) -> Result<usize, Failed>
        requires { IsSome (fetched self.old) }
        ensures within { IfOk result (λ n. n ≤ length into.old) }
        ensures ok { IfOk result (λ n. Consumes (left self.old) (left self.new) (take n into.new)) }
        ensures end { IfOk result (λ n. 0 < length into.old → n ≡ 0 → IsAtEnd (left self.old)) }
        ensures failed { OnErr result ((part : Part) → fetched self.old ≡ Some part
            → HasRisen (faults self.old part) (faults self.new part)) }
        ensures err { OnErr result (left self.new ≡ left self.old) }
        ensures counted { (part : Part) → faults self.old part ≤ faults self.new part }
        ensures others { (other : Part) → fetched self.old ≢ Some other → faults self.new other ≡ faults self.old other }
        ensures fetched { fetched self.new ≡ fetched self.old }
        ensures same { (file : List ℕ) → holds self.new file ≡ holds self.old file };
}

/// Files in memory, whose fetches and reads fail where they are told to. Contracts see it as a record of the files, the numbers of the
/// fetches and of the reads that fail, the fetches so far, the reads since the last of them, the part that is open, what is left of its
/// file, and the faults so far.
#[derive(Drop)]
pub struct MemoryShelf {
    files: Files,
    failing: Vec<u32>,
    failing_reads: Vec<(u32, u32)>,
    fetches: u64,
    last: u64,
    reads: u64,
    fetched: Option<Part>,
    faults: Faults,
}

impl Model for MemoryShelf {
    ghost use Rattle.fib_outside.specs.Memory.{Shelf as ShelfState};

    ghost Value = { ShelfState };

    ghost view = { λ s. record {
      files = s.files.files;
      failing = s.failing.items;
      failing_reads = s.failing_reads.items;
      fetches = s.fetches;
      last = s.last;
      reads = s.reads;
      fetched = s.fetched;
      left = s.files.left;
      faults = s.faults;
    } };
}

impl MemoryShelf {
    /// A shelf of these files; of two of one name the first counts. The fetches of the given numbers fail, counted from 0,
    /// and those of a name that no file has. No read fails.
    pub fn new(files: Vec<(String, Vec<u8>)>, failing: Vec<u32>) -> MemoryShelf
        ensures { result ≡ new_shelf (files_in files.items) failing.items [] }
    {
        let none = Vec::new(*failing.allocator());
        MemoryShelf::failing_reads(files, failing, none)
    }

    /// The same, whose reads fail too, exactly where they are listed: at `(f, r)` the read of number `r` since the fetch of number `f`,
    /// both counted from 0. A read that fails takes no byte, and counts a fault of the open part.
    pub fn failing_reads(
        files: Vec<(String, Vec<u8>)>,
        failing: Vec<u32>,
        reads: Vec<(u32, u32)>,
    ) -> MemoryShelf
        ensures { result ≡ new_shelf (files_in files.items) failing.items reads.items }
    {
        MemoryShelf {
            files: Files::new(files),
            failing,
            failing_reads: reads,
            fetches: 0,
            last: 0,
            reads: 0,
            fetched: None,
            faults: Faults::new(),
        }
    }
}

// Whether the read of that number since the fetch of that one is listed. None of more than 32 bits is.
fn is_read_listed(reads: &[(u32, u32)], fetch: u64, read: u64) -> bool
    ensures { result ≡ is_read_listed reads.now fetch read }
{
    reads
        .iter()
        .any(|r| u64::from(r.0) == fetch && u64::from(r.1) == read)
}

impl Shelf for MemoryShelf {
    ghost use Rattle.fib_outside.specs.Memory.{file_of};
    ghost use Rattle.fib_outside.specs.FaultCounts.{count_of};

    ghost holds = { λ s name. file_of s.files name };

    ghost fetched = { λ s. s.fetched };

    ghost left = { λ s. Some s.left };

    ghost faults = { λ s part. count_of s.faults part };

    /// Takes no memory.
    fn fetch(&mut self, part: Part, name: &str) -> Result<(), Failed>
        ensures ok { OnOk result (fetch_fails self.old name.now ≡ false) }
        ensures err { OnErr result (fetch_fails self.old name.now ≡ true) }
        ensures after { self.new ≡ (if fetch_fails self.old name.now then after_refusal self.old part else after_fetch self.old part
            name.now) }
    {
        let number = self.fetches;
        self.fetches = number.saturating_add(1);
        self.last = number;
        self.reads = 0;
        if is_listed(&self.failing, number) || !self.files.open(name) {
            self.files.close();
            self.fetched = None;
            self.faults.raise(part);
            return Err(Failed);
        }
        self.fetched = Some(part);
        Ok(())
    }

    /// Takes no memory.
    fn read(&mut self, into: &mut [u8]) -> Result<usize, Failed>
        ensures failing { is_err result ≡ read_fails self.old }
        ensures len { IfOk result (λ n. n ≡ min (length into.old) (length self.old.left)) }
        ensures bytes { IfOk result (λ n. into.new ≡ take n self.old.left ++ drop n into.old) }
        ensures after { IfOk result (λ n. self.new ≡ after_read self.old n) }
        ensures unread { OnErr result (into.new ≡ into.old) }
        ensures fault { OnErr result (self.new ≡ after_read_fault self.old) }
    {
        let number = self.reads;
        self.reads = number.saturating_add(1);
        if is_read_listed(&self.failing_reads, self.last, number) {
            if let Some(part) = self.fetched {
                self.faults.raise(part);
            }
            return Err(Failed);
        }
        Ok(self.files.read(into))
    }
}
