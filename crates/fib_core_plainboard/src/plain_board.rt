// The board as one value.
ghost use Rattle.std.specs.Prelude.{IfOk, None, Some, length, replicate, slice_index, slice_index_or, ◌*◌, ◌+◌, ◌<◌, ◌≡◌};
ghost use Rattle.fib_resolve.specs.declared.types.End.{End as Ending};
ghost use Rattle.fib_core.specs.Words.{IsWord, decoded};
ghost use Rattle.fib_core.specs.declared.stage.Stage.TheVariants.{Ended};
ghost use Rattle.fib_core_lawful.specs.Layout as layout;
ghost use Rattle.fib_core_board.specs.Told.{IsWithinLimits};
ghost use Rattle.fib_core_plainboard.specs.declared.running.Running.{Running as Kept};
ghost use Rattle.fib_core_plainboard.specs.Passes.{fresh_plain};
ghost use Rattle.fib_core_plainboard.specs.inner.Reads.{IsNext, IsReadable};

use crate::memory::{Memory, Room};
use crate::passes::Passes;
use crate::running::Running;
use fib_addr::{Addr, nibble};
use fib_core::{Record, Stage, Version, Word, adjacency_end, after_balance, after_ply};
use fib_core_board::Board;
use fib_core_lawful::{cell_word, pass_word, passes_left, version_word, words_for};
use fib_resolve::{End, Tables};
use std::alloc::{AllocError, Global};
use std::marker::Model;

/// A board whose words no other thread shares. Its passes are calls: a worker's number is out while its pass runs.
pub struct PlainBoard {
    /// The version, the pass words, the claim word and the cells, where a table that is shared has them.
    words: Vec<u64>,
    memory: Memory,
    passes: [Option<Running>; 8],
    objects: u32,
    workers: u32,
}

// The prover follows what a drop does here, once, and not at every way out past an owner.
impl Drop for PlainBoard {
    fn drop(self) {
        let PlainBoard {
            words: _,
            memory: _,
            passes: _,
            objects: _,
            workers: _,
        } = self;
    }
}

impl Model for PlainBoard {
    ghost use Rattle.fib_core_board.specs.Boards.{Board as Seen};
    ghost use Rattle.fib_core_plainboard.specs.inner.Sits.{HoldsBoard, IsPlain};

    ghost Value = { Seen };

    ghost view = { λ b. b.memory };

    ghost invariant = { λ b. IsPlain b.words.items b.memory × HoldsBoard b.objects b.workers b.passes b.memory };
}

// That many words, each 0.
fn zeros(alloc: Global, count: usize) -> Result<Vec<u64>, AllocError>
    ensures { IfOk result (λ v. v.items ≡ replicate count 0) }
{
    Ok(vec![in alloc; 0; count]?)
}

// The word in a cell.
fn word_at(words: &Vec<u64>, object: u32, slot: u32) -> Word
    requires inside { layout.cell_word (16 * object + slot) < length words.now.items }
    requires word { IsWord (slice_index words.now.items (layout.cell_word (16 * object + slot))) }
    ensures { result ≡ decoded (slice_index words.now.items (layout.cell_word (16 * object + slot))) }
{
    Word::decode(words[cell_word(object, slot)])
}

// One load of a ply's or a balance's cell, or the three words of an adjacency.
fn next_stage(words: &Vec<u64>, addr: Addr, hash: u32, stage: Stage) -> Stage
    requires { IsReadable words.now.items stage }
    ensures { IsNext words.now.items addr hash stage result }
{
    match stage {
        Stage::Ply { object, depth } => {
            let word = word_at(words, object, nibble(addr, depth) as u32);
            after_ply(word, depth, hash)
        }
        Stage::Balance { object, left } => {
            let word = word_at(words, object, left % 16);
            after_balance(word, left)
        }
        Stage::Adjacency { object } => {
            let interface = word_at(words, object, 0);
            let hop = word_at(words, object, 1);
            let mac = word_at(words, object, 2);
            Stage::Ended(adjacency_end(interface, hop, mac))
        }
        Stage::Ended(end) => Stage::Ended(end),
    }
}

// The pass at the stage to which the hop brings it.
fn hopped(words: &Vec<u64>, pass: Running) -> Running
    requires { IsReadable words.now.items pass.stage }
    ensures same { (result.addr ≡ pass.addr) × (result.hash ≡ pass.hash) × (result.lo ≡ pass.lo) }
    ensures next { IsNext words.now.items pass.addr pass.hash pass.stage result.stage }
{
    let stage = next_stage(words, pass.addr, pass.hash, pass.stage);
    Running {
        addr: pass.addr,
        hash: pass.hash,
        lo: pass.lo,
        stage,
    }
}

// A running pass.
fn running_pass(passes: &[Option<Running>; 8], worker: usize) -> Running
    requires { (r : Kept) × (slice_index_or passes.now worker None ≡ Some r) }
    ensures { slice_index_or passes.now worker None ≡ Some result }
{
    match passes[worker] {
        Some(pass) => pass,
        None => unreachable!(),
    }
}

// The address as a number of 32 bits.
fn bits_of(addr: Addr) -> u32
    ensures { result ≡ addr }
{
    addr.0
}

// The end of a stage that is one.
fn ended(stage: Stage) -> End
    requires { (e : Ending) × (stage ≡ Ended e) }
    ensures { stage ≡ Ended result }
{
    match stage {
        Stage::Ended(end) => end,
        Stage::Ply { .. } => unreachable!(),
        Stage::Balance { .. } => unreachable!(),
        Stage::Adjacency { .. } => unreachable!(),
    }
}

impl PlainBoard {
    /// A fresh board: each cell says Drop, the version is (0, 0), nothing is retired and no pass runs. It takes all the
    /// memory that it ever needs.
    ///
    /// From 64 to 131,072 objects, an even number, and from 1 to 8 workers.
    pub fn new(alloc: Global, objects: u32, workers: u32) -> Result<PlainBoard, AllocError>
        requires { IsWithinLimits objects workers }
        ensures { IfOk result (λ b. b ≡ fresh_plain objects workers) }
    {
        let words = zeros(alloc, words_for(objects))?;
        let memory = Memory::new(alloc, &Room { objects, workers })?;
        Ok(PlainBoard {
            words,
            memory,
            passes: [None; 8],
            objects,
            workers,
        })
    }
}

impl Passes for PlainBoard {
    ghost board = { λ b. b };

    ghost is_with = { λ b next c. c ≡ next };

    fn begin(&mut self, worker: u32, addr: Addr, hash: u32) {
        let place = worker as usize;
        let lo = Version::decode(self.words[version_word()]);
        self.words[pass_word(worker)] += 1;
        self.memory.send(worker as u64, bits_of(addr) as u64);
        self.memory.aim(worker as u64, hash as u64);
        self.passes[place] = Some(Running {
            addr,
            hash,
            lo,
            stage: Stage::first(),
        });
    }

    fn hop(&mut self, worker: u32) -> Option<End> {
        let place = worker as usize;
        let pass = hopped(&self.words, running_pass(&self.passes, place));
        let end = pass.stage.end();
        self.memory.hop(worker as u64);
        self.passes[place] = Some(pass);
        end
    }

    fn end(&mut self, worker: u32) -> Record {
        let place = worker as usize;
        let pass = running_pass(&self.passes, place);
        let hi = Version::decode(self.words[version_word()]);
        self.words[pass_word(worker)] += 1;
        self.memory.end(worker as u64);
        self.passes[place] = None;
        Record {
            addr: pass.addr,
            hash: pass.hash,
            lo: pass.lo,
            hi,
            end: ended(pass.stage),
        }
    }

    fn running(&self, worker: u32) -> bool {
        self.passes[worker as usize].is_some()
    }

    fn tells_of_passes(&self) {
        // The type's invariant tells it, once a field is used.
        let _objects = self.objects;
    }

    ghost boarded = { λ b c next same. same };
}

impl Board for PlainBoard {
    ghost view = { λ b. b };

    fn tells(&self) {
        // The type's invariant tells it, once a field is used.
        let _objects = self.objects;
    }

    fn objects(&self) -> u32 {
        self.objects
    }

    fn workers(&self) -> u32 {
        self.workers
    }

    fn version(&self) -> Version {
        Version::decode(self.words[version_word()])
    }

    fn load(&self, object: u32, slot: u32) -> Word {
        word_at(&self.words, object, slot)
    }

    fn store(&mut self, object: u32, slot: u32, word: Word) {
        let cell = 16 * object as u64 + slot as u64;
        let code = word.encode();
        self.memory.put(cell, code);
        self.words[cell_word(object, slot)] = code;
    }

    fn begin_version(&mut self, next: &Tables) {
        let place = version_word();
        let version = Version::decode(self.words[place]);
        let begun = Version {
            settled: version.settled,
            applied: version.applied + 1,
        };
        self.memory.begin_version(next);
        self.words[place] = begun.encode();
    }

    fn settle_version(&mut self) {
        let place = version_word();
        let version = Version::decode(self.words[place]);
        self.memory.settle_version();
        self.words[place] = Version::settled_at(version.applied).encode();
    }

    fn scan(&mut self, worker: u32) -> u64 {
        let word = self.words[pass_word(worker)];
        self.memory.look(worker as u64, word);
        word
    }

    fn passes_left(&self, worker: u32) -> u64 {
        passes_left(self.words[pass_word(worker)])
    }
}
