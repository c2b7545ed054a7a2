// What is kept of a script between two lines.
ghost use Rattle.std.specs.Prelude.{IfSome, None, Some, ◌+◌, ◌-◌, ◌<◌, ◌^◌, ◌≡◌};
ghost use Rattle.fib_rounds_turns.specs.Routers.{begun_in, counted, new_batch, new_progress, one_refused, with_kept};
ghost use Rattle.fib_rounds_turns.specs.inner.Kept.{Fits, FitsLast};

use fib_resolve::{Edit, List};
use std::alloc::Global;
use std::marker::Model;

/// The changes of a batch that is not committed yet.
#[derive(Drop)]
pub struct Batch {
    /// The number of its `begin` line.
    pub begun: u32,
    /// Whether a line in it was refused.
    pub spoiled: bool,
    /// The numbers of the lines that wrote the edits, in order.
    pub lines: List<u32>,
    /// The edits, none of them made yet.
    pub edits: List<Edit>,
}

/// What is kept of a script between two lines, beside the tables: how many lines were run, how many of them were refused, and the batch in
/// which the next line stands.
#[derive(Drop)]
pub struct Progress {
    lines: u32,
    refused: u32,
    batch: Option<Batch>,
}

impl Model for Progress {
    ghost use Rattle.fib_rounds_turns.specs.Routers.{Progress as Seen};
    ghost use Rattle.fib_rounds_turns.specs.inner.Kept.{IsProgress};

    ghost Value = { Seen };

    ghost view = { λ p. record { lines = p.lines; refused = p.refused; batch = p.batch } };

    ghost invariant = { λ p. IsProgress (record { lines = p.lines; refused = p.refused; batch = p.batch }) };
}

impl Progress {
    /// Before the first line.
    pub fn new() -> Progress
        ensures { result ≡ new_progress }
    {
        Progress {
            lines: 0,
            refused: 0,
            batch: None,
        }
    }

    /// How many lines were run.
    pub fn lines(&self) -> u32
        ensures { result ≡ self.now.lines }
    {
        self.lines
    }

    /// How many of them were refused.
    pub fn refused(&self) -> u32
        ensures { result ≡ self.now.refused }
    {
        self.refused
    }

    /// The number of the `begin` line of the batch in which the next line stands.
    #[tactic(auto, using(crate::proofs::Progressing::begun_fewer))]
    pub fn begun(&self) -> Option<u32>
        ensures begun { result ≡ begun_in self.now.batch }
        ensures fewer { IfSome result (λ n. self.now.refused < self.now.lines) }
    {
        match &self.batch {
            Some(batch) => Some(batch.begun),
            None => None,
        }
    }

    // Counts the next line, and takes the batch out in which it stands.
    #[tactic(auto, using(crate::proofs::Progressing::taken_next, crate::proofs::Progressing::counted_kept))]
    pub(crate) fn next_line(&mut self) -> Option<Batch>
        requires { self.old.lines < 2 ^ 32 - 1 }
        ensures counted { self.new ≡ counted self.old }
        ensures batch { result ≡ self.old.batch }
        ensures taken { IfSome result (λ b. FitsLast self.new b) }
        ensures fewer { self.new.refused < self.new.lines }
    {
        self.lines += 1;
        self.batch.take()
    }

    // Counts a line that is refused. Fewer must have been refused than were run.
    #[tactic(auto, using(crate::proofs::Progressing::refused_kept))]
    pub(crate) fn refuse(&mut self)
        requires fewer { self.old.refused < self.old.lines }
        requires alone { self.old.batch ≡ None }
        ensures { self.new ≡ one_refused self.old }
    {
        self.refused += 1;
    }

    // Keeps a batch, which must fit.
    #[tactic(auto, using(crate::proofs::Progressing::batch_kept))]
    pub(crate) fn keep(&mut self, batch: Batch)
        requires { Fits self.old batch }
        ensures { self.new ≡ with_kept self.old batch }
    {
        self.batch = Some(batch);
    }

    // Opens a batch at the line that was counted last.
    #[tactic(auto, using(crate::proofs::Progressing::opened_kept))]
    pub(crate) fn open(&mut self, alloc: Global)
        requires { self.old.refused < self.old.lines }
        ensures { self.new ≡ with_kept self.old (new_batch self.old.lines) }
    {
        self.batch = Some(Batch {
            begun: self.lines,
            spoiled: false,
            lines: List::new(alloc),
            edits: List::new(alloc),
        });
    }
}
