// Who is told of results.
ghost use Rattle.std.specs.Prelude.{◌≡◌, ◌≤◌, ◌++◌, ◌∷◌, [], ℕ, List, Option, Some, None, OnOk, OnErr, IsErrOf, IsOk};
ghost use Rattle.fib_outside.specs.Outside.{HasRisen};
ghost use Rattle.fib_rounds_taps.specs.Taps.{Takes};
ghost use Rattle.fib_rounds_taps.specs.declared.tap.TapFault.TheVariants.{Memory as MemoryFault};
ghost use Rattle.fib_core_results.specs.declared.record.Record.{Record as RecordValue};

use fib_core_results::Record;
use std::alloc::{AllocError, Global};
use std::marker::Model;

/// Why a result was not taken.
#[derive(Clone, Copy, Debug, PartialEq, Eq)]
pub enum TapFault {
    /// The tap failed, and counted that.
    Fault,
    /// Memory was wanted.
    Memory,
}

impl From<AllocError> for TapFault {
    ghost from_gives = { λ _ e. e ≡ MemoryFault };

    fn from(_: AllocError) -> Self {
        TapFault::Memory
    }
}

/// Who is told of results as they are printed.
pub trait Tap {
    ghost use Rattle.fib_core_results.specs.declared.record.Record.{Record};

    /// The results that were taken, each with its packet's number, where that is told.
    ghost taken: { Self → Option (List (ℕ × Record)) };

    /// How often it has failed. The count never falls, and one that stands at 2^64 - 1 counts as risen.
    ghost faults: { Self → ℕ };

    /// Takes one more. After a fault it has taken nothing.
    fn take(&mut self, place: u32, answer: &Record) -> Result<(), TapFault>
        ensures ok { OnOk result (Takes (taken self.old) (taken self.new) ((place, answer.now) ∷ [])) }
        ensures err { OnErr result (taken self.new ≡ taken self.old) }
        ensures fault { IsErrOf result TapFault.Fault → HasRisen (faults self.old) (faults self.new) }
        ensures counted { faults self.old ≤ faults self.new };
}

/// A tap that takes nothing down, and never fails.
#[derive(Drop)]
pub struct NoTap;

impl Tap for NoTap {
    ghost taken = { λ t. None };

    ghost faults = { λ t. 0 };

    fn take(&mut self, place: u32, answer: &Record) -> Result<(), TapFault>
        ensures { IsOk result }
    {
        Ok(())
    }
}

/// A tap that keeps what it takes.
#[derive(Drop)]
pub struct KeptTap {
    kept: Vec<(u32, Record)>,
}

impl Model for KeptTap {
    ghost use Rattle.std.specs.Prelude.{ℕ, List};
    ghost use Rattle.fib_core_results.specs.declared.record.Record.{Record};

    ghost Value = { List (ℕ × Record) };

    ghost view = { λ t. t.kept.items };
}

impl KeptTap {
    /// A tap that has taken nothing. Takes no memory yet.
    pub fn new(alloc: Global) -> KeptTap
        ensures { result ≡ [] }
    {
        KeptTap {
            kept: Vec::new(alloc),
        }
    }

    /// What it has taken.
    pub fn list(&self) -> &[(u32, Record)]
        ensures { result.now ≡ self.now }
    {
        &self.kept
    }
}

impl Tap for KeptTap {
    ghost taken = { λ t. Some t };

    ghost faults = { λ t. 0 };

    fn take(&mut self, place: u32, answer: &Record) -> Result<(), TapFault>
        ensures ok { OnOk result (self.new ≡ self.old ++ (place, answer.now) ∷ []) }
        ensures err { OnErr result (self.new ≡ self.old) }
        ensures fault { IsErrOf result TapFault.Fault → ⊥ }
    {
        match self.kept.push((place, *answer)) {
            Ok(()) => Ok(()),
            Err(_) => Err(TapFault::Memory),
        }
    }
}
