// How an edit fails.
ghost use Rattle.std.specs.Prelude.{◌≡◌};

use fib_resolve::Refusal;
use std::alloc::AllocError;

/// Why an edit was not made.
#[derive(Clone, Copy, PartialEq, Eq, Debug)]
pub enum EditError {
    /// The first reason that applies.
    Refused(Refusal),
    /// There was no memory for the edited tables.
    Memory,
}

impl From<AllocError> for EditError {
    ghost use Rattle.fib_config.specs.declared.errors.EditError.TheVariants.{Memory};

    ghost from_gives = { λ _ e. e ≡ Memory };

    fn from(_: AllocError) -> EditError {
        EditError::Memory
    }
}

/// Why several edits were not made.
#[derive(Clone, Copy, PartialEq, Eq, Debug)]
pub enum BatchError {
    /// The edit at that place, counted from 0, is the first that is refused on the tables that those before it give.
    Refused { place: u32, refusal: Refusal },
    /// There was no memory for the edited tables.
    Memory,
}

impl From<AllocError> for BatchError {
    ghost use Rattle.fib_config.specs.declared.errors.BatchError.TheVariants.{Memory};

    ghost from_gives = { λ _ e. e ≡ Memory };

    fn from(_: AllocError) -> BatchError {
        BatchError::Memory
    }
}
