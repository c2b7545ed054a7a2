// Why a trial doesn't come to its end.
ghost use Rattle.std.specs.Prelude.{◌≡◌};

use fib_control::{ApplyError, BatchApplyError};
use fib_stack::Want;
use std::alloc::AllocError;

/// Why a trial stopped.
#[derive(Clone, Copy, Debug, PartialEq, Eq)]
pub enum Trouble {
    /// There was no memory.
    Memory,
    /// No object was free.
    Object,
    /// A change was refused, or a call may not be made.
    Refused,
    /// Turns, or a pass, had no end.
    Endless,
    /// A call answered otherwise than the trial wants.
    Otherwise,
}

impl From<AllocError> for Trouble {
    ghost use Rattle.trial_plain.specs.declared.trouble.Trouble.TheVariants.{Memory};

    ghost from_gives = { λ _ e. e ≡ Memory };

    fn from(_: AllocError) -> Trouble {
        Trouble::Memory
    }
}

/// What a call wanted.
pub fn of_want(want: Want) -> Trouble {
    match want {
        Want::Memory => Trouble::Memory,
        Want::Object => Trouble::Object,
    }
}

/// Why an edit wasn't made.
pub fn of_apply(error: ApplyError) -> Trouble {
    match error {
        ApplyError::Refused(_) => Trouble::Refused,
        ApplyError::Crowded { .. } => Trouble::Object,
        ApplyError::Memory => Trouble::Memory,
    }
}

/// Why several edits weren't made.
pub fn of_apply_all(error: BatchApplyError) -> Trouble {
    match error {
        BatchApplyError::Refused { .. } => Trouble::Refused,
        BatchApplyError::Crowded { .. } => Trouble::Object,
        BatchApplyError::Memory => Trouble::Memory,
    }
}
