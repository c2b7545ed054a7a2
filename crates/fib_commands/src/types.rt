// What a line says, and why it says nothing.
ghost use Rattle.std.specs.Prelude.{◌≡◌};
ghost use Rattle.fib_commands.specs.declared.types.LineError.TheVariants.{Memory, Syntax};

use fib_addr::{Addr, BadText};
use fib_resolve::Edit;
use std::alloc::{AllocError, AllocFailed};

/// What a line of a command file says.
#[derive(Drop)]
pub enum Line {
    /// A line without a word, or a comment.
    Nothing,
    /// A change of the tables.
    Change(Edit),
    /// `lookup ADDRESS HASH`.
    Lookup(Addr, u32),
    /// `show ip fib`.
    ShowFib,
    /// `show fib path-lists`.
    ShowPathLists,
    /// `show adj`.
    ShowAdj,
    /// `forward N`: the next N packets of the capture.
    Forward(u32),
    /// `begin`: the changes up to the next `commit` are one.
    Begin,
    /// `commit`.
    Commit,
}

/// Why a line was not read.
#[derive(Clone, Copy, Debug, PartialEq, Eq)]
pub enum LineError {
    /// No form of the grammar gives the line.
    Syntax,
    /// There was no memory for a name or a list of paths.
    Memory,
}

impl From<AllocError> for LineError {
    ghost from_gives = { λ _ e. e ≡ Memory };

    fn from(_: AllocError) -> Self {
        LineError::Memory
    }
}

impl<T: Drop> From<AllocFailed<T>> for LineError {
    ghost from_gives = { λ _ e. e ≡ Memory };

    fn from(_: AllocFailed<T>) -> Self {
        LineError::Memory
    }
}

impl From<BadText> for LineError {
    ghost from_gives = { λ _ e. e ≡ Syntax };

    fn from(_: BadText) -> Self {
        LineError::Syntax
    }
}
