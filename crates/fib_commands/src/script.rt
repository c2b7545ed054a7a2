// The lines of a command file.
ghost use Rattle.std.specs.Prelude.{◌≡◌, ◌≤◌, ◌<◌, ◌-◌, List as Items, Some, length, slice_get, IfOk, IsErrOf};
ghost use Rattle.fib_base_lines.specs.Lines.{lines_of};
ghost use Rattle.fib_commands.specs.declared.script.ScriptError.TheVariants.{TooManyLines, Memory};

use fib_base_lines::cut_line;
use fib_resolve::List;
use std::alloc::{AllocError, AllocFailed, Global};
use std::marker::Model;

/// The most lines of a command file.
pub const MOST_LINES: usize = 65_535;

/// Why a command file's lines were not read.
#[derive(Clone, Copy, Debug, PartialEq, Eq)]
pub enum ScriptError {
    /// There are more than 65,535 of them.
    TooManyLines,
    /// There was no memory for them.
    Memory,
}

impl From<AllocError> for ScriptError {
    ghost from_gives = { λ _ e. e ≡ Memory };

    fn from(_: AllocError) -> Self {
        ScriptError::Memory
    }
}

impl<T: Drop> From<AllocFailed<T>> for ScriptError {
    ghost from_gives = { λ _ e. e ≡ Memory };

    fn from(_: AllocFailed<T>) -> Self {
        ScriptError::Memory
    }
}

/// The lines of a command file, at most 65,535. Contracts see their list.
#[derive(Drop)]
pub struct Script {
    held: List<List<u8>>,
}

impl Model for Script {
    ghost use Rattle.std.specs.Prelude.{ℕ, List as Items, length, ◌≤◌};

    ghost Value = { Items (Items ℕ) };

    ghost view = { λ s. s.held };

    ghost invariant = { λ s. length s.held ≤ 65535 };
}

impl Script {
    /// The lines of a file: its pieces between line feeds, without one carriage return at the end of each. A last piece that is
    /// empty is no line. TooManyLines comes exactly where there are more than 65,535.
    pub fn read(alloc: Global, bytes: &[u8]) -> Result<Script, ScriptError>
        ensures lines { IfOk result (λ s. s ≡ lines_of bytes.now) }
        ensures few { IfOk result (λ s. length s ≤ 65535) }
        ensures many { IsErrOf result ScriptError.TooManyLines → 65535 < length (lines_of bytes.now) }
    {
        let held = read_lines(alloc, bytes)?;
        Ok(Script { held })
    }

    /// The number of lines, at most 65,535.
    pub fn lines(&self) -> u32
        ensures value { result ≡ length self.now }
        ensures bound { result ≤ 65535 }
    {
        self.held.len() as u32
    }

    /// The line of that number, counted from 1.
    pub fn line(&self, number: u32) -> &[u8]
        requires above { 0 < number }
        requires inside { number ≤ length self.now }
        ensures { slice_get self.now (number - 1) ≡ Some result.now }
    {
        self.held.as_slice()[(number - 1) as usize].as_slice()
    }
}

fn read_lines(alloc: Global, bytes: &[u8]) -> Result<List<List<u8>>, ScriptError>
    ensures lines { IfOk result (λ held. held ≡ lines_of bytes.now) }
    ensures few { IfOk result (λ held. length held ≤ 65535) }
    ensures many { IsErrOf result ScriptError.TooManyLines → 65535 < length (lines_of bytes.now) }
{
    let mut held = List::new(alloc);
    let mut rest = bytes;
    'lines: while let Some((line, after)) = cut_line(rest) {
        if held.len() >= MOST_LINES {
            return Err(ScriptError::TooManyLines);
        }
        held.push(List::from_vec(line.to_vec(alloc)?))?;
        rest = after;
    }
    Ok(held)
}
