// The real outside, which tells nothing of what it holds.
ghost use Rattle.std.specs.Prelude.{◌≡◌, ◌≤◌, ◌<◌, length, None, IfOk};
ghost use Rattle.fib_outside.specs.declared.part.Part.{Part};

use crate::faults::Faults;
use crate::{Failed, Part, Shelf, Sink};
use std::fs::File;
use std::io::{ErrorKind, Read};
use std::rt::Files;

/// The files of the system.
#[derive(Drop)]
pub struct FileShelf<R: Files + Drop> {
    rt: R,
    current: Option<(Part, R::File)>,
    faults: Faults,
}

impl<R: Files + Drop> FileShelf<R> {
    /// The files of this runtime, of which none is open.
    pub fn new(rt: R) -> Self
        ensures closed { ⟦<FileShelf<R> as Shelf>⟧.fetched result ≡ None }
        ensures faults { (part : Part) → ⟦<FileShelf<R> as Shelf>⟧.faults result part ≡ 0 }
    {
        FileShelf {
            rt,
            current: None,
            faults: Faults::new(),
        }
    }
}

// Reads once, and again where a signal came in between.
fn read_some<F: Read>(file: &mut F, into: &mut [u8]) -> Result<usize, Failed>
    ensures { IfOk result (λ n. n ≤ length into.old) }
{
    for _ in 0..u64::MAX {
        match file.read(into) {
            Ok(len) => return Ok(len),
            Err(error) if error.kind() == ErrorKind::Interrupted => {}
            Err(_) => return Err(Failed),
        }
    }
    Err(Failed)
}

impl<R: Files + Drop> Shelf for FileShelf<R> {
    ghost use Rattle.std.specs.Prelude.{option_map};
    ghost use Rattle.fib_outside.specs.FaultCounts.{count_of};

    ghost holds = { λ s name. None };

    ghost fetched = { λ s. option_map (λ file. file.0) s.current };

    ghost left = { λ s. None };

    ghost faults = { λ s part. count_of s.faults part };

    fn fetch(&mut self, part: Part, name: &str) -> Result<(), Failed> {
        match File::open(&self.rt, name) {
            Ok(file) => {
                self.current = Some((part, file));
                Ok(())
            }
            Err(_) => {
                self.current = None;
                self.faults.raise(part);
                Err(Failed)
            }
        }
    }

    fn read(&mut self, into: &mut [u8]) -> Result<usize, Failed> {
        let Some((part, file)) = &mut self.current else {
            unreachable!()
        };
        match read_some(file, into) {
            Ok(len) => Ok(len),
            Err(failed) => {
                self.faults.raise(*part);
                Err(failed)
            }
        }
    }
}

/// The standard output.
#[derive(Drop)]
pub struct StandardOut<R: Print + Drop> {
    rt: R,
    faults: u64,
}

impl<R: Print + Drop> StandardOut<R> {
    /// The standard output of this runtime.
    pub fn new(rt: R) -> Self
        ensures { ⟦<StandardOut<R> as Sink>⟧.faults result ≡ 0 }
    {
        StandardOut { rt, faults: 0 }
    }
}

// Writes some of the bytes, at least one of a piece that is not empty; again where a signal came in between.
fn write_some<R: Print>(rt: &R, bytes: &[u8]) -> Result<usize, Failed>
    ensures within { IfOk result (λ n. n ≤ length bytes.now) }
    ensures progress { IfOk result (λ n. 0 < length bytes.now → 0 < n) }
{
    for _ in 0..u64::MAX {
        match rt.write_some(bytes) {
            Ok(len) if len > 0 || bytes.is_empty() => return Ok(len),
            Err(error) if error.kind() == ErrorKind::Interrupted => {}
            _ => return Err(Failed),
        }
    }
    Err(Failed)
}

impl<R: Print + Drop> Sink for StandardOut<R> {
    ghost written = { λ s. None };

    ghost faults = { λ s. s.faults };

    fn write(&mut self, bytes: &[u8]) -> Result<usize, Failed> {
        match write_some(&self.rt, bytes) {
            Ok(len) => Ok(len),
            Err(failed) => {
                self.faults = self.faults.saturating_add(1);
                Err(failed)
            }
        }
    }
}

/// The standard error.
#[derive(Drop)]
pub struct StandardError<R: Print + Drop> {
    out: StandardOut<R>,
}

impl<R: Print + Drop> StandardError<R> {
    /// The standard error, as a runtime's `stderr` gives it.
    pub fn new(stderr: R) -> Self
        ensures { ⟦<StandardError<R> as Sink>⟧.faults result ≡ 0 }
    {
        StandardError {
            out: StandardOut::new(stderr),
        }
    }
}

impl<R: Print + Drop> Sink for StandardError<R> {
    ghost written = { λ s. None };

    ghost faults = { λ s. ⟦<StandardOut<R> as Sink>⟧.faults s.out };

    fn write(&mut self, bytes: &[u8]) -> Result<usize, Failed> {
        self.out.write(bytes)
    }
}
