// The changes of a script, one after the other: an edit each, or the edits of a batch.
ghost use Rattle.std.specs.Prelude.{◌<◌, ◌^◌, IfOk, IfSome, length};
ghost use Rattle.std.specs.List.{AllByRecursion};
ghost use Rattle.fib_resolve.specs.Reachable.{IsWritten};
ghost use Rattle.test_cases.specs.Changes.{AreWritten};

use fib_commands::{Line, LineError, Script, read_line};
use fib_resolve::Edit;
use std::alloc::{AllocError, Global};

// A change of the tables.
#[derive(Drop)]
pub enum Change {
    One(Edit),
    Batch(Vec<Edit>),
}

// A script, and how many of its lines were read.
#[derive(Drop)]
pub struct Cursor<'a> {
    script: &'a Script,
    line: u32,
}

impl<'a> Cursor<'a> {
    pub fn new(script: &'a Script) -> Cursor<'a> {
        Cursor { script, line: 0 }
    }

    // The number of the line that was read last.
    pub fn line(&self) -> u32 {
        self.line
    }

    // The next line; None at the end.
    fn next_line(&mut self) -> Option<&'a [u8]> {
        if self.line >= self.script.lines() {
            return None;
        }
        self.line += 1;
        Some(self.script.line(self.line))
    }

    // The edits up to the batch's end. What else stands in the batch is passed over.
    fn batch(&mut self, alloc: Global) -> Result<Vec<Edit>, AllocError>
        ensures written { IfOk result (λ v. AllByRecursion IsWritten v.items) }
        ensures few { IfOk result (λ v. length v.items < 2 ^ 32) }
    {
        let mut edits = Vec::new(alloc);
        for _line in 0..self.script.lines() {
            let Some(text) = self.next_line() else {
                return Ok(edits);
            };
            match read_line(alloc, text) {
                Ok(Line::Change(edit)) => edits.push(edit)?,
                Ok(Line::Commit) => return Ok(edits),
                Err(LineError::Memory) => return Err(AllocError),
                _ => {}
            }
        }
        Ok(edits)
    }

    // The next change; None at the end.
    pub fn change(&mut self, alloc: Global) -> Result<Option<Change>, AllocError>
        ensures { IfOk result (λ found. IfSome found AreWritten) }
    {
        for _line in 0..self.script.lines() {
            let Some(text) = self.next_line() else {
                return Ok(None);
            };
            match read_line(alloc, text) {
                Ok(Line::Change(edit)) => return Ok(Some(Change::One(edit))),
                Ok(Line::Begin) => return Ok(Some(Change::Batch(self.batch(alloc)?))),
                Err(LineError::Memory) => return Err(AllocError),
                _ => {}
            }
        }
        Ok(None)
    }
}
