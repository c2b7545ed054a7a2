// Entries that follow a script's edits, one by one, each of them also taken back: compared each time with the plain
// programs.
ghost use Rattle.std.specs.Prelude.{◌≡◌, IfOk, IfSome};
ghost use Rattle.fib_resolve.specs.Reachable.{IsWritten};
ghost use Rattle.fib_resolve.specs.Tables.{IsSound};
ghost use Rattle.fib_config.specs.Undone.{undone};

use crate::compared::{Part, difference, is_touched};
use fib_commands::{Line, LineError, Script, ScriptError, read_line};
use fib_config::{Config, EditError, Edited};
use fib_entries::{Change, Entries, FollowError, Touched};
use fib_resolve::Edit;
use std::alloc::{AllocError, Global};
use test_plain::{Snapshot, touched};

// More objects than any tables of a script take.
const ROOM: u32 = 1 << 30;

// A line after whose edit the entries are others than the plain programs say.
#[derive(Clone, Copy, Debug)]
pub struct Difference {
    pub line: u32,
    pub part: Part,
}

// Whether exactly the prefixes are told that the plain program says.
fn is_told(
    alloc: Global,
    before: &Config,
    after: &Config,
    told: &Touched,
) -> Result<bool, AllocError> {
    let wanted = touched(alloc, before.tables(), after.tables())?;
    Ok(is_touched(told, wanted.as_slice()))
}

// What of the entries is another than the plain programs say of these tables.
fn compare(alloc: Global, entries: &Entries, after: &Config) -> Result<Option<Part>, AllocError> {
    let snapshot = Snapshot::new(alloc, after.tables())?;
    difference(alloc, entries, &snapshot)
}

// Follows one change of the tables.
fn follow(
    alloc: Global,
    entries: &mut Entries,
    before: &Config,
    after: &Config,
    change: &Change,
) -> Result<Option<Part>, AllocError> {
    let followed = match entries.follow_changes(after, &[*change], ROOM) {
        Ok(followed) => followed,
        Err(FollowError::TooMany(_)) => return Ok(Some(Part::Size)),
        Err(FollowError::Memory) => return Err(AllocError),
    };
    if !is_told(alloc, before, after, &followed.touched)? {
        return Ok(Some(Part::Touched));
    }
    compare(alloc, entries, after)
}

// Takes back the edit that was made last, and follows.
fn follow_back(
    alloc: Global,
    config: &mut Config,
    entries: &mut Entries,
    edited: Edited,
) -> Result<Option<Part>, AllocError>
    requires { IsSound (undone edited.undo config.old.tables) }
{
    let made = config.copy()?;
    let Edited { change, undo } = edited;
    config.undo(undo);
    follow(alloc, entries, &made, config, &change)
}

// Makes the edit, takes it back and makes it again, and follows each time. A refused edit changes nothing.
fn follow_change(
    alloc: Global,
    before: &Config,
    config: &mut Config,
    entries: &mut Entries,
    edit: &Edit,
) -> Result<Option<Part>, AllocError>
    requires { IsWritten edit.now }
{
    let edited = match config.change(edit) {
        Ok(edited) => edited,
        Err(EditError::Memory) => return Err(AllocError),
        Err(_) => return Ok(None),
    };
    if let Some(part) = follow(alloc, entries, before, config, &edited.change)? {
        return Ok(Some(part));
    }
    if let Some(part) = follow_back(alloc, config, entries, edited)? {
        return Ok(Some(part));
    }
    match config.change(edit) {
        Ok(edited) => follow(alloc, entries, before, config, &edited.change),
        Err(_) => Err(AllocError),
    }
}

// The same beside a copy of the tables before. The prover follows every way out past every owner, so each owner has one.
fn follow_edit(
    alloc: Global,
    config: &mut Config,
    entries: &mut Entries,
    edit: &Edit,
) -> Result<Option<Part>, AllocError>
    requires { IsWritten edit.now }
{
    let before = config.copy()?;
    follow_change(alloc, &before, config, entries, edit)
}

// The edit of a line, where it is one.
pub fn edit_of(alloc: Global, text: &[u8]) -> Result<Option<Edit>, AllocError>
    ensures { IfOk result (λ found. IfSome found IsWritten) }
{
    match read_line(alloc, text) {
        Ok(Line::Change(edit)) => Ok(Some(edit)),
        Ok(_) => Ok(None),
        Err(LineError::Memory) => Err(AllocError),
        Err(LineError::Syntax) => Ok(None),
    }
}

// The first difference after a line of the script; None where there is none. A batch's edits are followed one by one.
fn follow_lines(
    alloc: Global,
    script: &Script,
    config: &mut Config,
    entries: &mut Entries,
) -> Result<Option<Difference>, AllocError> {
    for line in 1..script.lines() + 1 {
        let Some(edit) = edit_of(alloc, script.line(line))? else {
            continue;
        };
        if let Some(part) = follow_edit(alloc, config, entries, &edit)? {
            return Ok(Some(Difference { line, part }));
        }
    }
    Ok(None)
}

// By entries of their own.
fn follow_over(
    alloc: Global,
    script: &Script,
    config: &mut Config,
) -> Result<Option<Difference>, AllocError> {
    let mut entries = Entries::new(alloc)?;
    follow_lines(alloc, script, config, &mut entries)
}

// Over tables of their own.
fn follow_fresh(alloc: Global, script: &Script) -> Result<Option<Difference>, AllocError> {
    let mut config = Config::new(alloc, ROOM)?;
    follow_over(alloc, script, &mut config)
}

// The first difference in what the entries know; None where there is none.
pub fn follow_script(alloc: Global, bytes: &[u8]) -> Result<Option<Difference>, ScriptError> {
    let script = Script::read(alloc, bytes)?;
    Ok(follow_fresh(alloc, &script)?)
}
