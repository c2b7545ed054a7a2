// A control over a plain board that is driven by a script's changes, with turns, scans and retries mixed in between. Once
// it is quiet, what it looks up is compared with the plain program's resolution over its tables.
ghost use Rattle.std.specs.Prelude.{◌≡◌, ◌<◌, IfOk, OnOk};
ghost use Rattle.fib_resolve.specs.Tables.{IsSound};
ghost use Rattle.fib_control.specs.Controls.{IsQuiet};
ghost use Rattle.trial_plain.specs.Seats.{IsHome, IsRested, seats_in};
ghost use Rattle.test_cases.specs.Changes.{AreWritten};

use crate::changing::{Change, Cursor};
use crate::compared::Part;
use crate::dice::Dice;
use crate::followed::Difference;
use crate::passing::{drive_beneath, may_pass};
use fib_addr::{Addr, Prefix};
use fib_base_list::Duplicate;
use fib_commands::{Script, ScriptError};
use fib_control::Control;
use fib_core_plainboard::PlainBoard;
use fib_resolve::{End, Tables};
use fib_stack::Turn;
use std::alloc::{AllocError, Global};
use std::collections::HashSet;
use test_plain::{Snapshot, touched};
use trial_plain::alone::settle_alone;
use trial_plain::steps::{fresh_over, make, make_all, retry, scan, turn};
use trial_plain::trouble::Trouble;

// Twice as many as any tables of a script may take.
const OBJECTS: u32 = 16384;

// How many entries a comparison looks at.
const SAMPLES: u32 = 64;

// Nobody is out.
fn fresh(alloc: Global) -> Result<Control<PlainBoard>, AllocError>
    ensures { IfOk result (λ c. IsRested 0 (seats_in c)) }
{
    match fresh_over(alloc, OBJECTS) {
        Ok(control) => Ok(control),
        Err(_) => Err(AllocError),
    }
}

// A turn, if one is queued.
fn take_turn(control: &mut Control<PlainBoard>) -> Result<(), AllocError>
    ensures { OnOk result (seats_in control.new ≡ seats_in control.old) }
{
    match turn(control) {
        Ok(_) => Ok(()),
        Err(_) => Err(AllocError),
    }
}

// Some turns, perhaps a scan, and perhaps a retry.
pub fn work(control: &mut Control<PlainBoard>, dice: &mut Dice) -> Result<(), AllocError>
    ensures { OnOk result (seats_in control.new ≡ seats_in control.old) }
{
    for _turn in 0..dice.roll(6) {
        take_turn(control)?;
    }
    if dice.roll(2) == 0 {
        scan(control);
    }
    if dice.roll(2) == 0 {
        retry(control);
    }
    Ok(())
}

// Settles the last version.
pub fn settle(control: &mut Control<PlainBoard>) -> Result<(), AllocError>
    requires { IsHome (seats_in control.old) }
    ensures seats { seats_in control.new ≡ seats_in control.old }
    ensures quiet { OnOk result (IsQuiet control.new) }
{
    match settle_alone(control) {
        Ok(_) => Ok(()),
        Err(_) => Err(AllocError),
    }
}

// Makes the change, and answers the version.
pub fn apply(control: &mut Control<PlainBoard>, change: &Change) -> Result<u32, Trouble>
    requires { AreWritten change.now }
    ensures { seats_in control.new ≡ seats_in control.old }
{
    match change {
        Change::One(edit) => make(control, edit),
        Change::Batch(edits) => make_all(control, edits.as_slice()),
    }
}

// Makes the change, where it isn't refused; settles before where the control is crowded.
fn change_to(control: &mut Control<PlainBoard>, change: &Change) -> Result<bool, AllocError>
    requires written { AreWritten change.now }
    requires home { IsHome (seats_in control.old) }
    ensures { seats_in control.new ≡ seats_in control.old }
{
    match apply(control, change) {
        Ok(_) => return Ok(true),
        Err(Trouble::Refused) => return Ok(false),
        Err(Trouble::Object) => {}
        Err(_) => return Err(AllocError),
    }
    settle(control)?;
    match apply(control, change) {
        Ok(_) => Ok(true),
        Err(_) => Err(AllocError),
    }
}

fn ends_at(control: &Control<PlainBoard>, addr: Addr, hash: u32, wanted: &End) -> bool {
    control.lookup(addr, hash) == *wanted
}

// Whether a packet ends where resolution says.
fn looks_up(
    alloc: Global,
    control: &Control<PlainBoard>,
    snapshot: &Snapshot<'_>,
    addr: Addr,
    hash: u32,
) -> Result<bool, AllocError> {
    match snapshot.resolve(alloc, addr, hash) {
        Ok(wanted) => Ok(ends_at(control, addr, hash, &wanted)),
        Err(_) => Err(AllocError),
    }
}

// Whether packets to the first and to the last address of some entries end where resolution says.
fn looks_up_some(
    alloc: Global,
    control: &Control<PlainBoard>,
    snapshot: &Snapshot<'_>,
    dice: &mut Dice,
) -> Result<bool, AllocError> {
    let entries = snapshot.entries();
    if entries.is_empty() {
        return Ok(false);
    }
    for _sample in 0..SAMPLES {
        let e = entries[dice.place(entries.len())];
        let hash = dice.roll(u32::MAX);
        if !looks_up(alloc, control, snapshot, e.bits(), hash)?
            || !looks_up(alloc, control, snapshot, e.last(), hash)?
        {
            return Ok(false);
        }
    }
    Ok(true)
}

// What of a settled control is another than the plain programs say.
fn difference_from(
    alloc: Global,
    control: &Control<PlainBoard>,
    snapshot: &Snapshot<'_>,
    dice: &mut Dice,
) -> Result<Option<Part>, AllocError> {
    if control.used() != snapshot.size(alloc)? {
        return Ok(Some(Part::Size));
    }
    if !looks_up_some(alloc, control, snapshot, dice)? {
        return Ok(Some(Part::Lookup));
    }
    Ok(None)
}

// The same by its tables.
fn difference(
    alloc: Global,
    control: &Control<PlainBoard>,
    dice: &mut Dice,
) -> Result<Option<Part>, AllocError> {
    let snapshot = Snapshot::new(alloc, control.tables())?;
    difference_from(alloc, control, &snapshot, dice)
}

// Settles, and compares.
fn settled_difference(
    alloc: Global,
    control: &mut Control<PlainBoard>,
    dice: &mut Dice,
) -> Result<Option<Part>, AllocError>
    requires { IsHome (seats_in control.old) }
    ensures { seats_in control.new ≡ seats_in control.old }
{
    settle(control)?;
    difference(alloc, control, dice)
}

// Notes which prefix had a turn, if one had.
fn note(had: &mut Vec<Prefix>, turn: &Turn) -> Result<bool, AllocError> {
    match turn {
        Turn::Idle => Ok(false),
        Turn::Restacked { entry, .. } => {
            had.push(*entry)?;
            Ok(true)
        }
    }
}

// A turn, noted.
fn turn_noted(control: &mut Control<PlainBoard>, had: &mut Vec<Prefix>) -> Result<bool, AllocError>
    ensures { OnOk result (seats_in control.new ≡ seats_in control.old) }
{
    match turn(control) {
        Ok(turn) => note(had, &turn),
        Err(_) => Err(AllocError),
    }
}

// Turns until nothing is queued. The prefixes that had one, in order.
fn restacked(alloc: Global, control: &mut Control<PlainBoard>) -> Result<Vec<Prefix>, AllocError>
    ensures { OnOk result (seats_in control.new ≡ seats_in control.old) }
{
    let mut had = Vec::new(alloc);
    for _turn in 0..u32::MAX {
        if !turn_noted(control, &mut had)? {
            return Ok(had);
        }
    }
    Err(AllocError)
}

// Whether each of these is there, and no prefix stands twice.
fn has_all_once(alloc: Global, had: &[Prefix], wanted: &[Prefix]) -> Result<bool, AllocError> {
    let mut seen = HashSet::new(alloc);
    for prefix in had {
        if !seen.insert(*prefix)? {
            return Ok(false);
        }
    }
    Ok(wanted.iter().all(|p| seen.contains(p)))
}

// A change of these tables, and all turns that it makes: each prefix that it touches has one, and none has two.
fn drive_from(
    alloc: Global,
    control: &mut Control<PlainBoard>,
    before: &Tables,
    change: &Change,
) -> Result<Option<Part>, AllocError>
    requires sound { IsSound before.now }
    requires written { AreWritten change.now }
    requires home { IsHome (seats_in control.old) }
    ensures { OnOk result (seats_in control.new ≡ seats_in control.old) }
{
    if !change_to(control, change)? {
        return Ok(None);
    }
    let wanted = touched(alloc, before, control.tables())?;
    let had = restacked(alloc, control)?;
    if has_all_once(alloc, had.as_slice(), wanted.as_slice())? {
        return Ok(None);
    }
    Ok(Some(Part::Touched))
}

// The same of the tables of a control that is settled first.
fn drive_whole(
    alloc: Global,
    control: &mut Control<PlainBoard>,
    change: &Change,
) -> Result<Option<Part>, AllocError>
    requires written { AreWritten change.now }
    requires home { IsHome (seats_in control.old) }
    ensures { OnOk result (seats_in control.new ≡ seats_in control.old) }
{
    settle(control)?;
    let before = control.tables().duplicate(alloc)?;
    drive_from(alloc, control, &before, change)
}

// A change and settling.
fn drive_settled(
    alloc: Global,
    control: &mut Control<PlainBoard>,
    dice: &mut Dice,
    change: &Change,
) -> Result<Option<Part>, AllocError>
    requires written { AreWritten change.now }
    requires home { IsHome (seats_in control.old) }
    ensures { OnOk result (seats_in control.new ≡ seats_in control.old) }
{
    change_to(control, change)?;
    settled_difference(alloc, control, dice)
}

// A change, and some of the work that it makes.
fn drive_some(
    control: &mut Control<PlainBoard>,
    dice: &mut Dice,
    change: &Change,
) -> Result<Option<Part>, AllocError>
    requires written { AreWritten change.now }
    requires home { IsHome (seats_in control.old) }
    ensures { OnOk result (seats_in control.new ≡ seats_in control.old) }
{
    change_to(control, change)?;
    work(control, dice)?;
    Ok(None)
}

// A change, and some of the work that it makes; once in so many times all of it.
fn drive(
    alloc: Global,
    control: &mut Control<PlainBoard>,
    dice: &mut Dice,
    often: u32,
    change: &Change,
) -> Result<Option<Part>, AllocError>
    requires written { AreWritten change.now }
    requires often { 0 < often }
    requires home { IsHome (seats_in control.old) }
    ensures { OnOk result (seats_in control.new ≡ seats_in control.old) }
{
    match dice.roll(often) {
        0 => drive_whole(alloc, control, change),
        1 => drive_settled(alloc, control, dice, change),
        _ => drive_some(control, dice, change),
    }
}

// The next change of the script, where there is one.
fn drive_next(
    alloc: Global,
    control: &mut Control<PlainBoard>,
    dice: &mut Dice,
    often: u32,
    cursor: &mut Cursor<'_>,
) -> Result<Option<Part>, AllocError>
    requires often { 0 < often }
    requires rested { IsRested 0 (seats_in control.old) }
    ensures { OnOk result (IsRested 0 (seats_in control.new)) }
{
    match cursor.change(alloc)? {
        Some(change) => drive(alloc, control, dice, often, &change),
        None => Ok(None),
    }
}

// One change, or once in so many times some beneath a pass.
fn drive_on(
    alloc: Global,
    control: &mut Control<PlainBoard>,
    dice: &mut Dice,
    often: u32,
    cursor: &mut Cursor<'_>,
) -> Result<Option<Part>, AllocError>
    requires often { 0 < often }
    requires rested { IsRested 0 (seats_in control.old) }
    ensures { OnOk result (IsRested 0 (seats_in control.new)) }
{
    if dice.roll(often) == 0 && may_pass(control) {
        return drive_beneath(alloc, control, dice, cursor);
    }
    drive_next(alloc, control, dice, often, cursor)
}

// The first difference in what the control answers on the way through a script's changes.
fn drive_lines(
    alloc: Global,
    control: &mut Control<PlainBoard>,
    dice: &mut Dice,
    script: &Script,
) -> Result<Option<Difference>, AllocError>
    requires { IsRested 0 (seats_in control.old) }
    ensures { OnOk result (IsRested 0 (seats_in control.new)) }
{
    // The plain programs take long over long scripts.
    let often = 4 + script.lines() / 16;
    let mut cursor = Cursor::new(script);
    for _change in 0..script.lines() {
        if let Some(part) = drive_on(alloc, control, dice, often, &mut cursor)? {
            let line = cursor.line();
            return Ok(Some(Difference { line, part }));
        }
    }
    Ok(None)
}

// And at its end.
fn drive_all(
    alloc: Global,
    control: &mut Control<PlainBoard>,
    script: &Script,
) -> Result<Option<Difference>, AllocError>
    requires { IsRested 0 (seats_in control.old) }
{
    let mut dice = Dice { bits: 2463534242 };
    if let Some(found) = drive_lines(alloc, control, &mut dice, script)? {
        return Ok(Some(found));
    }
    let line = script.lines();
    match settled_difference(alloc, control, &mut dice)? {
        Some(part) => Ok(Some(Difference { line, part })),
        None => Ok(None),
    }
}

// Over a control of its own.
fn drive_fresh(alloc: Global, script: &Script) -> Result<Option<Difference>, AllocError> {
    let mut control = fresh(alloc)?;
    drive_all(alloc, &mut control, script)
}

// The first difference in what the control answers; None where there is none.
pub fn drive_script(alloc: Global, bytes: &[u8]) -> Result<Option<Difference>, ScriptError> {
    let script = Script::read(alloc, bytes)?;
    Ok(drive_fresh(alloc, &script)?)
}
