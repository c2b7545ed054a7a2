// A pass that runs beneath a script's changes.
ghost use Rattle.std.specs.Prelude.{◌≡◌, ℕ, true, IfOk, OnOk};
ghost use Rattle.fib_resolve.specs.Tables.{IsSound};
ghost use Rattle.trial_plain.specs.Seats.{IsHeld, IsRested, seats_in};
ghost use Rattle.test_cases.specs.Changes.{AreWritten};

use crate::changing::{Change, Cursor};
use crate::compared::Part;
use crate::dice::Dice;
use crate::driven::{apply, settle, work};
use crate::watched::Watch;
use fib_addr::{Addr, Prefix};
use fib_control::Control;
use fib_core_plainboard::PlainBoard;
use fib_resolve::{End, Tables};
use std::alloc::{AllocError, Global};
use test_plain::Snapshot;
use trial_plain::held::{go_on, hold, hops_more};
use trial_plain::trouble::Trouble;

// Whether worker 0 has a pass left.
pub fn may_pass(control: &Control<PlainBoard>) -> bool
    requires { IsRested 0 (seats_in control.now) }
    ensures { result ≡ true → IsRested 1 (seats_in control.now) }
{
    control.passes_left(0) > 0
}

// The first or the last address of one of these.
fn addr_of(entries: &[Prefix], dice: &mut Dice) -> Addr {
    if entries.is_empty() {
        return Addr(0);
    }
    let e = entries[dice.place(entries.len())];
    match dice.roll(2) {
        0 => e.bits(),
        _ => e.last(),
    }
}

// The first or the last address of some entry.
fn some_addr(alloc: Global, tables: &Tables, dice: &mut Dice) -> Result<Addr, AllocError>
    requires { IsSound tables.now }
{
    let snapshot = Snapshot::new(alloc, tables)?;
    Ok(addr_of(snapshot.entries(), dice))
}

// A change beneath the pass, and some of the work that it makes.
fn change_beneath(
    alloc: Global,
    control: &mut Control<PlainBoard>,
    dice: &mut Dice,
    watch: &mut Watch,
    change: &Change,
) -> Result<(), AllocError>
    requires { AreWritten change.now }
    ensures { OnOk result (seats_in control.new ≡ seats_in control.old) }
{
    match apply(control, change) {
        Ok(_) => watch.see(alloc, control.tables())?,
        Err(Trouble::Memory) => return Err(AllocError),
        Err(_) => {}
    }
    work(control, dice)
}

// The next change of the script beneath the pass, which goes on by some hops then.
fn step_beneath(
    alloc: Global,
    control: &mut Control<PlainBoard>,
    dice: &mut Dice,
    watch: &mut Watch,
    cursor: &mut Cursor<'_>,
) -> Result<(), AllocError>
    ensures { OnOk result (seats_in control.new ≡ seats_in control.old) }
{
    match cursor.change(alloc)? {
        Some(change) => change_beneath(alloc, control, dice, watch, &change),
        None => Ok(()),
    }
}

// Some changes of the script, and some hops of the pass after each.
fn beneath(
    alloc: Global,
    control: &mut Control<PlainBoard>,
    dice: &mut Dice,
    watch: &mut Watch,
    cursor: &mut Cursor<'_>,
    from: Option<End>,
) -> Result<Option<End>, AllocError>
    requires { IsHeld 1 from (seats_in control.old) }
    ensures { IfOk result (λ end. IsHeld 1 end (seats_in control.new)) }
{
    let mut end = from;
    for _change in 0..dice.roll(5) {
        step_beneath(alloc, control, dice, watch, cursor)?;
        end = hops_more(control, end, dice.roll(3));
    }
    Ok(end)
}

// Goes on to the pass's end. What of its answer is other than the versions say.
fn finish(
    control: &mut Control<PlainBoard>,
    watch: &Watch,
    end: Option<End>,
) -> Result<Option<Part>, AllocError>
    requires { IsHeld 1 end (seats_in control.old) }
    ensures { OnOk result (IsRested 0 (seats_in control.new)) }
{
    match go_on(control, end) {
        Ok(record) => Ok(watch.difference(&record)),
        Err(_) => Err(AllocError),
    }
}

// Settles; then a pass begins, some changes of the script come, and the pass ends.
pub fn drive_beneath(
    alloc: Global,
    control: &mut Control<PlainBoard>,
    dice: &mut Dice,
    cursor: &mut Cursor<'_>,
) -> Result<Option<Part>, AllocError>
    requires { IsRested 1 (seats_in control.old) }
    ensures { OnOk result (IsRested 0 (seats_in control.new)) }
{
    settle(control)?;
    let addr = some_addr(alloc, control.tables(), dice)?;
    let hash = dice.roll(u32::MAX);
    let mut watch = Watch::new(alloc, control.tables(), addr, hash)?;
    let held = hold(control, addr, hash, dice.roll(4));
    let end = beneath(alloc, control, dice, &mut watch, cursor, held)?;
    finish(control, &watch, end)
}
