// What an entry wants of its buckets.
ghost use Rattle.std.specs.Prelude.{◌≡◌, ◌<◌, ◌≤◌, ◌++◌, All, IfOk, OnOk, filter, flat_map, length, map, option_to_list, slice_get, sum};
ghost use Rattle.fib_resolve_changes.specs.Ranks.{is_usable_mark, leads_on};
ghost use Rattle.fib_resolve_changes.specs.Wanted.{aim_by, aim_of, least_mark, of_least_mark, spread_marks};
ghost use Rattle.fib_stack_ledger.specs.Ledgers.{was_in};
ghost use Rattle.fib_stack.specs.States.{forwards_by};

use fib_resolve::{Aim, End, Marked};
use fib_stack_ledger::Ledger;
use std::alloc::{AllocError, Global};

/// Whether the entry at which packets go on, if there is one, forwarded at its last turn.
fn leads_on(ledger: &Ledger, aim: Aim) -> bool
    ensures { result ≡ leads_on (was_in ledger.now.rows) aim }
{
    match aim {
        Aim::Ends(_) => true,
        Aim::On(target) => ledger.forwarded(target),
    }
}

fn is_usable(ledger: &Ledger, mark: Marked) -> bool
    ensures { result ≡ is_usable_mark (was_in ledger.now.rows) mark }
{
    mark.counts && leads_on(ledger, mark.aim)
}

/// Whether a path of the list is usable, by which entries forwarded at their last turns.
pub fn forwards(ledger: &Ledger, marks: &[Marked]) -> bool
    ensures { result ≡ forwards_by (was_in ledger.now.rows) marks.now }
{
    match marks {
        [mark, marks @ ..] => is_usable(ledger, *mark) || forwards(ledger, marks),
        [] => false,
    }
}

fn usable(alloc: Global, ledger: &Ledger, marks: &[Marked]) -> Result<Vec<Marked>, AllocError>
    ensures { IfOk result (λ v. v.items ≡ filter (is_usable_mark (was_in ledger.now.rows)) marks.now) }
{
    let mut out = Vec::with_capacity(alloc, marks.len())?;
    for mark in marks {
        if is_usable(ledger, *mark) {
            out.push(*mark)?;
        }
    }
    Ok(out)
}

fn least_preference(marks: &[Marked]) -> u8
    ensures { result ≡ least_mark marks.now }
{
    marks.iter().fold(255, |m, p| m.min(p.preference))
}

fn of_least_preference(alloc: Global, marks: &[Marked]) -> Result<Vec<Marked>, AllocError>
    ensures { IfOk result (λ v. v.items ≡ of_least_mark marks.now) }
{
    let least = least_preference(marks);
    marks
        .iter()
        .copied()
        .filter(|m| m.preference == least)
        .collect(alloc)
}

fn weights_of(alloc: Global, marks: &[Marked]) -> Result<Vec<u8>, AllocError>
    ensures { IfOk result (λ v. v.items ≡ map (λ m. m.weight) marks.now) }
{
    marks.iter().map(|m| m.weight).collect(alloc)
}

fn mark_at(marks: &[Marked], place: usize) -> Option<Marked>
    ensures { result ≡ slice_get marks.now place }
{
    marks.get(place).copied()
}

fn add_place(out: &mut Vec<Marked>, marks: &[Marked], place: u8) -> Result<(), AllocError>
    ensures { OnOk result (out.new.items ≡ out.old.items ++ option_to_list (slice_get marks.now place)) }
{
    if let Some(mark) = mark_at(marks, place as usize) {
        out.push(mark)?;
    }
    Ok(())
}

/// The path at each bucket.
fn spread(alloc: Global, marks: &[Marked]) -> Result<Vec<Marked>, AllocError>
    requires few { length marks.now ≤ 16 }
    requires some { 0 < sum (map (λ m. m.weight) marks.now) }
    ensures { IfOk result (λ v. v.items ≡ spread_marks marks.now) }
{
    let weights = weights_of(alloc, marks)?;
    let mut out = Vec::with_capacity(alloc, 16)?;
    let places = fib_buckets::share(weights.as_slice());
    for place in &places {
        add_place(&mut out, marks, *place)?;
    }
    Ok(out)
}

/// The path at each of the sixteen buckets, or none where no path is usable, by which entries forwarded at their last turns.
pub fn wanted(alloc: Global, ledger: &Ledger, marks: &[Marked]) -> Result<Vec<Marked>, AllocError>
    requires few { length marks.now ≤ 16 }
    requires weighted { All (λ m. 0 < m.weight) marks.now }
    ensures { IfOk result (λ v. v.items ≡ spread_marks (of_least_mark (filter (is_usable_mark (was_in ledger.now.rows)) marks.now))) }
{
    let usable = usable(alloc, ledger, marks)?;
    let used = of_least_preference(alloc, usable.as_slice())?;
    if used.is_empty() {
        return Ok(Vec::new(alloc));
    }
    spread(alloc, used.as_slice())
}

/// What the bucket is for, of the paths at the buckets.
pub fn aim_at(wanted: &[Marked], slot: usize) -> Aim
    ensures { result ≡ aim_of (slice_get wanted.now slot) }
{
    match mark_at(wanted, slot) {
        Some(mark) => mark.aim,
        None => Aim::Ends(End::Drop),
    }
}
