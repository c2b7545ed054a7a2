// The public calls once, over the fresh tables; the crates above compare them with worked and generated tables. Each test owns what it looks
// at and has one assertion: the prover follows every way out past every owner.
ghost use Rattle.fib_resolve.specs.Tables.{IsSound};

use fib_addr::{Addr, Prefix};
use fib_resolve::{End, Need, Tables};
use fib_resolve_pairs::Meaning;
use std::alloc::{AllocError, Global};
use std::test::Fail;
use test_plain::{Snapshot, ends, resolve, size, touched, usable};

const INSIDE: Addr = Addr(0x0a01_0203);

fn everything() -> Prefix {
    Prefix::masked(Addr(0), 0)
}

fn only_drops(alloc: Global, fresh: &Tables) -> Result<bool, AllocError>
    requires { IsSound fresh.now }
{
    Ok(ends(alloc, fresh)?.as_slice() == [End::Drop].as_slice())
}

fn touches_nothing(alloc: Global, fresh: &Tables) -> Result<bool, AllocError>
    requires { IsSound fresh.now }
{
    Ok(touched(alloc, fresh, fresh)?.is_empty())
}

fn drops_a_packet(alloc: Global, fresh: &Tables) -> Result<bool, AllocError>
    requires { IsSound fresh.now }
{
    match resolve(alloc, fresh, INSIDE, 5) {
        Ok(end) => Ok(end == End::Drop),
        Err(error) => Err(error),
    }
}

fn says_single_answers(alloc: Global, fresh: &Tables) -> Result<bool, AllocError>
    requires { IsSound fresh.now }
{
    Ok(
        size(alloc, fresh)? == 20
            && drops_a_packet(alloc, fresh)?
            && only_drops(alloc, fresh)?
            && touches_nothing(alloc, fresh)?
            && !usable(alloc, fresh, everything(), 0)?,
    )
}

#[test]
fn single_answers(rt: HostRuntime) -> Result<(), Fail> {
    let alloc = rt.alloc();
    let fresh = Tables::fresh(alloc);
    assert!(rt; says_single_answers(alloc, &fresh)?);
    Ok(())
}

fn has_fixed_entries(snapshot: &Snapshot) -> bool {
    snapshot.best(INSIDE) == everything()
        && snapshot.cover(INSIDE) == everything()
        && snapshot.entries().len() == 5
        && snapshot.pairs().len() == 5
        && snapshot.chosen(everything()).len() == 1
        && snapshot.tables().routes.len() == 0
}

fn wants_nothing(alloc: Global, snapshot: &Snapshot) -> Result<bool, AllocError> {
    Ok(snapshot.wanted(alloc, everything())?.is_empty())
}

fn has_one_unusable_path(snapshot: &Snapshot) -> bool {
    !snapshot.is_usable(everything(), 0) && !snapshot.is_looped(everything(), 0)
}

fn says_what_fresh_tables_say(alloc: Global, snapshot: &Snapshot) -> Result<bool, AllocError> {
    Ok(
        has_fixed_entries(snapshot)
            && has_one_unusable_path(snapshot)
            && wants_nothing(alloc, snapshot)?,
    )
}

// The one owner of a snapshot: the prover follows every way out past it.
fn says_of(alloc: Global, fresh: &Tables) -> Result<bool, AllocError>
    requires { IsSound fresh.now }
{
    let snapshot = Snapshot::new(alloc, fresh)?;
    says_what_fresh_tables_say(alloc, &snapshot)
}

#[test]
fn what_a_snapshot_says(rt: HostRuntime) -> Result<(), Fail> {
    let alloc = rt.alloc();
    let fresh = Tables::fresh(alloc);
    assert!(rt; says_of(alloc, &fresh)?);
    Ok(())
}

fn has_fixed_pairs(meaning: &Meaning) -> bool {
    meaning.best(INSIDE) == everything()
        && meaning.cover(INSIDE) == everything()
        && meaning.entries().len() == 5
        && meaning.number(everything()).is_some()
        && meaning.pairs().len() == 5
        && meaning.chosen(everything()).len() == 1
        && meaning.tables().routes.len() == 0
}

fn has_no_looped_path(meaning: &Meaning) -> bool {
    let all = everything();
    let paths = meaning.chosen(all);
    !paths.is_empty() && !meaning.is_looped(all, &paths[0])
}

fn meets_needs_of_none(meaning: &Meaning) -> bool {
    !meaning.is_up(0) && meaning.is_met(Need::Host, INSIDE)
}

fn lists_what_it_has(alloc: Global, meaning: &Meaning) -> Result<bool, AllocError> {
    Ok(meaning.listed(alloc)?.len() == 5 && meaning.adjacencies(alloc)?.is_empty())
}

fn ends_on_links(meaning: &Meaning) -> bool {
    let hop = meaning.hop_end(0, INSIDE);
    meaning.mac_of(0, INSIDE).is_none()
        && meaning.attached_end(everything(), 0) == End::Glean(0)
        && meaning.attached_end(Prefix::host(INSIDE), 0) == hop
}

fn means_what_fresh_tables_mean(alloc: Global, meaning: &Meaning) -> Result<bool, AllocError> {
    Ok(
        has_fixed_pairs(meaning)
            && has_no_looped_path(meaning)
            && meets_needs_of_none(meaning)
            && ends_on_links(meaning)
            && lists_what_it_has(alloc, meaning)?,
    )
}

// The one owner of a meaning.
fn means(alloc: Global, fresh: &Tables) -> Result<bool, AllocError>
    requires { IsSound fresh.now }
{
    let meaning = Meaning::of(alloc, fresh)?;
    Ok(means_what_fresh_tables_mean(alloc, &meaning)? && meaning.into_entries().len() == 5)
}

#[test]
fn what_a_meaning_says(rt: HostRuntime) -> Result<(), Fail> {
    let alloc = rt.alloc();
    let fresh = Tables::fresh(alloc);
    assert!(rt; means(alloc, &fresh)?);
    Ok(())
}
