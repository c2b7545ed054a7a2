// A search through all to which changed entries lead.
ghost use Rattle.std.specs.Prelude.{◌≡◌, ◌++◌, ◌∷◌, [], not, true, OnOk, IfOk, Contains, flat_map, map, option_to_list, slice_get};
ghost use Rattle.std.specs.List.{list_any};
ghost use Rattle.fib_addr.specs.Prefixes.{Prefix as PrefixValue};
ghost use Rattle.fib_reach.specs.Walks.{AllDiffer};
ghost use Rattle.fib_entries_rows.specs.inner.Looping.{IsMore, Sees};
ghost use Rattle.fib_follow_view.specs.Views.{anew_prefix, is_changed};
ghost use Rattle.fib_follow_view.specs.declared.view.Anew.{Anew as AnewValue};
ghost use Rattle.fib_follow_view.specs.inner.Told.{next_before, next_in};
ghost use Rattle.fib_follow_part.specs.inner.Searched.{IsReach, IsSearched, SeesBoth, SeesOnly, are_none, is_led, is_led_to};

use fib_addr::Prefix;
use fib_base_blocks::Blocks;
use fib_entries_rows::dependants::Dependants;
use fib_follow_view::{Anew, View};
use std::alloc::{AllocError, Global};

/// Puts the prefix to those that are seen, where it isn't among them.
fn see(seen: &mut Dependants, e: Prefix) -> Result<(), AllocError>
    requires { AllDiffer seen.old }
    ensures seen { OnOk result (Sees (e ∷ []) seen.old seen.new) }
    ensures only { OnOk result (SeesOnly (e ∷ []) seen.old seen.new) }
{
    if seen.has(e) {
        return Ok(());
    }
    seen.put(e)
}

/// The same of each of the list.
fn see_each(seen: &mut Dependants, list: &[Prefix]) -> Result<(), AllocError>
    requires { AllDiffer seen.old }
    ensures { OnOk result (Sees list.now seen.old seen.new) }
{
    'list: for place in 0..list.len() {
        see(seen, list[place])?;
    }
    Ok(())
}

/// The same of what was made anew.
fn see_changed(seen: &mut Dependants, changed: &Blocks<Anew>) -> Result<(), AllocError>
    requires { AllDiffer seen.old }
    ensures seen { OnOk result (Sees (map anew_prefix changed.now) seen.old seen.new) }
    ensures only { OnOk result (SeesOnly (map anew_prefix changed.now) seen.old seen.new) }
{
    'changed: for place in 0..changed.len() {
        see(seen, changed[place].prefix)?;
    }
    Ok(())
}

/// Appends the goal, if it is one.
fn push_goal(out: &mut Vec<Prefix>, goal: Option<Prefix>) -> Result<(), AllocError>
    ensures { OnOk result (out.new.items ≡ out.old.items ++ option_to_list goal) }
{
    match goal {
        Some(target) => {
            out.push(target)?;
            Ok(())
        }
        None => Ok(()),
    }
}

/// Appends those of the goals that are some.
fn push_goals(out: &mut Vec<Prefix>, goals: &[Option<Prefix>]) -> Result<(), AllocError>
    ensures { OnOk result (out.new.items ≡ out.old.items ++ flat_map option_to_list goals.now) }
{
    'goals: for place in 0..goals.len() {
        push_goal(out, goals[place])?;
    }
    Ok(())
}

/// Where the prefix leads after the change.
pub fn next(alloc: Global, view: &View<'_>, e: Prefix) -> Result<Vec<Prefix>, AllocError>
    ensures { IfOk result (λ v. v.items ≡ next_in view.now e) }
{
    let goals = view.goals(alloc, e)?;
    let mut out = Vec::new(alloc);
    push_goals(&mut out, goals.as_slice())?;
    Ok(out)
}

/// Where it led before the change.
fn next_before(alloc: Global, view: &View<'_>, e: Prefix) -> Result<Vec<Prefix>, AllocError>
    ensures { IfOk result (λ v. v.items ≡ next_before view.now e) }
{
    let goals = view.before().goals(alloc, e)?;
    let mut out = Vec::new(alloc);
    push_goals(&mut out, goals.as_slice())?;
    Ok(out)
}

/// Sees all to which the prefix leads at once, after the change or before it.
fn see_both(
    alloc: Global,
    seen: &mut Dependants,
    view: &View<'_>,
    e: Prefix,
) -> Result<(), AllocError>
    requires { AllDiffer seen.old }
    ensures more { OnOk result (Sees [] seen.old seen.new) }
    ensures both { OnOk result (SeesBoth view.now e seen.new) }
{
    let after = next(alloc, view, e)?;
    see_each(seen, after.as_slice())?;
    let before = next_before(alloc, view, e)?;
    see_each(seen, before.as_slice())
}

/// The prefix at that place, in the order in which they were seen.
fn at(seen: &Dependants, place: usize) -> Option<Prefix>
    ensures { result ≡ slice_get seen.now place }
{
    match seen.as_slice().get(place) {
        Some(e) => Some(*e),
        None => None,
    }
}

/// Sees all to which those that are seen lead.
fn see_all(alloc: Global, seen: &mut Dependants, view: &View<'_>) -> Result<(), AllocError>
    requires once { AllDiffer seen.old }
    ensures seen { OnOk result (Sees [] seen.old seen.new) }
    ensures closed { OnOk result ((e : PrefixValue) → Contains seen.new e → SeesBoth view.now e seen.new) }
{
    'steps: for place in 0..usize::MAX {
        let Some(e) = at(seen, place) else {
            return Ok(());
        };
        see_both(alloc, seen, view, e)?;
    }
    // So many are more than memory holds.
    Err(AllocError)
}

/// Whether one of the prefixes isn't one that was made anew.
fn has_other(view: &View<'_>, list: &[Prefix]) -> bool
    ensures { result ≡ list_any (λ d. not (is_changed view.now.changed d)) list.now }
{
    list.iter().any(|d| !view.is_changed(*d))
}

/// Whether an entry beside those that were made anew led to the prefix.
fn is_led_to(view: &View<'_>, e: Prefix) -> bool
    ensures { result ≡ is_led_to view.now e }
{
    match view.before().row(e) {
        Some(row) => has_other(view, row.dependants().as_slice()),
        None => false,
    }
}

/// Sees the prefix, if another entry led to it, or in any case.
fn see_led(
    seen: &mut Dependants,
    view: &View<'_>,
    e: Prefix,
    in_any_case: bool,
) -> Result<(), AllocError>
    requires { AllDiffer seen.old }
    ensures more { OnOk result (Sees [] seen.old seen.new) }
    ensures led { OnOk result (is_led view.now in_any_case e ≡ true → Contains seen.new e) }
{
    if in_any_case || is_led_to(view, e) {
        return see(seen, e);
    }
    Ok(())
}

/// The same of each entry that was made anew.
fn see_all_led(
    seen: &mut Dependants,
    view: &View<'_>,
    changed: &Blocks<Anew>,
    in_any_case: bool,
) -> Result<(), AllocError>
    requires { AllDiffer seen.old }
    ensures more { OnOk result (Sees [] seen.old seen.new) }
    ensures led { OnOk result ((x : AnewValue) → Contains changed.now x → is_led view.now in_any_case x.prefix ≡ true
        → Contains seen.new x.prefix) }
{
    'changed: for place in 0..changed.len() {
        see_led(seen, view, changed[place].prefix, in_any_case)?;
    }
    Ok(())
}

/// What was made anew to which another entry led, or all that was made anew, and all to which these lead, before or after the change.
fn reached(alloc: Global, view: &View<'_>, in_any_case: bool) -> Result<Dependants, AllocError>
    ensures { IfOk result (λ seen. IsReach view.now in_any_case seen) }
{
    let mut seen = Dependants::new(alloc);
    see_all_led(&mut seen, view, view.changed(), in_any_case)?;
    see_all(alloc, &mut seen, view)?;
    Ok(seen)
}

/// What a search has seen.
#[derive(Drop)]
pub struct Seen {
    pub members: Dependants,
    /// Whether no entry beside the members leads to one of them.
    pub is_apart: bool,
}

fn is_none(list: &[Prefix]) -> bool
    ensures { result ≡ are_none list.now }
{
    match list {
        [] => true,
        [_, ..] => false,
    }
}

/// The same, and all else that was made anew.
pub fn searched(alloc: Global, view: &View<'_>, in_any_case: bool) -> Result<Seen, AllocError>
    ensures { IfOk result (λ s. IsSearched view.now in_any_case s.members s.is_apart) }
{
    let mut members = reached(alloc, view, in_any_case)?;
    let is_apart = is_none(members.as_slice());
    see_changed(&mut members, view.changed())?;
    Ok(Seen { members, is_apart })
}
