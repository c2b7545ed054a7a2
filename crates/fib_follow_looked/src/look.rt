// All that are looked at.
ghost use Rattle.std.specs.Prelude.{◌≡◌, ◌⊎◌, ◌↔◌, List, Contains, IfOk, OnOk, Some};
ghost use Rattle.fib_addr.specs.Prefixes.{Prefix as PrefixValue};
ghost use Rattle.fib_resolve.specs.declared.types.Tables.{Tables as TablesValue};
ghost use Rattle.fib_resolve_changes.specs.declared.change.Change.{Change as ChangeValue};
ghost use Rattle.fib_entries_rows.specs.Known.{StandsFor};
ghost use Rattle.fib_follow_looked.specs.Looks.{AreAllLooked, AreAnswered, AreAsks, AreNamed, AreShorts, IsBefore};
ghost use Rattle.fib_follow_looked.specs.Looks.{IsMoved, IsNamed, IsNearOf, IsOver};
ghost use Rattle.fib_follow_looked.specs.declared.ask.Ask.{Ask as AskValue};
ghost use Rattle.fib_follow_looked.specs.inner.Adding.{Adds, AddsEach, AddsMore};
ghost use Rattle.fib_follow_looked.specs.inner.Turning.{HasNear, HasNearEach, IsNearAny, is_near, near_inside};

use crate::named::Named;
use crate::sets::{add_all, add_one};
use crate::shorts::{Shorts, Turn, Turned};
use fib_addr::Prefix;
use fib_config::Config;
use fib_cover::PrefixSet;
use fib_follow_pairs::attached_at;
use fib_follow_view::Before;
use fib_resolve::Neighbor;
use std::alloc::{AllocError, Global};

/// Puts the neighbor's host to the set, where it is one of that interface.
fn add_if_on(set: &mut PrefixSet, n: Neighbor, interface: u32) -> Result<(), AllocError>
    ensures { OnOk result (Adds (is_near interface n) set.old set.new) }
{
    if n.interface == interface {
        return add_one(set, Prefix::host(n.addr));
    }
    Ok(())
}

fn add_on(set: &mut PrefixSet, neighbors: &[Neighbor], interface: u32) -> Result<(), AllocError>
    ensures { OnOk result (AddsEach (is_near interface) neighbors.now set.old set.new) }
{
    'neighbors: for place in 0..neighbors.len() {
        add_if_on(set, neighbors[place], interface)?;
    }
    Ok(())
}

/// Puts the hosts of the interface's neighbors in the prefix to the set.
fn add_inside(
    set: &mut PrefixSet,
    after: &Config,
    prefix: Prefix,
    attached: Option<u32>,
) -> Result<(), AllocError>
    ensures { OnOk result (Adds (near_inside after.now.tables prefix attached) set.old set.new) }
{
    let Some(interface) = attached else {
        return Ok(());
    };
    let neighbors = after.neighbors_inside(prefix)?;
    add_on(set, neighbors.as_slice(), interface)
}

/// The prefix that decides how addresses in a turned one are attached afterwards: itself, or that above it, where it goes.
fn over(before: &Before<'_>, shorts: &Shorts, turned: Turned) -> Option<Prefix>
    ensures { (S T : TablesValue) → StandsFor before.now S → AreShorts S T shorts.now
        → (c : PrefixValue) → (result ≡ Some c) ↔ IsOver T turned.prefix turned.how c }
{
    let q = turned.prefix;
    match turned.how {
        Turn::Comes => Some(q),
        Turn::Attaches => Some(q),
        Turn::Goes => shorts.longest(before, q.bits(), q.len()),
    }
}

/// Puts the hosts of neighbors to the set to which a turned prefix can give a pair, or from which it can take one.
fn add_near(
    alloc: Global,
    set: &mut PrefixSet,
    before: &Before<'_>,
    after: &Config,
    shorts: &Shorts,
    turned: Turned,
) -> Result<(), AllocError>
    ensures more { OnOk result (AddsMore set.old set.new) }
    ensures near { OnOk result ((S : TablesValue) → StandsFor before.now S → AreShorts S after.now.tables shorts.now
        → HasNear after.now.tables turned set.new) }
    ensures only { OnOk result ((S : TablesValue) → StandsFor before.now S → AreShorts S after.now.tables shorts.now
        → (q : PrefixValue) → Contains set.new q → Contains set.old q ⊎ IsNearOf after.now.tables turned q) }
{
    let inside = turned.prefix;
    let Some(above) = over(before, shorts, turned) else {
        return Ok(());
    };
    let attached = attached_at(alloc, after, above)?;
    add_inside(set, after, inside, attached)
}

/// The same of each turned prefix.
fn add_each_near(
    alloc: Global,
    set: &mut PrefixSet,
    before: &Before<'_>,
    after: &Config,
    shorts: &Shorts,
) -> Result<(), AllocError>
    ensures more { OnOk result (AddsMore set.old set.new) }
    ensures near { OnOk result ((S : TablesValue) → StandsFor before.now S → AreShorts S after.now.tables shorts.now
        → HasNearEach after.now.tables shorts.now.turned.items set.new) }
    ensures only { OnOk result ((S : TablesValue) → StandsFor before.now S → AreShorts S after.now.tables shorts.now
        → (q : PrefixValue) → Contains set.new q → Contains set.old q ⊎ IsNearAny after.now.tables shorts.now.turned.items q) }
{
    let turned = shorts.turned.as_slice();
    'turned: for place in 0..turned.len() {
        add_near(alloc, set, before, after, shorts, turned[place])?;
    }
    Ok(())
}

/// All that are looked at: what the changes name, the hosts that were found as `asks` wants them, and neighbors in prefixes that turn. Each
/// entry that is another is among them. An error means that memory ran out.
pub fn looked(
    alloc: Global,
    before: &Before<'_>,
    after: &Config,
    named: &Named,
    shorts: &Shorts,
    hosts: &[Prefix],
) -> Result<PrefixSet, AllocError>
    ensures all { IfOk result (λ v. (list : List ChangeValue) (S : TablesValue) (asks : List AskValue)
        → IsBefore before.now list S after.now.tables → AreNamed list S after.now.tables named.now → AreShorts S after.now.tables shorts.now
        → AreAsks S after.now.tables asks → AreAnswered S asks hosts.now → AreAllLooked list S after.now.tables v) }
    ensures only { IfOk result (λ v. (list : List ChangeValue) (S : TablesValue) → IsBefore before.now list S after.now.tables
        → AreNamed list S after.now.tables named.now → AreShorts S after.now.tables shorts.now
        → (q : PrefixValue) → Contains v q → IsNamed list S after.now.tables q ⊎ (Contains hosts.now q ⊎ IsMoved S after.now.tables q)) }
{
    let mut set = PrefixSet::new(alloc);
    let list = named.prefixes.listed(alloc)?;
    add_all(&mut set, list.as_slice())?;
    add_all(&mut set, hosts)?;
    add_each_near(alloc, &mut set, before, after, shorts)?;
    Ok(set)
}
