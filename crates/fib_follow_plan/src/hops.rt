// Which addresses are next hops after changes.
ghost use Rattle.std.specs.Prelude.{◌↔◌, List, Contains, IfOk, IsTrue, OnOk, map};
ghost use Rattle.fib_resolve.specs.declared.types.Tables.{Tables as TablesValue};
ghost use Rattle.fib_resolve_changes.specs.Sources.{all_hops};
ghost use Rattle.fib_resolve_changes.specs.declared.change.Change.{Change as ChangeValue};
ghost use Rattle.fib_entries_rows.specs.Known.{Known, prefix_of};
ghost use Rattle.fib_follow_features.specs.FoundBy.{AreNoted};
ghost use Rattle.fib_follow_looked.specs.Looks.{AreHops, AreNamed, IsBefore};
ghost use Rattle.fib_follow_plan.specs.inner.Hops.{AddsHop, AreHopsAmong, IsGiven};

use fib_addr::{Addr, Prefix};
use fib_config::Config;
use fib_cover::PrefixSet;
use fib_follow_features::{Feature, Features};
use fib_follow_looked::{Named, is_hop_after};
use std::alloc::{AllocError, Global};

/// Whether the address is a next hop after the changes: of a named route, or of another that had it before.
fn is_hop(alloc: Global, after: &Config, features: &Features, named: &Named, addr: Addr) -> bool
    ensures { IsGiven after.now.tables named.now features.now → IsTrue result ↔ Contains (all_hops after.now.tables) addr }
{
    match features.holders(Feature::Via(addr)) {
        Some(among) => is_hop_after(after, &named.hops, addr, among),
        None => {
            let none = PrefixSet::new(alloc);
            is_hop_after(after, &named.hops, addr, &none)
        }
    }
}

/// Puts the prefix to the set where it is the host of a next hop.
fn add_hop(
    alloc: Global,
    set: &mut PrefixSet,
    after: &Config,
    features: &Features,
    named: &Named,
    e: Prefix,
) -> Result<(), AllocError>
    ensures { OnOk result (IsGiven after.now.tables named.now features.now → AddsHop after.now.tables e set.old set.new) }
{
    if e.len() < 32 {
        return Ok(());
    }
    if is_hop(alloc, after, features, named, e.bits()) {
        set.insert(e)?;
        return Ok(());
    }
    Ok(())
}

fn hops_among(
    alloc: Global,
    after: &Config,
    features: &Features,
    named: &Named,
    looked: &[Prefix],
) -> Result<PrefixSet, AllocError>
    ensures { IfOk result (λ v. IsGiven after.now.tables named.now features.now → AreHopsAmong after.now.tables looked.now v) }
{
    let mut set = PrefixSet::new(alloc);
    'looked: for place in 0..looked.len() {
        add_hop(alloc, &mut set, after, features, named, looked[place])?;
    }
    Ok(set)
}

/// Of the hosts looked at, those whose addresses are next hops after the changes. An error means that memory ran out.
pub fn hops_after(
    alloc: Global,
    after: &Config,
    features: &Features,
    named: &Named,
    looked: &PrefixSet,
) -> Result<PrefixSet, AllocError>
    ensures { IfOk result (λ v. (k : Known) (list : List ChangeValue) (S : TablesValue) → IsBefore k list S after.now.tables
        → AreNoted k.lists (map prefix_of k.rows) k.rows features.now → AreNamed list S after.now.tables named.now
        → AreHops after.now.tables looked.now v) }
{
    let list = looked.listed(alloc)?;
    hops_among(alloc, after, features, named, list.as_slice())
}
