// What changes name.
ghost use Rattle.std.specs.Prelude.{◌≡◌, ◌↔◌, ◌||◌, ◌≤◌, [], Contains, IfOk, IsTrue, OnOk};
ghost use Rattle.std.specs.List.{AllByRecursion, list_any};
ghost use Rattle.fib_addr.specs.Prefixes.{host, same_prefix};
ghost use Rattle.fib_resolve.specs.declared.types.Tables.{Tables as TablesValue};
ghost use Rattle.fib_resolve_changes.specs.Affected.{is_own};
ghost use Rattle.fib_resolve_changes.specs.Sources.{all_hops};
ghost use Rattle.fib_entries_rows.specs.inner.Compare.{AreKept};
ghost use Rattle.fib_follow_pairs.specs.Fresh.{HoldsWays};
ghost use Rattle.fib_follow_pairs.specs.inner.Parts.{is_way, leads_to};
ghost use Rattle.fib_follow_looked.specs.Looks.{AreNamed, IsBefore, IsShortChange};
ghost use Rattle.fib_follow_looked.specs.inner.Adding.{Adds, AddsEach};
ghost use Rattle.fib_follow_looked.specs.inner.Naming.{are_hops, is_hop, leads, list_held, names, old_paths};

use crate::sets::{add_all, add_one};
use fib_addr::{Addr, Prefix};
use fib_config::Config;
use fib_cover::PrefixSet;
use fib_follow_view::Before;
use fib_paths::{PathListId, PathLists};
use fib_resolve::{Address, FibSource, Path, keys};
use fib_resolve_changes::Change;
use std::alloc::{AllocError, Global};

/// What changes name.
pub struct Named {
    /// The prefixes whose base pairs can be others, and the hosts of addresses that can be next hops or neighbors otherwise.
    pub prefixes: PrefixSet,
    /// The hosts of the next hops that the named routes have afterwards.
    pub hops: PrefixSet,
}

// The prover follows what a drop does here, once, and not at every way out past an owner.
impl Drop for Named {
    fn drop(self) {
        let Named {
            prefixes: _,
            hops: _,
        } = self;
    }
}

/// The paths of the first with that source.
fn list_held<'a>(
    lists: &'a PathLists,
    held: &[(FibSource, PathListId)],
    source: FibSource,
) -> &'a [Path]
    requires { AreKept lists.now held.now }
    ensures { result.now ≡ list_held lists.now held.now source }
{
    match held {
        [p, ps @ ..] => {
            if keys::is_same_source(p.0, source) {
                return lists.content(p.1);
            }
            list_held(lists, ps, source)
        }
        [] => &[],
    }
}

/// The paths that the prefix had of that source.
fn old_paths<'a>(before: &Before<'a>, prefix: Prefix, source: FibSource) -> &'a [Path]
    ensures { result.now ≡ old_paths before.now prefix source }
{
    match before.row(prefix) {
        Some(r) => list_held(before.lists(), r.pairs(), source),
        None => &[],
    }
}

/// Puts the host of a path's next hop to the set, if it has one.
fn add_hop(set: &mut PrefixSet, hop: Option<Addr>) -> Result<(), AllocError>
    ensures { OnOk result (Adds (is_hop hop) set.old set.new) }
{
    match hop {
        Some(a) => add_one(set, Prefix::host(a)),
        None => Ok(()),
    }
}

/// Puts the hosts of the paths' next hops to the set.
fn add_hops(set: &mut PrefixSet, paths: &[Path]) -> Result<(), AllocError>
    ensures { OnOk result (Adds (are_hops paths.now) set.old set.new) }
{
    'paths: for place in 0..paths.len() {
        let path = paths[place];
        add_hop(set, path.kind.recursive())?;
    }
    Ok(())
}

/// Puts the prefixes that an interface's address gives pairs to the set.
fn add_address(set: &mut PrefixSet, a: Address) -> Result<(), AllocError>
    requires { a.len ≤ 32 }
    ensures { OnOk result (Adds (is_own a) set.old set.new) }
{
    let near = Prefix::masked(a.addr, a.len);
    let own = [
        near,
        Prefix::host(a.addr),
        Prefix::host(near.bits()),
        Prefix::host(near.last()),
    ];
    add_all(set, own.as_slice())
}

/// Puts the prefix of a route to the set, and the hosts of the next hops that it had or has.
fn add_route(
    set: &mut PrefixSet,
    prefix: Prefix,
    old: &[Path],
    new: &[Path],
) -> Result<(), AllocError>
    ensures { OnOk result (Adds (λ q. same_prefix q prefix || (are_hops old.now q || are_hops new.now q)) set.old set.new) }
{
    add_one(set, prefix)?;
    add_hops(set, old)?;
    add_hops(set, new)
}

/// Puts what the change names to the set.
fn add_change(
    set: &mut PrefixSet,
    before: &Before<'_>,
    after: &Config,
    change: Change,
) -> Result<(), AllocError>
    requires { IsShortChange change }
    ensures { OnOk result (Adds (names before.now after.now.tables change) set.old set.new) }
{
    match change {
        Change::Flag(_) => Ok(()),
        Change::Address(a) => add_address(set, a),
        Change::Neighbor { addr, .. } => add_one(set, Prefix::host(addr)),
        Change::Route { prefix, source } => {
            let old = old_paths(before, prefix, source);
            add_route(set, prefix, old, after.paths_of(prefix, source))
        }
    }
}

fn prefixes_named(
    alloc: Global,
    before: &Before<'_>,
    after: &Config,
    changes: &[Change],
) -> Result<PrefixSet, AllocError>
    requires { AllByRecursion IsShortChange changes.now }
    ensures { IfOk result (λ v. AddsEach (names before.now after.now.tables) changes.now [] v) }
{
    let mut set = PrefixSet::new(alloc);
    'changes: for place in 0..changes.len() {
        add_change(&mut set, before, after, changes[place])?;
    }
    Ok(set)
}

/// Puts the hosts of the next hops that the changed route has to the set.
fn add_led(set: &mut PrefixSet, after: &Config, change: Change) -> Result<(), AllocError>
    ensures { OnOk result (Adds (leads after.now.tables change) set.old set.new) }
{
    match change {
        Change::Route { prefix, source } => add_hops(set, after.paths_of(prefix, source)),
        Change::Flag(_) | Change::Address(_) | Change::Neighbor { .. } => Ok(()),
    }
}

fn hops_led(alloc: Global, after: &Config, changes: &[Change]) -> Result<PrefixSet, AllocError>
    ensures { IfOk result (λ v. AddsEach (leads after.now.tables) changes.now [] v) }
{
    let mut set = PrefixSet::new(alloc);
    'changes: for place in 0..changes.len() {
        add_led(&mut set, after, changes[place])?;
    }
    Ok(set)
}

impl Named {
    /// What the changes name, where the tables after them are those of the configuration. An address that comes or goes has a length of at
    /// most 32. An error means that memory ran out.
    pub fn of(
        alloc: Global,
        before: &Before<'_>,
        after: &Config,
        changes: &[Change],
    ) -> Result<Named, AllocError>
        requires { AllByRecursion IsShortChange changes.now }
        ensures { IfOk result (λ x. (S : TablesValue) → IsBefore before.now changes.now S after.now.tables
            → AreNamed changes.now S after.now.tables x) }
    {
        // Read so that the proof knows that the tables are sound.
        let _tables = after.tables();
        let prefixes = prefixes_named(alloc, before, after, changes)?;
        // A length tells that they are prefixes.
        let _count = prefixes.len();
        let hops = hops_led(alloc, after, changes)?;
        Ok(Named { prefixes, hops })
    }
}

/// Whether one of the paths has the address as next hop.
fn leads_to(addr: Addr, paths: &[Path]) -> bool
    ensures { result ≡ list_any (leads_to addr) paths.now }
{
    paths.iter().any(|p| p.kind.recursive() == Some(addr))
}

/// Whether a route of the prefix has the address as next hop.
fn is_way(after: &Config, addr: Addr, prefix: Prefix) -> bool
    ensures { result ≡ is_way after.now.tables addr prefix }
{
    leads_to(addr, after.paths_of(prefix, FibSource::Api))
        || leads_to(addr, after.paths_of(prefix, FibSource::Cli))
}

/// Whether a route of one of the prefixes has the address as next hop: the first that has it ends the search.
fn has_way(after: &Config, addr: Addr, among: &PrefixSet) -> bool
    ensures { result ≡ list_any (is_way after.now.tables addr) among.now }
{
    'among: for prefix in among.iter() {
        if is_way(after, addr, *prefix) {
            return true;
        }
    }
    false
}

/// Whether the address is a next hop of a route after the changes, where `hops` are those of the named routes, and the prefixes of all
/// other routes that have it as next hop are among those given, which may be more.
pub fn is_hop_after(after: &Config, hops: &PrefixSet, addr: Addr, among: &PrefixSet) -> bool
    ensures { (Contains hops.now (host addr) → Contains (all_hops after.now.tables) addr)
        → ((Contains hops.now (host addr) → ⊥) → HoldsWays after.now.tables addr among.now)
        → IsTrue result ↔ Contains (all_hops after.now.tables) addr }
{
    // Read so that the proof knows that the tables are sound.
    let _tables = after.tables();
    if hops.contains(Prefix::host(addr)) {
        return true;
    }
    has_way(after, addr, among)
}
