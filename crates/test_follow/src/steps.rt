// A route comes by way of an address that is no entry yet: what is made anew, what the entries are then, and to what that leads.
ghost use Rattle.std.specs.Prelude.{IfOk};
ghost use Rattle.fib_resolve.specs.Reachable.{IsWritten};

use crate::held::HeldRows;
use fib_addr::{Addr, Prefix};
use fib_base_blocks::Blocks;
use fib_base_list::List;
use fib_config::Config;
use fib_follow_pairs::{Fresh, attached_at, base_pairs, is_as_found, made_anew, pairs};
use fib_follow_part::{Part, TOP, ranks};
use fib_follow_view::{Anew, Before, View};
use fib_resolve::{Edit, Need, PathSpec, SpecKind};
use std::alloc::{AllocError, Global};
use std::test::Fail;

/// 20.0.0.0/8.
pub fn route() -> Prefix {
    Prefix::masked(Addr(0x1400_0000), 8)
}

/// 10.0.0.7/32.
pub fn next_hop() -> Prefix {
    Prefix::host(Addr(0x0a00_0007))
}

/// 20.0.0.0/8 via 10.0.0.7.
pub fn recursive_route(alloc: Global) -> Result<Edit, AllocError>
    ensures { IfOk result IsWritten }
{
    let mut paths = List::new(alloc);
    paths.push(PathSpec {
        kind: SpecKind::Recursive(Addr(0x0a00_0007)),
        weight: 1,
        preference: 0,
        need: Need::Any,
    })?;
    Ok(Edit::AddRoute {
        prefix: Prefix::masked(Addr(0x1400_0000), 8),
        api: false,
        paths,
    })
}

/// Whether the tables have one pair there, which depends on no cover, and which attaches to no interface.
fn has_one_pair(alloc: Global, config: &Config) -> Result<bool, AllocError> {
    let base = base_pairs(alloc, config, route())?;
    Ok(base.len() == 1 && attached_at(alloc, config, route())?.is_none())
}

/// The route as the tables have it, which must be another than the rows have.
pub fn route_anew(alloc: Global, config: &Config, before: &Before<'_>) -> Result<Anew, Fail> {
    let prefix = Prefix::masked(Addr(0x1400_0000), 8);
    if pairs(alloc, config, prefix, None)?.len() != 1 {
        return Err("not one pair".into());
    }
    let fresh = made_anew(alloc, config, prefix, None)?;
    if is_as_found(before.lists(), before.row(prefix), &fresh) || fresh.attached().is_some() {
        return Err("the rows have it".into());
    }
    let Fresh::Entry(entry) = fresh else {
        return Err("no entry".into());
    };
    Ok(Anew {
        prefix: entry.prefix,
        pairs: entry.pairs,
        cover: Prefix::masked(Addr(0), 0),
    })
}

/// Whether it is no entry before, and one afterwards with one path, which leads to the next hop.
fn leads_on(alloc: Global, before: &Before<'_>, view: &View<'_>) -> Result<bool, AllocError> {
    let goals = view.goals(alloc, route())?;
    let is_new = !before.is_entry(route()) && view.is_entry(route()) && view.is_changed(route());
    let has_path = view.chosen(route()).len() == 1 && !view.is_derived(route());
    Ok(is_new && has_path && goals.as_slice() == [Some(next_hop())].as_slice())
}

/// Whether the small part is the route alone, to which nothing leads, and its edge leaves it.
fn is_small(part: &Part) -> bool {
    let is_alone = part.members() == [route()].as_slice() && part.is_apart();
    is_alone && part.left().is_empty() && part.out() == [(0, next_hop())].as_slice()
}

/// Whether the whole part is the route with its next hop, and no path of it is looped.
fn is_part(alloc: Global, view: &View<'_>, part: &Part) -> Result<bool, AllocError> {
    let looped = part.looped(alloc, view, route())?;
    let has_both = part.has(route()) && part.has(next_hop()) && part.members().len() == 2;
    let is_whole = has_both && part.out().is_empty() && part.place(next_hop()) == Some(1);
    Ok(is_whole && looped.as_slice() == [false].as_slice() && part.numbers().len() == 2)
}

/// Whether ranks were found, of which none is above what a new entry begins with.
fn are_ranked(alloc: Global, view: &View<'_>, part: &Part) -> Result<bool, AllocError> {
    match ranks(alloc, view, part)? {
        Some(ranks) => Ok(
            ranks.len() == part.members().len() && ranks.iter().all(|rank| *rank <= TOP),
        ),
        None => Ok(false),
    }
}

/// The steps over the rows of before.
fn steps_are_right(alloc: Global, config: &Config, held: &HeldRows) -> Result<bool, Fail> {
    let before = held.before();
    let mut changed = Blocks::new(alloc);
    changed.push(route_anew(alloc, config, &before)?)?;
    let view = View::new(held.before(), &changed);
    let small = Part::of(alloc, &view)?;
    let whole = Part::whole(alloc, &view)?;
    Ok(
        leads_on(alloc, &before, &view)?
            && is_small(&small)
            && are_ranked(alloc, &view, &small)?
            && is_part(alloc, &view, &whole)?
            && are_ranked(alloc, &view, &whole)?
            && has_one_pair(alloc, config)?,
    )
}

fn follows(alloc: Global, config: &mut Config) -> Result<bool, Fail> {
    let held = HeldRows::of(alloc, config.tables())?;
    config.edit(&recursive_route(alloc)?)?;
    steps_are_right(alloc, config, &held)
}

#[test]
fn a_route_by_way_of_a_new_next_hop(rt: HostRuntime) -> Result<(), Fail> {
    let mut config = Config::new(rt.alloc(), 1_000)?;
    if !follows(rt.alloc(), &mut config)? {
        return Err("a step went otherwise".into());
    }
    Ok(())
}
