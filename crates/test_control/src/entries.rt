// Each public call once, with ample memory: what a recursive route makes, a leaf's route that changes, and what becomes of a link.
ghost use Rattle.std.specs.Prelude.{IfOk, ◌<◌, ◌-◌, ◌^◌};
ghost use Rattle.fib_resolve.specs.Reachable.{IsWritten};

use crate::config::name;
use fib_addr::{Addr, Mac, Prefix};
use fib_base_list::List;
use fib_config::Config;
use fib_entries::{Change, Entries, FollowError};
use fib_resolve::{Edit, FibSource, Name, Need, PathSpec, SpecKind};
use std::alloc::{AllocError, Global};
use std::test::Fail;

/// 20.0.0.0/8 via 10.0.0.7.
fn recursive_route(alloc: Global) -> Result<Edit, AllocError>
    ensures { IfOk result IsWritten }
{
    let mut paths = List::new(alloc);
    paths.push(PathSpec {
        kind: SpecKind::Recursive(Addr(0x0a00_0007)),
        weight: 1,
        preference: 0,
        need: Need::Any,
    })?;
    Ok(Edit::AddRoute {
        prefix: Prefix::masked(Addr(0x1400_0000), 8),
        api: false,
        paths,
    })
}

/// Whether the change is too large for three objects.
fn is_too_large(entries: &mut Entries, config: &Config, change: Change) -> bool {
    entries.follow_changes(config, &[change], 3).is_err()
}

/// Whether the change touches two prefixes, and gives some a rank.
fn touches_two(
    entries: &mut Entries,
    config: &Config,
    change: Change,
) -> Result<bool, FollowError> {
    let followed = entries.follow_changes(config, &[change], 1000)?;
    Ok(followed.touched.list().len() == 2 && followed.moved.len() > 0)
}

/// Whether the host has the route alone as its dependant, which it wakes.
fn leads_to(entries: &Entries, route: Prefix, host: Prefix) -> bool {
    entries.dependants(host) == [route].as_slice()
        && entries.wakes(route, host)
        && entries.rank(host) < entries.rank(route)
}

/// Whether the route has one path, which isn't looped.
fn has_a_path(entries: &Entries, route: Prefix) -> bool {
    !entries.looped(route, 0)
        && entries.pairs(route).len() == 1
        && entries.marked(route).len() == 1
        && entries.chosen(route).is_some()
}

fn has_lists(entries: &Entries) -> bool {
    entries.len() == 7
        && entries.lists().count() > 0
        && entries.cover(Addr(0x0a00_0007)) == Prefix::masked(Addr(0), 0)
}

/// Whether the entries follow the change, and what they say then.
fn follows_the_route(entries: &mut Entries, config: &Config) -> Result<bool, FollowError> {
    let route = Prefix::masked(Addr(0x1400_0000), 8);
    let host = Prefix::host(Addr(0x0a00_0007));
    let change = Change::Route {
        prefix: route,
        source: FibSource::Cli,
    };
    let is_refused = is_too_large(entries, config, change);
    let is_followed = touches_two(entries, config, change)?;
    Ok(
        is_refused
            && is_followed
            && leads_to(entries, route, host)
            && has_a_path(entries, route)
            && has_lists(entries),
    )
}

/// Whether fresh entries follow that route.
fn makes_a_host(alloc: Global, entries: &mut Entries, config: &mut Config) -> Result<bool, Fail> {
    config.edit(&recursive_route(alloc)?)?;
    let is_fresh = entries.len() == 5 && entries.size() == 20;
    Ok(is_fresh && follows_the_route(entries, config)?)
}

/// The route of that prefix gets a path of that kind, or the path goes.
fn edit_by(
    alloc: Global,
    comes: bool,
    prefix: Prefix,
    kind: SpecKind,
    weight: u8,
) -> Result<Edit, AllocError>
    requires { 0 < weight }
    ensures { IfOk result IsWritten }
{
    let mut paths = List::new(alloc);
    paths.push(PathSpec {
        kind,
        weight,
        preference: 0,
        need: Need::Any,
    })?;
    let api = false;
    if comes {
        return Ok(Edit::AddRoute { prefix, api, paths });
    }
    Ok(Edit::DelRoute { prefix, api, paths })
}

/// The route of that prefix of length 8 gets a path via that next hop, or the path goes.
fn edit_via(
    alloc: Global,
    comes: bool,
    route: u32,
    hop: u32,
    weight: u8,
) -> Result<Edit, AllocError>
    requires { 0 < weight }
    ensures { IfOk result IsWritten }
{
    let prefix = Prefix::masked(Addr(route), 8);
    edit_by(alloc, comes, prefix, SpecKind::Recursive(Addr(hop)), weight)
}

/// The second route goes.
fn edit_gone(alloc: Global) -> Edit
    ensures { IsWritten result }
{
    Edit::DelRoute {
        prefix: Prefix::masked(Addr(0x1e00_0000), 8),
        api: false,
        paths: List::new(alloc),
    }
}

/// Four routes over two next hops, and after them what becomes of the second: the other next hop comes, the first one goes, the path that
/// is left gets another weight, the route goes, and it comes again.
fn edit_of(alloc: Global, number: u32) -> Result<Edit, AllocError>
    ensures { IfOk result IsWritten }
{
    match number {
        0 => edit_via(alloc, true, 0x1400_0000, 0x0a00_0007, 1),
        1 => edit_via(alloc, true, 0x1e00_0000, 0x0a00_0007, 1),
        2 => edit_via(alloc, true, 0x2800_0000, 0x0a00_0008, 1),
        3 => edit_via(alloc, true, 0x3200_0000, 0x0a00_0008, 1),
        4 => edit_via(alloc, true, 0x1e00_0000, 0x0a00_0008, 1),
        5 => edit_via(alloc, false, 0x1e00_0000, 0x0a00_0007, 1),
        6 => edit_via(alloc, true, 0x1e00_0000, 0x0a00_0008, 9),
        7 => Ok(edit_gone(alloc)),
        _ => edit_via(alloc, true, 0x1e00_0000, 0x0a00_0007, 1),
    }
}

/// The route 60.0.0.0/8 by way of the second next hop over the link comes or goes.
fn edit_over(alloc: Global, comes: bool, name: Name) -> Result<Edit, AllocError>
    ensures { IfOk result IsWritten }
{
    let prefix = Prefix::masked(Addr(0x3c00_0000), 8);
    let kind = SpecKind::Hop(Addr(0x0a00_0008), name);
    edit_by(alloc, comes, prefix, kind, 1)
}

/// A link to the second next hop, its MAC, a route by way of it over the link, a route over the link inside the second route, which gets
/// another weight; another MAC, the link goes down, and the first of these routes goes.
fn edit_of_end(alloc: Global, number: u32) -> Result<Edit, Fail>
    ensures { IfOk result IsWritten }
{
    let name = name(alloc, "up0")?;
    match number {
        0 => Ok(Edit::CreateInterface(name)),
        1 => Ok(Edit::SetState { name, up: true }),
        2 => Ok(Edit::AddAddress {
            name,
            addr: Addr(0x0a00_0001),
            len: 28,
        }),
        3 => Ok(Edit::SetNeighbor {
            name,
            addr: Addr(0x0a00_0008),
            mac: Mac::of_bytes([2, 0, 0], [0, 0, 1]),
        }),
        4 | 9 => Ok(edit_over(alloc, number == 4, name)?),
        5 => {
            let inside = Prefix::masked(Addr(0x1e01_0000), 16);
            Ok(edit_by(alloc, true, inside, SpecKind::Attached(name), 1)?)
        }
        6 => Ok(edit_via(alloc, true, 0x1e00_0000, 0x0a00_0007, 3)?),
        7 => Ok(Edit::SetNeighbor {
            name,
            addr: Addr(0x0a00_0008),
            mac: Mac::of_bytes([2, 0, 0], [0, 0, 2]),
        }),
        _ => Ok(Edit::SetState { name, up: false }),
    }
}

/// Whether both say the same of that entry.
fn agree_at(entries: &Entries, anew: &Entries, e: Prefix) -> bool {
    entries.chosen(e) == anew.chosen(e)
        && entries.marked(e) == anew.marked(e)
        && entries.dependants(e).len() == anew.dependants(e).len()
        && entries.looped(e, 0) == anew.looped(e, 0)
}

/// Whether both know as many entries, objects and lists.
fn are_as_large(entries: &Entries, anew: &Entries) -> bool {
    entries.len() == anew.len()
        && entries.size() == anew.size()
        && entries.lists().count() == anew.lists().count()
}

/// Whether both know the same.
fn agree(entries: &Entries, anew: &Entries) -> bool {
    for place in 0..anew.len() {
        if !agree_at(entries, anew, anew.at(place)) {
            return false;
        }
    }
    are_as_large(entries, anew)
}

/// Whether the entries know what is made anew.
fn are_as_anew(alloc: Global, entries: &Entries, config: &Config) -> Result<bool, AllocError> {
    let anew = Entries::of(alloc, config.tables())?;
    Ok(agree(entries, &anew))
}

/// The size of entries made anew.
fn size_anew(alloc: Global, config: &Config) -> Result<u32, AllocError> {
    let anew = Entries::of(alloc, config.tables())?;
    Ok(anew.size())
}

/// Whether the change is refused with that size where no object may come.
fn is_refused_with(entries: &mut Entries, config: &Config, change: Change, size: u32) -> bool
    requires { entries.old.objects < 2 ^ 32 - 1 }
{
    let most = entries.size();
    match entries.follow_changes(config, &[change], most) {
        Err(FollowError::TooMany(told)) => told == size,
        _ => false,
    }
}

/// Whether the change, where it makes objects, is refused where none may come, and told with the size of the tables.
fn tells_size(
    alloc: Global,
    entries: &mut Entries,
    config: &Config,
    change: Change,
) -> Result<bool, Fail> {
    let size = size_anew(alloc, config)?;
    Ok(size <= entries.size() || is_refused_with(entries, config, change, size))
}

/// Whether the edit of the second route touches it alone, and the entries that follow it are as if made anew.
fn follows_a_leaf(
    alloc: Global,
    entries: &mut Entries,
    config: &mut Config,
    number: u32,
) -> Result<bool, Fail> {
    config.edit(&edit_of(alloc, number)?)?;
    let prefix = Prefix::masked(Addr(0x1e00_0000), 8);
    let source = FibSource::Cli;
    let change = Change::Route { prefix, source };
    if !tells_size(alloc, entries, config, change)? {
        return Ok(false);
    }
    let followed = entries.follow_changes(config, &[change], 1000)?;
    let is_alone = followed.touched.list() == [prefix].as_slice();
    Ok(is_alone && are_as_anew(alloc, entries, config)?)
}

/// The first four edits, and entries of what they make.
fn has_four(alloc: Global, entries: &mut Entries, config: &mut Config) -> Result<bool, Fail> {
    for number in 0..4 {
        config.edit(&edit_of(alloc, number)?)?;
    }
    *entries = Entries::of(alloc, config.tables())?;
    Ok(entries.len() == 11)
}

fn follows_all(alloc: Global, entries: &mut Entries, config: &mut Config) -> Result<bool, Fail> {
    if !has_four(alloc, entries, config)? {
        return Ok(false);
    }
    for number in 4..9 {
        if !follows_a_leaf(alloc, entries, config, number)? {
            return Ok(false);
        }
    }
    Ok(true)
}

/// Whether the entries that follow the edit are as if made anew.
fn follows_an_end(
    alloc: Global,
    entries: &mut Entries,
    config: &mut Config,
    number: u32,
) -> Result<bool, Fail> {
    let edited = config.change(&edit_of_end(alloc, number)?)?;
    entries.follow_changes(config, &[edited.change], 1000)?;
    Ok(are_as_anew(alloc, entries, config)?)
}

fn follows_ends(alloc: Global, entries: &mut Entries, config: &mut Config) -> Result<bool, Fail> {
    for number in 0..10 {
        if !follows_an_end(alloc, entries, config, number)? {
            return Ok(false);
        }
    }
    Ok(true)
}

/// Whether the entries that follow an edit and the next one at once are as if made anew.
fn follows_both(
    alloc: Global,
    entries: &mut Entries,
    config: &mut Config,
    number: u32,
) -> Result<bool, Fail>
    requires { number < 9 }
{
    let first = config.change(&edit_of_end(alloc, number)?)?;
    let second = config.change(&edit_of_end(alloc, number + 1)?)?;
    entries.follow_changes(config, &[first.change, second.change], 1000)?;
    Ok(are_as_anew(alloc, entries, config)?)
}

fn follows_batches(
    alloc: Global,
    entries: &mut Entries,
    config: &mut Config,
) -> Result<bool, Fail> {
    if !has_four(alloc, entries, config)? {
        return Ok(false);
    }
    for pair in 0..5u32 {
        if !follows_both(alloc, entries, config, 2 * pair)? {
            return Ok(false);
        }
    }
    Ok(true)
}

fn is_right(
    alloc: Global,
    entries: &mut Entries,
    config: &mut Config,
    scene: u32,
) -> Result<bool, Fail> {
    match scene {
        0 => makes_a_host(alloc, entries, config),
        1 => follows_batches(alloc, entries, config),
        _ => Ok(follows_all(alloc, entries, config)? && follows_ends(alloc, entries, config)?),
    }
}

// The one owner of a configuration, and below it the one of entries: the prover follows every way out past them.
fn plays_over(alloc: Global, entries: &mut Entries, scene: u32) -> Result<bool, Fail> {
    let mut config = Config::new(alloc, 1000)?;
    is_right(alloc, entries, &mut config, scene)
}

fn plays(alloc: Global, scene: u32) -> Result<bool, Fail> {
    let mut entries = Entries::new(alloc)?;
    plays_over(alloc, &mut entries, scene)
}

// A recursive route makes a host; each of the five changes of the second route is followed in its row, and then what becomes of a link and of
// routes over it, one edit at a time and two at once.
#[test]
fn what_entries_follow(rt: HostRuntime) -> Result<(), Fail> {
    for scene in 0..3 {
        if !plays(rt.alloc(), scene)? {
            return Err("a scene went otherwise".into());
        }
    }
    Ok(())
}
