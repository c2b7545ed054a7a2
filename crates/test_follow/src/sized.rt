// A route comes over an interface: the size of the tables with it.
ghost use Rattle.std.specs.Prelude.{◌≡◌, IfOk};
ghost use Rattle.fib_resolve.specs.Reachable.{IsWritten};

use crate::held::HeldRows;
use fib_addr::{Addr, Prefix};
use fib_base_blocks::Blocks;
use fib_base_list::List;
use fib_config::Config;
use fib_follow_pairs::{Fresh, made_anew};
use fib_follow_sized::{asked_ends, sized};
use fib_follow_view::{Anew, View};
use fib_resolve::{Edit, Name, Need, PathSpec, SpecKind};
use std::alloc::{AllocError, Global};
use std::collections::HashSet;
use std::test::Fail;

fn name(alloc: Global) -> Result<Name, Fail> {
    if !Name::is_name("eth0".as_bytes()) {
        return Err("not a name".into());
    }
    let bytes = "eth0".as_bytes().to_vec(alloc)?;
    Ok(Name::from_text(List::from_vec(bytes)))
}

/// 20.0.0.0/8 by way of 10.0.0.7 over the interface.
fn route_over(alloc: Global, interface: Name) -> Result<Edit, AllocError>
    ensures { IfOk result IsWritten }
{
    let mut paths = List::new(alloc);
    paths.push(PathSpec {
        kind: SpecKind::Hop(Addr(0x0a00_0007), interface),
        weight: 1,
        preference: 0,
        need: Need::Any,
    })?;
    Ok(Edit::AddRoute {
        prefix: Prefix::masked(Addr(0x1400_0000), 8),
        api: false,
        paths,
    })
}

/// The route as the tables have it.
fn route_anew(alloc: Global, config: &Config) -> Result<Anew, Fail> {
    let prefix = Prefix::masked(Addr(0x1400_0000), 8);
    let Fresh::Entry(entry) = made_anew(alloc, config, prefix, None)? else {
        return Err("no entry".into());
    };
    Ok(Anew {
        prefix: entry.prefix,
        pairs: entry.pairs,
        cover: Prefix::masked(Addr(0), 0),
    })
}

/// The twenty objects of fresh tables, with the route, the ply 16.0.0.0/4 on the way to it, and its Hop end. Where another entry were
/// known to have the end, that would be there already.
fn sizes_are_right(alloc: Global, config: &Config, held: &HeldRows) -> Result<bool, Fail> {
    let mut changed = Blocks::new(alloc);
    changed.push(route_anew(alloc, config)?)?;
    let view = View::new(held.before(), &changed);
    let asked = asked_ends(alloc, &view)?;
    let mut ends = HashSet::new(alloc);
    let alone = sized(alloc, &view, held.rows(), &ends)?;
    for end in asked.as_slice() {
        ends.insert(*end)?;
    }
    let beside = sized(alloc, &view, held.rows(), &ends)?;
    Ok(asked.len() == 1 && alone == 23 && beside == 22)
}

fn grows(alloc: Global, config: &mut Config) -> Result<bool, Fail> {
    config.edit(&Edit::CreateInterface(name(alloc)?))?;
    let held = HeldRows::of(alloc, config.tables())?;
    config.edit(&route_over(alloc, name(alloc)?)?)?;
    sizes_are_right(alloc, config, &held)
}

#[test]
fn a_route_over_an_interface(rt: HostRuntime) -> Result<(), Fail> {
    let mut config = Config::new(rt.alloc(), 1_000)?;
    if !grows(rt.alloc(), &mut config)? {
        return Err("another size".into());
    }
    Ok(())
}
