// Each public call once, and the sizes that a router's first lines take.
ghost use Rattle.std.specs.Prelude.{IfOk};
ghost use Rattle.fib_resolve.specs.Reachable.{IsWritten};

use fib_addr::{Addr, Mac, Prefix};
use fib_config::{BatchError, Config, EditError, EditedAll};
use fib_resolve::{Edit, FibSource, List, Name, Need, PathSpec, Refusal, SpecKind};
use std::alloc::{AllocError, Global};
use std::test::Fail;

/// The name, which must be one.
pub fn name(alloc: Global, text: &str) -> Result<Name, Fail> {
    if !Name::is_name(text.as_bytes()) {
        return Err("no name".into());
    }
    let bytes = text.as_bytes().to_vec(alloc)?;
    Ok(Name::from_text(List::from_vec(bytes)))
}

fn edit_of(alloc: Global, number: u32) -> Result<Edit, Fail>
    ensures { IfOk result IsWritten }
{
    match number {
        0 => Ok(Edit::CreateInterface(name(alloc, "up0")?)),
        1 => Ok(Edit::CreateInterface(name(alloc, "up1")?)),
        2 => Ok(Edit::SetState {
            name: name(alloc, "up0")?,
            up: true,
        }),
        3 => Ok(Edit::SetState {
            name: name(alloc, "up1")?,
            up: true,
        }),
        4 => Ok(Edit::AddAddress {
            name: name(alloc, "up0")?,
            addr: Addr(0x0a01_0001),
            len: 30,
        }),
        _ => Ok(Edit::AddAddress {
            name: name(alloc, "up1")?,
            addr: Addr(0x0a02_0001),
            len: 30,
        }),
    }
}

// Two links, up to one address.
fn two_links(alloc: Global, config: &mut Config) -> Result<(), Fail> {
    for number in 0..5 {
        let edit = edit_of(alloc, number)?;
        config.edit(&edit)?;
    }
    Ok(())
}

// Whether the second address is too large an edit.
fn is_too_large(alloc: Global, config: &mut Config) -> Result<bool, Fail> {
    let edit = edit_of(alloc, 5)?;
    Ok(config.edit(&edit) == Err(EditError::Refused(Refusal::TooLarge)))
}

// Whether it is so in a batch, as the second edit.
fn is_too_large_at_one(alloc: Global, config: &mut Config) -> Result<bool, Fail> {
    let edits = [edit_of(alloc, 3)?, edit_of(alloc, 5)?];
    let refusal = Refusal::TooLarge;
    Ok(config.edit_all(&edits) == Err(BatchError::Refused { place: 1, refusal }))
}

// Whether a batch of the first alone is made.
fn is_made_alone(alloc: Global, config: &mut Config) -> Result<bool, Fail> {
    let edits = [edit_of(alloc, 3)?];
    Ok(config.edit_all(&edits) == Ok(()))
}

fn has_two_links(config: &Config) -> bool {
    config.tables().interfaces.len() == 2 && config.tables().addresses.len() == 1
}

// The same of a copy.
fn is_copied(alloc: Global, copy: &mut Config) -> Result<bool, Fail> {
    let has_two = has_two_links(copy);
    let is_refused = is_too_large_at_one(alloc, copy)?;
    let is_made = is_made_alone(alloc, copy)?;
    Ok(has_two && is_refused && is_made)
}

// The one owner of the copy.
fn copy_is_right(alloc: Global, config: &Config) -> Result<bool, Fail> {
    let mut copy = config.copy()?;
    is_copied(alloc, &mut copy)
}

// What thirty-two objects hold of two links.
fn links_are_right(alloc: Global, config: &mut Config) -> Result<bool, Fail> {
    two_links(alloc, config)?;
    let is_refused = is_too_large(alloc, config)?;
    let is_copied = copy_is_right(alloc, config)?;
    Ok(is_refused && is_copied)
}

// Whether an edit is taken back.
fn is_taken_back(alloc: Global, config: &mut Config) -> Result<bool, Fail> {
    let edit = edit_of(alloc, 0)?;
    let made = config.change(&edit)?;
    let before = config.tables().interfaces.len();
    config.undo(made.undo);
    Ok(before == 1 && config.tables().interfaces.len() == 0)
}

// Whether a batch is taken back, which keeps one list of interfaces and one of addresses.
fn are_taken_back(alloc: Global, config: &mut Config) -> Result<bool, Fail> {
    let edits = [edit_of(alloc, 0)?, edit_of(alloc, 2)?, edit_of(alloc, 4)?];
    let EditedAll { changes, undos } = config.change_all(&edits)?;
    let before = (config.tables().addresses.len(), changes.len(), undos.len());
    config.undo_all(undos);
    Ok(before == (1, 3, 2) && config.tables().interfaces.len() == 0)
}

// Whether a batch with an interface that is there is refused and leaves none.
fn is_refused_whole(alloc: Global, config: &mut Config) -> Result<bool, Fail> {
    let twice = [edit_of(alloc, 0)?, edit_of(alloc, 0)?];
    Ok(config.change_all(&twice).is_err() && config.tables().interfaces.len() == 0)
}

// 20.0.0.0/8 and seven behind it.
fn prefix_of(number: usize) -> Prefix {
    Prefix::masked(Addr(0x1400_0000 + (number % 8) as u32 * 0x0100_0000), 8)
}

// The route of one of them, which drops.
fn dropping_route(alloc: Global, number: usize) -> Result<Edit, AllocError>
    ensures { IfOk result IsWritten }
{
    let mut paths = List::new(alloc);
    paths.push(PathSpec {
        kind: SpecKind::Drop,
        weight: 1,
        preference: 0,
        need: Need::Any,
    })?;
    Ok(Edit::AddRoute {
        prefix: prefix_of(number),
        api: false,
        paths,
    })
}

// Whether the path of a route is found by its prefix and source, and none by another source.
fn is_found(alloc: Global, config: &mut Config) -> Result<bool, Fail> {
    let edit = dropping_route(alloc, 0)?;
    config.edit(&edit)?;
    let prefix = prefix_of(0);
    let own = config.paths_of(prefix, FibSource::Cli).len();
    let other = config.paths_of(prefix, FibSource::Api).len();
    Ok(own == 1 && other == 0)
}

// Whether the look-ups find two links, of which the first one is up and has an address and a neighbor.
fn are_looked_up(alloc: Global, config: &mut Config) -> Result<bool, Fail> {
    two_links(alloc, config)?;
    let addr = Addr(0x0a01_0002);
    let neighbor = Edit::SetNeighbor {
        name: name(alloc, "up0")?,
        addr,
        mac: Mac::of_bytes([2, 0, 0], [0, 0, 1]),
    };
    config.edit(&neighbor)?;
    let near = Prefix::masked(addr, 30);
    Ok(
        config.is_up(0)
            && !config.is_up(2)
            && config.mac_of(0, addr) == Some(Mac::of_bytes([2, 0, 0], [0, 0, 1]))
            && config.mac_of(1, addr).is_none()
            && config.addresses_at(near)?.len() == 1
            && config.addresses_at(Prefix::host(addr))?.is_empty()
            && config.neighbors_inside(near)?.len() == 1,
    )
}

fn is_right(alloc: Global, config: &mut Config, scene: u32) -> Result<bool, Fail> {
    match scene {
        0 => links_are_right(alloc, config),
        1 => is_taken_back(alloc, config),
        2 => are_taken_back(alloc, config),
        3 => is_refused_whole(alloc, config),
        4 => is_found(alloc, config),
        _ => are_looked_up(alloc, config),
    }
}

// The one owner of a configuration: the prover follows every way out past it.
fn plays(alloc: Global, scene: u32) -> Result<bool, Fail> {
    let mut config = Config::new(alloc, 32)?;
    is_right(alloc, &mut config, scene)
}

// Two links of thirty-two objects; an edit, a batch and a refused batch that are taken back; a route's path; and what is looked up.
#[test]
fn what_a_configuration_does(rt: HostRuntime) -> Result<(), Fail> {
    for scene in 0..6 {
        if !plays(rt.alloc(), scene)? {
            return Err("a scene went otherwise".into());
        }
    }
    Ok(())
}

// Five routes, in the order of their prefixes.
fn five_routes(alloc: Global, config: &mut Config) -> Result<(), Fail> {
    for number in 0..5 {
        let edit = dropping_route(alloc, number)?;
        config.edit(&edit)?;
    }
    Ok(())
}

fn has_five_routes(config: &Config) -> bool {
    let routes = &config.tables().routes;
    for i in 0..routes.len() {
        if routes[i].prefix != prefix_of(i) {
            return false;
        }
    }
    routes.len() == 5
}

// One of them goes.
fn deletion(alloc: Global, number: usize) -> Edit
    ensures { IsWritten result }
{
    Edit::DelRoute {
        prefix: prefix_of(number),
        api: false,
        paths: List::new(alloc),
    }
}

// Whether a deletion is taken back, in place.
fn is_put_back(alloc: Global, config: &mut Config, number: usize) -> Result<bool, Fail> {
    let made = config.change(&deletion(alloc, number))?;
    let left = config.tables().routes.len();
    config.undo(made.undo);
    Ok(left == 4 && has_five_routes(config))
}

// Whether it is in a copy of the tables, whose four routes fill their vector: they move into the one of the undo.
fn is_put_back_in_copy(alloc: Global, config: &mut Config) -> Result<bool, Fail> {
    let made = config.change(&deletion(alloc, 1))?;
    let mut copy = config.copy()?;
    copy.undo(made.undo);
    let is_back = has_five_routes(&copy);
    let edit = dropping_route(alloc, 5)?;
    copy.edit(&edit)?;
    Ok(is_back && copy.tables().routes.len() == 6)
}

// Whether a batch of deletions is, which keeps one list of routes.
fn are_put_back(alloc: Global, config: &mut Config) -> Result<bool, Fail> {
    let edits = [deletion(alloc, 4), deletion(alloc, 0), deletion(alloc, 2)];
    let EditedAll { undos, .. } = config.change_all(&edits)?;
    let before = (config.tables().routes.len(), undos.len());
    config.undo_all(undos);
    Ok(before == (2, 1) && has_five_routes(config))
}

fn is_route_back(alloc: Global, config: &mut Config, scene: usize) -> Result<bool, Fail> {
    five_routes(alloc, config)?;
    match scene {
        0 => are_put_back(alloc, config),
        1 => is_put_back_in_copy(alloc, config),
        _ => is_put_back(alloc, config, scene - 2),
    }
}

// The one owner of the configuration.
fn puts_back(alloc: Global, scene: usize) -> Result<bool, Fail> {
    let mut config = Config::new(alloc, 64)?;
    is_route_back(alloc, &mut config, scene)
}

// Deletions that are taken back: of a batch, where the routes have no room of their own, and of each of five routes.
#[test]
fn what_takes_deletions_back(rt: HostRuntime) -> Result<(), Fail> {
    for scene in 0..7 {
        if !puts_back(rt.alloc(), scene)? {
            return Err("a route isn't back".into());
        }
    }
    Ok(())
}
