// The edited tables.
ghost use Rattle.std.specs.Prelude.{◌≡◌, ◌≤◌, ◌++◌, [], ◌∷◌, slice_index_or, IfOk, IfErr, OnOk, OnErr, None, Ok, length, map, filter, not, ◌<◌, ◌^◌, ◌-◌};
ghost use Rattle.std.specs.List.{AllByRecursion, IsDistinct, remove};
ghost use Rattle.fib_config.specs.Undone.{undone, undone_all, IsBackOf, IsNeighborBackOf};
ghost use Rattle.fib_config.specs.inner.Digest.{AreKeys, Follows, HasKeys, IsDigest, route_key, neighbor_key};
ghost use Rattle.fib_resolve_changes.specs.Differ.{Differ, change_of};
ghost use Rattle.fib_resolve.specs.Tables.{IsSound, same_neighbor, same_route};
ghost use Rattle.fib_resolve.specs.declared.types.Tables.{Tables as TablesValue};
ghost use Rattle.fib_resolve.specs.Refusals.{refused, edited_in_turn, reasons, first_reason};
ghost use Rattle.fib_resolve.specs.Reachable.{IsWritten};
ghost use Rattle.fib_config.specs.Config.{TellsRefusal, TellsFirstRefused};
ghost use Rattle.fib_resolve.specs.Edits.{edited, with_routes, route_left, routes_without, without_paths, paths_at, path_of, paths_with};
ghost use Rattle.fib_resolve.specs.Edits.{source_of, set_route, without_route};

use crate::digest::{self, Digest};
use crate::errors::{BatchError, EditError};
use crate::undo::{Back, Edited, EditedAll, Undo};
use crate::{bounds, changes, reasons, sizes};
use fib_addr::{Addr, Prefix};
use fib_base_keyed::Keyed;
use fib_resolve::{
    Address, Blocks, Duplicate, Edit, FibSource, Interface, List, Neighbor, Path, PathSpec,
    Refusal, Route, Spare, Tables,
};
use fib_resolve_changes::Change;
use std::alloc::{AllocError, Global};
use std::hash::Hash;
use std::mem;

// Puts the route with the paths that are left of it in its place; it goes where none is left.
#[tactic(auto)]
fn leave_route(
    alloc: Global,
    left: Route,
    routes: &mut Blocks<Route>,
    keys: &mut Option<Keyed<(Prefix, u8)>>,
    back: Back,
) -> Result<Undo, AllocError>
    requires keys { AreKeys route_key routes.old keys.old }
    requires apart { IsDistinct same_route routes.old }
    ensures ok { OnOk result (routes.new ≡ route_left left.prefix left.source left.paths routes.old) }
    ensures back { IfOk result (λ u. IsBackOf u routes.new routes.old) }
    ensures err { OnErr result (routes.new ≡ routes.old) }
    ensures keys { AreKeys route_key routes.new keys.new }
{
    match left.paths.as_slice() {
        [] => drop_route(alloc, &left, routes, keys, back),
        [_, ..] => changes::put_route(left, routes, keys),
    }
}

// Takes the item at that place out, and reserves the memory for its way back. Where there is none, all stays.
fn take_spared<T: Drop>(list: &mut Blocks<T>, place: usize) -> Result<(T, Spare<T>), AllocError>
    requires { place < length list.old }
    ensures list { OnOk result (list.new ≡ remove list.old place) }
    ensures value { IfOk result (λ x. x.0 ≡ slice_index_or list.old place x.0) }
    ensures spare { IfOk result (λ x. x.1 ≡ length list.old) }
    ensures err { OnErr result (list.new ≡ list.old) }
{
    let spare = list.spare()?;
    let old = list.remove(place);
    Ok((old, spare))
}

// Takes the item at that place out, with its key, and gives a copy of the whole list. Where memory is wanted, all stays.
fn take_copied<T: Duplicate + Drop, K: Eq + Hash + Copy + Drop>(
    alloc: Global,
    list: &mut Blocks<T>,
    keys: &mut Option<Keyed<K>>,
    place: usize,
) -> Result<Blocks<T>, AllocError>
    ensures list { OnOk result (list.new ≡ remove list.old place) }
    ensures copy { IfOk result (λ x. x ≡ list.old) }
    ensures keys { OnOk result (Follows (λ ks. remove ks place) keys.old keys.new) }
    ensures err { OnErr result (list.new ≡ list.old) }
    ensures kept { OnErr result (keys.new ≡ keys.old) }
{
    let copied = list.duplicate(alloc)?;
    changes::remove_at(list, place);
    digest::drop_at(keys, place);
    Ok(copied)
}

// Takes out the route of that prefix and source, to be taken back so.
#[tactic(auto, using(crate::proofs::Keying::route_out))]
fn drop_route(
    alloc: Global,
    gone: &Route,
    routes: &mut Blocks<Route>,
    keys: &mut Option<Keyed<(Prefix, u8)>>,
    back: Back,
) -> Result<Undo, AllocError>
    requires keys { AreKeys route_key routes.old keys.old }
    requires apart { IsDistinct same_route routes.old }
    ensures ok { OnOk result (routes.new ≡ without_route gone.now.prefix gone.now.source routes.old) }
    ensures back { IfOk result (λ u. IsBackOf u routes.new routes.old) }
    ensures err { OnErr result (routes.new ≡ routes.old) }
    ensures keys { AreKeys route_key routes.new keys.new }
{
    let place = digest::place_of_route(keys, gone.prefix, gone.source, routes);
    match back {
        Back::Reserved if place < routes.len() => {
            let (old, spare) = take_spared(routes, place)?;
            let key = digest::take_at(keys, place);
            Ok(Undo::RouteGone {
                place,
                old,
                spare,
                key,
            })
        }
        _ => Ok(Undo::Routes(take_copied(alloc, routes, keys, place)?)),
    }
}

// Takes out the neighbor of that interface and address, to be taken back so.
#[tactic(auto, using(crate::proofs::Keying::neighbor_out))]
fn drop_neighbor(
    alloc: Global,
    gone: (u32, Addr),
    neighbors: &mut Blocks<Neighbor>,
    keys: &mut Option<Keyed<(u32, Addr)>>,
    back: Back,
) -> Result<Undo, AllocError>
    requires keys { AreKeys neighbor_key neighbors.old keys.old }
    requires apart { IsDistinct same_neighbor neighbors.old }
    ensures ok { OnOk result (neighbors.new ≡ filter
        (λ n. not (same_neighbor n (record { interface = gone.0; addr = gone.1; mac = 0 }))) neighbors.old) }
    ensures back { IfOk result (λ u. IsNeighborBackOf u neighbors.new neighbors.old) }
    ensures err { OnErr result (neighbors.new ≡ neighbors.old) }
    ensures keys { AreKeys neighbor_key neighbors.new keys.new }
{
    let place = digest::place_of_neighbor(keys, gone.0, gone.1, neighbors);
    match back {
        Back::Reserved if place < neighbors.len() => {
            let (old, spare) = take_spared(neighbors, place)?;
            let key = digest::take_at(keys, place);
            Ok(Undo::NeighborGone {
                place,
                old,
                spare,
                key,
            })
        }
        _ => Ok(Undo::Neighbors(take_copied(alloc, neighbors, keys, place)?)),
    }
}

// What is left of the list of that prefix and source without those paths.
fn paths_left(
    alloc: Global,
    tables: &Tables,
    digest: &Digest,
    prefix: Prefix,
    source: FibSource,
    specs: &[PathSpec],
) -> Result<List<Path>, AllocError>
    requires few { length tables.now.interfaces ≤ 256 }
    requires keys { HasKeys tables.now digest.now }
    ensures { IfOk result (λ x. x ≡ without_paths (paths_at prefix source tables.now.routes) (map (path_of tables.now) specs.now)) }
{
    let gone = changes::paths_of(alloc, tables, specs)?;
    let old = changes::paths_at(prefix, source, tables, digest);
    changes::without_paths(alloc, old, gone.as_slice())
}

// The route of that prefix and source with the paths that are left without those; with none where none is named.
fn rest_of_route(
    alloc: Global,
    tables: &Tables,
    digest: &Digest,
    prefix: Prefix,
    source: FibSource,
    specs: &[PathSpec],
) -> Result<Route, AllocError>
    requires few { length tables.now.interfaces ≤ 256 }
    requires keys { HasKeys tables.now digest.now }
    ensures { IfOk result (λ r. route_left r.prefix r.source r.paths tables.now.routes
        ≡ routes_without tables.now prefix source specs.now) }
{
    let paths = match specs {
        [] => List::new(alloc),
        [_, ..] => paths_left(alloc, tables, digest, prefix, source, specs)?,
    };
    Ok(Route {
        prefix,
        source,
        paths,
    })
}

// Sets the paths in the route of that prefix and source, which is made where there is none.
#[tactic(auto, using(crate::proofs::Places::back_undone))]
fn add_route(
    alloc: Global,
    tables: &mut Tables,
    digest: &mut Digest,
    prefix: Prefix,
    api: bool,
    specs: &[PathSpec],
) -> Result<Undo, AllocError>
    requires few { length tables.old.interfaces ≤ 256 }
    requires keys { HasKeys tables.old digest.old }
    ensures ok { OnOk result (tables.new ≡ with_routes tables.old
        (set_route (record { prefix = prefix; source = source_of api; paths = paths_with tables.old prefix api specs.now })
        tables.old.routes)) }
    ensures back { IfOk result (λ u. undone u tables.new ≡ tables.old) }
    ensures err { OnErr result (tables.new ≡ tables.old) }
    ensures keys { HasKeys tables.new digest.new }
    ensures bound { digest.new.bound ≡ digest.old.bound }
{
    let source = changes::source_of(api);
    let new = changes::paths_of(alloc, tables, specs)?;
    let old = changes::paths_at(prefix, source, tables, digest);
    let route = Route {
        prefix,
        source,
        paths: changes::set_paths(alloc, old, new.as_slice())?,
    };
    let undo = changes::put_route(route, &mut tables.routes, &mut digest.routes)?;
    Ok(undo)
}

// Makes the edit where the tables stand, and says what takes it back.
#[tactic(auto, unfolding(fib_resolve::specs::Edits::edited, crate::specs::Undone::undone), using(crate::proofs::Places::neighbor_back_undone, crate::proofs::Places::back_undone))]
fn make(
    alloc: Global,
    tables: &mut Tables,
    digest: &mut Digest,
    edit: &Edit,
    back: Back,
) -> Result<Undo, AllocError>
    requires sound { IsSound tables.old }
    requires keys { HasKeys tables.old digest.old }
    ensures ok { OnOk result (tables.new ≡ edited tables.old edit.now) }
    ensures back { IfOk result (λ u. undone u tables.new ≡ tables.old) }
    ensures err { OnErr result (tables.new ≡ tables.old) }
    ensures keys { HasKeys tables.new digest.new }
    ensures bound { digest.new.bound ≡ digest.old.bound }
{
    match edit {
        Edit::CreateInterface(name) => {
            let mut interfaces = tables.interfaces.duplicate(alloc)?;
            interfaces.push(Interface {
                name: name.duplicate(alloc)?,
                up: false,
            })?;
            Ok(Undo::Interfaces(mem::replace(&mut tables.interfaces, interfaces)))
        }
        Edit::SetState { name, up } => {
            let interfaces = changes::with_states(alloc, name, *up, tables.interfaces.as_slice())?;
            Ok(Undo::Interfaces(mem::replace(&mut tables.interfaces, interfaces)))
        }
        Edit::AddAddress { name, addr, len } => {
            let mut addresses = tables.addresses.duplicate(alloc)?;
            addresses.push(Address {
                interface: changes::number_of(tables, name),
                addr: *addr,
                len: *len,
            })?;
            Ok(Undo::Addresses(mem::replace(&mut tables.addresses, addresses)))
        }
        Edit::DelAddress { name, addr, len } => {
            let gone = Address {
                interface: changes::number_of(tables, name),
                addr: *addr,
                len: *len,
            };
            let addresses = changes::without_address(alloc, &gone, tables.addresses.as_slice())?;
            Ok(Undo::Addresses(mem::replace(&mut tables.addresses, addresses)))
        }
        Edit::SetNeighbor { name, addr, mac } => {
            let new = Neighbor {
                interface: changes::number_of(tables, name),
                addr: *addr,
                mac: *mac,
            };
            let neighbors = &mut tables.neighbors;
            let undo = changes::put_neighbor(new, neighbors, &mut digest.neighbors)?;
            Ok(undo)
        }
        Edit::DelNeighbor { name, addr } => {
            let number = changes::number_of(tables, name);
            let neighbors = &mut tables.neighbors;
            let gone = (number, *addr);
            let undo = drop_neighbor(alloc, gone, neighbors, &mut digest.neighbors, back)?;
            Ok(undo)
        }
        Edit::AddRoute { prefix, api, paths } => {
            add_route(alloc, tables, digest, *prefix, *api, paths.as_slice())
        }
        Edit::DelRoute { prefix, api, paths } => {
            let source = changes::source_of(*api);
            let paths = paths.as_slice();
            let left = rest_of_route(alloc, tables, digest, *prefix, source, paths)?;
            let routes = &mut tables.routes;
            let undo = leave_route(alloc, left, routes, &mut digest.routes, back)?;
            Ok(undo)
        }
    }
}

/// The place of the tables that the edit changes.
fn change_of(tables: &Tables, edit: &Edit) -> Change
    requires { length tables.now.interfaces ≤ 256 }
    ensures { result ≡ change_of tables.now edit.now }
{
    match edit {
        Edit::CreateInterface(_) => Change::Flag(tables.interfaces.len() as u32),
        Edit::SetState { name, .. } => Change::Flag(changes::number_of(tables, name)),
        Edit::AddAddress { name, addr, len } | Edit::DelAddress { name, addr, len } => {
            Change::Address(Address {
                interface: changes::number_of(tables, name),
                addr: *addr,
                len: *len,
            })
        }
        Edit::SetNeighbor { name, addr, .. } | Edit::DelNeighbor { name, addr } => {
            Change::Neighbor {
                interface: changes::number_of(tables, name),
                addr: *addr,
            }
        }
        Edit::AddRoute { prefix, api, .. } | Edit::DelRoute { prefix, api, .. } => Change::Route {
            prefix: *prefix,
            source: changes::source_of(*api),
        },
    }
}

/// Makes the edit where the tables stand, unless a reason other than the size applies. The bound grows by what the edit can add.
#[tactic(auto, using(crate::proofs::Made::made_sound_at, crate::proofs::Made::made_bounded))]
pub fn change(
    alloc: Global,
    tables: &mut Tables,
    digest: &mut Digest,
    edit: &Edit,
    back: Back,
) -> Result<Edited, EditError>
    requires sound { IsSound tables.old }
    requires digest { IsDigest tables.old digest.old }
    requires written { IsWritten edit.now }
    ensures accepted { OnOk result (first_reason (reasons tables.old edit.now) ≡ None) }
    ensures edited { OnOk result (tables.new ≡ edited tables.old edit.now) }
    ensures place { IfOk result (λ x. x.change ≡ change_of tables.old edit.now) }
    ensures back { IfOk result (λ x. undone x.undo tables.new ≡ tables.old) }
    ensures sound { IsSound tables.new }
    ensures digest { IsDigest tables.new digest.new }
    ensures refused { IfErr result (TellsRefusal (first_reason (reasons tables.old edit.now))) }
    ensures err { OnErr result (tables.new ≡ tables.old) }
{
    digest::learn(alloc, tables, digest, edit);
    if let Some(refusal) = reasons::own_refusal(alloc, tables, digest, edit)? {
        return Err(EditError::Refused(refusal));
    }
    let change = change_of(tables, edit);
    let undo = make(alloc, tables, digest, edit, back)?;
    digest.bound = digest.bound.saturating_add(bounds::growth(edit));
    Ok(Edited { change, undo })
}

/// Makes the edit where the tables stand, where it isn't refused.
#[tactic(auto, using(crate::proofs::Made::made_refused, crate::proofs::Made::made_large, crate::proofs::Made::made_fits))]
fn fitted(
    alloc: Global,
    tables: &mut Tables,
    digest: &mut Digest,
    room: u32,
    edit: &Edit,
    back: Back,
) -> Result<Edited, EditError>
    requires sound { IsSound tables.old }
    requires digest { IsDigest tables.old digest.old }
    requires written { IsWritten edit.now }
    requires room { room < 2 ^ 32 - 1 }
    ensures accepted { OnOk result (refused tables.old room edit.now ≡ None) }
    ensures edited { OnOk result (tables.new ≡ edited tables.old edit.now) }
    ensures place { IfOk result (λ x. x.change ≡ change_of tables.old edit.now) }
    ensures back { IfOk result (λ x. undone x.undo tables.new ≡ tables.old) }
    ensures sound { IsSound tables.new }
    ensures digest { IsDigest tables.new digest.new }
    ensures refused { IfErr result (TellsRefusal (refused tables.old room edit.now)) }
    ensures err { OnErr result (tables.new ≡ tables.old) }
{
    let before = digest.bound;
    let edited = match change(alloc, tables, digest, edit, back) {
        Ok(edited) => edited,
        Err(EditError::Refused(refusal)) => return Err(EditError::Refused(refusal)),
        Err(EditError::Memory) => return Err(EditError::Memory),
    };
    match sizes::fitting_bound(alloc, tables, digest.bound, room) {
        Ok(Some(fitting)) => {
            digest.bound = fitting;
            Ok(edited)
        }
        Ok(None) => {
            changes::take_back(tables, digest, edited.undo);
            digest.bound = before;
            Err(EditError::Refused(Refusal::TooLarge))
        }
        Err(_) => {
            changes::take_back(tables, digest, edited.undo);
            digest.bound = before;
            Err(EditError::Memory)
        }
    }
}

// What takes an edit back isn't wanted.
fn forget(_edited: Edited) {}

/// The same where it isn't taken back.
pub fn made(
    alloc: Global,
    tables: &mut Tables,
    digest: &mut Digest,
    room: u32,
    edit: &Edit,
) -> Result<(), EditError>
    requires sound { IsSound tables.old }
    requires digest { IsDigest tables.old digest.old }
    requires written { IsWritten edit.now }
    requires room { room < 2 ^ 32 - 1 }
    ensures accepted { OnOk result (refused tables.old room edit.now ≡ None) }
    ensures edited { OnOk result (tables.new ≡ edited tables.old edit.now) }
    ensures sound { IsSound tables.new }
    ensures digest { IsDigest tables.new digest.new }
    ensures refused { IfErr result (TellsRefusal (refused tables.old room edit.now)) }
    ensures err { OnErr result (tables.new ≡ tables.old) }
{
    let edited = fitted(alloc, tables, digest, room, edit, Back::Reserved)?;
    forget(edited);
    Ok(())
}

// Makes the edit where it isn't refused, and keeps what it changed and what takes it back.
fn keep(
    alloc: Global,
    tables: &mut Tables,
    digest: &mut Digest,
    room: u32,
    edit: &Edit,
    kept: &mut EditedAll,
) -> Result<(), EditError>
    requires sound { IsSound tables.old }
    requires digest { IsDigest tables.old digest.old }
    requires written { IsWritten edit.now }
    requires room { room < 2 ^ 32 - 1 }
    ensures accepted { OnOk result (refused tables.old room edit.now ≡ None) }
    ensures edited { OnOk result (tables.new ≡ edited tables.old edit.now) }
    ensures place { OnOk result (kept.new.changes.items ≡ kept.old.changes.items ++ change_of tables.old edit.now ∷ []) }
    ensures back { undone_all kept.new.undos.items tables.new ≡ undone_all kept.old.undos.items tables.old }
    ensures sound { IsSound tables.new }
    ensures digest { IsDigest tables.new digest.new }
    ensures refused { IfErr result (TellsRefusal (refused tables.old room edit.now)) }
{
    kept.changes.reserve(1)?;
    kept.undos.reserve(1)?;
    let back = changes::back_after(kept.undos.as_slice(), edit);
    let Edited { change, undo } = fitted(alloc, tables, digest, room, edit, back)?;
    kept.changes.push_reserved(change);
    changes::keep_undo(&mut kept.undos, undo);
    Ok(())
}

// Makes the edits in turn, as long as none is refused, and keeps what takes those back that it made.
fn keep_in_turn(
    alloc: Global,
    tables: &mut Tables,
    digest: &mut Digest,
    room: u32,
    edits: &[Edit],
    kept: &mut EditedAll,
) -> Result<(), BatchError>
    requires sound { IsSound tables.old }
    requires digest { IsDigest tables.old digest.old }
    requires written { AllByRecursion IsWritten edits.now }
    requires few { length edits.now < 2 ^ 32 }
    requires room { room < 2 ^ 32 - 1 }
    requires none { kept.old.changes.items ≡ [] }
    ensures made { OnOk result (edited_in_turn tables.old room edits.now ≡ Ok tables.new) }
    ensures places { OnOk result (Differ kept.new.changes.items tables.old tables.new) }
    ensures back { undone_all kept.new.undos.items tables.new ≡ undone_all kept.old.undos.items tables.old }
    ensures sound { IsSound tables.new }
    ensures digest { IsDigest tables.new digest.new }
    ensures refused { IfErr result (TellsFirstRefused (edited_in_turn tables.old room edits.now)) }
{
    for (place, edit) in edits.iter().enumerate() {
        match keep(alloc, tables, digest, room, edit, kept) {
            Ok(()) => {}
            Err(EditError::Refused(refusal)) => {
                let place = place as u32;
                return Err(BatchError::Refused { place, refusal });
            }
            Err(EditError::Memory) => return Err(BatchError::Memory),
        }
    }
    Ok(())
}

/// Makes the edits in turn where the tables stand, unless one is refused, and says what they changed and what takes them back.
pub fn changed_in_turn(
    alloc: Global,
    tables: &mut Tables,
    digest: &mut Digest,
    room: u32,
    edits: &[Edit],
) -> Result<EditedAll, BatchError>
    requires sound { IsSound tables.old }
    requires digest { IsDigest tables.old digest.old }
    requires written { AllByRecursion IsWritten edits.now }
    requires few { length edits.now < 2 ^ 32 }
    requires room { room < 2 ^ 32 - 1 }
    ensures made { OnOk result (edited_in_turn tables.old room edits.now ≡ Ok tables.new) }
    ensures places { IfOk result (λ x. Differ x.changes.items tables.old tables.new) }
    ensures back { IfOk result (λ x. undone_all x.undos.items tables.new ≡ tables.old) }
    ensures sound { IsSound tables.new }
    ensures digest { IsDigest tables.new digest.new }
    ensures refused { IfErr result (TellsFirstRefused (edited_in_turn tables.old room edits.now)) }
    ensures err { OnErr result (tables.new ≡ tables.old) }
{
    let mut kept = EditedAll {
        changes: Vec::new(alloc),
        undos: Vec::new(alloc),
    };
    let before = digest.bound;
    match keep_in_turn(alloc, tables, digest, room, edits, &mut kept) {
        Ok(()) => Ok(kept),
        Err(error) => {
            let EditedAll { undos, .. } = kept;
            changes::take_all_back(tables, digest, undos);
            digest.bound = before;
            Err(error)
        }
    }
}

// What takes edits back isn't wanted.
fn forget_all(_edited: EditedAll) {}

/// The same where they aren't taken back.
pub fn made_in_turn(
    alloc: Global,
    tables: &mut Tables,
    digest: &mut Digest,
    room: u32,
    edits: &[Edit],
) -> Result<(), BatchError>
    requires sound { IsSound tables.old }
    requires digest { IsDigest tables.old digest.old }
    requires written { AllByRecursion IsWritten edits.now }
    requires few { length edits.now < 2 ^ 32 }
    requires room { room < 2 ^ 32 - 1 }
    ensures made { OnOk result (edited_in_turn tables.old room edits.now ≡ Ok tables.new) }
    ensures sound { IsSound tables.new }
    ensures digest { IsDigest tables.new digest.new }
    ensures refused { IfErr result (TellsFirstRefused (edited_in_turn tables.old room edits.now)) }
    ensures err { OnErr result (tables.new ≡ tables.old) }
{
    let edited = changed_in_turn(alloc, tables, digest, room, edits)?;
    forget_all(edited);
    Ok(())
}
