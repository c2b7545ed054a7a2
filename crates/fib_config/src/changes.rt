// The parts of edited tables, made anew.

ghost use Rattle.std.specs.Prelude.{◌≡◌, List as ListValue, ℕ, ◌+◌, ◌≤◌, ◌<◌, ◌++◌, [], ◌∷◌, ◌-◌, None, false, true, vec_len, vec_capacity};
ghost use Rattle.std.specs.Prelude.{OnOk, OnErr, IfOk, map, filter, not, position, length, unwrap_or, All, take, slice_set, slice_index_or};
ghost use Rattle.std.specs.List.{list_any, insert, remove};
ghost use Rattle.fib_config.specs.Undone.{place_of, put_back, undone, undone_all, IsBackOf, IsNeighborBackOf};
ghost use Rattle.fib_config.specs.inner.Digest.{AreKeys, Follows, HasKeys, is_neighbor, route_key, neighbor_key};
ghost use Rattle.fib_resolve.specs.Keys.{key_of, key_lt, same_key};
ghost use Rattle.fib_resolve.specs.Tables.{has_name, interface_named, same_address, same_neighbor, is_route};
ghost use Rattle.fib_resolve.specs.Edits.{edited, number_of, with_state, set_neighbor, set_path, set_paths, kind_of, path_of, source_of};
ghost use Rattle.fib_resolve.specs.Edits.{paths_at, set_route, without_route, lacks_key, without_paths, route_left, routes_without};
ghost use Rattle.fib_resolve.specs.Edits.{with_neighbors, with_routes};
ghost use Rattle.fib_resolve.specs.declared.types.Tables.{Tables as TablesValue};
ghost use Rattle.fib_resolve.specs.declared.types.Route.{Route as RouteValue};
ghost use Rattle.fib_config.specs.declared.undo.Back.TheVariants.{Reserved};

use crate::digest::{self, Digest};
use crate::undo::{Back, Undo};
use fib_addr::{Addr, Prefix};
use fib_base_keyed::{Gone, Keyed};
use fib_resolve::{
    Address, Blocks, Duplicate, Edit, FibSource, Interface, List, Name, Neighbor, Path, PathKind,
    PathSpec, Route, Spare, SpecKind, Tables, keys,
};
use std::alloc::{AllocError, Global};
use std::hash::Hash;

pub fn interface_named(tables: &Tables, name: &Name) -> Option<usize>
    ensures { result ≡ interface_named tables.now name.now }
{
    tables
        .interfaces
        .as_slice()
        .iter()
        .position(|i| i.name.is(name))
}

fn with_state(alloc: Global, name: &Name, up: bool, i: &Interface) -> Result<Interface, AllocError>
    ensures { IfOk result (λ x. x ≡ with_state name.now up i.now) }
{
    Ok(Interface {
        name: i.name.duplicate(alloc)?,
        up: if i.name.is(name) { up } else { i.up },
    })
}

pub fn with_states(
    alloc: Global,
    name: &Name,
    up: bool,
    interfaces: &[Interface],
) -> Result<List<Interface>, AllocError>
    ensures { IfOk result (λ x. x ≡ map (with_state name.now up) interfaces.now) }
{
    let mut out = List::new(alloc);
    for i in interfaces {
        out.push(with_state(alloc, name, up, i)?)?;
    }
    Ok(out)
}

/// The list with the path in its place.
pub fn set_path(alloc: Global, p: Path, list: &[Path]) -> Result<List<Path>, AllocError>
    ensures { IfOk result (λ x. x ≡ set_path p list.now) }
{
    let key = keys::key_of(&p);
    let mut out = List::new(alloc);
    let mut is_set = false;
    for q in list {
        let here = keys::key_of(q);
        if is_set || keys::is_before(here, key) {
            out.push(*q)?;
        } else {
            out.push(p)?;
            is_set = true;
            if !keys::is_same_key(here, key) {
                out.push(*q)?;
            }
        }
    }
    if !is_set {
        out.push(p)?;
    }
    Ok(out)
}

pub fn set_paths(alloc: Global, old: &[Path], paths: &[Path]) -> Result<List<Path>, AllocError>
    ensures { IfOk result (λ x. x ≡ set_paths old.now paths.now) }
{
    let mut out = List::from_vec(Vec::from_slice(alloc, old)?);
    for p in paths {
        out = set_path(alloc, *p, out.as_slice())?;
    }
    Ok(out)
}

pub fn is_route(prefix: Prefix, source: FibSource, r: &Route) -> bool
    ensures { result ≡ is_route prefix source r.now }
{
    r.prefix == prefix && keys::is_same_source(r.source, source)
}

/// The paths of the route of that prefix and source; none where there is no such route.
#[tactic(auto, using(crate::proofs::Places::paths_there, crate::proofs::Places::paths_nowhere))]
pub fn paths_at<'a>(
    prefix: Prefix,
    source: FibSource,
    tables: &'a Tables,
    digest: &Digest,
) -> &'a [Path]
    requires { HasKeys tables.now digest.now }
    ensures { result.now ≡ paths_at prefix source tables.now.routes }
{
    let routes = &tables.routes;
    let place = digest::place_of_route(&digest.routes, prefix, source, routes);
    if place < routes.len() {
        return routes[place].paths.as_slice();
    }
    &[]
}

/// Takes the item at that place out, where there is one. Takes no memory.
#[tactic(auto, using(crate::proofs::Keying::remove_beyond))]
pub fn remove_at<T: Drop>(list: &mut Blocks<T>, place: usize)
    ensures { list.new ≡ remove list.old place }
{
    if place < list.len() {
        let _gone = list.remove(place);
    }
}

/// Puts the route in its place, and says how that is taken back. Where memory is wanted, the routes stay.
#[tactic(auto, using(crate::proofs::Places::route_set, crate::proofs::Places::route_end, crate::proofs::Places::set_back, crate::proofs::Places::end_back, crate::proofs::Keying::route_keys_set, crate::proofs::Keying::keys_last))]
pub fn put_route(
    new: Route,
    routes: &mut Blocks<Route>,
    keys: &mut Option<Keyed<(Prefix, u8)>>,
) -> Result<Undo, AllocError>
    requires { AreKeys route_key routes.old keys.old }
    ensures ok { OnOk result (routes.new ≡ set_route new routes.old) }
    ensures back { IfOk result (λ u. IsBackOf u routes.new routes.old) }
    ensures err { OnErr result (routes.new ≡ routes.old) }
    ensures keys { AreKeys route_key routes.new keys.new }
{
    let key = (new.prefix, new.source.rank());
    let place = digest::place_of_route(keys, new.prefix, new.source, routes);
    if place < routes.len() {
        let old = routes.replace(place, new);
        return Ok(Undo::RouteSet { place, old });
    }
    routes.push(new)?;
    digest::add_last(keys, key);
    Ok(Undo::RouteAdded)
}

/// Puts the neighbor in its place, and says how that is taken back. Where memory is wanted, the neighbors stay.
#[tactic(auto, using(crate::proofs::Places::neighbor_set, crate::proofs::Places::neighbor_end, crate::proofs::Places::set_back, crate::proofs::Places::end_back, crate::proofs::Keying::neighbor_keys_set, crate::proofs::Keying::keys_last))]
pub fn put_neighbor(
    new: Neighbor,
    neighbors: &mut Blocks<Neighbor>,
    keys: &mut Option<Keyed<(u32, Addr)>>,
) -> Result<Undo, AllocError>
    requires { AreKeys neighbor_key neighbors.old keys.old }
    ensures ok { OnOk result (neighbors.new ≡ set_neighbor new neighbors.old) }
    ensures back { IfOk result (λ u. IsNeighborBackOf u neighbors.new neighbors.old) }
    ensures err { OnErr result (neighbors.new ≡ neighbors.old) }
    ensures keys { AreKeys neighbor_key neighbors.new keys.new }
{
    let key = (new.interface, new.addr);
    let place = digest::place_of_neighbor(keys, new.interface, new.addr, neighbors);
    if place < neighbors.len() {
        let old = neighbors.replace(place, new);
        return Ok(Undo::NeighborSet { place, old });
    }
    neighbors.push(new)?;
    digest::add_last(keys, key);
    Ok(Undo::NeighborAdded)
}

// Takes the last item out, and the last of the keys, where they are known. Takes no memory.
fn drop_last_keyed<T: Drop, K: Eq + Hash + Copy + Drop>(
    list: &mut Blocks<T>,
    keys: &mut Option<Keyed<K>>,
)
    ensures list { list.new ≡ take (length list.old - 1) list.old }
    ensures keys { Follows (λ ks. remove ks (length list.old - 1)) keys.old keys.new }
{
    let last = list.len().saturating_sub(1);
    list.pop();
    digest::drop_at(keys, last);
}

// The keys where they are still right, else none.
fn keep_where<K: Eq + Hash + Copy + Drop>(keys: &mut Option<Keyed<K>>, are_right: bool)
    ensures kept { are_right ≡ true → keys.new ≡ keys.old }
    ensures gone { are_right ≡ false → keys.new ≡ None }
{
    if !are_right {
        *keys = None;
    }
}

/// Whether it is the neighbor of that interface and address.
pub fn is_neighbor(interface: u32, addr: Addr, n: &Neighbor) -> bool
    ensures { result ≡ is_neighbor interface addr n.now }
{
    n.interface == interface && n.addr == addr
}

// Puts a neighbor in place of another again, where there is that place. Takes no memory.
#[tactic(auto, using(crate::proofs::Keying::neighbor_keys_put, crate::proofs::Keying::set_beyond))]
fn put_neighbor_again(
    neighbors: &mut Blocks<Neighbor>,
    keys: &mut Option<Keyed<(u32, Addr)>>,
    place: usize,
    old: Neighbor,
)
    requires { AreKeys neighbor_key neighbors.old keys.old }
    ensures list { neighbors.new ≡ slice_set neighbors.old place old }
    ensures keys { AreKeys neighbor_key neighbors.new keys.new }
{
    if place >= neighbors.len() {
        return;
    }
    let (interface, addr) = (old.interface, old.addr);
    let new = neighbors.replace(place, old);
    keep_where(keys, is_neighbor(interface, addr, &new));
}

// Puts a route in place of another again, where there is that place. Takes no memory.
#[tactic(auto, using(crate::proofs::Keying::set_beyond))]
fn put_route_again(
    routes: &mut Blocks<Route>,
    keys: &mut Option<Keyed<(Prefix, u8)>>,
    place: usize,
    old: Route,
)
    requires { AreKeys route_key routes.old keys.old }
    ensures list { routes.new ≡ slice_set routes.old place old }
    ensures keys { AreKeys route_key routes.new keys.new }
{
    if place >= routes.len() {
        return;
    }
    let (prefix, source) = (old.prefix, old.source);
    let new = routes.replace(place, old);
    keep_where(keys, is_route(prefix, source, &new));
}

// Puts a neighbor that went in again, where the place and the memory allow it. Takes no other.
#[tactic(auto, using(crate::proofs::Keying::keys_put))]
fn put_neighbor_back(
    neighbors: &mut Blocks<Neighbor>,
    keys: &mut Option<Keyed<(u32, Addr)>>,
    place: usize,
    old: Neighbor,
    spare: Spare<Neighbor>,
    gone: Option<Gone<(u32, Addr)>>,
)
    requires { AreKeys neighbor_key neighbors.old keys.old }
    ensures list { neighbors.new ≡ put_back place old spare neighbors.old }
    ensures keys { AreKeys neighbor_key neighbors.new keys.new }
{
    if place <= neighbors.len() && neighbors.len() < spare.most() {
        let key = (old.interface, old.addr);
        neighbors.put_back(place, old, spare);
        digest::put_again(keys, place, key, gone);
    }
}

// Puts a route that went in again, where the place and the memory allow it. Takes no other.
#[tactic(auto, using(crate::proofs::Keying::keys_put))]
fn put_route_back(
    routes: &mut Blocks<Route>,
    keys: &mut Option<Keyed<(Prefix, u8)>>,
    place: usize,
    old: Route,
    spare: Spare<Route>,
    gone: Option<Gone<(Prefix, u8)>>,
)
    requires { AreKeys route_key routes.old keys.old }
    ensures list { routes.new ≡ put_back place old spare routes.old }
    ensures keys { AreKeys route_key routes.new keys.new }
{
    if place <= routes.len() && routes.len() < spare.most() {
        let key = (old.prefix, old.source.rank());
        routes.put_back(place, old, spare);
        digest::put_again(keys, place, key, gone);
    }
}

/// Takes an edit back, and what was known of its keys with it. Takes no memory. The keys of routes or neighbors are forgotten where
/// all of these come back at once, after several edits.
#[tactic(auto, unfolding(crate::specs::Undone::undone), using(crate::proofs::Keying::keys_shorter),)]
pub fn take_back(tables: &mut Tables, digest: &mut Digest, undo: Undo)
    requires { HasKeys tables.old digest.old }
    ensures tables { tables.new ≡ undone undo tables.old }
    ensures keys { HasKeys tables.new digest.new }
    ensures bound { digest.new.bound ≡ digest.old.bound }
{
    match undo {
        Undo::Interfaces(old) => tables.interfaces = old,
        Undo::Addresses(old) => tables.addresses = old,
        Undo::Neighbors(old) => {
            tables.neighbors = old;
            digest.neighbors = None;
        }
        Undo::NeighborAdded => {
            drop_last_keyed(&mut tables.neighbors, &mut digest.neighbors);
        }
        Undo::NeighborSet { place, old } => {
            let keys = &mut digest.neighbors;
            put_neighbor_again(&mut tables.neighbors, keys, place, old);
        }
        Undo::NeighborGone {
            place,
            old,
            spare,
            key,
        } => {
            let keys = &mut digest.neighbors;
            put_neighbor_back(&mut tables.neighbors, keys, place, old, spare, key);
        }
        Undo::Routes(old) => {
            tables.routes = old;
            digest.routes = None;
        }
        Undo::RouteAdded => {
            drop_last_keyed(&mut tables.routes, &mut digest.routes);
        }
        Undo::RouteSet { place, old } => {
            let keys = &mut digest.routes;
            put_route_again(&mut tables.routes, keys, place, old);
        }
        Undo::RouteGone {
            place,
            old,
            spare,
            key,
        } => {
            let keys = &mut digest.routes;
            put_route_back(&mut tables.routes, keys, place, old, spare, key);
        }
    }
}

/// Takes edits back, the last one first. Takes no memory.
pub fn take_all_back(tables: &mut Tables, digest: &mut Digest, undos: Vec<Undo>)
    requires { HasKeys tables.old digest.old }
    ensures tables { tables.new ≡ undone_all undos.items tables.old }
    ensures keys { HasKeys tables.new digest.new }
    ensures bound { digest.new.bound ≡ digest.old.bound }
{
    let mut left = undos;
    while let Some(undo) = left.pop() {
        take_back(tables, digest, undo);
    }
}

// Whether what takes an edit back takes back all that the other does, of a later edit: it has the whole of the same part.
#[tactic(auto, unfolding(crate::specs::Undone::undone))]
fn is_within(later: &Undo, undo: &Undo) -> bool
    ensures { result ≡ true → (S : TablesValue) → undone undo.now (undone later.now S) ≡ undone undo.now S }
{
    match undo {
        Undo::Interfaces(_) => matches!(later, Undo::Interfaces(_)),
        Undo::Addresses(_) => matches!(later, Undo::Addresses(_)),
        Undo::Neighbors(_) => matches!(
            later,
            Undo::Neighbors(_)
                | Undo::NeighborAdded
                | Undo::NeighborSet { .. }
                | Undo::NeighborGone { .. }
        ),
        Undo::Routes(_) => matches!(
            later,
            Undo::Routes(_) | Undo::RouteAdded | Undo::RouteSet { .. } | Undo::RouteGone { .. }
        ),
        Undo::NeighborAdded => false,
        Undo::NeighborSet { .. } => false,
        Undo::NeighborGone { .. } => false,
        Undo::RouteAdded => false,
        Undo::RouteSet { .. } => false,
        Undo::RouteGone { .. } => false,
    }
}

// Whether the last of them takes back all that the other does.
fn is_within_last(later: &Undo, undos: &[Undo]) -> bool
    ensures { result ≡ true → (S : TablesValue) → undone_all undos.now (undone later.now S) ≡ undone_all undos.now S }
{
    match undos.last() {
        Some(last) => is_within(later, last),
        None => false,
    }
}

// Whether it takes paths out of a route, or the whole.
#[tactic(auto, unfolding(fib_resolve::specs::Edits::edited))]
fn deletes_route(edit: &Edit) -> bool
    ensures { result ≡ true → (S : TablesValue) → with_routes S (edited S edit.now).routes ≡ edited S edit.now }
{
    matches!(edit, Edit::DelRoute { .. })
}

// Whether it takes a neighbor out.
#[tactic(auto, unfolding(fib_resolve::specs::Edits::edited))]
fn deletes_neighbor(edit: &Edit) -> bool
    ensures { result ≡ true → (S : TablesValue) → with_neighbors S (edited S edit.now).neighbors ≡ edited S edit.now }
{
    matches!(edit, Edit::DelNeighbor { .. })
}

/// How a deletion after these edits is to be taken back: by a copy of the whole list, unless the last of them has one already. That one
/// gives the list back whatever it is by then, so what takes the deletion back won't be kept.
pub fn back_after(undos: &[Undo], edit: &Edit) -> Back
    ensures { result ≡ Reserved → (S : TablesValue) → undone_all undos.now (edited S edit.now) ≡ undone_all undos.now S }
{
    match undos.last() {
        Some(Undo::Routes(_)) => {
            if deletes_route(edit) {
                return Back::Reserved;
            }
            Back::Whole
        }
        Some(Undo::Neighbors(_)) => {
            if deletes_neighbor(edit) {
                return Back::Reserved;
            }
            Back::Whole
        }
        _ => Back::Whole,
    }
}

// What takes an edit back isn't wanted.
fn forget(_undo: Undo) {}

/// Keeps what takes a later edit back, unless the last one does so too: of several edits of one part, one whole list is kept at most. There must be
/// room.
pub fn keep_undo(undos: &mut Vec<Undo>, later: Undo)
    requires { length undos.old.items < vec_capacity undos.old }
    ensures { (S : TablesValue) → undone_all undos.new.items S ≡ undone_all undos.old.items (undone later S) }
{
    if is_within_last(&later, undos.as_slice()) {
        forget(later);
        return;
    }
    undos.push_reserved(later);
}

/// The number of the interface with that name, where there is one.
pub fn number_of(tables: &Tables, name: &Name) -> u32
    requires { length tables.now.interfaces ≤ 256 }
    ensures { result ≡ number_of tables.now name.now }
{
    interface_named(tables, name).unwrap_or(0) as u32
}

fn kind_of(tables: &Tables, kind: &SpecKind) -> PathKind
    requires { length tables.now.interfaces ≤ 256 }
    ensures { result ≡ kind_of tables.now kind.now }
{
    match kind {
        SpecKind::Drop => PathKind::Drop,
        SpecKind::Local => PathKind::Local,
        SpecKind::Attached(name) => PathKind::Attached(number_of(tables, name)),
        SpecKind::Hop(addr, name) => PathKind::Hop {
            next_hop: *addr,
            interface: number_of(tables, name),
        },
        SpecKind::Recursive(addr) => PathKind::Recursive(*addr),
    }
}

/// The path that is written so.
pub fn path_of(tables: &Tables, spec: &PathSpec) -> Path
    requires { length tables.now.interfaces ≤ 256 }
    ensures { result ≡ path_of tables.now spec.now }
{
    Path {
        kind: kind_of(tables, &spec.kind),
        need: spec.need,
        weight: spec.weight,
        preference: spec.preference,
    }
}

/// The paths that are written so.
pub fn paths_of(alloc: Global, tables: &Tables, specs: &[PathSpec]) -> Result<Vec<Path>, AllocError>
    requires { length tables.now.interfaces ≤ 256 }
    ensures { IfOk result (λ v. v.items ≡ map (path_of tables.now) specs.now) }
{
    specs
        .iter()
        .map(|spec| path_of(tables, spec))
        .collect(alloc)
}

pub fn source_of(api: bool) -> FibSource
    ensures { result ≡ source_of api }
{
    if api { FibSource::Api } else { FibSource::Cli }
}

/// Whether both are one address of one interface.
pub fn is_same_address(a: &Address, b: &Address) -> bool
    ensures { result ≡ same_address a.now b.now }
{
    a.interface == b.interface && a.addr == b.addr && a.len == b.len
}

/// The addresses without one.
pub fn without_address(
    alloc: Global,
    gone: &Address,
    addresses: &[Address],
) -> Result<List<Address>, AllocError>
    ensures { IfOk result (λ x. x ≡ filter (λ a. not (same_address a gone.now)) addresses.now) }
{
    let kept: Vec<Address> = addresses
        .iter()
        .copied()
        .filter(|a| !is_same_address(a, gone))
        .collect(alloc)?;
    Ok(List::from_vec(kept))
}

fn is_same_key(p: &Path, q: &Path) -> bool
    ensures { result ≡ same_key (key_of p.now) (key_of q.now) }
{
    keys::is_same_key(keys::key_of(p), keys::key_of(q))
}

pub fn has_key(paths: &[Path], p: &Path) -> bool
    ensures { result ≡ list_any (λ q. same_key (key_of q) (key_of p.now)) paths.now }
{
    paths.iter().any(|q| is_same_key(q, p))
}

fn lacks_key(paths: &[Path], p: &Path) -> bool
    ensures { result ≡ lacks_key paths.now p.now }
{
    !has_key(paths, p)
}

/// What is left of the list without the keys of the others.
pub fn without_paths(alloc: Global, old: &[Path], gone: &[Path]) -> Result<List<Path>, AllocError>
    ensures { IfOk result (λ x. x ≡ without_paths old.now gone.now) }
{
    let kept: Vec<Path> = old
        .iter()
        .copied()
        .filter(|p| lacks_key(gone, p))
        .collect(alloc)?;
    Ok(List::from_vec(kept))
}
