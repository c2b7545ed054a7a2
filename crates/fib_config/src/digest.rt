// What is known of tables beside them.
ghost use Rattle.std.specs.Prelude.{◌≡◌, ◌∷◌, ◌++◌, []};
ghost use Rattle.std.specs.List.{insert, remove};
ghost use Rattle.fib_config.specs.Undone.{place_of};
ghost use Rattle.fib_config.specs.inner.Bounds.{allowance, IsBoundFor};
ghost use Rattle.fib_config.specs.inner.Digest.{AreKeys, Follows, HasKeys, IsDigest, route_key, neighbor_key, is_neighbor};
ghost use Rattle.fib_resolve.specs.declared.types.Tables.{Tables as TablesValue};
ghost use Rattle.fib_resolve.specs.Tables.{is_route};

use crate::changes::{is_neighbor, is_route};
use fib_addr::{Addr, Prefix};
use fib_base_keyed::{Gone, Keyed};
use fib_resolve::{Blocks, Edit, FibSource, Neighbor, Route, Tables};
use std::alloc::Global;
use std::hash::Hash;
use std::mem;

/// What is known of tables beside them: the keys of their routes (a prefix with the rank of a source) and of their neighbors (an
/// interface with an address), in the order of the lists, and a number that their allowance doesn't exceed. A list whose keys aren't known
/// is searched.
pub struct Digest {
    pub routes: Option<Keyed<(Prefix, u8)>>,
    pub neighbors: Option<Keyed<(u32, Addr)>>,
    pub bound: usize,
}

// The prover follows what a drop does here, once, and not at every way out past an owner.
impl Drop for Digest {
    fn drop(self) {
        let Digest {
            routes: _,
            neighbors: _,
            bound: _,
        } = self;
    }
}

impl Digest {
    /// Nothing is known, which is right of all tables.
    pub fn unknown() -> Digest
        ensures { (S : TablesValue) → IsDigest S result }
    {
        Digest::bounded(usize::MAX)
    }

    /// The allowance may be any. What is known of the keys stays.
    pub fn forget_bound(&mut self)
        ensures { (S : TablesValue) → HasKeys S self.old → IsDigest S self.new }
    {
        self.bound = usize::MAX;
    }

    /// No keys are known.
    pub fn bounded(bound: usize) -> Digest
        ensures { (S : TablesValue) → IsBoundFor bound (allowance S) → IsDigest S result }
    {
        Digest {
            routes: None,
            neighbors: None,
            bound,
        }
    }
}

/// The keys with one more at the end; none where it was there, or where memory is wanted.
fn with_last<K: Eq + Hash + Copy + Drop>(keys: Option<Keyed<K>>, key: K) -> Option<Keyed<K>>
    ensures { Follows (λ ks. ks ++ key ∷ []) keys result }
{
    let Some(set) = keys else {
        return None;
    };
    set.with_last(key)
}

/// The keys without the one at that place.
#[tactic(auto, using(crate::proofs::Keying::remove_beyond))]
fn without_at<K: Eq + Hash + Copy + Drop>(keys: Option<Keyed<K>>, place: usize) -> Option<Keyed<K>>
    ensures { Follows (λ ks. remove ks place) keys result }
{
    let Some(mut set) = keys else {
        return None;
    };
    if place >= set.len() {
        return Some(set);
    }
    // The number of the key that goes isn't wanted.
    let _stamp = set.remove(place);
    Some(set)
}

/// The keys without the one at that place, and what its way back needs.
#[tactic(auto, using(crate::proofs::Keying::remove_beyond))]
fn taken_at<K: Eq + Hash + Copy + Drop>(
    keys: Option<Keyed<K>>,
    place: usize,
) -> (Option<Keyed<K>>, Option<Gone<K>>)
    ensures { Follows (λ ks. remove ks place) keys result.0 }
{
    let Some(mut set) = keys else {
        return (None, None);
    };
    if place >= set.len() {
        return (Some(set), None);
    }
    let gone = set.take_out(place);
    (Some(set), Some(gone))
}

/// The keys with one that went at its place again; none where that can't be, or where no memory was reserved for it.
fn with_again<K: Eq + Hash + Copy + Drop>(
    keys: Option<Keyed<K>>,
    place: usize,
    key: K,
    gone: Option<Gone<K>>,
) -> Option<Keyed<K>>
    ensures { Follows (λ ks. insert ks place key) keys result }
{
    let Some(set) = keys else {
        return None;
    };
    let Some(gone) = gone else {
        return None;
    };
    set.with_again(place, key, gone)
}

/// One key more at the end, where the keys are known; it forgets them where it was there, or where memory is wanted.
pub fn add_last<K: Eq + Hash + Copy + Drop>(keys: &mut Option<Keyed<K>>, key: K)
    ensures { Follows (λ ks. ks ++ key ∷ []) keys.old keys.new }
{
    let known = mem::replace(keys, None);
    *keys = with_last(known, key);
}

/// The key at that place goes, where the keys are known. Takes no memory.
pub fn drop_at<K: Eq + Hash + Copy + Drop>(keys: &mut Option<Keyed<K>>, place: usize)
    ensures { Follows (λ ks. remove ks place) keys.old keys.new }
{
    let known = mem::replace(keys, None);
    *keys = without_at(known, place);
}

/// The key at that place goes, where the keys are known, and what its way back needs is reserved.
pub fn take_at<K: Eq + Hash + Copy + Drop>(
    keys: &mut Option<Keyed<K>>,
    place: usize,
) -> Option<Gone<K>>
    ensures { Follows (λ ks. remove ks place) keys.old keys.new }
{
    let known = mem::replace(keys, None);
    let (left, gone) = taken_at(known, place);
    *keys = left;
    gone
}

/// A key that went stands at its place again, where the keys are known. Takes no memory but what was reserved.
pub fn put_again<K: Eq + Hash + Copy + Drop>(
    keys: &mut Option<Keyed<K>>,
    place: usize,
    key: K,
    gone: Option<Gone<K>>,
)
    ensures { Follows (λ ks. insert ks place key) keys.old keys.new }
{
    let known = mem::replace(keys, None);
    *keys = with_again(known, place, key, gone);
}

/// The keys of the routes; none where two have one key, or where memory is wanted.
fn of_routes(alloc: Global, routes: &Blocks<Route>) -> Option<Keyed<(Prefix, u8)>>
    ensures { AreKeys route_key routes.now result }
{
    let mut keys = Some(Keyed::new(alloc));
    for place in 0..routes.len() {
        let r = &routes[place];
        keys = with_last(keys, (r.prefix, r.source.rank()));
    }
    keys
}

/// The keys of the neighbors; none where two have one key, or where memory is wanted.
fn of_neighbors(alloc: Global, neighbors: &Blocks<Neighbor>) -> Option<Keyed<(u32, Addr)>>
    ensures { AreKeys neighbor_key neighbors.now result }
{
    let mut keys = Some(Keyed::new(alloc));
    for place in 0..neighbors.len() {
        let n = neighbors[place];
        keys = with_last(keys, (n.interface, n.addr));
    }
    keys
}

/// The place of the route of that prefix and source, or else the number of routes, by a search.
fn searched_route(prefix: Prefix, source: FibSource, routes: &Blocks<Route>) -> usize
    ensures { result ≡ place_of (is_route prefix source) routes.now }
{
    for place in 0..routes.len() {
        if is_route(prefix, source, &routes[place]) {
            return place;
        }
    }
    routes.len()
}

/// The place of the route of that prefix and source, or else the number of routes.
pub fn place_of_route(
    keys: &Option<Keyed<(Prefix, u8)>>,
    prefix: Prefix,
    source: FibSource,
    routes: &Blocks<Route>,
) -> usize
    requires { AreKeys route_key routes.now keys.now }
    ensures { result ≡ place_of (is_route prefix source) routes.now }
{
    match keys {
        Some(set) => set.place_of((prefix, source.rank())),
        None => searched_route(prefix, source, routes),
    }
}

/// The place of the neighbor of that interface and address, or else the number of neighbors, by a search.
fn searched_neighbor(interface: u32, addr: Addr, neighbors: &Blocks<Neighbor>) -> usize
    ensures { result ≡ place_of (is_neighbor interface addr) neighbors.now }
{
    for place in 0..neighbors.len() {
        if is_neighbor(interface, addr, &neighbors[place]) {
            return place;
        }
    }
    neighbors.len()
}

/// The place of the neighbor of that interface and address, or else the number of neighbors.
pub fn place_of_neighbor(
    keys: &Option<Keyed<(u32, Addr)>>,
    interface: u32,
    addr: Addr,
    neighbors: &Blocks<Neighbor>,
) -> usize
    requires { AreKeys neighbor_key neighbors.now keys.now }
    ensures { result ≡ place_of (is_neighbor interface addr) neighbors.now }
{
    match keys {
        Some(set) => set.place_of((interface, addr)),
        None => searched_neighbor(interface, addr, neighbors),
    }
}

/// Makes the keys known that the edit needs, where memory suffices.
pub fn learn(alloc: Global, tables: &Tables, digest: &mut Digest, edit: &Edit)
    requires { HasKeys tables.now digest.old }
    ensures keys { HasKeys tables.now digest.new }
    ensures bound { digest.new.bound ≡ digest.old.bound }
{
    match edit {
        Edit::AddRoute { .. } | Edit::DelRoute { .. } => {
            if digest.routes.is_none() {
                digest.routes = of_routes(alloc, &tables.routes);
            }
        }
        Edit::SetNeighbor { .. } | Edit::DelNeighbor { .. } => {
            if digest.neighbors.is_none() {
                digest.neighbors = of_neighbors(alloc, &tables.neighbors);
            }
        }
        _ => {}
    }
}
