// Why an edit is refused.
ghost use Rattle.std.specs.Prelude.{◌≡◌, ◌≤◌, ◌<◌, ◌||◌, [], ◌∷◌, Some, IfOk, All, length, map, nat_lt};
ghost use Rattle.std.specs.List.{list_any};
ghost use Rattle.fib_resolve.specs.Keys.{is_drop_or_local};
ghost use Rattle.fib_resolve.specs.Tables.{IsSound, same_address, same_neighbor, connects_elsewhere, is_mixed, is_route};
ghost use Rattle.fib_resolve.specs.Edits.{source_of, set_paths, path_of};
ghost use Rattle.fib_config.specs.inner.Digest.{HasKeys};
ghost use Rattle.fib_config.specs.inner.Lists.{list_reasons, writes_drop_or_local};
ghost use Rattle.fib_resolve.specs.Refusals.{unknown, names_unknown, some_unknown, has_address, connected_elsewhere, has_neighbor};
ghost use Rattle.fib_resolve.specs.Refusals.{has_route, lacks_a_key, when, reasons, first_reason};
ghost use Rattle.fib_resolve.specs.Reachable.{IsWritten};

use crate::changes;
use crate::digest::{self, Digest};
use fib_addr::{Addr, Prefix};
use fib_resolve::{
    Address, Edit, FibSource, List, Name, Path, PathSpec, Refusal, SpecKind, Tables,
};
use std::alloc::{AllocError, Global};

fn is_unknown(tables: &Tables, name: &Name) -> bool
    ensures { result ≡ unknown tables.now name.now }
{
    changes::interface_named(tables, name).is_none()
}

fn names_unknown(tables: &Tables, kind: &SpecKind) -> bool
    ensures { result ≡ names_unknown tables.now kind.now }
{
    match kind {
        SpecKind::Attached(name) | SpecKind::Hop(_, name) => is_unknown(tables, name),
        _ => false,
    }
}

fn some_unknown(tables: &Tables, specs: &[PathSpec]) -> bool
    ensures { result ≡ some_unknown tables.now specs.now }
{
    specs.iter().any(|spec| names_unknown(tables, &spec.kind))
}

fn has_address(tables: &Tables, a: &Address) -> bool
    ensures { result ≡ has_address tables.now a.now }
{
    tables
        .addresses
        .as_slice()
        .iter()
        .any(|b| changes::is_same_address(b, a))
}

fn connects_elsewhere(a: &Address, b: &Address) -> bool
    requires a { a.now.len ≤ 32 }
    requires b { b.now.len ≤ 32 }
    ensures { result ≡ connects_elsewhere a.now b.now }
{
    b.len < 32
        && b.interface != a.interface
        && Prefix::masked(b.addr, b.len) == Prefix::masked(a.addr, a.len)
}

fn connected_elsewhere(tables: &Tables, a: &Address) -> bool
    requires a { a.now.len ≤ 32 }
    requires all { All (λ b. b.len ≤ 32) tables.now.addresses }
    ensures { result ≡ connected_elsewhere tables.now a.now }
{
    if a.len >= 32 {
        return false;
    }
    for b in tables.addresses.as_slice() {
        if connects_elsewhere(a, b) {
            return true;
        }
    }
    false
}

#[tactic(auto, using(crate::proofs::Places::neighbor_there))]
fn has_neighbor(tables: &Tables, digest: &Digest, interface: u32, addr: Addr) -> bool
    requires { HasKeys tables.now digest.now }
    ensures { result ≡ has_neighbor tables.now (record { interface = interface; addr = addr; mac = 0 }) }
{
    let neighbors = &tables.neighbors;
    digest::place_of_neighbor(&digest.neighbors, interface, addr, neighbors) < neighbors.len()
}

fn has_drop_or_local(paths: &[Path]) -> bool
    ensures { result ≡ list_any (λ p. is_drop_or_local p.kind) paths.now }
{
    paths.iter().any(|p| p.kind.is_drop_or_local())
}

fn is_mixed(paths: &[Path]) -> bool
    ensures { result ≡ is_mixed paths.now }
{
    paths.len() > 1 && has_drop_or_local(paths)
}

/// Why a list isn't one of a route: it is mixed, or too long.
fn refused_list(paths: &[Path]) -> Option<Refusal>
    ensures { result ≡ first_reason (list_reasons paths.now) }
{
    if is_mixed(paths) {
        Some(Refusal::MixedPaths)
    } else if paths.len() > 16 {
        Some(Refusal::TooManyPaths)
    } else {
        None
    }
}

fn is_drop_or_local(kind: &SpecKind) -> bool
    ensures { result ≡ writes_drop_or_local kind.now }
{
    matches!(kind, SpecKind::Drop | SpecKind::Local)
}

fn some_drop_or_local(specs: &[PathSpec]) -> bool
    ensures { result ≡ list_any (λ spec. writes_drop_or_local spec.kind) specs.now }
{
    specs.iter().any(|spec| is_drop_or_local(&spec.kind))
}

fn drops_or_is_local(paths: &[Path], specs: &[PathSpec]) -> bool
    ensures { result ≡ (list_any (λ p. is_drop_or_local p.kind) paths.now || list_any (λ spec. writes_drop_or_local spec.kind) specs.now) }
{
    has_drop_or_local(paths) || some_drop_or_local(specs)
}

/// Why a list that is too long already isn't one of a route, when further paths are set in it.
fn refused_long_list(tables: &Tables, paths: &[Path], specs: &[PathSpec]) -> Refusal
    requires { 16 < length paths.now }
    ensures { Some result ≡ first_reason (list_reasons (set_paths paths.now (map (path_of tables.now) specs.now))) }
{
    if drops_or_is_local(paths, specs) {
        Refusal::MixedPaths
    } else {
        Refusal::TooManyPaths
    }
}

/// Why paths can't be set in a list. Takes no more memory and time a path than a list of seventeen.
fn refused_paths(
    alloc: Global,
    tables: &Tables,
    old: &[Path],
    specs: &[PathSpec],
) -> Result<Option<Refusal>, AllocError>
    requires { length tables.now.interfaces ≤ 256 }
    ensures { IfOk result (λ o. o ≡ first_reason (list_reasons (set_paths old.now (map (path_of tables.now) specs.now)))) }
{
    let mut list = List::from_vec(Vec::from_slice(alloc, old)?);
    for place in 0..specs.len() {
        if list.len() > 16 {
            let refusal = refused_long_list(tables, list.as_slice(), &specs[place..]);
            return Ok(Some(refusal));
        }
        let path = changes::path_of(tables, &specs[place]);
        list = changes::set_path(alloc, path, list.as_slice())?;
    }
    Ok(refused_list(list.as_slice()))
}

fn lacks_a_key(old: &[Path], paths: &[Path]) -> bool
    ensures { result ≡ lacks_a_key old.now paths.now }
{
    paths.iter().any(|p| !changes::has_key(old, p))
}

#[tactic(auto, using(crate::proofs::Places::route_there))]
fn has_route(tables: &Tables, digest: &Digest, prefix: Prefix, source: FibSource) -> bool
    requires { HasKeys tables.now digest.now }
    ensures { result ≡ list_any (is_route prefix source) tables.now.routes }
{
    let routes = &tables.routes;
    digest::place_of_route(&digest.routes, prefix, source, routes) < routes.len()
}

fn refused_address(tables: &Tables, a: &Address) -> Option<Refusal>
    requires a { a.now.len ≤ 32 }
    requires all { All (λ b. b.len ≤ 32) tables.now.addresses }
    ensures { result ≡ first_reason (when (has_address tables.now a.now) Refusal.AddressThere
        ∷ when (connected_elsewhere tables.now a.now) Refusal.ConnectedElsewhere ∷ []) }
{
    if has_address(tables, a) {
        Some(Refusal::AddressThere)
    } else if connected_elsewhere(tables, a) {
        Some(Refusal::ConnectedElsewhere)
    } else {
        None
    }
}

/// Why the edit is refused, apart from the size.
#[tactic(auto, using(fib_resolve::proofs::Sound::short_addresses))]
pub fn own_refusal(
    alloc: Global,
    tables: &Tables,
    digest: &Digest,
    edit: &Edit,
) -> Result<Option<Refusal>, AllocError>
    requires sound { IsSound tables.now }
    requires keys { HasKeys tables.now digest.now }
    requires written { IsWritten edit.now }
    ensures { IfOk result (λ o. o ≡ first_reason (reasons tables.now edit.now)) }
{
    match edit {
        Edit::CreateInterface(name) => {
            if !is_unknown(tables, name) {
                Ok(Some(Refusal::InterfaceExists))
            } else if tables.interfaces.as_slice().len() >= 256 {
                Ok(Some(Refusal::TooManyInterfaces))
            } else {
                Ok(None)
            }
        }
        Edit::SetState { name, .. } | Edit::SetNeighbor { name, .. } => {
            if is_unknown(tables, name) {
                Ok(Some(Refusal::NoSuchInterface))
            } else {
                Ok(None)
            }
        }
        Edit::AddAddress { name, addr, len } => {
            if is_unknown(tables, name) {
                return Ok(Some(Refusal::NoSuchInterface));
            }
            let address = Address {
                interface: changes::number_of(tables, name),
                addr: *addr,
                len: *len,
            };
            Ok(refused_address(tables, &address))
        }
        Edit::DelAddress { name, addr, len } => {
            if is_unknown(tables, name) {
                return Ok(Some(Refusal::NoSuchInterface));
            }
            let address = Address {
                interface: changes::number_of(tables, name),
                addr: *addr,
                len: *len,
            };
            if !has_address(tables, &address) {
                Ok(Some(Refusal::NoSuchAddress))
            } else {
                Ok(None)
            }
        }
        Edit::DelNeighbor { name, addr } => {
            if is_unknown(tables, name) {
                Ok(Some(Refusal::NoSuchInterface))
            } else if !has_neighbor(tables, digest, changes::number_of(tables, name), *addr) {
                Ok(Some(Refusal::NoSuchNeighbor))
            } else {
                Ok(None)
            }
        }
        Edit::AddRoute { prefix, api, paths } => {
            if some_unknown(tables, paths.as_slice()) {
                return Ok(Some(Refusal::NoSuchInterface));
            }
            let source = changes::source_of(*api);
            let old = changes::paths_at(*prefix, source, tables, digest);
            refused_paths(alloc, tables, old, paths.as_slice())
        }
        Edit::DelRoute { prefix, api, paths } => {
            if some_unknown(tables, paths.as_slice()) {
                return Ok(Some(Refusal::NoSuchInterface));
            }
            let source = changes::source_of(*api);
            if !has_route(tables, digest, *prefix, source) {
                return Ok(Some(Refusal::NoSuchRoute));
            }
            let gone = changes::paths_of(alloc, tables, paths.as_slice())?;
            let old = changes::paths_at(*prefix, source, tables, digest);
            if lacks_a_key(old, gone.as_slice()) {
                Ok(Some(Refusal::NoSuchPath))
            } else {
                Ok(None)
            }
        }
    }
}
