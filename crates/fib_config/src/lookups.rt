// Look-ups in tables.

ghost use Rattle.std.specs.Prelude.{◌≡◌, ◌≤◌, IfOk, filter};
ghost use Rattle.std.specs.List.{All};
ghost use Rattle.fib_addr.specs.Prefixes.{contains};
ghost use Rattle.fib_resolve.specs.Forwarding.{is_up};
ghost use Rattle.fib_resolve.specs.Resolution.{mac_of};
ghost use Rattle.fib_resolve_changes.specs.Affected.{is_own};
ghost use Rattle.fib_config.specs.inner.Digest.{HasKeys};

use crate::digest::{self, Digest};
use fib_addr::{Addr, Mac, Prefix};
use fib_resolve::{Address, Blocks, Neighbor, Tables};
use std::alloc::{AllocError, Global};

/// Whether the interface is there and up.
pub fn is_up(interface: u32, tables: &Tables) -> bool
    ensures { result ≡ is_up tables.now interface }
{
    match tables.interfaces.as_slice().get(interface as usize) {
        Some(found) => found.up,
        None => false,
    }
}

/// The MAC of the neighbor of that interface and address; None where there is no such neighbor.
#[tactic(auto, using(crate::proofs::Places::mac_there, crate::proofs::Places::mac_nowhere))]
pub fn mac_of(interface: u32, addr: Addr, tables: &Tables, digest: &Digest) -> Option<Mac>
    requires { HasKeys tables.now digest.now }
    ensures { result ≡ mac_of tables.now interface addr }
{
    let neighbors = &tables.neighbors;
    let place = digest::place_of_neighbor(&digest.neighbors, interface, addr, neighbors);
    if place < neighbors.len() {
        return Some(neighbors[place].mac);
    }
    None
}

/// Whether the address gives the prefix a pair, or can.
fn is_own(prefix: Prefix, a: &Address) -> bool
    requires { a.now.len ≤ 32 }
    ensures { result ≡ is_own a.now prefix }
{
    let near = Prefix::masked(a.addr, a.len);
    prefix == near
        || prefix == Prefix::host(a.addr)
        || prefix == Prefix::host(near.bits())
        || prefix == Prefix::host(near.last())
}

/// The addresses among whose own prefixes that one is, in their order.
pub fn addresses_at(
    alloc: Global,
    prefix: Prefix,
    addresses: &[Address],
) -> Result<Vec<Address>, AllocError>
    requires { All (λ a. a.len ≤ 32) addresses.now }
    ensures { IfOk result (λ v. v.items ≡ filter (λ a. is_own a prefix) addresses.now) }
{
    let mut out = Vec::new(alloc);
    for a in addresses {
        if is_own(prefix, a) {
            out.push(*a)?;
        }
    }
    Ok(out)
}

/// The neighbors whose addresses the prefix contains, in their order.
pub fn neighbors_inside(
    alloc: Global,
    prefix: Prefix,
    neighbors: &Blocks<Neighbor>,
) -> Result<Vec<Neighbor>, AllocError>
    ensures { IfOk result (λ v. v.items ≡ filter (λ n. contains prefix n.addr) neighbors.now) }
{
    let mut out = Vec::new(alloc);
    for place in 0..neighbors.len() {
        let n = neighbors[place];
        if prefix.contains(n.addr) {
            out.push(n)?;
        }
    }
    Ok(out)
}
