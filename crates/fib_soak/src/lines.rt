// The lines of the generated script.
ghost use Rattle.std.specs.Prelude.{◌≡◌, ◌<◌, IfOk, string_bytes};
ghost use Rattle.fib_soak.specs.Draws.{after_2, after_3, after_4};
ghost use Rattle.fib_soak.specs.Scripts.{create_line, up_line, address_line, neighbor_start, neighbor_line, target_line, route_line};
ghost use Rattle.fib_soak.specs.Scripts.{state_line, drawn_route_line, deletion_line, path_line, change_line, after_change};

use crate::draws::Draws;
use fib_addr::{Mac, put_mac};
use std::alloc::{AllocError, Global};

/// An interface is made.
#[tactic(auto, unfolding(crate::specs::Scripts::create_line))]
pub(crate) fn create_line(alloc: Global, k: u32) -> Result<String, AllocError>
    ensures { IfOk result (λ s. string_bytes s ≡ create_line k) }
{
    format!(in alloc; "create interface eth{k}")
}

/// It is set up.
#[tactic(auto, unfolding(crate::specs::Scripts::up_line))]
pub(crate) fn up_line(alloc: Global, k: u32) -> Result<String, AllocError>
    ensures { IfOk result (λ s. string_bytes s ≡ up_line k) }
{
    format!(in alloc; "set interface state eth{k} up")
}

/// It is given its address.
#[tactic(auto, unfolding(crate::specs::Scripts::address_line))]
pub(crate) fn address_line(alloc: Global, k: u32) -> Result<String, AllocError>
    ensures { IfOk result (λ s. string_bytes s ≡ address_line k) }
{
    format!(in alloc; "set interface ip address eth{k} 10.{k}.0.1/16")
}

#[tactic(auto, unfolding(crate::specs::Scripts::neighbor_start))]
fn neighbor_start(alloc: Global, k: u8, h: u8) -> Result<String, AllocError>
    ensures { IfOk result (λ s. string_bytes s ≡ neighbor_start k h) }
{
    format!(in alloc; "set ip neighbor eth{k} 10.{k}.0.{h} ")
}

/// A neighbor, one of sixteen of each of four interfaces.
#[tactic(auto, unfolding(crate::specs::Scripts::neighbor_line))]
pub(crate) fn neighbor_line(alloc: Global, j: u32) -> Result<Vec<u8>, AllocError>
    requires { j < 64 }
    ensures { IfOk result (λ v. v.items ≡ neighbor_line j) }
{
    let k = (j % 4) as u8;
    let h = (2 + j / 4) as u8;
    let mut line = neighbor_start(alloc, k, h)?.into_bytes();
    put_mac(&mut line, Mac::of_bytes([2, 0, 0], [0, k, h]))?;
    Ok(line)
}

/// The route of a target by two drawn next hops.
#[tactic(auto, unfolding(crate::specs::Scripts::target_line))]
pub(crate) fn target_line(alloc: Global, j: u32, draws: &mut Draws) -> Result<String, AllocError>
    ensures text { IfOk result (λ s. string_bytes s ≡ target_line j draws.old) }
    ensures state { draws.new ≡ after_4 draws.old }
{
    let k = draws.draw(4);
    let h = 2 + draws.draw(16);
    let l = draws.draw(4);
    let g = 2 + draws.draw(16);
    format!(in alloc; "ip route add 192.168.0.{j}/32 via 10.{k}.0.{h} via 10.{l}.0.{g}")
}

/// The route of 100.p.q.0/24 by way of a target.
#[tactic(auto, unfolding(crate::specs::Scripts::route_line))]
pub(crate) fn route_line(alloc: Global, p: u32, q: u32, z: u32) -> Result<String, AllocError>
    ensures { IfOk result (λ s. string_bytes s ≡ route_line p q z) }
{
    format!(in alloc; "ip route add 100.{p}.{q}.0/24 via 192.168.0.{z}")
}

/// A drawn interface is set up or down.
#[tactic(auto, unfolding(crate::specs::Scripts::state_line))]
fn state_line(alloc: Global, draws: &mut Draws) -> Result<String, AllocError>
    ensures text { IfOk result (λ s. string_bytes s ≡ state_line draws.old) }
    ensures state { draws.new ≡ after_2 draws.old }
{
    let k = draws.draw(4);
    if draws.draw(2) == 1 {
        format!(in alloc; "set interface state eth{k} up")
    } else {
        format!(in alloc; "set interface state eth{k} down")
    }
}

/// A drawn route by way of a drawn target.
#[tactic(auto, unfolding(crate::specs::Scripts::drawn_route_line))]
fn drawn_route_line(alloc: Global, draws: &mut Draws) -> Result<String, AllocError>
    ensures text { IfOk result (λ s. string_bytes s ≡ drawn_route_line draws.old) }
    ensures state { draws.new ≡ after_3 draws.old }
{
    let p = draws.draw(8);
    let q = draws.draw(250);
    let z = draws.draw(32);
    route_line(alloc, p, q, z)
}

/// The deletion of a drawn route.
#[tactic(auto, unfolding(crate::specs::Scripts::deletion_line))]
fn deletion_line(alloc: Global, draws: &mut Draws) -> Result<String, AllocError>
    ensures text { IfOk result (λ s. string_bytes s ≡ deletion_line draws.old) }
    ensures state { draws.new ≡ after_2 draws.old }
{
    let p = draws.draw(8);
    let q = draws.draw(250);
    format!(in alloc; "ip route del 100.{p}.{q}.0/24")
}

/// A further path of a drawn target.
#[tactic(auto, unfolding(crate::specs::Scripts::path_line))]
fn path_line(alloc: Global, draws: &mut Draws) -> Result<String, AllocError>
    ensures text { IfOk result (λ s. string_bytes s ≡ path_line draws.old) }
    ensures state { draws.new ≡ after_3 draws.old }
{
    let j = draws.draw(32);
    let p = draws.draw(8);
    let q = draws.draw(250);
    format!(in alloc; "ip route add 192.168.0.{j}/32 via 100.{p}.{q}.1")
}

/// A drawn change, whose kind is drawn first.
#[tactic(auto, unfolding(crate::specs::Scripts::change_line, crate::specs::Scripts::change_of, crate::specs::Scripts::after_change, crate::specs::Scripts::after_change_of))]
pub(crate) fn change_line(alloc: Global, draws: &mut Draws) -> Result<String, AllocError>
    ensures text { IfOk result (λ s. string_bytes s ≡ change_line draws.old) }
    ensures state { draws.new ≡ after_change draws.old }
{
    match draws.draw(4) {
        0 => state_line(alloc, draws),
        1 => drawn_route_line(alloc, draws),
        2 => deletion_line(alloc, draws),
        _ => path_line(alloc, draws),
    }
}
