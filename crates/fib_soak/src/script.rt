// The generated script, part by part.
ghost use Rattle.std.specs.Prelude.{◌≡◌, ◌≤◌, ◌++◌, ◌∷◌, [], IfOk, OnOk};
ghost use Rattle.fib_soak.specs.Draws.{next, repeated, after_4};
ghost use Rattle.fib_soak.specs.Scripts.{interface_lines, interfaces, neighbors, targets, routes, changes, after_change, round_lines};
ghost use Rattle.fib_soak.specs.Scripts.{rounds, after_round, ended, text_of, soak_script};

use crate::draws::Draws;
use crate::lines::{
    address_line, change_line, create_line, neighbor_line, route_line, target_line, up_line,
};
use std::alloc::{AllocError, Global};

/// Appends a line and its line feed.
fn put_line(out: &mut Vec<u8>, line: &[u8]) -> Result<(), AllocError>
    ensures { OnOk result (out.new.items ≡ out.old.items ++ ended line.now) }
{
    out.extend_from_slice(line)?;
    out.push(b'\n')?;
    Ok(())
}

/// Appends the lines of an interface: it is made, set up and given its address.
fn put_interface(out: &mut Vec<u8>, k: u32) -> Result<(), AllocError>
    ensures { OnOk result (out.new.items ≡ out.old.items ++ text_of (interface_lines k)) }
{
    let alloc = *out.allocator();
    put_line(out, create_line(alloc, k)?.as_bytes())?;
    put_line(out, up_line(alloc, k)?.as_bytes())?;
    put_line(out, address_line(alloc, k)?.as_bytes())?;
    Ok(())
}

fn put_interfaces(out: &mut Vec<u8>, count: u32) -> Result<(), AllocError>
    ensures { OnOk result (out.new.items ≡ out.old.items ++ text_of (interfaces count)) }
{
    for k in 0..count {
        put_interface(out, k)?;
    }
    Ok(())
}

fn put_neighbors(out: &mut Vec<u8>, count: u32) -> Result<(), AllocError>
    requires { count ≤ 64 }
    ensures { OnOk result (out.new.items ≡ out.old.items ++ text_of (neighbors count)) }
{
    let alloc = *out.allocator();
    for j in 0..count {
        put_line(out, &neighbor_line(alloc, j)?)?;
    }
    Ok(())
}

fn put_targets(out: &mut Vec<u8>, count: u32, draws: &mut Draws) -> Result<(), AllocError>
    ensures text { OnOk result (out.new.items ≡ out.old.items ++ text_of (targets count draws.old)) }
    ensures state { OnOk result (draws.new ≡ repeated after_4 count draws.old) }
{
    let alloc = *out.allocator();
    for j in 0..count {
        put_line(out, target_line(alloc, j, draws)?.as_bytes())?;
    }
    Ok(())
}

/// Appends the routes of 100.p.q.0/24, 250 of each p, each by way of a drawn target.
fn put_routes(out: &mut Vec<u8>, count: u32, draws: &mut Draws) -> Result<(), AllocError>
    ensures text { OnOk result (out.new.items ≡ out.old.items ++ text_of (routes count draws.old)) }
    ensures state { OnOk result (draws.new ≡ repeated next count draws.old) }
{
    let alloc = *out.allocator();
    for j in 0..count {
        let line = route_line(alloc, j / 250, j % 250, draws.draw(32))?;
        put_line(out, line.as_bytes())?;
    }
    Ok(())
}

fn put_changes(out: &mut Vec<u8>, count: u32, draws: &mut Draws) -> Result<(), AllocError>
    ensures text { OnOk result (out.new.items ≡ out.old.items ++ text_of (changes count draws.old)) }
    ensures state { OnOk result (draws.new ≡ repeated after_change count draws.old) }
{
    let alloc = *out.allocator();
    for _ in 0..count {
        put_line(out, change_line(alloc, draws)?.as_bytes())?;
    }
    Ok(())
}

/// Appends a round: twenty changes between two forward lines.
fn put_round(out: &mut Vec<u8>, draws: &mut Draws) -> Result<(), AllocError>
    ensures text { OnOk result (out.new.items ≡ out.old.items ++ text_of (round_lines draws.old)) }
    ensures state { OnOk result (draws.new ≡ after_round draws.old) }
{
    put_line(out, b"forward 500")?;
    put_changes(out, 20, draws)?;
    put_line(out, b"forward 500")?;
    Ok(())
}

fn put_rounds(out: &mut Vec<u8>, count: u32, draws: &mut Draws) -> Result<(), AllocError>
    ensures text { OnOk result (out.new.items ≡ out.old.items ++ text_of (rounds count draws.old)) }
{
    for _ in 0..count {
        put_round(out, draws)?;
    }
    Ok(())
}

/// The script of a seed, as bytes: 2,988 lines, each with its line feed.
///
/// Four interfaces, sixteen neighbors of each, 32 targets with two drawn next hops each, 2,000 routes by way of drawn targets, and
/// forty rounds of twenty drawn changes between two forward lines. The generator starts at the seed.
#[tactic(auto, unfolding(crate::specs::Scripts::soak_script, crate::specs::Scripts::soak_lines))]
pub fn soak_script(alloc: Global, seed: u32) -> Result<Vec<u8>, AllocError>
    ensures { IfOk result (λ v. v.items ≡ soak_script seed) }
{
    let mut draws = Draws::from_state(u64::from(seed));
    let mut out = Vec::new(alloc);
    put_interfaces(&mut out, 4)?;
    put_neighbors(&mut out, 64)?;
    put_targets(&mut out, 32, &mut draws)?;
    put_routes(&mut out, 2_000, &mut draws)?;
    put_rounds(&mut out, 40, &mut draws)?;
    Ok(out)
}
