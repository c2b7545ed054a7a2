// The changes of the trials: two routes come to lead to each other, and one comes and goes.
ghost use Rattle.std.specs.Prelude.{IfOk, length, ◌<◌, ◌+◌, ◌^◌};
ghost use Rattle.std.specs.List.{AllByRecursion};
ghost use Rattle.fib_resolve.specs.Reachable.{IsWritten, IsWrittenPath};

use crate::trouble::Trouble;
use fib_addr::{Addr, Prefix};
use fib_resolve::{Edit, List, Name, Need, PathSpec, SpecKind};
use std::alloc::Global;

fn eth0(alloc: Global) -> Result<Name, Trouble> {
    let text = b"eth0";
    if !Name::is_name(text) {
        return Err(Trouble::Refused);
    }
    Ok(Name::from_text(List::from_vec(text.to_vec(alloc)?)))
}

/// `N.0.0.0/8`.
pub fn eight(first: u8) -> Prefix {
    Prefix::masked(Addr((first as u32) << 24), 8)
}

// The one path by that address.
fn via(alloc: Global, addr: Addr) -> Result<List<PathSpec>, Trouble>
    ensures { IfOk result (λ paths. (0 < length paths) × AllByRecursion IsWrittenPath paths) }
{
    let mut paths = List::new(alloc);
    let path = PathSpec {
        kind: SpecKind::Recursive(addr),
        weight: 1,
        preference: 0,
        need: Need::Any,
    };
    let Ok(()) = paths.push(path) else {
        return Err(Trouble::Memory);
    };
    Ok(paths)
}

fn add(alloc: Global, prefix: Prefix, addr: Addr) -> Result<Edit, Trouble>
    ensures { IfOk result IsWritten }
{
    Ok(Edit::AddRoute {
        prefix,
        api: false,
        paths: via(alloc, addr)?,
    })
}

fn delete(alloc: Global, prefix: Prefix, addr: Addr) -> Result<Edit, Trouble>
    ensures { IfOk result IsWritten }
{
    Ok(Edit::DelRoute {
        prefix,
        api: false,
        paths: via(alloc, addr)?,
    })
}

// The first three: eth0 is there, is up, and has 10.0.0.1/24.
fn of_interface(alloc: Global, version: u32) -> Result<Edit, Trouble>
    ensures { IfOk result IsWritten }
{
    let name = eth0(alloc)?;
    match version {
        1 => Ok(Edit::CreateInterface(name)),
        2 => Ok(Edit::SetState { name, up: true }),
        _ => Ok(Edit::AddAddress {
            name,
            addr: Addr(0x0a00_0001),
            len: 24,
        }),
    }
}

// 50.0.0.0/8 is over 60.0.0.1 and 60.0.0.0/8 over 10.0.0.7; then 50.0.0.0/8 is over 10.0.0.8 in place of it, and 60.0.0.0/8 over 50.0.0.1; then
// 60.0.0.0/8 is deleted.
fn of_route(alloc: Global, version: u32) -> Result<Edit, Trouble>
    ensures { IfOk result IsWritten }
{
    match version {
        4 => add(alloc, eight(50), Addr(0x3c00_0001)),
        5 => add(alloc, eight(60), Addr(0x0a00_0007)),
        6 => add(alloc, eight(50), Addr(0x0a00_0008)),
        7 => delete(alloc, eight(50), Addr(0x3c00_0001)),
        8 => add(alloc, eight(60), Addr(0x3200_0001)),
        9 => delete(alloc, eight(60), Addr(0x0a00_0007)),
        _ => delete(alloc, eight(60), Addr(0x3200_0001)),
    }
}

/// The change that makes this version, from 1 to 10.
pub fn change(alloc: Global, version: u32) -> Result<Edit, Trouble>
    ensures { IfOk result IsWritten }
{
    if version <= 3 {
        return of_interface(alloc, version);
    }
    of_route(alloc, version)
}

/// The changes of so many versions from that one on.
pub fn changes(alloc: Global, start: u32, count: u32) -> Result<Vec<Edit>, Trouble>
    requires { start + count < 2 ^ 32 }
    ensures written { IfOk result (λ v. AllByRecursion IsWritten v.items) }
    ensures few { IfOk result (λ v. length v.items < 2 ^ 32) }
{
    let mut edits = Vec::new(alloc);
    for place in 0..count {
        let edit = change(alloc, start + place)?;
        let Ok(()) = edits.push(edit) else {
            return Err(Trouble::Memory);
        };
    }
    Ok(edits)
}

/// 20.0.0.0/8 comes, over 10.0.0.7.
pub fn coming(alloc: Global) -> Result<Edit, Trouble>
    ensures { IfOk result IsWritten }
{
    add(alloc, eight(20), Addr(0x0a00_0007))
}

/// And it goes.
pub fn going(alloc: Global) -> Result<Edit, Trouble>
    ensures { IfOk result IsWritten }
{
    delete(alloc, eight(20), Addr(0x0a00_0007))
}
