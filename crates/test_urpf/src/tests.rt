// Turns left undone, changes, and checks against the definition.
ghost use Rattle.std.specs.Prelude.{◌≡◌, [], OnOk};
ghost use Rattle.test_urpf.specs.Rigs.{IsRigged};

use crate::plain::may_come;
use crate::rig::{Rig, begin, make, settle, turns};
use fib_addr::Addr;
use std::alloc::{AllocError, Global};
use std::test::Fail;

/// Interfaces, next hops, recursive and looped routes, that come and go.
const LINES: [&str; 20] = [
    "create interface eth0",
    "create interface eth1",
    "set interface state eth0 up",
    "set interface state eth1 up",
    "set interface ip address eth0 10.0.0.1/24",
    "set interface ip address eth1 10.1.0.1/24",
    "ip route add 30.0.0.1/32 via 10.0.0.7",
    "ip route add 30.0.0.2/32 via 30.0.0.1 via 10.1.0.7 preference 1",
    "ip route add 20.0.0.0/8 via 30.0.0.2",
    "ip route add 20.1.0.0/16 via 30.0.0.3 via 10.1.0.9 eth1",
    "ip route add 30.0.0.3/32 via 30.0.0.2",
    "ip route add 30.0.0.1/32 via 30.0.0.3",
    "set interface state eth0 down",
    "ip route del 30.0.0.1/32",
    "ip route add 20.1.1.1/32 via drop",
    "ip route add 0.0.0.0/0 via 10.1.0.1",
    "ip route del 20.1.0.0/16",
    "set interface state eth1 down",
    "ip route del 20.1.1.1/32",
    "ip route del 0.0.0.0/0",
];

/// Sources that are checked.
const SOURCES: [u32; 7] = [
    0x1401_0101,
    0x1402_0101,
    0x1e00_0001,
    0x1e00_0002,
    0x1e00_0003,
    0x0a00_0007,
    0x0808_0808,
];

// Whether the checks of this source answer the definition.
fn source_agrees(alloc: Global, rig: &Rig, source: u32) -> Result<bool, AllocError>
    requires { rig.now.urpf.queue ≡ [] }
{
    let addr = Addr(source);
    let first = may_come(alloc, rig, addr, 0)?;
    let second = may_come(alloc, rig, addr, 1)?;
    Ok(
        rig.urpf.strict(addr, 0) == first
            && rig.urpf.strict(addr, 1) == second
            && rig.urpf.loose(addr) == (first || second),
    )
}

// Whether those of all sources do.
fn all_agree(alloc: Global, rig: &Rig) -> Result<bool, AllocError>
    requires { rig.now.urpf.queue ≡ [] }
{
    for source in SOURCES {
        if !source_agrees(alloc, rig, source)? {
            return Ok(false);
        }
    }
    Ok(true)
}

// Whether all checks answer the definition, once nothing is queued.
fn agrees(alloc: Global, rig: &mut Rig) -> Result<bool, AllocError>
    requires { IsRigged rig.old }
    ensures { OnOk result (IsRigged rig.new) }
{
    if !settle(rig)? {
        return Ok(false);
    }
    all_agree(alloc, rig)
}

// Makes so many changes, with some turns after each, and compares after each fifth.
fn drive(alloc: Global, rig: &mut Rig, changes: u32, seed: u32) -> Result<bool, AllocError>
    requires { IsRigged rig.old }
    ensures { OnOk result (IsRigged rig.new) }
{
    let mut state = seed;
    for number in 0..changes {
        state = state.wrapping_mul(1_664_525).wrapping_add(1_013_904_223);
        let line = LINES[(state / 65_536 % 20) as usize];
        // A line that is refused changes nothing.
        let _made = make(alloc, rig, line)?;
        turns(rig, state / 4_096 % 4)?;
        if number % 5 == 0 && !agrees(alloc, rig)? {
            return Ok(false);
        }
    }
    agrees(alloc, rig)
}

#[test]
fn turns_left_undone_lose_nothing(rt: HostRuntime) -> Result<(), Fail> {
    let mut rig = begin(rt.alloc())?;
    assert!(rt; drive(rt.alloc(), &mut rig, 300, 1)?);
    Ok(())
}
