// Which prefixes are restacked, one by one: those that a change touches and those whose targets changed their answer, and no others.
ghost use Rattle.trial_live.specs.Crewed.{SameCrew};

use crate::live::{Trial, over_cells};
use fib_addr::Prefix;
use fib_cells::LiveBoard;
use fib_control::Control;
use std::alloc::Global;
use std::test::Fail;
use trial_live::live::{change_by, settle_home};
use trial_live::restacks::{change_each, restacked_by};

// The bits of the address, and the length.
type Named = (u32, u8);

fn is_named(prefix: &Prefix, named: &Named) -> bool {
    prefix.bits().0 == named.0 && prefix.len() == named.1
}

fn is_among(prefixes: &[Prefix], named: &Named) -> bool {
    prefixes
        .iter()
        .any(|prefix| -> bool { is_named(prefix, named) })
}

// Whether these are all that were restacked, each once.
fn are(prefixes: &[Prefix], wanted: &[Named]) -> bool {
    let all = wanted
        .iter()
        .all(|named| -> bool { is_among(prefixes, named) });
    all && prefixes.len() == wanted.len()
}

const TWO_LINKS: [&str; 8] = [
    "create interface eth0",
    "set interface state eth0 up",
    "set interface ip address eth0 10.0.0.1/24",
    "create interface eth1",
    "set interface state eth1 up",
    "set interface ip address eth1 10.1.0.1/24",
    "ip route add 20.0.0.0/8 via 10.0.0.7 via eth1",
    "ip route add 30.0.0.0/8 via 20.0.0.1",
];

// 10.0.0.0/24, 10.0.0.7/32 and 20.0.0.0/8, which still forwards: so nothing behind it.
const FIRST_DOWN: [Named; 3] = [(0x0a00_0000, 24), (0x0a00_0007, 32), (0x1400_0000, 8)];

// 10.1.0.0/24, 20.0.0.0/8, 20.0.0.1/32 and 30.0.0.0/8.
const BOTH_DOWN: [Named; 4] = [
    (0x0a01_0000, 24),
    (0x1400_0000, 8),
    (0x1400_0001, 32),
    (0x1e00_0000, 8),
];

// What is restacked as the one link goes down, and then the other.
#[derive(Clone, Copy)]
struct LinksGo;

impl Trial for LinksGo {
    type Found = (Vec<Prefix>, Vec<Prefix>);

    fn find(
        &self,
        alloc: Global,
        control: &mut Control<LiveBoard<'_>>,
    ) -> Option<(Vec<Prefix>, Vec<Prefix>)> {
        change_each(alloc, control, &TWO_LINKS)?;
        settle_home(control)?;
        let first = restacked_by(alloc, control, "set interface state eth0 down")?;
        let second = restacked_by(alloc, control, "set interface state eth1 down")?;
        Some((first, second))
    }
}

fn links_go(alloc: Global) -> bool {
    match over_cells(alloc, 1024, &LinksGo) {
        Some((first, second)) => are(&first, &FIRST_DOWN) && are(&second, &BOTH_DOWN),
        None => false,
    }
}

#[test]
fn a_link_restacks_what_it_touches(rt: HostRuntime) -> Result<(), Fail> {
    assert!(rt; links_go(rt.alloc()));
    Ok(())
}

const RING: [&str; 5] = [
    "create interface eth0",
    "set interface state eth0 up",
    "set interface ip address eth0 10.0.0.1/24",
    "ip route add 20.0.0.0/8 via 30.0.0.1 via eth0",
    "ip route add 30.0.0.0/8 via 20.0.0.1 via eth0",
];

// Two prefixes lead to each other, and have a way out that goes.
#[derive(Clone, Copy)]
struct WayOutGoes;

impl Trial for WayOutGoes {
    type Found = Vec<Prefix>;

    fn find(&self, alloc: Global, control: &mut Control<LiveBoard<'_>>) -> Option<Vec<Prefix>> {
        change_each(alloc, control, &RING)?;
        settle_home(control)?;
        restacked_by(alloc, control, "set interface state eth0 down")
    }
}

// Whether none stands there twice.
fn are_apart(prefixes: &[Prefix]) -> bool {
    for place in 0..prefixes.len() {
        let named = (prefixes[place].bits().0, prefixes[place].len());
        if is_among(&prefixes[place + 1..], &named) {
            return false;
        }
    }
    true
}

fn way_out_goes(alloc: Global) -> bool {
    match over_cells(alloc, 1024, &WayOutGoes) {
        Some(prefixes) => {
            let both = is_among(&prefixes, &(0x1400_0000, 8))
                && is_among(&prefixes, &(0x1e00_0000, 8));
            both && are_apart(&prefixes)
        }
        None => false,
    }
}

#[test]
fn prefixes_on_a_loop_have_one_turn(rt: HostRuntime) -> Result<(), Fail> {
    assert!(rt; way_out_goes(rt.alloc()));
    Ok(())
}

const UPLINKS: [&str; 9] = [
    "create interface up0",
    "create interface up1",
    "set interface state up0 up",
    "set interface state up1 up",
    "set interface ip address up0 10.1.0.1/30",
    "set interface ip address up1 10.2.0.1/30",
    "set ip neighbor up0 10.1.0.2 02:00:00:00:00:01",
    "set ip neighbor up1 10.2.0.2 02:00:00:00:00:02",
    "ip route add 192.168.255.1/32 via 10.1.0.2 up0 via 10.2.0.2 up1",
];

// 200 routes over a next hop behind both uplinks.
fn add_routes(alloc: Global, control: &mut Control<LiveBoard<'_>>) -> Option<()>
    ensures { SameCrew control.old.plane.board control.new.plane.board }
{
    for k in 0..200u8 {
        let line = format!(in alloc; "ip route add 100.64.{k}.0/24 via 192.168.255.1").ok()?;
        change_by(alloc, control, &line)?;
    }
    Some(())
}

// One of the two uplinks goes down.
#[derive(Clone, Copy)]
struct UplinkGoes;

impl Trial for UplinkGoes {
    type Found = Vec<Prefix>;

    fn find(&self, alloc: Global, control: &mut Control<LiveBoard<'_>>) -> Option<Vec<Prefix>> {
        change_each(alloc, control, &UPLINKS)?;
        add_routes(alloc, control)?;
        settle_home(control)?;
        restacked_by(alloc, control, "set interface state up0 down")
    }
}

// Whether none of the 200 is there, and the next hop is.
fn are_untouched(prefixes: &[Prefix]) -> bool {
    for k in 0..200u32 {
        if is_among(prefixes, &(0x6440_0000 | (k << 8), 24)) {
            return false;
        }
    }
    is_among(prefixes, &(0xc0a8_ff01, 32))
}

fn uplink_goes(alloc: Global) -> bool {
    match over_cells(alloc, 1024, &UplinkGoes) {
        Some(prefixes) => are_untouched(&prefixes),
        None => false,
    }
}

#[test]
fn routes_behind_a_next_hop_have_no_turn(rt: HostRuntime) -> Result<(), Fail> {
    assert!(rt; uplink_goes(rt.alloc()));
    Ok(())
}
