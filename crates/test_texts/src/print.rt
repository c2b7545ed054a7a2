// Worked texts, of which no clause speaks by value.
use crate::expect::same;
use fib_addr::{Addr, Mac, Prefix};
use fib_core_results::{Record, Version};
use fib_print::{
    BatchFault, put_bad_header, put_batch, put_cut, put_end, put_message, put_not_ipv4, put_packet,
    put_path, put_refusal,
};
use fib_resolve::{Blocks, End, Interface, List, Name, Need, Path, PathKind, Refusal, Tables};
use std::alloc::Global;
use std::test::Fail;

/// Tables of one interface, eth0.
fn tables(alloc: Global) -> Result<Tables, Fail> {
    let text = b"eth0";
    if !Name::is_name(text) {
        return Err("no name".into());
    }
    let mut interfaces = List::new(alloc);
    interfaces.push(Interface {
        name: Name::from_text(List::from_vec(text.to_vec(alloc)?)),
        up: true,
    })?;
    Ok(Tables {
        interfaces,
        addresses: List::new(alloc),
        neighbors: Blocks::new(alloc),
        routes: Blocks::new(alloc),
    })
}

fn path(kind: PathKind, need: Need) -> Path {
    Path {
        kind,
        need,
        weight: 1,
        preference: 0,
    }
}

#[test]
fn ends_and_packets(rt: HostRuntime) -> Result<(), Fail> {
    let tables = tables(rt.alloc())?;
    let mac = Mac::new(0x0200_0000_0009);
    let next_hop = Addr(0x0a00_0009);
    let hop = End::Hop {
        interface: 0,
        next_hop,
        mac,
    };
    let mut out = Vec::new(rt.alloc());
    put_end(&mut out, &tables, &End::Drop)?;
    put_end(&mut out, &tables, &End::Receive)?;
    put_end(&mut out, &tables, &End::Glean(0))?;
    same(&rt, out.as_slice(), b"dropreceiveglean eth0".as_slice());
    let version = Version::settled_at(4);
    let answer = Record {
        addr: next_hop,
        hash: 1_701_755_127,
        lo: version,
        hi: version,
        end: hop,
    };
    let mut out = Vec::new(rt.alloc());
    put_packet(&mut out, &tables, 0, &answer)?;
    let line = b"packet 0 10.0.0.9 1701755127 4.4-4.4 adj eth0 10.0.0.9 02:00:00:00:00:09\n";
    same(&rt, out.as_slice(), line.as_slice());
    let mut out = Vec::new(rt.alloc());
    put_not_ipv4(&mut out, 1)?;
    put_bad_header(&mut out, 2)?;
    put_cut(&mut out, 3)?;
    let lines = b"packet 1 not ipv4\npacket 2 bad header\ncapture ends inside packet 3\n";
    same(&rt, out.as_slice(), lines.as_slice());
    Ok(())
}

#[test]
fn paths_and_refusals(rt: HostRuntime) -> Result<(), Fail> {
    let tables = tables(rt.alloc())?;
    let mut out = Vec::new(rt.alloc());
    let host = path(PathKind::Recursive(Addr(0x0a00_0007)), Need::Host);
    put_path(&mut out, &tables, &host, None)?;
    same(
        &rt,
        out.as_slice(),
        b"via 10.0.0.7 weight 1 preference 0 resolve-via-host".as_slice(),
    );
    let mut out = Vec::new(rt.alloc());
    let cover = Prefix::masked(Addr(0x1e00_0000), 8);
    put_path(
        &mut out,
        &tables,
        &path(PathKind::Cover, Need::Any),
        Some(cover),
    )?;
    same(
        &rt,
        out.as_slice(),
        b"cover 30.0.0.0/8 weight 1 preference 0".as_slice(),
    );
    let mut out = Vec::new(rt.alloc());
    put_refusal(&mut out, 8, Refusal::ConnectedElsewhere)?;
    put_batch(&mut out, 9, BatchFault::Spoiled)?;
    put_message(&mut out, 10, "syntax")?;
    let lines = b"line 8: connected on another interface\nline 9: batch spoiled\nline 10: syntax\n";
    same(&rt, out.as_slice(), lines.as_slice());
    Ok(())
}
