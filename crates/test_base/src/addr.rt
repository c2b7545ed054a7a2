// Worked texts, of which no clause speaks by value.
use crate::expect::{holds, same};
use fib_addr::{
    Addr, BadText, Mac, Prefix, laws, nibble, put_addr, put_mac, put_prefix, read_addr, read_mac,
    read_number, read_prefix,
};
use std::test::Fail;

#[test]
fn texts_of_each_kind(rt: HostRuntime) -> Result<(), Fail> {
    let address = Addr(0x0a00_0109);
    same(&rt, read_addr("010.000.001.009"), Ok(address));
    same(&rt, read_addr("256.0.0.0"), Err(BadText));
    same(&rt, read_addr("1.2.3"), Err(BadText));
    same(&rt, read_addr("1..2.3"), Err(BadText));
    same(&rt, read_prefix("10.0.1.9/24"), Ok((address, 24)));
    same(&rt, read_prefix("10.0.1.9/33"), Err(BadText));
    same(&rt, read_number("4294967295", u32::MAX), Ok(u32::MAX));
    same(&rt, read_number("4294967296", u32::MAX), Err(BadText));
    same(&rt, read_number("00000000000", u32::MAX), Err(BadText));
    let mac = read_mac("02:00:00:00:Aa:09").map_err(|_| "no MAC")?;
    same(&rt, mac.bits(), 0x0200_0000_aa09);
    same(&rt, Mac::new(mac.bits()), Some(mac));
    same(&rt, Mac::new(1 << 48), None);
    let mut out = Vec::new(rt.alloc());
    put_addr(&mut out, address)?;
    put_mac(&mut out, mac)?;
    put_prefix(&mut out, Prefix::masked(address, 25))?;
    same(
        &rt,
        out.as_slice(),
        b"10.0.1.902:00:00:00:aa:0910.0.1.0/25".as_slice(),
    );
    Ok(())
}

#[test]
fn parts_of_a_prefix(rt: HostRuntime) {
    let prefix = Prefix::masked(Addr(0x0a00_0109), 24);
    same(&rt, prefix.bits(), Addr(0x0a00_0100));
    same(&rt, prefix.last(), Addr(0x0a00_01ff));
    same(&rt, prefix.len(), 24);
    holds(
        &rt,
        prefix.contains(Addr(0x0a00_01fe)) && !prefix.contains(Addr(0x0a00_0200)),
    );
    same(&rt, Prefix::host(Addr(7)).len(), 32);
    same(&rt, nibble(Addr(0x1234_5678), 0), 1);
    same(&rt, nibble(Addr(0x1234_5678), 7), 8);
    laws::addresses_are_read_back();
    laws::prefixes_are_read_back();
    laws::macs_are_read_back();
    laws::longest_is_longest();
    laws::longest_is_unique();
}
