use crate::expect::{holds, same};
use fib_addr::{Addr, Prefix};
use fib_cover::PrefixSet;
use std::test::Fail;

/// 10.0.0.0/8, 10.1.0.0/16, 10.1.0.0/24 and 10.1.0.1/32.
fn nested() -> [Prefix; 4] {
    [
        Prefix::masked(Addr(0x0a00_0000), 8),
        Prefix::masked(Addr(0x0a01_0000), 16),
        Prefix::masked(Addr(0x0a01_0000), 24),
        Prefix::host(Addr(0x0a01_0001)),
    ]
}

#[test]
fn longest_matches(rt: HostRuntime) -> Result<(), Fail> {
    let mut set = PrefixSet::new(rt.alloc());
    holds(&rt, set.is_empty());
    let [wide, middle, narrow, host] = nested();
    for prefix in [host, narrow, wide, middle] {
        holds(&rt, set.insert(prefix)?);
    }
    holds(&rt, !set.insert(narrow)?);
    same(&rt, set.len(), 4);
    holds(&rt, set.contains(narrow));
    let rows = [
        (0x0a01_0001, Some(host), Some(narrow)),
        (0x0a01_0002, Some(narrow), Some(narrow)),
        (0x0a01_0100, Some(middle), Some(middle)),
        (0x0aff_ffff, Some(wide), Some(wide)),
        (0x0b00_0000, None, None),
    ];
    for (addr, best, cover) in &rows {
        same(&rt, set.best(Addr(*addr)), *best);
        same(&rt, set.cover(Addr(*addr)), *cover);
    }
    let inside = set.inside(rt.alloc(), middle)?;
    same(&rt, inside.as_slice(), [middle, narrow, host].as_slice());
    let again = PrefixSet::of(rt.alloc(), inside.as_slice())?;
    same(&rt, again.len(), 3);
    let mut last = None;
    for member in again.iter() {
        holds(&rt, set.contains(*member));
        last = Some(*member);
    }
    same(&rt, last, Some(host));
    holds(&rt, set.remove(host));
    holds(&rt, !set.remove(host));
    same(&rt, set.best(Addr(0x0a01_0001)), Some(narrow));
    Ok(())
}
