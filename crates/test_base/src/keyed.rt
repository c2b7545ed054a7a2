// Keys that come, go and come back, and where they stand.
use crate::expect::holds;
use fib_base_keyed::Keyed;
use std::alloc::Global;
use std::test::Fail;

/// The keys from 0 on, each twice its place.
fn evens(alloc: Global, count: u16) -> Option<Keyed<u32>> {
    let mut keys = Keyed::new(alloc);
    for number in 0..count {
        keys = keys.with_last(2 * u32::from(number))?;
    }
    Some(keys)
}

fn goes_and_comes_back(keys: Keyed<u32>, number: u16) -> Option<Keyed<u32>> {
    let mut left = keys;
    let place = usize::from(number);
    if place >= left.len() {
        return None;
    }
    let gone = left.take_out(place);
    let key = 2 * u32::from(number);
    let is_gone = left.place_of(key) == left.len();
    let back = left.with_again(place, key, gone)?;
    if is_gone && back.place_of(key) == place {
        return Some(back);
    }
    None
}

#[test]
fn keys_are_found(rt: HostRuntime) -> Result<(), Fail> {
    let Some(mut keys) = evens(rt.alloc(), 1_000) else {
        return Err("no keys".into());
    };
    holds(
        &rt,
        keys.place_of(998) == 499 && keys.place_of(999) == 1_000,
    );
    if keys.len() > 0 {
        // Its number isn't wanted.
        let _stamp = keys.remove(0);
    }
    holds(&rt, keys.place_of(998) == 498 && keys.place_of(0) == 999);
    let Some(more) = keys.with_last(0) else {
        return Err("no memory".into());
    };
    holds(&rt, more.place_of(0) == 999 && more.len() == 1_000);
    holds(&rt, more.with_last(998).is_none());
    Ok(())
}

#[test]
fn keys_come_back(rt: HostRuntime) -> Result<(), Fail> {
    let Some(mut keys) = evens(rt.alloc(), 600) else {
        return Err("no keys".into());
    };
    for number in 0..600 {
        let Some(back) = goes_and_comes_back(keys, number) else {
            return Err("a key is elsewhere".into());
        };
        keys = back;
    }
    holds(&rt, keys.place_of(2) == 1 && keys.len() == 600);
    Ok(())
}
