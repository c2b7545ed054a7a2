// Each public call once, over members with a key and a number.
use crate::expect::{holds, same};
use fib_base_ordered::{Keyed, Ordered};
use std::test::Fail;

/// A number under a key.
#[derive(Clone, Copy, Debug, PartialEq, Eq)]
struct Entry {
    key: u64,
    number: u32,
}

impl Keyed for Entry {
    ghost rank = { λ e. e.key };

    fn key(&self) -> u64 {
        self.key
    }
}

fn numbered(number: u32) -> Entry {
    Entry {
        key: u64::from(number) * 7919 % 10_007,
        number,
    }
}

/// Takes the member in, or fails where there is no room or where its key is there already.
fn take_in(set: &mut Ordered<Entry>, entry: Entry) -> Result<(), Fail> {
    if set.spare() == 0 {
        return Err("no room".into());
    }
    match set.find(entry.key) {
        Some(_) => Err("a key that is there".into()),
        None => {
            set.insert(entry);
            Ok(())
        }
    }
}

#[test]
fn members_come_and_go(rt: HostRuntime) -> Result<(), Fail> {
    let mut set: Ordered<Entry> = Ordered::new(rt.alloc());
    same(&rt, set.find(3), None);
    same(&rt, set.first_from(0), None);
    same(&rt, set.last_below(9), None);
    same(&rt, set.remove(9), None);
    for number in 0..1_000 {
        set.reserve(rt.alloc(), 1)?;
        take_in(&mut set, numbered(number))?;
    }
    for number in 0..1_000 {
        let one = numbered(number);
        same(&rt, set.find(one.key), Some(one));
        same(&rt, set.first_from(one.key), Some(one));
        same(&rt, set.last_below(one.key.saturating_add(1)), Some(one));
    }
    for number in 0..500 {
        same(
            &rt,
            set.remove(numbered(number).key),
            Some(numbered(number)),
        );
    }
    holds(&rt, !set.contains(numbered(7).key));
    holds(&rt, set.contains(numbered(507).key));
    Ok(())
}

#[test]
fn neighbours(rt: HostRuntime) -> Result<(), Fail> {
    let mut set: Ordered<Entry> = Ordered::new(rt.alloc());
    set.reserve(rt.alloc(), 3)?;
    for key in [30, 10, 20] {
        take_in(&mut set, Entry { key, number: 0 })?;
    }
    let rows = [
        (0, Some(10), None),
        (10, Some(10), None),
        (11, Some(20), Some(10)),
        (20, Some(20), Some(10)),
        (30, Some(30), Some(20)),
        (31, None, Some(30)),
    ];
    for (key, from, below) in &rows {
        same(&rt, set.first_from(*key).map(|e| e.key), *from);
        same(&rt, set.last_below(*key).map(|e| e.key), *below);
    }
    Ok(())
}
