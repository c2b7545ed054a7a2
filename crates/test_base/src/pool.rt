// Each public call once.
use crate::expect::{holds, same};
use fib_addr::{Addr, Mac};
use fib_pool::{AdjTable, Kind, Pool};
use std::test::Fail;

#[test]
fn an_object_is_taken_counted_and_given_back(rt: HostRuntime) -> Result<(), Fail> {
    let mut pool = Pool::new(rt.alloc(), 3)?;
    same(&rt, pool.len(), 3);
    same(&rt, pool.free(), 2);
    let object = pool.take(Kind::Balance).ok_or("full")?;
    same(&rt, pool.used(), 2);
    holds(&rt, pool.kind(object) == Kind::Balance);
    pool.hold(object);
    same(&rt, pool.count(object), 2);
    holds(&rt, !pool.release(object));
    holds(&rt, pool.release(object));
    pool.put_back(object);
    holds(&rt, pool.is_free(object));
    Ok(())
}

#[test]
fn equal_records_are_one(rt: HostRuntime) -> Result<(), Fail> {
    let mut pool = Pool::new(rt.alloc(), 3)?;
    let mut table = AdjTable::new(rt.alloc());
    let mac = Mac::new(0x0200_0000_0001);
    let first = table.take_adj(&mut pool, 0, Addr(7), mac)?.ok_or("full")?;
    holds(&rt, first.fresh);
    holds(&rt, table.is_kept(first.object));
    same(&rt, table.users(first.object), 1);
    holds(&rt, table.record(first.object).next_hop == Addr(7));
    same(&rt, table.count(), 1);
    holds(&rt, table.give_adj(first.object));
    Ok(())
}
