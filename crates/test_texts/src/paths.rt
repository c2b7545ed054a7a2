// Each public call once, with ample memory.
use crate::expect::{holds, same};
use fib_addr::Addr;
use fib_paths::PathLists;
use fib_resolve::{Need, Path, PathKind};
use std::test::Fail;

fn via(hop: u32) -> Path {
    Path {
        kind: PathKind::Recursive(Addr(hop)),
        need: Need::Any,
        weight: 1,
        preference: 0,
    }
}

#[test]
fn equal_lists_are_one(rt: HostRuntime) -> Result<(), Fail> {
    let mut lists = PathLists::new(rt.alloc());
    let one = [via(1)];
    let two = [via(1), via(2)];
    let first = lists.take(&one)?;
    holds(&rt, lists.has_room(&two));
    let second = lists.take(&two)?;
    holds(&rt, lists.has_room(&one));
    let again = lists.take(&one)?;
    same(&rt, first, again);
    same(&rt, lists.find(&two), Some(second));
    holds(&rt, first != second);
    same(&rt, lists.count(), 2);
    Ok(())
}

#[test]
fn a_list_goes_with_its_last_user(rt: HostRuntime) -> Result<(), Fail> {
    let mut lists = PathLists::new(rt.alloc());
    let one = [via(1)];
    let id = lists.take(&one)?;
    same(&rt, lists.content(id).len(), 1);
    lists.hold(id);
    same(&rt, lists.users(id), 2);
    lists.give(id);
    lists.give(id);
    same(&rt, lists.count(), 0);
    Ok(())
}
