// Each public call once, at a concrete type.
use crate::expect::{holds, same};
use fib_base_list::{Duplicate, List};
use std::test::Fail;

#[test]
fn a_list_and_its_copy(rt: HostRuntime) -> Result<(), Fail> {
    let mut list = List::new(rt.alloc());
    holds(&rt, list.is_empty());
    list.push(7u8)?;
    list.push(9)?;
    same(&rt, list.len(), 2);
    let copy = list.duplicate(rt.alloc())?;
    same(&rt, copy.as_slice(), [7, 9].as_slice());
    same(
        &rt,
        List::from_vec(copy.into_vec()).as_slice(),
        list.as_slice(),
    );
    same(&rt, 5u8.duplicate(rt.alloc())?, 5);
    let mut lists = List::new(rt.alloc());
    lists.push(list)?;
    same(&rt, lists.duplicate(rt.alloc())?.len(), 1);
    Ok(())
}
