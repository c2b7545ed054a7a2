// Each public call once, at a concrete type.
use crate::expect::{holds, same};
use fib_base_interned::{Interned, Numbered};
use std::alloc::AllocError;
use std::test::Fail;

fn take(kept: &mut Interned<u32>, id: u64, content: u32) -> Result<u64, AllocError> {
    if let Some(found) = kept.find(&content) {
        if kept.users(found) < u32::MAX {
            kept.hold(found);
        }
        return Ok(found);
    }
    if !kept.has(id) {
        kept.add(id, content)?;
    }
    Ok(id)
}

fn take_numbered(kept: &mut Numbered<u32>, content: u32) -> Result<u64, AllocError> {
    if let Some(found) = kept.find(&content) {
        if kept.users(found) < u32::MAX {
            kept.hold(found);
        }
        return Ok(found);
    }
    kept.add(content)
}

#[test]
fn equal_contents_are_one(rt: HostRuntime) -> Result<(), Fail> {
    let mut kept = Interned::new(rt.alloc());
    same(&rt, take(&mut kept, 7, 70)?, 7);
    same(&rt, take(&mut kept, 5, 50)?, 5);
    same(&rt, take(&mut kept, 3, 70)?, 7);
    holds(&rt, kept.has(7));
    same(&rt, kept.users(7), 2);
    holds(&rt, !kept.give(7));
    holds(&rt, kept.has(7));
    holds(&rt, kept.give(7));
    holds(&rt, !kept.has(7));
    holds(&rt, kept.has(5));
    same(&rt, *kept.content(5), 50);
    same(&rt, kept.count(), 1);
    same(&rt, kept.at(0), 5);
    Ok(())
}

#[test]
fn numbers_are_the_stores(rt: HostRuntime) -> Result<(), Fail> {
    let mut kept = Numbered::new(rt.alloc());
    let first = take_numbered(&mut kept, 70)?;
    let second = take_numbered(&mut kept, 50)?;
    holds(&rt, first != second);
    same(&rt, take_numbered(&mut kept, 70)?, first);
    holds(&rt, kept.has(first));
    same(&rt, kept.users(first), 2);
    holds(&rt, kept.has(second));
    holds(&rt, kept.give(second));
    holds(&rt, !kept.has(second));
    holds(&rt, kept.has(first));
    same(&rt, *kept.content(first), 70);
    same(&rt, kept.count(), 1);
    same(&rt, kept.at(0), first);
    Ok(())
}
