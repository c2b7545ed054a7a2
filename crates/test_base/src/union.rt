// Each public call once: a chain whose edges are replaced while a pass runs.
use crate::expect::{holds, same};
use fib_union::{Union, laws};
use std::test::Fail;

#[test]
fn a_replaced_edge_stays_until_no_pass_can_stand_on_it(rt: HostRuntime) -> Result<(), Fail> {
    let mut union = Union::new(rt.alloc(), 4, 1)?;
    union.reserve(2)?;
    holds(&rt, union.spare() >= 2);
    same(&rt, union.set(0, 0, Some(1)), None);
    same(&rt, union.set(1, 0, Some(2)), None);
    holds(&rt, union.would_cycle(2, 0));
    holds(&rt, union.spare() > 0);
    same(&rt, union.set(1, 0, None), None);
    same(&rt, union.retired(), 1);
    holds(&rt, union.has_in(2));
    holds(&rt, union.would_cycle(2, 1));
    union.look(0, 1);
    same(&rt, union.scan([1].as_slice()), 1);
    same(&rt, union.scan([2].as_slice()), 0);
    same(&rt, union.left(), Some(2));
    same(&rt, union.left(), None);
    holds(&rt, !union.has_in(2));
    holds(&rt, !union.would_cycle(2, 1));
    Ok(())
}

/// Each law, at a union.
#[test]
fn laws_at_a_union(rt: HostRuntime) -> Result<(), Fail> {
    let union = Union::new(rt.alloc(), 4, 1)?;
    laws::retires_where_entered(&union, 16);
    laws::counts_tell(&union, 1);
    laws::store_keeps_acyclic(&union, 16, Some(2));
    laws::look_keeps_acyclic(&union, 0, 1);
    laws::store_counts(&union, 16, Some(2), 2);
    laws::look_counts(&union, 0, 1, 2);
    laws::passed_when_over([1, 3].as_slice());
    Ok(())
}
