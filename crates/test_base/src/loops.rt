use crate::expect::same;
use fib_loops::mark;
use std::test::Fail;

/// Two cycles that share node 1, an edge to itself, two equal edges, and a node that no edge meets.
#[test]
fn cycles_that_share_a_node(rt: HostRuntime) -> Result<(), Fail> {
    let edges = [
        (0, 1),
        (1, 2),
        (2, 1),
        (1, 3),
        (3, 1),
        (3, 4),
        (4, 4),
        (4, 5),
        (0, 5),
        (0, 1),
    ];
    let looped = [
        false, true, true, true, true, false, true, false, false, false,
    ];
    let marks = mark(rt.alloc(), 7, &edges)?;
    for (edge, expected) in looped.iter().enumerate() {
        same(&rt, marks.looped(edge as u32), *expected);
    }
    same(&rt, marks.order().len(), 7);
    let none = mark(rt.alloc(), 3, &[])?;
    same(&rt, none.order().len(), 3);
    Ok(())
}
