use crate::expect::same;
use fib_reach::{Graph, Search, laws};
use std::alloc::Global;
use std::test::Fail;

/// Nodes for the laws, which hold of any type.
struct Node;

impl laws::Linked for Node {
    ghost edge = { λ x y. Unit {0} };
}

impl laws::Partly for Node {
    ghost part = { λ x y. ⊥ };
}

impl laws::Listed for Node {
    ghost use Rattle.std.specs.Prelude.{true, [], ◌∷◌};

    ghost same = { λ x y. true };

    ghost next = { λ x. x ∷ [] };
}

fn graph(alloc: Global, nodes: u32, edges: &[(u32, u32)]) -> Result<Graph, Fail> {
    let mut graph = Graph::new(alloc, nodes)?;
    for (from, to) in edges {
        if *from < graph.nodes() && *to < graph.nodes() {
            graph.add(*from, *to)?;
        }
    }
    Ok(graph)
}

/// A chain to a pair of cycles that share node 3, a node beside them, and an edge that stands there twice.
#[test]
fn walks_are_found(rt: HostRuntime) -> Result<(), Fail> {
    let edges = [
        (0, 1),
        (1, 3),
        (1, 3),
        (3, 4),
        (4, 3),
        (3, 5),
        (5, 6),
        (6, 3),
        (6, 7),
    ];
    let mut graph = graph(rt.alloc(), 9, &edges)?;
    same(&rt, graph.nodes(), 9);
    let rows = [
        (0, 0, false),
        (0, 7, true),
        (0, 8, false),
        (3, 3, true),
        (4, 6, true),
        (5, 4, true),
        (4, 1, false),
        (7, 7, false),
        (8, 8, false),
        (3, 3, true),
    ];
    for (from, to, reached) in &rows {
        if *from < graph.nodes() && *to < graph.nodes() {
            same(&rt, graph.reaches(*from, *to), *reached);
        }
    }
    same(&rt, graph.nodes(), 9);
    if 1 < graph.nodes() {
        same(&rt, graph.targets(1), [3, 3].as_slice());
    }
    Ok(())
}

/// A search whose edges the caller knows: from 2 to 1.
#[test]
fn a_search_sees_each_node_once(rt: HostRuntime) -> Result<(), Fail> {
    let mut search = Search::new(rt.alloc(), 3)?;
    search.begin(2);
    same(&rt, search.next(), Some(2));
    search.note(1);
    search.note(2);
    same(&rt, search.next(), Some(1));
    same(&rt, search.next(), None);
    Ok(())
}

/// Each law, at a type of nodes.
#[test]
fn laws_at_a_type() {
    laws::walks_compose::<Node>();
    laws::walks_cut::<Node>();
    laws::leads_none_or_more::<Node>();
    laws::added_edge_closes::<Node>();
    laws::added_edge_keeps::<Node>();
    laws::part_is_acyclic::<Node>();
    laws::walk_visits_once::<Node>();
    laws::walk_is_short::<Node>();
    laws::walk_is_no_longer::<Node>();
    laws::test_finds_walks::<Node>();
    laws::rounds_come_to_rest::<Node>();
    laws::edge_is_added();
}
