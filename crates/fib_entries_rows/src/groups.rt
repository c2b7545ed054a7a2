// The edges of recursion by where they lead.
ghost use Rattle.std.specs.Prelude.{◌≡◌, ◌<◌, ◌^◌, IfOk, Some, ℕ, length, slice_get};
ghost use Rattle.fib_cover.specs.Covers.{IsAscending};
ghost use Rattle.fib_loops.specs.Loops.{AreEdges};
ghost use Rattle.fib_addr.specs.Prefixes.{Prefix as PrefixValue};
ghost use Rattle.fib_entries_rows.specs.inner.Edges.{ArePlaces, AreSources, AreSourcesIn, IsTurned};

use fib_addr::Prefix;
use fib_base_list::List;
use fib_reach::Graph;
use std::alloc::{AllocError, Global};

/// The graph of these edges turned round.
fn turned(alloc: Global, nodes: u32, edges: &[(u32, u32)]) -> Result<Graph, AllocError>
    requires { AreEdges nodes edges.now }
    ensures { IfOk result (λ g. IsTurned nodes edges.now g) }
{
    let mut graph = Graph::new(alloc, nodes)?;
    for (from, to) in edges {
        graph.add(*to, *from)?;
    }
    Ok(graph)
}

/// The graph of the edges turned round, each once.
pub fn backward(alloc: Global, nodes: u32, edges: &[(u32, u32)]) -> Result<Graph, AllocError>
    requires { AreEdges nodes edges.now }
    ensures { IfOk result (λ g. AreSourcesIn nodes edges.now g) }
{
    let once = fib_resolve_pairs::distinct(alloc, edges)?;
    turned(alloc, nodes, once.as_slice())
}

/// The entries with an edge to the one at that place, each once. `back` has the edges turned round, each once.
pub fn dependants_of(
    alloc: Global,
    order: &[Prefix],
    back: &Graph,
    edges: &[(u32, u32)],
    place: usize,
) -> Result<List<Prefix>, AllocError>
    requires ascending { IsAscending order.now }
    requires few { length order.now < 2 ^ 32 }
    requires place { place < length order.now }
    requires places { ArePlaces order.now edges.now }
    requires back { AreSourcesIn (length order.now) edges.now back.now }
    ensures { IfOk result (λ v. (e : PrefixValue) → slice_get order.now place ≡ Some e → AreSources order.now edges.now e v) }
{
    // Only clauses name the edges.
    let _edges = edges;
    let mut out = List::new(alloc);
    for from in back.targets(place as u32) {
        out.push(order[*from as usize])?;
    }
    Ok(out)
}
