// Edges as pairs, made into graphs.
ghost use Rattle.std.specs.Prelude.{◌≡◌, ℕ, IfOk};
ghost use Rattle.fib_loops.specs.Loops.{AreEdges};
ghost use Rattle.fib_loops.specs.inner.Entering.{Joins, JoinsBack};

use fib_reach::Graph;
use std::alloc::{AllocError, Global};

/// The graph of the edges, from the first of each pair to the second.
pub fn forward(alloc: Global, nodes: u32, edges: &[(u32, u32)]) -> Result<Graph, AllocError>
    requires { AreEdges nodes edges.now }
    ensures { IfOk result (λ g. Joins g nodes edges.now) }
{
    let mut graph = Graph::new(alloc, nodes)?;
    for (from, to) in edges {
        graph.add(*from, *to)?;
    }
    Ok(graph)
}

/// The graph of the edges turned round, from the second of each pair to the first.
pub fn backward(alloc: Global, nodes: u32, edges: &[(u32, u32)]) -> Result<Graph, AllocError>
    requires { AreEdges nodes edges.now }
    ensures { IfOk result (λ g. JoinsBack g nodes edges.now) }
{
    let mut graph = Graph::new(alloc, nodes)?;
    for (from, to) in edges {
        graph.add(*to, *from)?;
    }
    Ok(graph)
}
