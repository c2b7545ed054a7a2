// The marks of edges, and the order of nodes.
ghost use Rattle.std.specs.Prelude.{◌≡◌, ◌==◌, ◌<◌, length, map, false, slice_index, slice_index_or, IfOk};
ghost use Rattle.fib_loops.specs.Loops.{AreEdges, IsMarked};

use crate::enter::{self, Entering};
use crate::{edges, part};
use std::alloc::{AllocError, Global};
use std::marker::Model;

/// Which edges lie on cycles, and an order of the nodes.
pub struct Marks {
    looped: Vec<bool>,
    order: Vec<u32>,
}

// The prover follows what a drop does here, once, and not at every way out past an owner.
impl Drop for Marks {
    fn drop(self) {
        let Marks {
            looped: _,
            order: _,
        } = self;
    }
}

impl Model for Marks {
    ghost use Rattle.fib_loops.specs.Loops.{Marked};

    ghost Value = { Marked };

    ghost view = { λ m. record { looped = m.looped.items; order = m.order.items } };
}

impl Marks {
    /// Whether the edge lies on a cycle: its target is its source or leads back to it. Edges are numbered as they were handed in.
    pub fn looped(&self, edge: u32) -> bool
        requires { edge < length self.now.looped }
        ensures { result ≡ slice_index_or self.now.looped edge false }
    {
        self.looped[edge as usize]
    }

    /// The nodes, each once, so that each edge that isn't looped has its target before its source.
    pub fn order(&self) -> &[u32]
        ensures { result.now ≡ self.now.order }
    {
        self.order.as_slice()
    }
}

/// A mark for each edge whose ends are in one part.
fn marks_of(alloc: Global, parts: &[u32], edges: &[(u32, u32)]) -> Result<Vec<bool>, AllocError>
    requires { AreEdges (length parts.now) edges.now }
    ensures { IfOk result (λ v. v.items ≡ map (λ e. slice_index parts.now e.0 == slice_index parts.now e.1) edges.now) }
{
    let mut looped = Vec::with_capacity(alloc, edges.len())?;
    for (from, to) in edges {
        looped.push(parts[*from as usize] == parts[*to as usize])?;
    }
    Ok(looped)
}

/// Marks the edges of the graph with these nodes, 0 to n - 1; each edge leads from the first of the pair to the second.
///
/// One walk over nodes and edges, and one over the edges turned round, neither on the call stack.
pub fn mark(alloc: Global, nodes: u32, edges: &[(u32, u32)]) -> Result<Marks, AllocError>
    requires { AreEdges nodes edges.now }
    ensures { IfOk result (λ m. IsMarked nodes edges.now m) }
{
    let graph = edges::forward(alloc, nodes, edges)?;
    let walk = enter::enter_all(alloc, &graph)?;
    let back = edges::backward(alloc, nodes, edges)?;
    let parts = part::part_all(alloc, &back, &walk)?;
    let looped = marks_of(alloc, parts.as_slice(), edges)?;
    let Entering { order, .. } = walk;
    Ok(Marks { looped, order })
}
