// A graph over numbers, with the room for a search.
ghost use Rattle.std.specs.Prelude.{◌≡◌, ℕ, ◌<◌, ◌↔◌, List, [], replicate, length, OnOk, OnErr, IfOk, IsTrue};
ghost use Rattle.fib_reach.specs.Walks.{Reaches, Plus};
ghost use Rattle.fib_reach.specs.Graphs.{Edge, next_of, with_edge};
ghost use Rattle.fib_reach.specs.inner.Visits.{IsGraph};

use crate::reach;
use crate::visit::Search;
use fib_base_list::List;
use std::alloc::{AllocError, Global};
use std::marker::Model;

/// A directed graph over the nodes 0 to n - 1.
///
/// Contracts see it as the list of each node's targets, in the order in which they were added; an edge may stand there more than once.
pub struct Graph {
    rows: Vec<List<u32>>,
    search: Search,
}

// The prover follows what a drop does here, once, and not at every way out past an owner.
impl Drop for Graph {
    fn drop(self) {
        let Graph { rows: _, search: _ } = self;
    }
}

impl Model for Graph {
    ghost Value = { List (List ℕ) };

    ghost view = { λ g. g.rows.items };

    ghost invariant = { λ g. IsGraph g.rows.items g.search.nodes };
}

/// A list of no targets for each node.
fn empty_rows(alloc: Global, nodes: u32) -> Result<Vec<List<u32>>, AllocError>
    ensures { IfOk result (λ rows. rows.items ≡ replicate nodes []) }
{
    let mut rows = Vec::with_capacity(alloc, nodes as usize)?;
    for _node in 0..nodes {
        rows.push(List::new(alloc))?;
    }
    Ok(rows)
}

impl Graph {
    /// The graph of this many nodes and no edge, with the room that its searches will need.
    pub fn new(alloc: Global, nodes: u32) -> Result<Graph, AllocError>
        ensures { IfOk result (λ g. g ≡ replicate nodes []) }
    {
        Ok(Graph {
            rows: empty_rows(alloc, nodes)?,
            search: Search::new(alloc, nodes)?,
        })
    }

    /// The number of nodes.
    pub fn nodes(&self) -> u32
        ensures { result ≡ length self.now }
    {
        self.rows.len() as u32
    }

    /// The nodes to which edges lead from this one, in the order in which they were added.
    pub fn targets(&self, from: u32) -> &[u32]
        requires { from < length self.now }
        ensures { result.now ≡ next_of self.now from }
    {
        self.rows[from as usize].as_slice()
    }

    /// Adds an edge. Where no memory is left the graph stays as it was.
    pub fn add(&mut self, from: u32, to: u32) -> Result<(), AllocError>
        requires from_in { from < length self.old }
        requires to_in { to < length self.old }
        ensures ok { OnOk result (self.new ≡ with_edge self.old from to) }
        ensures err { OnErr result (self.new ≡ self.old) }
    {
        let row = &mut self.rows[from as usize];
        row.push(to)?;
        Ok(())
    }

    /// Whether a walk of one or more edges leads there: a node reaches itself only along a cycle.
    ///
    /// Takes no memory. A call costs the nodes and edges that it visits, whatever the size of the graph: what it saw bears the number
    /// of the call, and is never cleared (but once in 2^64 calls).
    pub fn reaches(&mut self, from: u32, to: u32) -> bool
        requires from_in { from < length self.old }
        requires to_in { to < length self.old }
        ensures unchanged { self.new ≡ self.old }
        ensures walk { IsTrue result ↔ Reaches (Edge self.old) from to }
    {
        reach::reaches(self.rows.as_slice(), &mut self.search, from, to)
    }
}
