// A walk over all nodes, depth first, that lists each as it is left.
ghost use Rattle.std.specs.Prelude.{◌≡◌, ℕ, ◌+◌, ◌<◌, ◌≤◌, ◌^◌, [], ◌∷◌, ◌++◌, length, Contains, slice_index, slice_set, replicate, OnOk, IfOk};
ghost use Rattle.fib_reach.specs.Graphs.{IsClosed, next_of};
ghost use Rattle.fib_loops.specs.inner.Entering.{IsEntering, ArePassed, Enters, KeepsEntered, HasLeft, nodes_of, steps_left};

use fib_reach::Graph;
use std::alloc::{AllocError, Global};

/// A node that is entered and not left, and how many of its targets are passed.
#[derive(Clone, Copy)]
pub struct Frame {
    pub node: u32,
    pub passed: usize,
}

/// The nodes in the order in which they are left.
#[derive(Drop)]
pub struct Entering {
    /// One more than the number of nodes that were left when the node was entered; 0 before.
    pub starts: Vec<u32>,
    /// One more than the node's place in the order; 0 before it is left.
    pub ranks: Vec<u32>,
    pub order: Vec<u32>,
    /// The nodes that are entered and not left, oldest first.
    pub path: Vec<Frame>,
}

/// The place of the first target, from this one on, that isn't entered; the number of targets where each is.
fn next_new(targets: &[u32], passed: usize, starts: &[u32]) -> usize
    requires low { passed ≤ length targets.now }
    requires inside { (y : ℕ) → Contains targets.now y → y < length starts.now }
    requires before { (i : ℕ) → i < passed → 0 < slice_index starts.now (slice_index targets.now i) }
    ensures low { result ≤ length targets.now }
    ensures passed { (i : ℕ) → i < result → 0 < slice_index starts.now (slice_index targets.now i) }
    ensures new { result < length targets.now → slice_index starts.now (slice_index targets.now result) ≡ 0 }
{
    for place in passed..targets.len() {
        if starts[targets[place] as usize] == 0 {
            return place;
        }
    }
    targets.len()
}

/// Enters a node.
fn enter(walk: &mut Entering, node: u32) -> Result<(), AllocError>
    requires inside { node < length walk.old.starts.items }
    requires few { length walk.old.order.items + 1 < 2 ^ 32 }
    ensures starts { OnOk result (walk.new.starts.items ≡ slice_set walk.old.starts.items node (length walk.old.order.items + 1)) }
    ensures path { OnOk result (walk.new.path.items ≡ walk.old.path.items ++ record { node = node; passed = 0 } ∷ []) }
    ensures ranks { walk.new.ranks.items ≡ walk.old.ranks.items }
    ensures order { walk.new.order.items ≡ walk.old.order.items }
{
    walk.path.push(Frame { node, passed: 0 })?;
    walk.starts[node as usize] = walk.order.len() as u32 + 1;
    Ok(())
}

/// Leaves a node, which is the next of the order.
fn leave(walk: &mut Entering, node: u32) -> Result<(), AllocError>
    requires inside { node < length walk.old.ranks.items }
    requires few { length walk.old.order.items + 1 < 2 ^ 32 }
    ensures ranks { OnOk result (walk.new.ranks.items ≡ slice_set walk.old.ranks.items node (length walk.old.order.items + 1)) }
    ensures order { OnOk result (walk.new.order.items ≡ walk.old.order.items ++ node ∷ []) }
    ensures starts { walk.new.starts.items ≡ walk.old.starts.items }
    ensures path { walk.new.path.items ≡ walk.old.path.items }
{
    walk.ranks[node as usize] = walk.order.len() as u32 + 1;
    walk.order.push(node)?;
    Ok(())
}

/// Goes on from the newest node, which is off the path: enters its next target, or leaves it where each is entered.
fn step(graph: &Graph, walk: &mut Entering, newest: Frame) -> Result<(), AllocError>
    requires closed { IsClosed graph.now }
    requires few { length graph.now < 2 ^ 32 }
    requires enters { IsEntering graph.now walk.old.starts.items walk.old.ranks.items walk.old.order.items
        (nodes_of (walk.old.path.items ++ newest ∷ [])) }
    requires passed { ArePassed graph.now walk.old.starts.items (walk.old.path.items ++ newest ∷ []) }
    ensures enters { OnOk result (Enters graph.now walk.new) }
    ensures keeps { OnOk result (KeepsEntered walk.old.starts.items walk.new.starts.items) }
    ensures shorter { OnOk result (steps_left walk.new < steps_left walk.old + 1) }
{
    let node = newest.node;
    let targets = graph.targets(node);
    let passed = next_new(targets, newest.passed, walk.starts.as_slice());
    if passed < targets.len() {
        walk.path.push(Frame {
            node,
            passed: passed + 1,
        })?;
        enter(walk, targets[passed])
    } else {
        leave(walk, node)
    }
}

/// Enters a node that isn't entered, and leaves all that it leads to.
fn enter_all_from(graph: &Graph, walk: &mut Entering, root: u32) -> Result<(), AllocError>
    requires closed { IsClosed graph.now }
    requires few { length graph.now < 2 ^ 32 }
    requires enters { Enters graph.now walk.old }
    requires path { walk.old.path.items ≡ [] }
    requires inside { root < length graph.now }
    requires new { slice_index walk.old.starts.items root ≡ 0 }
    ensures enters { OnOk result (Enters graph.now walk.new) }
    ensures path { OnOk result (walk.new.path.items ≡ []) }
    ensures keeps { OnOk result (KeepsEntered walk.old.starts.items walk.new.starts.items) }
    ensures entered { OnOk result (0 < slice_index walk.new.starts.items root) }
{
    enter(walk, root)?;
    while let Some(newest) = walk.path.pop() {
        step(graph, walk, newest)?;
    }
    Ok(())
}

/// Before any node is entered.
fn none_entered(alloc: Global, nodes: u32) -> Result<Entering, AllocError>
    ensures starts { IfOk result (λ w. w.starts.items ≡ replicate nodes 0) }
    ensures ranks { IfOk result (λ w. w.ranks.items ≡ replicate nodes 0) }
    ensures order { IfOk result (λ w. w.order.items ≡ []) }
    ensures path { IfOk result (λ w. w.path.items ≡ []) }
{
    Ok(Entering {
        starts: Vec::from_elem(alloc, 0, nodes as usize)?,
        ranks: Vec::from_elem(alloc, 0, nodes as usize)?,
        order: Vec::with_capacity(alloc, nodes as usize)?,
        path: Vec::new(alloc),
    })
}

/// Enters and leaves every node.
pub fn enter_all(alloc: Global, graph: &Graph) -> Result<Entering, AllocError>
    requires closed { IsClosed graph.now }
    requires few { length graph.now < 2 ^ 32 }
    ensures { IfOk result (λ w. HasLeft graph.now w) }
{
    let nodes = graph.nodes();
    let mut walk = none_entered(alloc, nodes)?;
    for root in 0..nodes {
        if walk.starts[root as usize] == 0 {
            enter_all_from(graph, &mut walk, root)?;
        }
    }
    Ok(walk)
}
