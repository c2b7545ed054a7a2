// Searches over numbered nodes, one after another, over room that stands ready.
ghost use Rattle.std.specs.Prelude.{◌≡◌, ℕ, ◌+◌, ◌<◌, ◌≤◌, [], ◌∷◌, length, IfOk, IfSome, IfNone, Contains, slice_index, vec_capacity};
ghost use Rattle.fib_reach.specs.Seen.{IsNext, GrowsBy};
ghost use Rattle.fib_reach.specs.inner.Visits.{IsVisit};

use std::alloc::{AllocError, Global};
use std::marker::Model;

/// What a search over the nodes 0 to n - 1 has seen, and of how many of these it has taken the edges, with the room for all nodes.
///
/// The caller knows the edges: it begins at a node, and for each `next` node notes where the edges of it lead. No call but `new` takes
/// memory. What a search saw bears its number, so nothing is cleared between two searches (but once in 2^64 of them).
pub struct Search {
    marks: Vec<u64>,
    visit: u64,
    seen: Vec<u32>,
    done: usize,
}

// The prover follows what a drop does here, once, and not at every way out past an owner.
impl Drop for Search {
    fn drop(self) {
        let Search {
            marks: _,
            visit: _,
            seen: _,
            done: _,
        } = self;
    }
}

impl Model for Search {
    ghost use Rattle.std.specs.Prelude.{length, vec_capacity};
    ghost use Rattle.fib_reach.specs.Seen.{Seen};
    ghost use Rattle.fib_reach.specs.inner.Visits.{IsSearch};

    ghost Value = { Seen };

    ghost view = { λ s. record { nodes = length s.marks.items; seen = s.seen.items; done = s.done } };

    ghost invariant = { λ s. IsSearch (length s.marks.items) (vec_capacity s.seen) s.marks.items s.visit s.seen.items s.done };
}

/// A number for a search that no mark has.
///
/// The numbers go up; after the last of them all marks are cleared and they begin again.
fn next_visit(marks: &mut [u64], visit: u64) -> u64
    requires { (k : ℕ) → slice_index marks.old k ≤ visit }
    ensures len { length marks.new ≡ length marks.old }
    ensures fresh { (k : ℕ) → slice_index marks.new k < result }
{
    if visit == u64::MAX {
        marks.fill(0);
        return 1;
    }
    visit + 1
}

/// Marks the node as seen, where it isn't yet.
fn note(marks: &mut [u64], seen: &mut Vec<u32>, visit: u64, node: u32)
    requires node { node < length marks.old }
    requires visit { IsVisit (length marks.old) (vec_capacity seen.old) marks.old visit seen.old.items }
    ensures visit { IsVisit (length marks.old) (vec_capacity seen.new) marks.new visit seen.new.items }
    ensures grown { GrowsBy seen.old.items node seen.new.items }
    ensures has { Contains seen.new.items node }
{
    if marks[node as usize] == visit {
        return;
    }
    marks[node as usize] = visit;
    if seen.push(node).is_err() {
        unreachable!();
    }
}

/// Begins a search at this node, and answers its number.
fn start(marks: &mut [u64], seen: &mut Vec<u32>, visit: u64, node: u32) -> u64
    requires node { node < length marks.old }
    requires passed { (k : ℕ) → slice_index marks.old k ≤ visit }
    requires room { length marks.old ≤ vec_capacity seen.old }
    ensures visit { IsVisit (length marks.old) (vec_capacity seen.new) marks.new result seen.new.items }
    ensures seen { seen.new.items ≡ node ∷ [] }
{
    let visit = next_visit(marks, visit);
    seen.clear();
    note(marks, seen, visit, node);
    visit
}

impl Search {
    /// Room for the searches over this many nodes. Nothing is seen.
    pub fn new(alloc: Global, nodes: u32) -> Result<Search, AllocError>
        ensures nodes { IfOk result (λ s. s.nodes ≡ nodes) }
        ensures seen { IfOk result (λ s. s.seen ≡ []) }
        ensures done { IfOk result (λ s. s.done ≡ 0) }
    {
        Ok(Search {
            marks: Vec::from_elem(alloc, 0, nodes as usize)?,
            visit: 1,
            seen: Vec::with_capacity(alloc, nodes as usize)?,
            done: 0,
        })
    }

    /// Begins at this node: it alone is seen, and none is done.
    pub fn begin(&mut self, node: u32)
        requires { node < self.old.nodes }
        ensures nodes { self.new.nodes ≡ self.old.nodes }
        ensures seen { self.new.seen ≡ node ∷ [] }
        ensures done { self.new.done ≡ 0 }
    {
        self.visit = start(&mut self.marks, &mut self.seen, self.visit, node);
        self.done = 0;
    }

    /// The node is seen, and stands last where it wasn't before.
    pub fn note(&mut self, node: u32)
        requires { node < self.old.nodes }
        ensures nodes { self.new.nodes ≡ self.old.nodes }
        ensures grown { GrowsBy self.old.seen node self.new.seen }
        ensures has { Contains self.new.seen node }
        ensures done { self.new.done ≡ self.old.done }
    {
        note(&mut self.marks, &mut self.seen, self.visit, node);
    }

    /// The first node that is seen and not done, which is done then. None exactly where each node that is seen is done.
    pub fn next(&mut self) -> Option<u32>
        ensures nodes { self.new.nodes ≡ self.old.nodes }
        ensures seen { self.new.seen ≡ self.old.seen }
        ensures next { IfSome result (λ node. IsNext self.old self.new node) }
        ensures none { IfNone result ((length self.old.seen ≤ self.old.done) × (self.new.done ≡ self.old.done)) }
    {
        if self.done < self.seen.len() {
            let node = self.seen[self.done];
            self.done += 1;
            return Some(node);
        }
        None
    }
}
