// The union of current and retired edges, with the room that it needs.
ghost use Rattle.std.specs.Prelude.{◌≡◌, ℕ, ◌+◌, ◌*◌, ◌-◌, ◌<◌, ◌≤◌, ◌^◌, ◌↔◌, ◌++◌, ◌∷◌, [], Bool, true, false, length, map, take, drop};
ghost use Rattle.std.specs.Prelude.{slice_index, slice_set, IfOk, IfNone, OnOk, OnErr, IsTrue, Some, None, option_to_list, Contains};
ghost use Rattle.std.specs.Prelude.{vec_capacity, count_by, eqb, ltb, ◌||◌};
ghost use Rattle.std.specs.List.{All};
ghost use Rattle.std.specs.Bool.{OnTrue, OnFalse};
ghost use Rattle.fib_reach.specs.Walks.{Leads, Reaches, IsAcyclic, HasCycle, Plus};
ghost use Rattle.fib_union.specs.Unions.{owner, edge_at, one, into, Edge, HasEdge, HasIn, must_retire, stored, left_at_once, scanned};
ghost use Rattle.fib_union.specs.Unions.{gone_to, scan_from, gone_from, no_edges, unmarked};
ghost use Rattle.fib_union.specs.declared.retired.RetiredEdge.{RetiredEdge as Copies};
ghost use Rattle.fib_union.specs.inner.Fields.{ins_of, plain, IsGrown, Runs, IsLinked, StartsBelow};

use crate::newest::Newest;
use crate::retired::{Progress, RetiredEdge};
use crate::{links, reach, steps};
use fib_reach::Search;
use std::alloc::{AllocError, Global};
use std::marker::Model;

/// The current edges between numbered objects of sixteen cells each, and copies of those that were replaced, each until it is passed for
/// every worker. No call but `new` and `reserve` takes memory.
pub struct Union {
    /// Where the edge of each cell leads.
    edges: Vec<Option<u32>>,
    /// How many edges lead to each object, copies counted.
    ins: Vec<u64>,
    /// The copies, oldest first.
    retired: Vec<RetiredEdge>,
    newest: Newest,
    /// For each worker, up to which of the copies its looks have come.
    progress: Vec<Progress>,
    /// Where copies led that have left, and that no call has answered yet.
    left: Vec<u32>,
    search: Search,
}

// The prover follows what a drop does here, once, and not at every way out past an owner.
impl Drop for Union {
    fn drop(self) {
        let Union {
            edges: _,
            ins: _,
            retired: _,
            newest: _,
            progress: _,
            left: _,
            search: _,
        } = self;
    }
}

impl Model for Union {
    ghost use Rattle.std.specs.Prelude.{length, map, vec_capacity, ◌≡◌};
    ghost use Rattle.fib_union.specs.Unions.{Kept};
    ghost use Rattle.fib_union.specs.inner.Fields.{IsKept, union_of, plain, spare_of};

    ghost Value = { Kept };

    ghost view = { λ u. record {
      union = union_of u.edges.items
          (map plain u.retired.items) u.progress.items;
      workers = length u.progress.items;
      left = u.left.items;
      spare = spare_of
          (vec_capacity u.retired) (length u.retired.items) (vec_capacity u.left) (length u.left.items);
    } };

    ghost invariant = { λ u. IsKept (length u.ins.items) u.edges.items u.ins.items u.retired.items u.newest u.progress.items
        u.left.items (vec_capacity u.left) × (u.search.nodes ≡ length u.ins.items) };
}

/// Whether the edge that a cell of this object holds is to be retired when it is replaced.
fn retires(ins: &Vec<u64>, from: u32) -> bool
    requires { from < length ins.now.items }
    ensures { result ≡ (eqb from 0 || ltb 0 (slice_index ins.now.items from)) }
{
    from == 0 || ins[from as usize] > 0
}

/// Puts an edge, or none, into a cell, and counts it. Answers what was there, which is counted still.
fn put_edge(
    edges: &mut Vec<Option<u32>>,
    ins: &mut Vec<u64>,
    cell: usize,
    to: Option<u32>,
) -> Option<u32>
    requires cell { cell < length edges.old.items }
    requires to { (y : ℕ) → to ≡ Some y → y < length ins.old.items }
    requires few { (o : ℕ) → slice_index ins.old.items o < 2 ^ 63 }
    ensures edges { edges.new.items ≡ slice_set edges.old.items cell to }
    ensures replaced { result ≡ edge_at edges.old.items cell }
    ensures ins { (o : ℕ) → o < length ins.old.items → slice_index ins.new.items o ≡ slice_index ins.old.items o + one o to }
    ensures len { length ins.new.items ≡ length ins.old.items }
{
    let replaced = edges[cell];
    edges[cell] = to;
    if let Some(target) = to {
        ins[target as usize] += 1;
    }
    replaced
}

/// One edge to this object less.
fn take_in(ins: &mut [u64], target: u32)
    requires target { target < length ins.old }
    requires some { 0 < slice_index ins.old target }
    ensures ins { (o : ℕ) → slice_index ins.new o + one o (Some target) ≡ slice_index ins.old o }
    ensures len { length ins.new ≡ length ins.old }
{
    ins[target as usize] -= 1;
}

/// One edge to this object less.
fn uncount(ins: &mut Vec<u64>, target: u32)
    requires target { target < length ins.old.items }
    requires some { 0 < slice_index ins.old.items target }
    ensures ins { (o : ℕ) → slice_index ins.new.items o + one o (Some target) ≡ slice_index ins.old.items o }
    ensures len { length ins.new.items ≡ length ins.old.items }
{
    ins[target as usize] -= 1;
}

/// These copies left: they are counted no more, and where they led is kept.
fn give_up(gone: &[RetiredEdge], ins: &mut [u64], left: &mut Vec<u32>)
    requires room { length left.old.items + length gone.now ≤ vec_capacity left.old }
    requires targets { All (λ (r : Copies). r.to < length ins.old) gone.now }
    requires counted { (o : ℕ) → count_by (λ (r : Copies). eqb r.to o) gone.now ≤ slice_index ins.old o }
    ensures ins { (o : ℕ) → slice_index ins.new o + count_by (λ (r : Copies). eqb r.to o) gone.now ≡ slice_index ins.old o }
    ensures len { length ins.new ≡ length ins.old }
    ensures left { left.new.items ≡ left.old.items ++ map (λ (r : Copies). r.to) gone.now }
    ensures capacity { vec_capacity left.old ≤ vec_capacity left.new }
{
    for old in gone {
        take_in(ins, old.to);
        if left.push(old.to).is_err() {
            unreachable!();
        }
    }
}

/// The oldest copies leave.
fn drop_oldest(
    retired: &mut Vec<RetiredEdge>,
    newest: &mut Newest,
    ins: &mut [u64],
    left: &mut Vec<u32>,
    gone: usize,
)
    requires gone { gone ≤ length retired.old.items }
    requires linked { IsLinked (length newest.old) newest.old retired.old.items }
    requires targets { All (λ (c : ℕ × ℕ). c.1 < length ins.old) (map plain retired.old.items) }
    requires counted { (o : ℕ) → count_by (λ (c : ℕ × ℕ). eqb c.1 o) (map plain retired.old.items) ≤ slice_index ins.old o }
    requires few { length retired.old.items < 2 ^ 32 }
    requires room { length left.old.items + length retired.old.items ≤ vec_capacity left.old }
    ensures retired { map plain retired.new.items ≡ drop gone (map plain retired.old.items) }
    ensures linked { IsLinked (length newest.old) newest.new retired.new.items }
    ensures ins { (o : ℕ) → slice_index ins.new o + count_by (λ (c : ℕ × ℕ). eqb c.1 o) (take gone (map plain retired.old.items))
        ≡ slice_index ins.old o }
    ensures len { length ins.new ≡ length ins.old }
    ensures left { left.new.items ≡ left.old.items ++ map (λ (c : ℕ × ℕ). c.1) (take gone (map plain retired.old.items)) }
    ensures capacity { vec_capacity retired.old ≤ vec_capacity retired.new }
    ensures room { vec_capacity left.old ≤ vec_capacity left.new }
{
    if gone == 0 {
        return;
    }
    give_up(&retired[..gone], ins, left);
    newest.leave(gone as u32);
    retired.rotate_left(gone);
    let stay = retired.len() - gone;
    retired.truncate(stay);
}

impl Union {
    /// No edge between this many objects, with a mark for each of this many workers to come. Takes all the memory that its calls need, but
    /// for room to retire edges.
    pub fn new(alloc: Global, objects: u32, workers: u32) -> Result<Union, AllocError>
        requires { 0 < objects }
        ensures union { IfOk result (λ u. u.union ≡ no_edges objects) }
        ensures workers { IfOk result (λ u. u.workers ≡ workers) }
        ensures left { IfOk result (λ u. u.left ≡ []) }
    {
        Ok(Union {
            edges: Vec::from_elem(alloc, None, 16 * objects as usize)?,
            ins: Vec::from_elem(alloc, 0, objects as usize)?,
            retired: Vec::new(alloc),
            newest: Newest::new(alloc, objects)?,
            progress: Vec::from_elem(
                alloc,
                Progress {
                    passed: 0,
                    met: 0,
                    word: 0,
                },
                workers as usize,
            )?,
            left: Vec::new(alloc),
            search: Search::new(alloc, objects)?,
        })
    }

    /// How many edges it has room to retire.
    pub fn spare(&self) -> u32
        ensures { result ≡ self.now.spare }
    {
        let room = self.retired.capacity() - self.retired.len();
        let kept = self.left.len() + self.retired.len();
        let room_left = self.left.capacity().saturating_sub(kept);
        let most = u32::MAX as usize - self.retired.len();
        room.min(room_left).min(most) as u32
    }

    /// How many copies are kept.
    pub fn retired(&self) -> u32
        ensures { result ≡ length self.now.union.retired }
    {
        self.retired.len() as u32
    }

    /// Whether some edge leads to the object, current or retired.
    pub fn has_in(&self, object: u32) -> bool
        requires { 16 * object < length self.now.union.edges }
        ensures { IsTrue result ↔ HasIn self.now.union object }
    {
        self.ins[object as usize] > 0
    }

    /// Whether a current edge leads from the one object to the other: in a union without a cycle, another such edge closes none. Looks at 16
    /// cells.
    pub fn has_edge(&self, from: u32, to: u32) -> bool
        requires { 16 * from < length self.now.union.edges }
        ensures { IsTrue result ↔ HasEdge self.now.union from to }
    {
        reach::holds(self.edges.as_slice(), from, to)
    }

    /// Whether the edge would close a cycle among current and retired edges.
    ///
    /// Costs nothing where no edge leads to its object, and else what is reachable from its target: 16 cells an object, and its retired
    /// edges.
    pub fn would_cycle(&mut self, from: u32, to: u32) -> bool
        requires from_in { 16 * from < length self.old.union.edges }
        requires to_in { 16 * to < length self.old.union.edges }
        ensures unchanged { self.new ≡ self.old }
        ensures leads { IsTrue result ↔ Leads (Edge self.old.union) to from }
        ensures cycle { IsAcyclic (Edge self.old.union) → IsTrue result ↔ HasCycle (Plus (Edge self.old.union) from to) }
    {
        self.leads(to, from)
    }

    /// Whether a walk of edges leads from the first object to the second.
    fn leads(&mut self, to: u32, from: u32) -> bool
        requires from_in { 16 * from < length self.old.union.edges }
        requires to_in { 16 * to < length self.old.union.edges }
        ensures unchanged { self.new ≡ self.old }
        ensures leads { IsTrue result ↔ Leads (Edge self.old.union) to from }
    {
        if from == to {
            return true;
        }
        if self.ins[from as usize] == 0 {
            return false;
        }
        reach::reaches(
            self.edges.as_slice(),
            self.retired.as_slice(),
            &self.newest,
            &mut self.search,
            to,
            from,
        )
    }

    /// Makes room to retire this many edges. After want of memory the edges, the copies and what `left` will answer are as before.
    pub fn reserve(&mut self, edges: u32) -> Result<(), AllocError>
        ensures union { self.new.union ≡ self.old.union }
        ensures workers { self.new.workers ≡ self.old.workers }
        ensures left { self.new.left ≡ self.old.left }
        ensures spare { self.old.spare ≤ self.new.spare }
        ensures room { OnOk result (edges ≤ self.new.spare) }
    {
        let most = u32::MAX as usize - self.retired.len();
        if edges as usize > most {
            return Err(AllocError);
        }
        self.retired.reserve(edges as usize)?;
        self.left.reserve(self.retired.len() + edges as usize)?;
        Ok(())
    }

    /// Puts an edge into a cell, or none. The edge that was there is retired where its object is object 0 or has an edge into it, and else
    /// leaves at once: then where it led is answered. None exactly where no edge left at once.
    pub fn set(&mut self, from: u32, slot: u32, to: Option<u32>) -> Option<u32>
        requires from_in { 16 * from < length self.old.union.edges }
        requires slot_in { slot < 16 }
        requires to_in { (y : ℕ) → to ≡ Some y → 16 * y < length self.old.union.edges }
        requires room { (y : ℕ) → edge_at self.old.union.edges (16 * from + slot) ≡ Some y
            → must_retire self.old.union (16 * from + slot) ≡ true → 0 < self.old.spare }
        ensures union { self.new.union ≡ stored self.old.workers self.old.union (16 * from + slot) to }
        ensures left_at_once { result ≡ left_at_once self.old.union (16 * from + slot) }
        ensures workers { self.new.workers ≡ self.old.workers }
        ensures left { self.new.left ≡ self.old.left }
        ensures short { length self.new.union.retired < 2 ^ 32 }
        ensures spare { self.old.spare ≤ self.new.spare + 1 }
        ensures spared { must_retire self.old.union (16 * from + slot) ≡ false → self.old.spare ≤ self.new.spare }
    {
        let cell = 16 * from as usize + slot as usize;
        let retired = retires(&self.ins, from);
        let replaced = put_edge(&mut self.edges, &mut self.ins, cell, to);
        let target = match replaced {
            None => return None,
            Some(target) => target,
        };
        if retired {
            links::retire(&mut self.retired, &mut self.newest, cell as u64, target);
            return None;
        }
        uncount(&mut self.ins, target);
        Some(target)
    }

    /// A look at one worker's pass word: it marks the copies, and those that are then passed for all workers leave, oldest first.
    ///
    /// Costs the number of workers, and where copies leave, their number; the others move up, unread.
    pub fn look(&mut self, worker: usize, word: u64)
        requires { worker < self.old.workers }
        ensures union { self.new.union ≡ scanned worker word self.old.union }
        ensures left { self.new.left ≡ self.old.left ++ gone_to worker word self.old.union }
        ensures oldest_leave { (n : ℕ) × (map unmarked self.new.union.retired ≡ take n (map unmarked self.old.union.retired)) }
        ensures workers { self.new.workers ≡ self.old.workers }
        ensures spare { self.old.spare ≤ self.new.spare }
    {
        let count = self.retired.len() as u32;
        let progress = self.progress[worker];
        self.progress[worker] = steps::look_on(progress, word, count);
        let gone = steps::least(self.progress.as_slice(), count);
        drop_oldest(
            &mut self.retired,
            &mut self.newest,
            &mut self.ins,
            &mut self.left,
            gone as usize,
        );
        steps::recede(&mut self.progress, gone);
    }

    /// Looks at the words of all workers. Answers how many copies are left.
    pub fn scan(&mut self, words: &[u64]) -> u32
        requires { length words.now ≡ self.old.workers }
        ensures union { self.new.union ≡ scan_from 0 words.now self.old.union }
        ensures edges { self.new.union.edges ≡ self.old.union.edges }
        ensures left { self.new.left ≡ self.old.left ++ gone_from 0 words.now self.old.union }
        ensures retired { result ≡ length self.new.union.retired }
        ensures workers { self.new.workers ≡ self.old.workers }
        ensures spare { self.old.spare ≤ self.new.spare }
    {
        let mut worker = 0;
        while worker < words.len() {
            self.look(worker, words[worker]);
            worker += 1;
        }
        self.retired()
    }

    /// Where an edge led that a look dropped: each such edge once. None exactly where all are answered.
    pub fn left(&mut self) -> Option<u32>
        ensures union { self.new.union ≡ self.old.union }
        ensures workers { self.new.workers ≡ self.old.workers }
        ensures left { self.old.left ≡ self.new.left ++ option_to_list result }
        ensures none { IfNone result (self.old.left ≡ []) }
        ensures spare { self.old.spare ≤ self.new.spare }
    {
        self.left.pop()
    }
}
