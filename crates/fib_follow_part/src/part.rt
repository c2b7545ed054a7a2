// The part of the entries to which changed ones lead.
ghost use Rattle.std.specs.Prelude.{◌≡◌, ◌<◌, ◌^◌, [], ℕ, List, true, length, map, IfOk, position};
ghost use Rattle.fib_addr.specs.Prefixes.{same_prefix};
ghost use Rattle.fib_loops.specs.Loops.{AreEdges};
ghost use Rattle.fib_reach.specs.Walks.{AllDiffer};
ghost use Rattle.fib_resolve.specs.Loops.{looped_kind};
ghost use Rattle.fib_resolve.specs.Pairs.{chosen};
ghost use Rattle.fib_resolve.specs.declared.types.Tables.{Tables as TablesValue};
ghost use Rattle.fib_entries_rows.specs.inner.Looping.{AreEdgesAmong};
ghost use Rattle.fib_entries_rows.specs.inner.Reaching.{kind_loops};
ghost use Rattle.fib_follow_view.specs.Views.{IsAfter};
ghost use Rattle.fib_follow_view.specs.inner.Told.{chosen_in, next_in};
ghost use Rattle.fib_follow_part.specs.Parts.{IsPart, in_part};
ghost use Rattle.fib_follow_part.specs.inner.Searched.{AreLeaving, AreNumbered, IsOrdered};

use crate::edges::{Ends, Leaving, edges_of, left_of, on_cycles};
use crate::numbers::numbers;
use crate::seen::{Seen, searched};
use fib_addr::Prefix;
use fib_entries_rows::dependants::Dependants;
use fib_follow_view::View;
use fib_loops::mark;
use fib_resolve::{Path, PathKind};
use std::alloc::{AllocError, Global};
use std::collections::HashSet;
use std::marker::Model;

/// The entries that a change made others, and what a cycle through one of them can have, before or after it: each once, with the edges among
/// them that lie on cycles afterwards, those that are left without looped paths, and those that leave the part. Contracts see these as lists;
/// `IsPart` says what they are.
pub struct Part {
    seen: Dependants,
    is_apart: bool,
    loops: Ends,
    left: Vec<(u32, u32)>,
    out: Vec<Leaving>,
    numbers: Vec<u32>,
}

// The prover follows what a drop does here, once, and not at every way out past an owner.
impl Drop for Part {
    fn drop(self) {
        let Part {
            seen: _,
            is_apart: _,
            loops: _,
            left: _,
            out: _,
            numbers: _,
        } = self;
    }
}

impl Model for Part {
    ghost use Rattle.fib_follow_part.specs.Parts.{Part as PartValue};

    ghost Value = { PartValue };

    ghost use Rattle.fib_follow_part.specs.inner.Searched.{AreNumbered};

    ghost view = { λ s. record { members = s.seen; is_apart = s.is_apart; loops = s.loops.keys; left = s.left.items; out = s.out.items; numbers = s.numbers.items } };

    ghost invariant = { λ s. AreNumbered s.seen s.numbers.items };
}

/// What is told of a part's own edges.
#[derive(Drop)]
struct Ordered {
    loops: Ends,
    left: Vec<(u32, u32)>,
    numbers: Vec<u32>,
}

fn kind_loops(loops: &Ends, e: Prefix, kind: PathKind) -> bool
    ensures { result ≡ kind_loops loops.now.keys e kind }
{
    match kind {
        PathKind::Recursive(a) => loops.contains(&(e, Prefix::host(a))),
        _ => false,
    }
}

fn loops_of(alloc: Global, loops: &Ends, e: Prefix, paths: &[Path]) -> Result<Vec<bool>, AllocError>
    ensures { IfOk result (λ v. v.items ≡ map (λ q. kind_loops loops.now.keys e q.kind) paths.now) }
{
    paths
        .iter()
        .map(|q| kind_loops(loops, e, q.kind))
        .collect(alloc)
}

/// The loops of the edges among these members, what is left without them, and numbers along those.
fn order_found(
    alloc: Global,
    members: &[Prefix],
    edges: &[(u32, u32)],
) -> Result<Ordered, AllocError>
    requires few { length members.now < 2 ^ 32 }
    requires edges { AreEdges (length members.now) edges.now }
    ensures { IfOk result (λ o. IsOrdered members.now edges.now o.loops.keys o.left.items o.numbers.items) }
{
    let nodes = members.len() as u32;
    let marks = mark(alloc, nodes, edges)?;
    let loops = on_cycles(alloc, members, edges, &marks)?;
    let left = left_of(alloc, members, edges, &loops)?;
    let numbers = numbers(alloc, nodes, edges, &marks, left.as_slice())?;
    Ok(Ordered {
        loops,
        left,
        numbers,
    })
}

/// The same, without a search where there is no edge.
fn order_of(alloc: Global, members: &[Prefix], edges: &[(u32, u32)]) -> Result<Ordered, AllocError>
    requires few { length members.now < 2 ^ 32 }
    requires edges { AreEdges (length members.now) edges.now }
    ensures { IfOk result (λ o. IsOrdered members.now edges.now o.loops.keys o.left.items o.numbers.items) }
{
    if edges.is_empty() {
        return Ok(Ordered {
            loops: HashSet::new(alloc),
            left: Vec::new(alloc),
            numbers: Vec::from_elem(alloc, 0u32, members.len())?,
        });
    }
    order_found(alloc, members, edges)
}

/// The part that a search has seen.
fn part_of(alloc: Global, view: &View<'_>, found: Seen) -> Result<Part, AllocError>
    requires { AllDiffer found.members }
    ensures members { IfOk result (λ p. p.members ≡ found.members) }
    ensures apart { IfOk result (λ p. p.is_apart ≡ found.is_apart) }
    ensures ordered { IfOk result (λ p. (edges : List (ℕ × ℕ)) × AreEdgesAmong (next_in view.now) found.members (length found.members) edges
        × IsOrdered found.members edges p.loops p.left p.numbers) }
    ensures out { IfOk result (λ p. AreLeaving (next_in view.now) found.members (length found.members) p.out) }
{
    let Seen {
        members: seen,
        is_apart,
    } = found;
    let Ok(_count) = u32::try_from(seen.as_slice().len()) else {
        return Err(AllocError);
    };
    let mut out = Vec::new(alloc);
    let edges = edges_of(alloc, view, &seen, &mut out)?;
    let Ordered {
        loops,
        left,
        numbers,
    } = order_of(alloc, seen.as_slice(), edges.as_slice())?;
    Ok(Part {
        seen,
        is_apart,
        loops,
        left,
        out,
        numbers,
    })
}

impl Part {
    /// The changed entries, and all to which those lead to which another entry leads: what else a changed entry leads to lies on no cycle with
    /// it. So it is small where nothing else leads to what changed. Edges may leave it.
    pub fn of(alloc: Global, view: &View<'_>) -> Result<Part, AllocError>
        ensures { IfOk result (λ p. (S T : TablesValue) → IsAfter view.now S T → IsPart view.now S T p) }
    {
        let found = searched(alloc, view, false)?;
        let part = part_of(alloc, view, found)?;
        Ok(part)
    }

    /// The changed entries, and all to which these lead: no edge leaves it.
    pub fn whole(alloc: Global, view: &View<'_>) -> Result<Part, AllocError>
        ensures part { IfOk result (λ p. (S T : TablesValue) → IsAfter view.now S T → IsPart view.now S T p) }
        ensures whole { IfOk result (λ p. p.out ≡ []) }
    {
        let found = searched(alloc, view, true)?;
        let part = part_of(alloc, view, found)?;
        Ok(part)
    }

    /// The prefixes of the part, each once.
    pub fn members(&self) -> &[Prefix]
        ensures { result.now ≡ self.now.members }
    {
        self.seen.as_slice()
    }

    /// Whether no entry beside them leads to one of them.
    pub fn is_apart(&self) -> bool
        ensures { result ≡ self.now.is_apart }
    {
        self.is_apart
    }

    /// Whether the prefix is one of them.
    pub fn has(&self, e: Prefix) -> bool
        ensures { result ≡ in_part self.now e }
    {
        self.seen.has(e)
    }

    /// The place of the prefix among them, or None where it isn't one.
    pub fn place(&self, e: Prefix) -> Option<usize>
        ensures { result ≡ position (same_prefix e) self.now.members }
    {
        self.seen.place(e)
    }

    /// The edges that are left without looped paths, by places among the members.
    pub fn left(&self) -> &[(u32, u32)]
        ensures { result.now ≡ self.now.left }
    {
        self.left.as_slice()
    }

    /// The edges that leave it, by the place where each begins and the entry to which it leads.
    pub fn out(&self) -> &[Leaving]
        ensures { result.now ≡ self.now.out }
    {
        self.out.as_slice()
    }

    /// For each member a number that falls along the edges that are left.
    pub fn numbers(&self) -> &[u32]
        ensures numbers { result.now ≡ self.now.numbers }
        ensures numbered { AreNumbered self.now.members self.now.numbers }
    {
        self.numbers.as_slice()
    }

    /// For each path of a member's chosen list, whether it is looped after the change.
    pub fn looped(&self, alloc: Global, view: &View<'_>, e: Prefix) -> Result<Vec<bool>, AllocError>
        ensures value { IfOk result (λ v. v.items ≡ map (λ q. kind_loops self.now.loops e q.kind) (chosen_in view.now e)) }
        ensures after { IfOk result (λ v. (S T : TablesValue) → IsAfter view.now S T → IsPart view.now S T self.now
            → in_part self.now e ≡ true → v.items ≡ map (λ q. looped_kind T e q.kind) (chosen T e)) }
    {
        loops_of(alloc, &self.loops, e, view.chosen(e))
    }
}
