// Results judged by the plain programs over the tables of all versions.
ghost use Rattle.fib_resolve.specs.Tables.{IsSound};

use fib_addr::{Addr, Prefix};
use fib_base_list::Duplicate;
use fib_core::{Record, Version};
use fib_resolve::{End, PathKind, Tables};
use std::alloc::Global;
use std::marker::Model;
use test_plain::Snapshot;

// The tables of a version.
#[derive(Drop)]
pub struct Kept {
    tables: Tables,
}

impl Model for Kept {
    ghost use Rattle.fib_resolve.specs.declared.types.Tables.{Tables as TablesValue};

    ghost Value = { TablesValue };

    ghost use Rattle.fib_resolve.specs.Tables.{IsSound};

    ghost view = { λ k. k.tables };

    ghost invariant = { λ k. IsSound k.tables };
}

impl Kept {
    // A copy of the tables. None where there is no memory.
    pub fn copied(alloc: Global, tables: &Tables) -> Option<Kept>
        requires { IsSound tables.now }
    {
        let tables = tables.duplicate(alloc).ok()?;
        Some(Kept { tables })
    }

    // All that they mean.
    fn snapshot(&self, alloc: Global) -> Option<Snapshot<'_>> {
        Snapshot::new(alloc, &self.tables).ok()
    }
}

// All that a version's tables mean, and the ends that are possible in it.
#[derive(Drop)]
pub struct Meaning<'a> {
    snapshot: Snapshot<'a>,
    ends: Vec<End>,
}

// Of each version of a history.
pub fn meanings<'a>(alloc: Global, history: &'a [Kept]) -> Option<Vec<Meaning<'a>>> {
    let mut all = Vec::new(alloc);
    for kept in history {
        let snapshot = kept.snapshot(alloc)?;
        let ends = snapshot.ends(alloc).ok()?;
        all.push(Meaning { snapshot, ends }).ok()?;
    }
    Some(all)
}

// The entries on a packet's way with the kinds of path that are taken there, and its end.
#[derive(Drop)]
struct Trip {
    steps: Vec<(Prefix, PathKind)>,
    end: End,
}

impl Trip {
    fn is(&self, other: &Trip) -> bool {
        self.end == other.end && self.steps.as_slice() == other.steps.as_slice()
    }
}

// Where a path of an entry leads: to an end, or to an entry.
enum Lead {
    End(End),
    Entry(Prefix),
}

fn lead_of(view: &Snapshot<'_>, entry: Prefix, kind: &PathKind) -> Lead {
    match *kind {
        PathKind::Drop => Lead::End(End::Drop),
        PathKind::Local => Lead::End(End::Receive),
        PathKind::Attached(interface) => Lead::End(view.meaning().attached_end(entry, interface)),
        PathKind::Hop {
            next_hop,
            interface,
        } => Lead::End(view.meaning().hop_end(interface, next_hop)),
        PathKind::Recursive(hop) => Lead::Entry(Prefix::host(hop)),
        PathKind::Cover => Lead::Entry(view.cover(entry.bits())),
    }
}

// The kind of path that is taken at an entry; one without wanted paths drops. None where there is no memory.
fn taken(alloc: Global, view: &Snapshot<'_>, entry: Prefix, hash: u32) -> Option<PathKind> {
    let wanted = view.wanted(alloc, entry).ok()?;
    match wanted.get(hash as usize % 16) {
        Some(path) => Some(path.kind),
        None => Some(PathKind::Drop),
    }
}

// One entry of a packet's way: its end there, or none, and then the entry is the next one. None where there is no memory.
fn step(
    alloc: Global,
    view: &Snapshot<'_>,
    entry: &mut Prefix,
    hash: u32,
    steps: &mut Vec<(Prefix, PathKind)>,
) -> Option<Option<End>> {
    let here = *entry;
    let kind = taken(alloc, view, here, hash)?;
    steps.push((here, kind)).ok()?;
    match lead_of(view, here, &kind) {
        Lead::End(end) => Some(Some(end)),
        Lead::Entry(on) => {
            *entry = on;
            Some(None)
        }
    }
}

// The way of a packet; each further entry takes half the hash. None where it has more than 64 entries, or there is no memory.
fn way(alloc: Global, view: &Snapshot<'_>, addr: Addr, hash: u32) -> Option<Trip> {
    let mut steps = Vec::new(alloc);
    let mut entry = view.best(addr);
    let mut left = hash;
    for _ in 0..64 {
        if let Some(end) = step(alloc, view, &mut entry, left, &mut steps)? {
            return Some(Trip { steps, end });
        }
        left /= 2;
    }
    None
}

// No number is smaller than the other version's.
fn is_at_least(low: &Version, high: &Version) -> bool {
    low.settled <= high.settled && low.applied <= high.applied
}

// The window is one of so many versions.
fn is_window(r: &Record, versions: usize) -> bool {
    r.lo.settled <= r.lo.applied
        && r.hi.settled <= r.hi.applied
        && is_at_least(&r.lo, &r.hi)
        && (r.hi.applied as usize) < versions
}

// The pass saw one settled version alone.
fn is_quiet(r: &Record) -> bool {
    r.lo == r.hi && r.lo.settled == r.lo.applied
}

// Whether the end is possible in that version.
fn is_end_in(versions: &[Meaning<'_>], version: usize, end: End) -> bool {
    match versions.get(version) {
        Some(meaning) => meaning.ends.contains(&end),
        None => false,
    }
}

// Whether the end is possible in one of the versions that the pass spanned.
fn is_spanned(versions: &[Meaning<'_>], r: &Record) -> bool {
    for version in r.lo.settled as usize..r.hi.applied as usize + 1 {
        if is_end_in(versions, version, r.end) {
            return true;
        }
    }
    false
}

// Where the packet ends by resolution over that version's tables. None where there is no memory.
fn end_in(alloc: Global, versions: &[Meaning<'_>], version: usize, r: &Record) -> Option<End> {
    let meaning = versions.get(version)?;
    meaning.snapshot.resolve(alloc, r.addr, r.hash).ok()
}

// A quiet pass ends as resolution says; another drops, or has an end of a version that it spanned. None where there is no memory.
fn is_right(alloc: Global, versions: &[Meaning<'_>], r: &Record) -> Option<bool> {
    if !is_window(r, versions.len()) {
        return Some(false);
    }
    if is_quiet(r) {
        let end = end_in(alloc, versions, r.lo.settled as usize, r)?;
        return Some(r.end == end);
    }
    Some(r.end == End::Drop || is_spanned(versions, r))
}

// The packet's way over that version's tables. None where there is no memory.
fn way_in(alloc: Global, versions: &[Meaning<'_>], version: usize, r: &Record) -> Option<Trip> {
    let meaning = versions.get(version)?;
    way(alloc, &meaning.snapshot, r.addr, r.hash)
}

// Where the way is one in all versions that the pass spanned, its end is that way's. None where there is no memory.
fn is_steady(alloc: Global, versions: &[Meaning<'_>], r: &Record) -> Option<bool> {
    let first = way_in(alloc, versions, r.lo.settled as usize, r)?;
    for version in r.lo.settled as usize + 1..r.hi.applied as usize + 1 {
        let trip = way_in(alloc, versions, version, r)?;
        if !trip.is(&first) {
            return Some(true);
        }
    }
    Some(r.end == first.end)
}

// What judging finds.
#[derive(Clone, Copy, Debug, PartialEq, Eq)]
pub struct Verdict {
    // The results that are right and steady.
    pub good: u32,
    pub wrong: u32,
    // The results whose pass saw a change under way.
    pub beneath: u32,
}

// Whether a result is right and steady. None where there is no memory.
fn is_good(alloc: Global, versions: &[Meaning<'_>], r: &Record) -> Option<bool> {
    let right = is_right(alloc, versions, r)?;
    let steady = is_steady(alloc, versions, r)?;
    Some(right && steady)
}

impl Verdict {
    // One result more.
    fn add(&mut self, good: bool, quiet: bool) {
        if good {
            self.good = self.good.wrapping_add(1);
        } else {
            self.wrong = self.wrong.wrapping_add(1);
        }
        if !quiet {
            self.beneath = self.beneath.wrapping_add(1);
        }
    }
}

// Judges each of these results. False where there is no memory.
pub fn judge(
    alloc: Global,
    versions: &[Meaning<'_>],
    results: &[Record],
    verdict: &mut Verdict,
) -> bool {
    for r in results {
        match is_good(alloc, versions, r) {
            Some(good) => verdict.add(good, is_quiet(r)),
            None => return false,
        }
    }
    true
}
