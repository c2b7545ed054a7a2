// What the versions that a pass spans say of its packet, as the plain programs have it.
ghost use Rattle.fib_resolve.specs.Tables.{IsSound};

use crate::compared::Part;
use fib_addr::{Addr, Prefix};
use fib_core::{Record, Version};
use fib_resolve::{End, PathKind, Tables};
use std::alloc::{AllocError, Global};
use test_plain::Snapshot;

// The way of a packet: the entries that it passes with the kinds of path that are taken there, and its end.
#[derive(Drop)]
struct Way {
    steps: Vec<(Prefix, PathKind)>,
    end: End,
}

// The entry at which a path of that kind goes on.
fn next_of(snapshot: &Snapshot<'_>, e: Prefix, kind: &PathKind) -> Option<Prefix> {
    match kind {
        PathKind::Recursive(a) => Some(Prefix::host(*a)),
        PathKind::Cover => Some(snapshot.cover(e.bits())),
        _ => None,
    }
}

// The kind of path that is taken at an entry; Drop where none is wanted.
fn taken(
    alloc: Global,
    snapshot: &Snapshot<'_>,
    e: Prefix,
    hash: u32,
) -> Result<PathKind, AllocError> {
    let wanted = snapshot.wanted(alloc, e)?;
    match wanted.as_slice().get((hash % 16) as usize) {
        Some(path) => Ok(path.kind),
        None => Ok(PathKind::Drop),
    }
}

// Notes what is taken at an entry. Where the packet goes on; None where it ends.
fn step(
    alloc: Global,
    snapshot: &Snapshot<'_>,
    steps: &mut Vec<(Prefix, PathKind)>,
    e: Prefix,
    hash: u32,
) -> Result<Option<Prefix>, AllocError> {
    let kind = taken(alloc, snapshot, e, hash)?;
    let next = next_of(snapshot, e, &kind);
    steps.push((e, kind))?;
    Ok(next)
}

fn steps_of(
    alloc: Global,
    snapshot: &Snapshot<'_>,
    addr: Addr,
    hash: u32,
) -> Result<Vec<(Prefix, PathKind)>, AllocError> {
    let mut steps = Vec::new(alloc);
    let mut e = snapshot.best(addr);
    let mut left = hash;
    for _entry in 0..snapshot.entries().len() {
        match step(alloc, snapshot, &mut steps, e, left)? {
            Some(next) => e = next,
            None => return Ok(steps),
        }
        left /= 2;
    }
    Ok(steps)
}

fn way_of(
    alloc: Global,
    snapshot: &Snapshot<'_>,
    addr: Addr,
    hash: u32,
) -> Result<Way, AllocError> {
    let steps = steps_of(alloc, snapshot, addr, hash)?;
    let end = snapshot.resolve(alloc, addr, hash)?;
    Ok(Way { steps, end })
}

// The packet of a pass, and what the versions since its beginning say.
#[derive(Drop)]
pub struct Watch {
    addr: Addr,
    hash: u32,
    // How many versions came after the first.
    later: u32,
    first: Way,
    // Whether all have the first one's way.
    alike: bool,
    // The ends of all.
    ends: Vec<End>,
}

impl Watch {
    // From a version that means this on.
    fn of(
        alloc: Global,
        snapshot: &Snapshot<'_>,
        addr: Addr,
        hash: u32,
    ) -> Result<Watch, AllocError> {
        Ok(Watch {
            addr,
            hash,
            later: 0,
            first: way_of(alloc, snapshot, addr, hash)?,
            alike: true,
            ends: snapshot.ends(alloc)?,
        })
    }

    // From a version with these tables on.
    pub fn new(alloc: Global, tables: &Tables, addr: Addr, hash: u32) -> Result<Watch, AllocError>
        requires { IsSound tables.now }
    {
        let snapshot = Snapshot::new(alloc, tables)?;
        Watch::of(alloc, &snapshot, addr, hash)
    }

    // Whether the packet goes that way in the first version.
    fn goes_alike(&self, way: &Way) -> bool {
        way.end == self.first.end && way.steps.as_slice() == self.first.steps.as_slice()
    }

    // A version more, which means this.
    fn see_in(&mut self, alloc: Global, snapshot: &Snapshot<'_>) -> Result<(), AllocError> {
        let way = way_of(alloc, snapshot, self.addr, self.hash)?;
        self.alike = self.alike && self.goes_alike(&way);
        self.later = self.later.saturating_add(1);
        let ends = snapshot.ends(alloc)?;
        self.ends.extend_from_slice(ends.as_slice())
    }

    // A version more.
    pub fn see(&mut self, alloc: Global, tables: &Tables) -> Result<(), AllocError>
        requires { IsSound tables.now }
    {
        let snapshot = Snapshot::new(alloc, tables)?;
        self.see_in(alloc, &snapshot)
    }

    // Whether the window is from the first version, which was settled, to the last.
    fn has_window(&self, record: &Record) -> bool {
        let lo = record.lo;
        lo == Version::settled_at(lo.settled)
            && record.hi.settled == lo.settled
            && record.hi.applied.checked_sub(lo.settled) == Some(self.later)
    }

    // Whether the end is one of the versions'.
    fn is_right(&self, end: &End) -> bool {
        *end == End::Drop || self.ends.contains(end)
    }

    // What of a pass's answer is other than these versions say.
    pub fn difference(&self, record: &Record) -> Option<Part> {
        if !self.has_window(record) {
            return Some(Part::Window);
        }
        if !self.is_right(&record.end) {
            return Some(Part::Right);
        }
        if self.alike && record.end != self.first.end {
            return Some(Part::Steady);
        }
        None
    }
}
