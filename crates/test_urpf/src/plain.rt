// The definition, round by round.
use crate::rig::Rig;
use fib_addr::{Addr, Prefix};
use fib_entries::Entries;
use fib_resolve::{Aim, End, Marked};
use std::alloc::{AllocError, Global};

// Whether the entries that lead over the interface so far are told to have this one.
fn is_told(told: &[Prefix], entry: Prefix) -> bool {
    told.iter().any(|e| *e == entry)
}

// Whether a path that counts leads over the interface, by the entries that do so far.
fn leads(mark: &Marked, told: &[Prefix], interface: u32) -> bool {
    if !mark.counts {
        return false;
    }
    match mark.aim {
        Aim::On(entry) => is_told(told, entry),
        Aim::Ends(End::Glean(number)) => number == interface,
        Aim::Ends(
            End::Hop {
                interface: number,
                ..
            },
        ) => number == interface,
        Aim::Ends(_) => false,
    }
}

// The entries that lead over the interface by one round more.
fn round(
    alloc: Global,
    entries: &Entries,
    told: &[Prefix],
    interface: u32,
) -> Result<Vec<Prefix>, AllocError> {
    let mut more = Vec::new(alloc);
    for place in 0..entries.len() {
        let entry = entries.at(place);
        if entries
            .marked(entry)
            .iter()
            .any(|m| leads(m, told, interface))
        {
            more.push(entry)?;
        }
    }
    Ok(more)
}

/// The entries that lead over the interface: as many rounds as there are entries, from nothing.
pub fn leading(
    alloc: Global,
    entries: &Entries,
    interface: u32,
) -> Result<Vec<Prefix>, AllocError> {
    let mut told = Vec::new(alloc);
    for _round in 0..entries.len() {
        told = round(alloc, entries, &told, interface)?;
    }
    Ok(told)
}

// The longest entry that contains the address.
fn best(entries: &Entries, addr: Addr) -> Prefix {
    let mut best = Prefix::masked(Addr(0), 0);
    for place in 0..entries.len() {
        let entry = entries.at(place);
        if entry.contains(addr) && entry.len() >= best.len() {
            best = entry;
        }
    }
    best
}

/// Whether the definition lets the packets of the source come over the interface.
pub fn may_come(alloc: Global, rig: &Rig, addr: Addr, interface: u32) -> Result<bool, AllocError> {
    let told = leading(alloc, &rig.entries, interface)?;
    Ok(is_told(&told, best(&rig.entries, addr)))
}
