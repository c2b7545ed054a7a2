// Entries compared with what the plain programs say of the same tables.
use fib_addr::Prefix;
use fib_entries::{Entries, Touched};
use fib_resolve::{FibSource, Path, PathKind};
use fib_resolve_pairs::is_same_list;
use std::alloc::{AllocError, Global};
use test_plain::Snapshot;

// What of the entries is another than the plain programs say.
#[derive(Clone, Copy, Debug, PartialEq, Eq)]
pub enum Part {
    Order,
    Pairs,
    Chosen,
    Loops,
    Dependants,
    Woken,
    Ranks,
    Cover,
    Size,
    Touched,
    Lookup,
    Window,
    Right,
    Steady,
}

// Whether the plain programs' pairs have that list from that source for the prefix.
fn has_pair(snapshot: &Snapshot<'_>, e: Prefix, source: FibSource, paths: &[Path]) -> bool {
    snapshot.pairs().iter().any(|x| x.prefix == e
        && x.source == source
        && is_same_list(x.paths.as_slice(), paths))
}

fn same_pairs(entries: &Entries, snapshot: &Snapshot<'_>, e: Prefix) -> bool {
    let held = entries.pairs(e);
    for place in 0..held.len() {
        let (source, id) = held[place];
        if !has_pair(snapshot, e, source, entries.lists().content(id)) {
            return false;
        }
    }
    snapshot.pairs().iter().filter(|x| x.prefix == e).count() == held.len()
}

fn same_chosen(entries: &Entries, snapshot: &Snapshot<'_>, e: Prefix) -> bool {
    match entries.chosen(e) {
        Some(paths) => is_same_list(paths, snapshot.chosen(e)),
        None => false,
    }
}

// One place past the list is asked too: it is looped in neither.
fn same_loops(entries: &Entries, snapshot: &Snapshot<'_>, e: Prefix) -> bool {
    let paths = snapshot.chosen(e);
    for place in 0..paths.len() {
        if entries.looped(e, place) != snapshot.is_looped(e, place) {
            return false;
        }
    }
    !entries.looped(e, paths.len())
}

// Where the path leads.
fn target_of(snapshot: &Snapshot<'_>, e: Prefix, path: &Path) -> Option<Prefix> {
    match path.kind {
        PathKind::Recursive(a) => Some(Prefix::host(a)),
        PathKind::Cover => Some(snapshot.cover(e.bits())),
        _ => None,
    }
}

// Whether some path of the entry leads to that one, and whether some that isn't looped does.
fn leads(snapshot: &Snapshot<'_>, e: Prefix, to: Prefix) -> (bool, bool) {
    let paths = snapshot.chosen(e);
    let mut found = (false, false);
    for place in 0..paths.len() {
        if target_of(snapshot, e, &paths[place]) == Some(to) {
            found = (true, found.1 || !snapshot.is_looped(e, place));
        }
    }
    found
}

// Edges from each entry to this one: who depends on it, who is woken by it, and whose rank is above its own.
fn same_edges(entries: &Entries, snapshot: &Snapshot<'_>, to: Prefix) -> Option<Part> {
    let dependants = entries.dependants(to);
    let mut count = 0usize;
    for e in snapshot.entries() {
        let (edge, kept) = leads(snapshot, *e, to);
        count += usize::from(edge && count < dependants.len());
        if dependants.contains(e) != edge {
            return Some(Part::Dependants);
        }
        if entries.wakes(*e, to) != kept {
            return Some(Part::Woken);
        }
        if kept && entries.rank(to) >= entries.rank(*e) {
            return Some(Part::Ranks);
        }
    }
    if count == dependants.len() {
        return None;
    }
    Some(Part::Dependants)
}

fn same_entry(entries: &Entries, snapshot: &Snapshot<'_>, e: Prefix) -> Option<Part> {
    if !snapshot.entries().contains(&e) {
        return Some(Part::Order);
    }
    if !same_pairs(entries, snapshot, e) {
        return Some(Part::Pairs);
    }
    if !same_chosen(entries, snapshot, e) {
        return Some(Part::Chosen);
    }
    if !same_loops(entries, snapshot, e) {
        return Some(Part::Loops);
    }
    if entries.cover(e.bits()) != snapshot.cover(e.bits()) {
        return Some(Part::Cover);
    }
    same_edges(entries, snapshot, e)
}

// What of the entries is another than the plain programs say of their tables; None where nothing is.
pub fn difference(
    alloc: Global,
    entries: &Entries,
    snapshot: &Snapshot<'_>,
) -> Result<Option<Part>, AllocError> {
    if entries.size() != snapshot.size(alloc)? {
        return Ok(Some(Part::Size));
    }
    if entries.len() != snapshot.entries().len() {
        return Ok(Some(Part::Order));
    }
    let mut last = None;
    for place in 0..entries.len() {
        let e = entries.at(place);
        if last >= Some(e) {
            return Ok(Some(Part::Order));
        }
        if let Some(part) = same_entry(entries, snapshot, e) {
            return Ok(Some(part));
        }
        last = Some(e);
    }
    Ok(None)
}

// Whether the entries answered exactly these prefixes as touched, each once.
pub fn is_touched(touched: &Touched, wanted: &[Prefix]) -> bool {
    let list = touched.list();
    list.len() == wanted.len() && wanted.iter().all(|p| list.contains(p))
}
