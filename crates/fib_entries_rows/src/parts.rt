// The parts of a row, from what the tables mean.
ghost use Rattle.std.specs.Prelude.{◌≡◌, ◌<◌, ◌*◌, ◌^◌, ◌&&◌, IfOk, IfSome, Some, None, slice_get, slice_index_or, map, length, position};
ghost use Rattle.std.specs.Set.{is_member};
ghost use Rattle.fib_addr.specs.Prefixes.{same_prefix};
ghost use Rattle.fib_resolve.specs.Keys.{same_source, source_rank};
ghost use Rattle.fib_resolve.specs.Pairs.{chosen, entries, pairs};
ghost use Rattle.fib_resolve.specs.Loops.{kind_targets, looped_kind, is_kept};
ghost use Rattle.fib_resolve.specs.Aims.{kind_aim, kind_counts, marked, marked_list};
ghost use Rattle.fib_resolve_changes.specs.Ranks.{wakes};
ghost use Rattle.fib_resolve_pairs.specs.Numbers.{number_in};
ghost use Rattle.fib_entries_rows.specs.Known.{kind_met};
ghost use Rattle.fib_entries_rows.specs.inner.Building.{ArePicked, ArePlaced, AreParts, slot_of, kept_in};

use crate::look::is_same;
use fib_addr::{Mac, Prefix};
use fib_base_list::List;
use fib_paths::{PathListId, PathLists};
use fib_resolve::{Aim, End, FibSource, Marked, Path, PathKind};
use fib_resolve_pairs::Meaning;
use std::alloc::{AllocError, Global};

/// What rows are made from: what the tables mean, and the pairs' lists with their numbers.
#[derive(Clone, Copy)]
pub struct Parts<'a> {
    pub meaning: &'a Meaning<'a>,
    pub lists: &'a PathLists,
    /// The number of each pair's list.
    pub ids: &'a [PathListId],
    /// The places of the pairs, by their entries' numbers and their sources' ranks.
    pub places: &'a [Option<usize>],
}

/// The source of that rank.
pub fn source_at(rank: usize) -> FibSource
    requires { rank < 7 }
    ensures { source_rank result ≡ rank }
{
    match rank {
        0 => FibSource::Special,
        1 => FibSource::Interface,
        2 => FibSource::Api,
        3 => FibSource::Cli,
        4 => FibSource::Adjacency,
        5 => FibSource::RecursiveResolution,
        _ => FibSource::DefaultRoute,
    }
}

/// Where the place of a pair is kept.
fn slot_of(meaning: &Meaning<'_>, prefix: Prefix, source: FibSource) -> Option<usize>
    ensures slot { result ≡ slot_of meaning.now prefix source }
    ensures below { IfSome result (λ k. k < 7 * length (entries meaning.now)) }
{
    let number = meaning.number(prefix)?;
    Some(7 * number + usize::from(source.rank()))
}

/// Keeps a place in the slot, if there is one.
fn keep(places: &mut Vec<Option<usize>>, slot: Option<usize>, place: usize)
    requires { IfSome slot (λ k. k < length places.old.items) }
    ensures { places.new.items ≡ kept_in slot place places.old.items }
{
    if let Some(slot) = slot {
        places[slot] = Some(place);
    }
}

/// The places of the pairs, by their entries' numbers and their sources' ranks.
pub fn places_of(alloc: Global, meaning: &Meaning<'_>) -> Result<Vec<Option<usize>>, AllocError>
    ensures { IfOk result (λ v. ArePlaced meaning.now (pairs meaning.now) v.items) }
{
    let pairs = meaning.pairs();
    // More places than a number counts are more than a vector holds: want of memory.
    let Some(slots) = meaning.entries().len().checked_mul(7) else {
        return Err(AllocError);
    };
    let mut places = Vec::from_elem(alloc, None, slots)?;
    for i in (0..pairs.len()).rev() {
        let x = &pairs[i];
        let slot = slot_of(meaning, x.prefix, x.source);
        keep(&mut places, slot, i);
    }
    Ok(places)
}

/// What the slot has.
fn read_slot(places: &[Option<usize>], slot: usize) -> Option<usize>
    ensures { result ≡ slice_index_or places.now slot None }
{
    match places.get(slot) {
        Some(place) => *place,
        None => None,
    }
}

/// The place of the pair of that source, where the prefix is the entry with that number.
fn place_of(parts: Parts<'_>, prefix: Prefix, number: usize, source: FibSource) -> Option<usize>
    requires parts { AreParts parts }
    requires number { number_in parts.meaning.now prefix ≡ Some number }
    requires few { number < 2 ^ 32 }
    ensures place { result ≡ position (λ x. same_prefix prefix x.prefix && same_source source x.source) (pairs parts.entry.meaning.now) }
    ensures inside { IfSome result (λ k. k < length parts.entry.ids.now) }
{
    // Only clauses name the prefix.
    let _prefix = prefix;
    read_slot(parts.places, 7 * number + usize::from(source.rank()))
}

/// The prefix's sources with the numbers of their lists, the best first.
pub fn held_of(
    alloc: Global,
    parts: Parts<'_>,
    prefix: Prefix,
) -> Result<List<(FibSource, PathListId)>, AllocError>
    requires { AreParts parts }
    ensures { IfOk result (λ v. ArePicked prefix (pairs parts.entry.meaning.now) parts.entry.ids.now 7 v) }
{
    let ids = parts.ids;
    let mut out = List::new(alloc);
    let Some(number) = parts.meaning.number(prefix) else {
        return Ok(out);
    };
    for rank in 0..7usize {
        let source = source_at(rank);
        if let Some(place) = place_of(parts, prefix, number, source) {
            out.push((source, ids[place]))?;
        }
    }
    Ok(out)
}

/// Whether the path, which stands at that place of the chosen list, is looped.
fn is_looped_at(meaning: &Meaning<'_>, e: Prefix, place: usize, p: &Path) -> bool
    requires { slice_get (chosen meaning.now e) place ≡ Some p.now }
    ensures { result ≡ looped_kind meaning.now e p.now.kind }
{
    // Only clauses name the place.
    let _place = place;
    meaning.is_looped(e, p)
}

/// A mark for each path of the chosen list.
pub fn marks_of(
    alloc: Global,
    meaning: &Meaning<'_>,
    e: Prefix,
    paths: &[Path],
) -> Result<List<bool>, AllocError>
    requires { paths.now ≡ chosen meaning.now e }
    ensures { IfOk result (λ v. v ≡ map (λ p. looped_kind meaning.now e p.kind) (chosen meaning.now e)) }
{
    let mut out = Vec::with_capacity(alloc, paths.len())?;
    for place in 0..paths.len() {
        out.push(is_looped_at(meaning, e, place, &paths[place]))?;
    }
    Ok(List::from_vec(out))
}

fn is_met_by(meaning: &Meaning<'_>, p: &Path) -> bool
    ensures { result ≡ kind_met meaning.now p.now.need p.now.kind }
{
    match p.kind {
        PathKind::Recursive(a) => meaning.is_met(p.need, a),
        _ => true,
    }
}

/// For each path of the chosen list, whether its need is met.
pub fn mets_of(
    alloc: Global,
    meaning: &Meaning<'_>,
    e: Prefix,
    paths: &[Path],
) -> Result<List<bool>, AllocError>
    requires { paths.now ≡ chosen meaning.now e }
    ensures { IfOk result (λ v. v ≡ map (λ p. kind_met meaning.now p.need p.kind) (chosen meaning.now e)) }
{
    // Only clauses name the entry.
    let _entry = e;
    let mut out = Vec::with_capacity(alloc, paths.len())?;
    for p in paths {
        out.push(is_met_by(meaning, p))?;
    }
    Ok(List::from_vec(out))
}

/// What a path is for.
fn aim_of(meaning: &Meaning<'_>, e: Prefix, kind: PathKind) -> Aim
    ensures { result ≡ kind_aim meaning.now e kind }
{
    match kind {
        PathKind::Drop => Aim::Ends(End::Drop),
        PathKind::Local => Aim::Ends(End::Receive),
        PathKind::Attached(interface) => Aim::Ends(meaning.attached_end(e, interface)),
        PathKind::Hop {
            next_hop,
            interface,
        } => Aim::Ends(meaning.hop_end(interface, next_hop)),
        PathKind::Recursive(a) => Aim::On(Prefix::host(a)),
        PathKind::Cover => Aim::On(meaning.cover(e.bits())),
    }
}

/// Whether a path is usable where its aim, if it is an entry, forwards.
fn does_count(meaning: &Meaning<'_>, e: Prefix, p: &Path, looped: bool) -> bool
    requires { looped ≡ looped_kind meaning.now e p.now.kind }
    ensures { result ≡ kind_counts meaning.now e p.now.need p.now.kind }
{
    // Only clauses name the entry.
    let _entry = e;
    match p.kind {
        PathKind::Drop => false,
        PathKind::Local => true,
        PathKind::Attached(interface) => meaning.is_up(interface),
        PathKind::Hop { interface, .. } => meaning.is_up(interface),
        PathKind::Recursive(a) => !looped && meaning.is_met(p.need, a),
        PathKind::Cover => true,
    }
}

fn marked(meaning: &Meaning<'_>, e: Prefix, p: &Path, looped: bool) -> Marked
    requires { looped ≡ looped_kind meaning.now e p.now.kind }
    ensures { result ≡ marked meaning.now e p.now }
{
    Marked {
        aim: aim_of(meaning, e, p.kind),
        counts: does_count(meaning, e, p, looped),
        weight: p.weight,
        preference: p.preference,
    }
}

/// For each path of the chosen list, what it is for and whether it counts.
#[tactic(auto, unfolding(fib_resolve::specs::Aims::marked_list))]
pub fn marked_of(
    alloc: Global,
    meaning: &Meaning<'_>,
    e: Prefix,
    paths: &[Path],
    looped: &[bool],
) -> Result<List<Marked>, AllocError>
    requires paths { paths.now ≡ chosen meaning.now e }
    requires looped { looped.now ≡ map (λ p. looped_kind meaning.now e p.kind) (chosen meaning.now e) }
    ensures { IfOk result (λ v. v ≡ marked_list meaning.now e) }
{
    // Named so that the proof knows the types that a mark may hold.
    let _mac: Option<Mac> = None;
    let _aim = Aim::Ends(End::Drop);
    let mut out = Vec::with_capacity(alloc, paths.len())?;
    for place in 0..paths.len() {
        out.push(marked(meaning, e, &paths[place], looped[place]))?;
    }
    Ok(List::from_vec(out))
}

/// Whether the path of d leads to e.
fn leads(meaning: &Meaning<'_>, d: Prefix, p: &Path, e: Prefix) -> bool
    ensures { result ≡ is_member same_prefix (kind_targets meaning.now d p.now.kind) e }
{
    match p.kind {
        PathKind::Recursive(a) => is_same(e, Prefix::host(a)),
        PathKind::Cover => is_same(e, meaning.cover(d.bits())),
        _ => false,
    }
}

/// Whether the path at that place of e's list isn't looped and leads to t.
fn keeps_at(meaning: &Meaning<'_>, e: Prefix, t: Prefix, place: usize, p: &Path) -> bool
    requires { slice_get (chosen meaning.now e) place ≡ Some p.now }
    ensures { result ≡ (is_kept meaning.now e p.now.kind && is_member same_prefix (kind_targets meaning.now e p.now.kind) t) }
{
    if !leads(meaning, e, p, t) {
        return false;
    }
    !is_looped_at(meaning, e, place, p)
}

/// Whether e has an edge to t that is left without looped paths.
pub fn keeps(meaning: &Meaning<'_>, e: Prefix, t: Prefix) -> bool
    ensures { result ≡ wakes meaning.now e t }
{
    let paths = meaning.chosen(e);
    for place in 0..paths.len() {
        if keeps_at(meaning, e, t, place, &paths[place]) {
            return true;
        }
    }
    false
}
