// Ranks that fall in a part.
ghost use Rattle.std.specs.Prelude.{◌≡◌, ◌<◌, ◌≤◌, ◌+◌, ◌^◌, ◌⊎◌, ℕ, true, map, length, Contains, slice_index, nat_lt};
ghost use Rattle.std.specs.Prelude.{IfOk, IfSome, IfNone};
ghost use Rattle.std.specs.List.{list_all};
ghost use Rattle.fib_addr.specs.Prefixes.{Prefix as PrefixValue};
ghost use Rattle.fib_resolve.specs.declared.types.Tables.{Tables as TablesValue};
ghost use Rattle.fib_follow_view.specs.Views.{IsAfter};
ghost use Rattle.fib_entries_rows.specs.Known.{rank_of};
ghost use Rattle.fib_follow_part.specs.Parts.{AreRanks, IsPart, IsStuck, rank_before};
ghost use Rattle.fib_follow_part.specs.inner.Ranked.{IsBlock, does_fall, leaves_below};

use crate::edges::Leaving;
use crate::part::Part;
use fib_addr::Prefix;
use fib_follow_view::View;
use std::alloc::{AllocError, Global};

/// The rank of an entry that wasn't there before.
pub const TOP: u32 = 1 << 31;

/// The rank that the prefix had; `TOP` where it was no entry.
fn rank_before(view: &View<'_>, e: Prefix) -> u32
    ensures { result ≡ rank_before view.now e }
{
    match view.before().row(e) {
        Some(row) => row.rank(),
        None => TOP,
    }
}

fn ranks_before(alloc: Global, view: &View<'_>, members: &[Prefix]) -> Result<Vec<u32>, AllocError>
    ensures { IfOk result (λ v. v.items ≡ map (rank_before view.now) members.now) }
{
    members.iter().map(|e| rank_before(view, *e)).collect(alloc)
}

/// Whether the rank falls along the edge.
fn does_fall(ranks: &[u32], edge: (u32, u32)) -> bool
    ensures { result ≡ does_fall ranks.now edge }
{
    let Some(from) = ranks.get(edge.0 as usize) else {
        return false;
    };
    let Some(to) = ranks.get(edge.1 as usize) else {
        return false;
    };
    *to < *from
}

fn do_fall(ranks: &[u32], edges: &[(u32, u32)]) -> bool
    ensures { result ≡ list_all (does_fall ranks.now) edges.now }
{
    edges.iter().all(|edge| does_fall(ranks, *edge))
}

fn lesser(a: u32, b: u32) -> u32
    ensures first { result ≤ a }
    ensures second { result ≤ b }
    ensures one { (result ≡ a) ⊎ (result ≡ b) }
{
    if b < a { b } else { a }
}

fn greater(a: u32, b: u32) -> u32
    ensures first { a ≤ result }
    ensures second { b ≤ result }
{
    if a < b { b } else { a }
}

/// The least of the ranks, or 0 where there is none.
fn least(ranks: &[u32]) -> u32
    ensures low { (n : ℕ) → Contains ranks.now n → result ≤ n }
    ensures one { 0 < length ranks.now → Contains ranks.now result }
{
    let mut found = match ranks.first() {
        Some(rank) => *rank,
        None => return 0,
    };
    'ranks: for place in 0..ranks.len() {
        found = lesser(found, ranks[place]);
    }
    found
}

/// Each number above that rank.
fn raised(alloc: Global, base: u32, numbers: &[u32]) -> Result<Vec<u32>, AllocError>
    requires { (n : ℕ) → Contains numbers.now n → base + n < 2 ^ 32 }
    ensures { IfOk result (λ v. v.items ≡ map (λ n. base + n) numbers.now) }
{
    let mut out = Vec::with_capacity(alloc, numbers.len())?;
    'numbers: for place in 0..numbers.len() {
        out.push(base + numbers[place])?;
    }
    Ok(out)
}

/// Ranks in a block below all of these, in the order of the numbers. None where one would fall below 0.
fn block(alloc: Global, ranks: &[u32], numbers: &[u32]) -> Result<Option<Vec<u32>>, AllocError>
    requires same { length numbers.now ≡ length ranks.now }
    requires few { length numbers.now < 2 ^ 32 }
    requires below { (n : ℕ) → Contains numbers.now n → n < length numbers.now }
    ensures some { IfOk result (λ o. IfSome o (λ v. IsBlock ranks.now numbers.now v.items)) }
    ensures none { IfOk result (λ o. IfNone o ((n : ℕ) × Contains ranks.now n × (n < length ranks.now))) }
{
    let Some(base) = least(ranks).checked_sub(numbers.len() as u32) else {
        return Ok(None);
    };
    let made = raised(alloc, base, numbers)?;
    Ok(Some(made))
}

/// The rank that the prefix had; 0 where it was no entry.
fn rank_had(view: &View<'_>, e: Prefix) -> u32
    ensures { result ≡ rank_of view.now.before.rows e }
{
    match view.before().row(e) {
        Some(row) => row.rank(),
        None => 0,
    }
}

/// Whether the rank falls along an edge that leaves the part.
fn does_leave(view: &View<'_>, ranks: &[u32], edge: Leaving) -> bool
    ensures { result ≡ leaves_below view.now ranks.now edge }
{
    match ranks.get(edge.0 as usize) {
        Some(from) => rank_had(view, edge.1) < *from,
        None => false,
    }
}

fn do_leave(view: &View<'_>, ranks: &[u32], edges: &[Leaving]) -> bool
    ensures { result ≡ list_all (leaves_below view.now ranks.now) edges.now }
{
    edges.iter().all(|edge| does_leave(view, ranks, *edge))
}

/// The ranks of the members that were there before, and `TOP` for new entries, where they fall.
fn ranks_kept(alloc: Global, view: &View<'_>, part: &Part) -> Result<Option<Vec<u32>>, AllocError>
    ensures some { IfOk result (λ o. IfSome o (λ v. (S T : TablesValue) → IsAfter view.now S T → IsPart view.now S T part.now
        → AreRanks view.now S T part.now v.items)) }
{
    let before = ranks_before(alloc, view, part.members())?;
    let ranks = before.as_slice();
    if do_fall(ranks, part.left()) && do_leave(view, ranks, part.out()) {
        return Ok(Some(before));
    }
    Ok(None)
}

/// The greater of the ranks that those had to which the edges lead, and this number.
fn highest(view: &View<'_>, edges: &[Leaving], floor: u32) -> u32
    ensures { (d : ℕ × PrefixValue) → Contains edges.now d → rank_of view.now.before.rows d.1 ≤ result }
{
    let mut found = floor;
    'edges: for place in 0..edges.len() {
        found = greater(found, rank_had(view, edges[place].1));
    }
    found
}

/// Ranks above all to which edges leave the part, in the order of the numbers. None where the numbers don't fit.
fn ranks_above(alloc: Global, view: &View<'_>, part: &Part) -> Result<Option<Vec<u32>>, AllocError>
    requires { part.now.is_apart ≡ true }
    ensures some { IfOk result (λ o. IfSome o (λ v. (S T : TablesValue) → IsAfter view.now S T → IsPart view.now S T part.now
        → AreRanks view.now S T part.now v.items)) }
{
    let numbers = part.numbers();
    let floor = highest(view, part.out(), TOP);
    // Room for one more than the numbers, since they begin at 0.
    if u32::MAX - floor <= numbers.len() as u32 {
        return Ok(None);
    }
    let made = raised(alloc, floor + 1, numbers)?;
    Ok(Some(made))
}

/// Ranks in a block below those that the members had, in the order of their numbers.
fn ranks_below(alloc: Global, view: &View<'_>, part: &Part) -> Result<Option<Vec<u32>>, AllocError>
    ensures some { IfOk result (λ o. IfSome o (λ v. (S T : TablesValue) → IsAfter view.now S T → IsPart view.now S T part.now
        → AreRanks view.now S T part.now v.items)) }
    ensures none { IfOk result (λ o. IfNone o (IsStuck view.now part.now)) }
{
    let before = ranks_before(alloc, view, part.members())?;
    let Some(ranks) = block(alloc, before.as_slice(), part.numbers())? else {
        return Ok(None);
    };
    if do_leave(view, ranks.as_slice(), part.out()) {
        return Ok(Some(ranks));
    }
    Ok(None)
}

/// Ranks above what the part leads to, where nothing else leads to it; None where something does.
fn ranks_apart(alloc: Global, view: &View<'_>, part: &Part) -> Result<Option<Vec<u32>>, AllocError>
    ensures some { IfOk result (λ o. IfSome o (λ v. (S T : TablesValue) → IsAfter view.now S T → IsPart view.now S T part.now
        → AreRanks view.now S T part.now v.items)) }
{
    if part.is_apart() {
        return ranks_above(alloc, view, part);
    }
    Ok(None)
}

/// Ranks where those that the members had don't fall: above what the part leads to, or else below what they had.
fn ranks_moved(alloc: Global, view: &View<'_>, part: &Part) -> Result<Option<Vec<u32>>, AllocError>
    ensures some { IfOk result (λ o. IfSome o (λ v. (S T : TablesValue) → IsAfter view.now S T → IsPart view.now S T part.now
        → AreRanks view.now S T part.now v.items)) }
    ensures none { IfOk result (λ o. IfNone o (IsStuck view.now part.now)) }
{
    match ranks_apart(alloc, view, part)? {
        Some(ranks) => Ok(Some(ranks)),
        None => ranks_below(alloc, view, part),
    }
}

/// Ranks of the part's members, in their order, with which ranks fall after the change: as they were, with `TOP` for a new entry, where these
/// fall inside the part and along the edges that leave it. Where they don't: where no other entry leads to the part, a block above all to which
/// it leads; else a block below what its members had. None where a rank would fall below 0, which takes a member whose rank is less than their
/// number, or where the block isn't above that to which an edge leaves: then the whole part has ranks.
pub fn ranks(alloc: Global, view: &View<'_>, part: &Part) -> Result<Option<Vec<u32>>, AllocError>
    ensures some { IfOk result (λ o. IfSome o (λ v. (S T : TablesValue) → IsAfter view.now S T → IsPart view.now S T part.now
        → AreRanks view.now S T part.now v.items)) }
    ensures none { IfOk result (λ o. IfNone o (IsStuck view.now part.now)) }
{
    match ranks_kept(alloc, view, part)? {
        Some(ranks) => Ok(Some(ranks)),
        None => ranks_moved(alloc, view, part),
    }
}
