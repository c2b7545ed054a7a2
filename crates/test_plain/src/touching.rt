// Which prefixes a change touches, by comparing all that two tables mean.
ghost use Rattle.std.specs.Prelude.{◌≡◌, ◌++◌, Some, IfOk, slice_get, filter};
ghost use Rattle.std.specs.List.{list_any, list_all};
ghost use Rattle.std.specs.Set.{is_member, unique_keys};
ghost use Rattle.fib_addr.specs.Prefixes.{same_prefix};
ghost use Rattle.fib_resolve.specs.Pairs.{same_pair, chosen, entries, pairs};
ghost use Rattle.fib_resolve.specs.Touched.{other_flag, other_mac, kind_changes, same_pairs, pairs_of, is_touched, touched};

use crate::snapshot::Snapshot;
use crate::view;
use fib_addr::{Addr, Prefix};
use fib_resolve::{Pair, Path, PathKind, Tables};
use fib_resolve_pairs::{distinct, is_up};
use std::alloc::{AllocError, Global};

fn other_flag(before: &Tables, after: &Tables, interface: u32) -> bool
    ensures { result ≡ other_flag before.now after.now interface }
{
    is_up(before, interface) != is_up(after, interface)
}

fn other_mac(before: &Snapshot<'_>, after: &Snapshot<'_>, interface: u32, a: Addr) -> bool
    ensures { result ≡ other_mac before.now after.now interface a }
{
    match (
        before.meaning().mac_of(interface, a),
        after.meaning().mac_of(interface, a),
    ) {
        (None, None) => false,
        (Some(m), Some(n)) => m.bits() != n.bits(),
        _ => true,
    }
}

/// Whether the path at that place of the entry's list, which is the same before and after, means something else.
fn kind_changes(
    before: &Snapshot<'_>,
    after: &Snapshot<'_>,
    e: Prefix,
    place: usize,
    p: &Path,
) -> bool
    requires here { slice_get (chosen before.now e) place ≡ Some p.now }
    requires there { slice_get (chosen after.now e) place ≡ Some p.now }
    ensures { result ≡ kind_changes before.now after.now e p.now.need p.now.kind }
{
    let (old, new) = (before.known().tables(), after.known().tables());
    match p.kind {
        PathKind::Drop | PathKind::Local => false,
        PathKind::Attached(i) => {
            other_flag(old, new, i) || (e.len() == 32 && other_mac(before, after, i, e.bits()))
        }
        PathKind::Hop {
            next_hop,
            interface,
        } => other_flag(old, new, interface) || other_mac(before, after, interface, next_hop),
        PathKind::Recursive(a) => {
            view::is_looped(before, e, place) != view::is_looped(after, e, place)
                || before.meaning().is_met(p.need, a) != after.meaning().is_met(p.need, a)
        }
        PathKind::Cover => before.known().cover(e.bits()) != after.known().cover(e.bits()),
    }
}

fn changes(before: &Snapshot<'_>, after: &Snapshot<'_>, e: Prefix) -> bool
    requires same { chosen before.now e ≡ chosen after.now e }
    ensures { result ≡ list_any (λ p. kind_changes before.now after.now e p.need p.kind) (chosen before.now e) }
{
    let paths = before.known().chosen(e);
    for place in 0..paths.len() {
        if kind_changes(before, after, e, place, &paths[place]) {
            return true;
        }
    }
    false
}

fn has_own(e: Prefix, pairs: &[Pair], x: &Pair) -> bool
    ensures { result ≡ is_member same_pair (filter (λ y. same_prefix e y.prefix) pairs.now) x.now }
{
    pairs
        .iter()
        .filter(|y| e == y.prefix)
        .any(|y| fib_resolve_pairs::is_same_pair(x, y))
}

fn all_there(e: Prefix, xs: &[Pair], ys: &[Pair]) -> bool
    ensures { result ≡ list_all (is_member same_pair (filter (λ y. same_prefix e y.prefix) ys.now))
        (filter (λ x. same_prefix e x.prefix) xs.now) }
{
    xs.iter()
        .filter(|x| e == x.prefix)
        .all(|x| has_own(e, ys, x))
}

fn has_same_pairs(before: &Snapshot<'_>, after: &Snapshot<'_>, e: Prefix) -> bool
    ensures { result ≡ same_pairs (pairs_of before.now e) (pairs_of after.now e) }
{
    all_there(e, before.known().pairs(), after.known().pairs())
        && all_there(e, after.known().pairs(), before.known().pairs())
}

/// Whether the change touches the prefix.
#[tactic(auto, unfolding(fib_resolve::specs::Touched::is_touched))]
fn is_touched(before: &Snapshot<'_>, after: &Snapshot<'_>, e: Prefix) -> bool
    ensures { result ≡ is_touched before.now after.now e }
{
    // Read so that the proof knows that the tables are sound.
    let _tables = after.known().tables();
    if !has_same_pairs(before, after, e) {
        return true;
    }
    changes(before, after, e)
}

/// The entries before and after, each once.
fn all_entries(
    alloc: Global,
    before: &[Prefix],
    after: &[Prefix],
) -> Result<Vec<Prefix>, AllocError>
    ensures { IfOk result (λ v. v.items ≡ unique_keys same_prefix (before.now ++ after.now)) }
{
    let mut all = before.to_vec(alloc)?;
    all.extend_from_slice(after)?;
    distinct(alloc, all.as_slice())
}

/// The touched prefixes, each once.
#[tactic(auto, unfolding(fib_resolve::specs::Touched::touched))]
pub fn touched(
    alloc: Global,
    before: &Snapshot<'_>,
    after: &Snapshot<'_>,
) -> Result<Vec<Prefix>, AllocError>
    ensures { IfOk result (λ v. v.items ≡ touched before.now after.now) }
{
    let all = all_entries(alloc, before.known().entries(), after.known().entries())?;
    let mut out = Vec::new(alloc);
    for e in &all {
        if is_touched(before, after, *e) {
            out.push(*e)?;
        }
    }
    Ok(out)
}
