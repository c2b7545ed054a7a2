// Which entries forward.
ghost use Rattle.std.specs.Prelude.{◌≡◌, IfOk, OnOk, map};
ghost use Rattle.std.specs.List.{list_any};
ghost use Rattle.fib_resolve.specs.declared.types.Tables.{Tables as TablesValue};
ghost use Rattle.fib_resolve_changes.specs.Ranks.{leads_on, is_usable_mark};
ghost use Rattle.fib_entries_rows.specs.Known.{StandsFor, prefix_of};
ghost use Rattle.fib_print_listing.specs.inner.Forwards.{has_prefix, ranked_in, AddsWhere, AreForwarding, AreRanked};

use fib_addr::Prefix;
use fib_entries::Entries;
use fib_resolve::{Aim, Marked};
use std::alloc::{AllocError, Global};
use std::collections::HashSet;

fn leads_on(forwarding: &HashSet<Prefix>, aim: Aim) -> bool
    ensures { result ≡ leads_on (has_prefix forwarding.now.keys) aim }
{
    match aim {
        Aim::Ends(_) => true,
        Aim::On(target) => forwarding.contains(&target),
    }
}

/// Whether the path is usable, where the set has the entries that forward.
pub fn is_usable(forwarding: &HashSet<Prefix>, mark: Marked) -> bool
    ensures { result ≡ is_usable_mark (has_prefix forwarding.now.keys) mark }
{
    mark.counts && leads_on(forwarding, mark.aim)
}

fn has_usable(forwarding: &HashSet<Prefix>, marks: &[Marked]) -> bool
    ensures { result ≡ list_any (is_usable_mark (has_prefix forwarding.now.keys)) marks.now }
{
    match marks {
        [mark, marks @ ..] => is_usable(forwarding, *mark) || has_usable(forwarding, marks),
        [] => false,
    }
}

/// Adds the entry where one of its paths is usable.
fn add_where(
    forwarding: &mut HashSet<Prefix>,
    e: Prefix,
    marks: &[Marked],
) -> Result<(), AllocError>
    ensures { OnOk result (AddsWhere marks.now e forwarding.old.keys forwarding.new.keys) }
{
    if has_usable(forwarding, marks) {
        forwarding.insert(e)?;
    }
    Ok(())
}

fn ranks_of(alloc: Global, entries: &Entries) -> Result<Vec<(u32, Prefix)>, AllocError>
    ensures { IfOk result (λ v. v.items ≡ map (ranked_in entries.now.rows) (map prefix_of entries.now.rows)) }
{
    let mut ranks = Vec::new(alloc);
    for place in 0..entries.len() {
        let e = entries.at(place);
        ranks.push((entries.rank(e), e))?;
    }
    Ok(ranks)
}

fn by_rank(alloc: Global, entries: &Entries) -> Result<Vec<(u32, Prefix)>, AllocError>
    ensures { IfOk result (λ v. AreRanked entries.now.rows v.items) }
{
    let mut ranks = ranks_of(alloc, entries)?;
    ranks.sort_unstable();
    Ok(ranks)
}

/// The entries that forward. A path that counts leads to an entry of a lower rank: in the order of ranks each entry comes behind all that
/// decide whether it forwards.
pub fn forwarding(alloc: Global, entries: &Entries) -> Result<HashSet<Prefix>, AllocError>
    ensures { IfOk result (λ f. (S : TablesValue) → StandsFor entries.now S → AreForwarding S f.keys) }
{
    let ranks = by_rank(alloc, entries)?;
    let mut found = HashSet::new(alloc);
    for x in &ranks {
        add_where(&mut found, x.1, entries.marked(x.1))?;
    }
    Ok(found)
}
