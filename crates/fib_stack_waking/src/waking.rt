// Who is woken by a turn.
ghost use Rattle.std.specs.Prelude.{◌≡◌, ◌&&◌, ◌||◌, IfOk, OnOk};
ghost use Rattle.fib_addr.specs.Prefixes.{Prefix as PrefixValue, same_prefix};
ghost use Rattle.fib_resolve.specs.declared.types.Tables.{Tables as TablesValue};
ghost use Rattle.fib_resolve_changes.specs.Ranks.{wakes};
ghost use Rattle.fib_entries_rows.specs.Known.{StandsFor, rank_of};
ghost use Rattle.fib_stack_waking.specs.Waking.{are_among, have_ranks};

use fib_addr::Prefix;
use fib_entries::Entries;
use fib_stack_queue::Queued;
use std::alloc::{AllocError, Global};

/// One that may be woken, if it is.
#[tactic(auto, using(crate::proofs::Woken::pushed_among, crate::proofs::Woken::pushed_ranks))]
fn add_woken(
    woken: &mut Vec<Queued>,
    entries: &Entries,
    entry: Prefix,
    target: Prefix,
) -> Result<(), AllocError>
    ensures ranks { have_ranks (rank_of entries.now.rows) woken.old.items →
        OnOk result (have_ranks (rank_of entries.now.rows) woken.new.items) }
    ensures among { (S : TablesValue) (d : PrefixValue) → StandsFor entries.now S →
        OnOk result (are_among woken.new.items d ≡ are_among woken.old.items d || (same_prefix entry d && wakes S d target)) }
{
    if entries.wakes(entry, target) {
        let rank = entries.rank(entry);
        woken.push(Queued {
            prefix: entry,
            rank,
        })?;
    }
    Ok(())
}

// The entries with an edge to it that isn't looped, with their ranks.
fn woken_by(alloc: Global, entries: &Entries, target: Prefix) -> Result<Vec<Queued>, AllocError>
    ensures ranks { IfOk result (λ v. have_ranks (rank_of entries.now.rows) v.items) }
    ensures among { (S : TablesValue) (d : PrefixValue) → StandsFor entries.now S →
        IfOk result (λ v. are_among v.items d ≡ wakes S d target) }
{
    let mut woken = Vec::new(alloc);
    for entry in entries.dependants(target) {
        add_woken(&mut woken, entries, *entry, target)?;
    }
    Ok(woken)
}

/// Those that are woken by a turn of the target, with their ranks: the entries with an edge to it that isn't looped, if the turn changed what
/// is kept of it; else none.
pub fn woken_where(
    alloc: Global,
    entries: &Entries,
    target: Prefix,
    changed: bool,
) -> Result<Vec<Queued>, AllocError>
    ensures ranks { IfOk result (λ v. have_ranks (rank_of entries.now.rows) v.items) }
    ensures among { (S : TablesValue) (d : PrefixValue) → StandsFor entries.now S →
        IfOk result (λ v. are_among v.items d ≡ changed && wakes S d target) }
{
    if changed {
        woken_by(alloc, entries, target)
    } else {
        Ok(Vec::new(alloc))
    }
}
