// What is queued is listed, and keyed anew.
ghost use Rattle.std.specs.Prelude.{◌≡◌, ◌⊎◌, ◌+◌, ◌≤◌, ℕ, IfOk, Some, false, is_some, length, map};
ghost use Rattle.fib_addr.specs.Prefixes.{Prefix as PrefixValue};
ghost use Rattle.fib_entries_rows.specs.Known.{prefix_of, rank_of};
ghost use Rattle.fib_stack_queue.specs.Queues.{rank_in};
ghost use Rattle.fib_stack_waking.specs.Waking.{are_among};

use fib_addr::Prefix;
use fib_entries::Entries;
use fib_stack_queue::{Queue, Queued};
use std::alloc::{AllocError, Global};

/// All that is queued, in its order.
pub fn queued_of(alloc: Global, queue: &Queue) -> Result<Vec<Queued>, AllocError>
    ensures { IfOk result (λ v. v.items ≡ queue.now.members) }
{
    let mut listed = Vec::with_capacity(alloc, queue.len())?;
    for place in 0..queue.len() {
        listed.push(queue.at(place))?;
    }
    Ok(listed)
}

/// All entries, in their order.
pub fn entries_of(alloc: Global, entries: &Entries) -> Result<Vec<Prefix>, AllocError>
    ensures { IfOk result (λ v. v.items ≡ map prefix_of entries.now.rows) }
{
    let mut listed = Vec::with_capacity(alloc, entries.len())?;
    for place in 0..entries.len() {
        listed.push(entries.at(place))?;
    }
    Ok(listed)
}

/// Keys these anew, by the ranks of the entries. There must be room.
pub fn rekey(queue: &mut Queue, entries: &Entries, listed: &[Queued])
    requires room { length listed.now ≤ queue.old.spare }
    ensures queued { (d : PrefixValue) → is_some (rank_in queue.new.members d) ≡ is_some (rank_in queue.old.members d) }
    ensures ranks { (d : PrefixValue) (r : ℕ) → rank_in queue.new.members d ≡ Some r →
        (r ≡ rank_of entries.now.rows d) ⊎ ((rank_in queue.old.members d ≡ Some r) × (are_among listed.now d ≡ false)) }
    ensures spare { queue.old.spare ≤ queue.new.spare + length listed.now }
{
    for one in listed {
        queue.set_rank(one.prefix, entries.rank(one.prefix));
    }
}
