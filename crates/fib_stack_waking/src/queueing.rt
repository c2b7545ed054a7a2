// Woken and touched prefixes are queued.
ghost use Rattle.std.specs.Prelude.{◌≡◌, ◌⊎◌, ◌≤◌, ℕ, ◌||◌, Some, is_some, length};
ghost use Rattle.fib_addr.specs.Prefixes.{Prefix as PrefixValue};
ghost use Rattle.fib_entries_rows.specs.Known.{rank_of};
ghost use Rattle.fib_stack_queue.specs.Queues.{rank_in};
ghost use Rattle.fib_stack_waking.specs.Waking.{are_among, have_ranks, is_among};

use fib_addr::Prefix;
use fib_entries::Entries;
use fib_stack_queue::{Queue, Queued};

/// Queues them, each under the rank that stands beside it. There must be room.
pub fn wake_all(queue: &mut Queue, woken: &[Queued])
    requires room { length woken.now ≤ queue.old.spare }
    ensures queued { (d : PrefixValue) →
        is_some (rank_in queue.new.members d) ≡ is_some (rank_in queue.old.members d) || are_among woken.now d }
    ensures ranks { (rank : PrefixValue → ℕ) → have_ranks rank woken.now → (d : PrefixValue) (r : ℕ) →
        rank_in queue.new.members d ≡ Some r → (rank_in queue.old.members d ≡ Some r) ⊎ (r ≡ rank d) }
{
    for next in woken {
        queue.add(next.prefix, next.rank);
    }
}

/// Queues the prefixes, each under its rank. There must be room.
pub fn enqueue(queue: &mut Queue, entries: &Entries, prefixes: &[Prefix])
    requires room { length prefixes.now ≤ queue.old.spare }
    ensures queued { (d : PrefixValue) →
        is_some (rank_in queue.new.members d) ≡ is_some (rank_in queue.old.members d) || is_among prefixes.now d }
    ensures ranks { (d : PrefixValue) (r : ℕ) →
        rank_in queue.new.members d ≡ Some r → (rank_in queue.old.members d ≡ Some r) ⊎ (r ≡ rank_of entries.now.rows d) }
{
    for prefix in prefixes {
        queue.add(*prefix, entries.rank(*prefix));
    }
}
