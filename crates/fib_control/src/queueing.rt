// What a change touches is queued.
ghost use Rattle.std.specs.Prelude.{◌≡◌, ◌⊎◌, ◌+◌, ◌≤◌, ◌||◌, ℕ, List, Some, false, length};
ghost use Rattle.fib_addr.specs.Prefixes.{Prefix as PrefixValue};
ghost use Rattle.fib_stack_queue.specs.Queues.{rank_in};
ghost use Rattle.fib_core_promise.specs.Stack.{is_some};
ghost use Rattle.fib_entries_rows.specs.Known.{rank_of};
ghost use Rattle.fib_entries_rows.specs.Changes.{AreMoved};
ghost use Rattle.fib_entries_rows.specs.declared.rows.Row.{Row};
ghost use Rattle.fib_stack_waking.specs.Waking.{is_among};
ghost use Rattle.fib_control.specs.Controls.{is_moved};

use fib_entries::{Entries, Followed, Moved};
use fib_stack_queue::Queue;
use fib_stack_waking::enqueue;

// Keys queued prefixes anew that have another rank than before. There must be room.
fn rekey(queue: &mut Queue, entries: &Entries, moved: &[Moved])
    requires room { length moved.now ≤ queue.old.spare }
    ensures queued { (d : PrefixValue) → is_some (rank_in queue.new.members d) ≡ is_some (rank_in queue.old.members d) }
    ensures ranks { (d : PrefixValue) (r : ℕ) → rank_in queue.new.members d ≡ Some r → (r ≡ rank_of entries.now.rows d)
        ⊎ ((rank_in queue.old.members d ≡ Some r) × (is_moved moved.now d ≡ false)) }
    ensures spare { queue.old.spare ≤ queue.new.spare + length moved.now }
{
    for one in moved {
        queue.set_rank(one.prefix, entries.rank(one.prefix));
    }
}

/// Queues what a change touches, and keys what is queued by the new ranks. There must be room for all of both lists.
pub fn queue_all(queue: &mut Queue, entries: &Entries, followed: &Followed)
    requires room { length followed.now.moved + length followed.now.touched ≤ queue.old.spare }
    ensures queued { (d : PrefixValue) → is_some (rank_in queue.new.members d) ≡ is_some (rank_in queue.old.members d)
        || is_among followed.now.touched d }
    ensures ranks { (old : List Row) → AreMoved old entries.now.rows followed.now.moved
        → ((d : PrefixValue) (r : ℕ) → rank_in queue.old.members d ≡ Some r → r ≡ rank_of old d) → (d : PrefixValue) (r : ℕ)
        → rank_in queue.new.members d ≡ Some r → r ≡ rank_of entries.now.rows d }
{
    rekey(queue, entries, followed.moved.as_slice());
    enqueue(queue, entries, followed.touched.list());
}
