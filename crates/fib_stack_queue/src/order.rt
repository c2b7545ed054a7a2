// The order in which queued prefixes are taken.
ghost use Rattle.std.specs.Prelude.{◌≡◌, ℕ, ◌+◌, ◌-◌, ◌*◌, ◌<◌, ◌≤◌, true, false, length, slice_index_or};
ghost use Rattle.fib_addr.specs.Prefixes.{IsPrefix};
ghost use Rattle.fib_stack_queue.specs.Queues.{prefix_key, turn_key};
ghost use Rattle.fib_stack_queue.specs.declared.order.Queued.{Queued as QueuedValue};

use fib_addr::Prefix;
use fib_base_ordered::Keyed;
use std::collections::VecDeque;

/// A queued prefix, and the rank by which it is taken.
#[derive(Clone, Copy, Debug, PartialEq, Eq)]
pub struct Queued {
    pub prefix: Prefix,
    pub rank: u32,
}

impl Keyed for Queued {
    ghost use Rattle.fib_stack_queue.specs.Queues.{key_in};

    ghost rank = { key_in };

    fn key(&self) -> u64 {
        key_of(self.prefix)
    }
}

/// By bits, then by length.
pub fn key_of(prefix: Prefix) -> u64
    ensures key { result ≡ prefix_key prefix }
    ensures prefix { IsPrefix prefix }
{
    64 * u64::from(prefix.bits().0) + u64::from(prefix.len())
}

/// Whether the first is taken before the second.
fn is_before(left: &Queued, right: &Queued) -> bool
    ensures yes { result ≡ true → turn_key left.now < turn_key right.now }
    ensures no { result ≡ false → turn_key right.now ≤ turn_key left.now }
{
    let left_key = key_of(left.prefix);
    let right_key = key_of(right.prefix);
    if left.rank < right.rank {
        return true;
    }
    if right.rank < left.rank {
        return false;
    }
    left_key < right_key
}

/// How many are taken before this one, in a list in order.
pub fn count_before(order: &VecDeque<Queued>, queued: &Queued) -> usize
    ensures bound { result ≤ length order.now.items }
    ensures before { (d : QueuedValue) → 0 < result → turn_key (slice_index_or order.now.items (result - 1) d) < turn_key queued.now }
    ensures from { (d : QueuedValue) → result < length order.now.items
        → turn_key queued.now ≤ turn_key (slice_index_or order.now.items result d) }
{
    let mut low = 0;
    let mut high = order.len();
    while low < high {
        let middle = low + (high - low) / 2;
        if is_before(&order[middle], queued) {
            low = middle + 1;
        } else {
            high = middle;
        }
    }
    low
}
