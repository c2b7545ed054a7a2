// Deferred buckets are tried again.
ghost use Rattle.std.specs.Prelude.{◌≡◌, ◌<◌, ◌≤◌, ℕ, Option, Some, [], length, remove, slice_index_or, true, false};
ghost use Rattle.fib_addr.specs.Prefixes.{Prefix as PrefixValue};
ghost use Rattle.fib_resolve.specs.declared.types.Tables.{Tables as TablesValue};
ghost use Rattle.fib_resolve_changes.specs.Ranks.{IsRanked};
ghost use Rattle.fib_core.specs.declared.word.Word.{Word as WordValue};
ghost use Rattle.fib_stack_ledger.specs.declared.late.Late.{Late as LateValue};
ghost use Rattle.fib_stack_ledger.specs.Deferred.{late_at};
ghost use Rattle.fib_plane_view.specs.Frames.{IsQuiet};
ghost use Rattle.fib_stack.specs.Done.{IsRetryDone, LeavesRoom, StaysLate};
ghost use Rattle.fib_stack.specs.Joined.{Joined, queued_in};
ghost use Rattle.fib_stack.specs.Moments.{FromJoined, moment, parts_of};
ghost use Rattle.fib_stack.specs.inner.Growing.{Grew};

use crate::stack::Stack;
use fib_plane_view::{Objects, Put};
use fib_ply::PrefixTable;
use fib_stack_queue::Queue;

/// Tries the deferred bucket at that place of the list, unless its prefix is queued. Answers whether it left the list, since its word is
/// there now.
fn try_at<P: Objects>(
    on: &mut P,
    stack: &mut Stack,
    table: &PrefixTable,
    queue: &Queue,
    place: u32,
) -> bool
    requires joined { (S : TablesValue) × (rank : PrefixValue → ℕ)
        × Joined S rank (P.promise on.old) (P.view on.old) (parts_of table.now stack.old queue.now) }
    requires place { place < length stack.old.late.members }
    ensures tried { let before = moment (P.view on.old) table.now stack.old queue.now in
        let after = moment (P.view on.new) table.now stack.new queue.now in
        FromJoined (P.promise on.old) before (λ S rank. IsRetryDone S rank (P.promise on.old) before after) }
    ensures done { result ≡ true → stack.new.late.members ≡ remove stack.old.late.members place }
    ensures left { result ≡ false → stack.new.late.members ≡ stack.old.late.members }
    ensures why { result ≡ false → (d : LateValue) → slice_index_or stack.old.late.members place d ≡ d
        → StaysLate (P.view on.new) (parts_of table.now stack.new queue.now) d.entry d.word }
    ensures grew { Grew (P.view on.old) (P.view on.new) }
    ensures quiet { (look : PrefixValue → Option ℕ) → IsQuiet look (P.view on.old) (P.view on.new) }
    ensures promise { P.promise on.new ≡ P.promise on.old }
{
    // A length of the list tells that each deferred bucket stands there once, at a slot below sixteen.
    let _listed = stack.late.len();
    let next = stack.late.at(place);
    if queue.is_queued(next.entry) {
        return false;
    }
    let Some(object) = table.object(next.entry) else {
        // A prefix without a balance has no bucket.
        unreachable!()
    };
    match on.put(object, next.slot, next.word) {
        Put::Dropped => false,
        Put::Same | Put::Stored => {
            stack.late.take_out(place);
            true
        }
    }
}

impl Stack {
    /// Tries each deferred bucket whose prefix isn't queued, in the list's order: the word is stored where it closes no cycle any more, and the
    /// bucket is deferred no longer. Answers how many are deferred still.
    ///
    /// The deferred buckets of a queued prefix stay as they are until its turn. No room is asked for, since what these stores replace is no edge.
    pub fn retry<P: Objects>(&mut self, on: &mut P, table: &PrefixTable, queue: &Queue) -> u32
        requires { (S : TablesValue) × (rank : PrefixValue → ℕ) × Joined S rank (P.promise on.old) (P.view on.old)
            (parts_of table.now self.old queue.now) }
        ensures retried { let before = moment (P.view on.old) table.now self.old queue.now in
            let after = moment (P.view on.new) table.now self.new queue.now in
            FromJoined (P.promise on.old) before (λ S rank. IsRetryDone S rank (P.promise on.new) before after) }
        ensures left { result ≡ length self.new.late.members }
        ensures why { (e : PrefixValue) (k : ℕ) (w : WordValue) → late_at self.new.late.members e k ≡ Some w
            → StaysLate (P.view on.new) (parts_of table.now self.new queue.now) e w }
        ensures calm { let before = moment (P.view on.old) table.now self.old queue.now in
            FromJoined (P.promise on.old) before (λ S rank. IsRanked S rank
            → ((e : PrefixValue) → queued_in before.parts e ≡ false) → before.view.retired ≡ [] → result ≡ 0) }
        ensures retired { (P.view on.new).retired ≡ (P.view on.old).retired }
        ensures quiet { (look : PrefixValue → Option ℕ) → IsQuiet look (P.view on.old) (P.view on.new) }
        ensures free { (P.view on.old).free ≤ (P.view on.new).free }
        ensures room { let before = moment (P.view on.old) table.now self.old queue.now in
            let after = moment (P.view on.new) table.now self.new queue.now in
            (S : TablesValue) → LeavesRoom S before after }
        ensures stored { (P.view on.old).stored ≤ (P.view on.new).stored }
        ensures promise { P.promise on.new ≡ P.promise on.old }
    {
        let mut place = 0;
        while place < self.late.len() {
            if !try_at(on, self, table, queue, place) {
                place += 1;
            }
        }
        self.late.len()
    }
}
