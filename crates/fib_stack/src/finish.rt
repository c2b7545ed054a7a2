// A turn of an entry, from its first put on: nothing can fail.
ghost use Rattle.std.specs.Prelude.{◌≡◌, ◌⊎◌, ◌+◌, ◌*◌, ◌<◌, ◌≤◌, ℕ, Bool, None, Some, Option, length};
ghost use Rattle.fib_addr.specs.Prefixes.{Prefix as PrefixValue};
ghost use Rattle.fib_resolve.specs.declared.types.Tables.{Tables as TablesValue};
ghost use Rattle.fib_stack_ledger.specs.Deferred.{late_at, late_count};
ghost use Rattle.fib_plane_view.specs.Frames.{Beside};
ghost use Rattle.fib_plane_view.specs.Promise.{IsBegun};
ghost use Rattle.fib_plane_view.specs.View.{IsBalance, View};
ghost use Rattle.fib_ply.specs.Tables.{Came, Stands, object_in};
ghost use Rattle.fib_core_promise.specs.Matches.{FitsVersions, IsSometime};
ghost use Rattle.fib_stack.specs.Calls.{GivesOnly};
ghost use Rattle.fib_stack.specs.Moments.{moment};
ghost use Rattle.fib_stack.specs.inner.Readied.{EndsTurn, FromUnderway, HasRoomFor, IsUnderway};

use crate::defer::defer;
use crate::records::give_old;
use crate::sixteen::fill;
use crate::stack::{Plan, Stack};
use crate::words::words_of;
use fib_addr::Prefix;
use fib_base_list::List;
use fib_plane_view::Objects;
use fib_ply::PrefixTable;
use fib_stack_ledger::Known;
use fib_stack_queue::Queue;
use fib_stack_waking::wake_all;

/// Enters the prefix at the balance, unless it is there.
fn place<P: Objects>(on: &mut P, table: &mut PrefixTable, entry: Prefix, object: u32)
    requires which { (object_in table.old entry ≡ Some object) ⊎ (object_in table.old entry ≡ None) }
    requires stands { Stands (P.promise on.old) table.old (P.view on.old) }
    requires fits { FitsVersions (P.promise on.old).versions (object_in table.old) }
    requires begun { IsBegun (P.promise on.old) }
    requires sometime { IsSometime (P.promise on.old).versions entry }
    requires balance { IsBalance (P.view on.old) object }
    requires free { object_in table.old entry ≡ None → 7 ≤ (P.view on.old).free }
    requires spare { 16 * (table.old.plies + 7) ≤ (P.view on.old).spare }
    requires room { 0 < table.old.rows.spare }
    ensures here { object_in table.new entry ≡ Some object }
    ensures others { (d : PrefixValue) → (d ≡ entry → ⊥) → object_in table.new d ≡ object_in table.old d }
    ensures stands { Stands (P.promise on.new) table.new (P.view on.new) }
    ensures fits { FitsVersions (P.promise on.new).versions (object_in table.new) }
    ensures beside { Beside (P.view on.old) (P.view on.new) }
    ensures given { GivesOnly (P.view on.old) (P.view on.new) }
    ensures same { object_in table.old entry ≡ Some object → P.view on.new ≡ P.view on.old }
    ensures came { (count : ℕ) × Came (object_in table.old) entry count × ((P.view on.old).free ≤ (P.view on.new).free + count) }
    ensures stored { (P.view on.old).stored ≤ (P.view on.new).stored }
    ensures promise { P.promise on.new ≡ P.promise on.old }
{
    // A length tells that it is a prefix: the bits past it are cleared.
    let _length = entry.len();
    if table.object(entry).is_none() {
        table.add(on, entry, object);
    }
}

/// The rest of the turn. Answers how many buckets it left deferred.
pub fn finish<P: Objects>(
    on: &mut P,
    stack: &mut Stack,
    table: &mut PrefixTable,
    queue: &mut Queue,
    plan: Plan,
) -> u32
    requires underway { (S : TablesValue) × (rank : PrefixValue → ℕ) × (v : View)
        × IsUnderway S rank (P.promise on.old) v (moment (P.view on.old) table.old stack.old queue.old) plan }
    requires room { HasRoomFor (P.view on.old) stack.old table.old queue.old (length plan.uses.items) (length plan.woken.items) }
    ensures turn { let before = moment (P.view on.old) table.old stack.old queue.old in
        let after = moment (P.view on.new) table.new stack.new queue.new in
        FromUnderway (P.promise on.old) before plan (λ S rank v. EndsTurn S rank (P.promise on.old) v plan before after) }
    ensures came { (count : ℕ) × Came (object_in table.old) plan.entry count × ((P.view on.old).free ≤ (P.view on.new).free + count) }
    ensures count { result ≡ late_count (late_at stack.new.late.members plan.entry) 16 }
    ensures stored { (P.view on.old).stored ≤ (P.view on.new).stored }
    ensures promise { P.promise on.new ≡ P.promise on.old }
{
    let words = words_of(table, plan.uses.as_slice(), plan.wanted.as_slice());
    stack.late.clear(plan.entry);
    let answers = fill(on, plan.object, &words);
    let deferred = defer(&mut stack.late, plan.entry, &words, &answers);
    let known = Known {
        forwarded: plan.forwards,
        uses: List::from_vec(plan.uses),
    };
    let old = stack.ledger.set(plan.entry, known);
    give_old(on, &old);
    place(on, table, plan.entry, plan.object);
    queue.remove(plan.entry);
    wake_all(queue, plan.woken.as_slice());
    deferred
}
