// A turn of a prefix that left the entries.
ghost use Rattle.std.specs.Prelude.{◌≡◌, ◌+◌, ◌*◌, ◌<◌, ◌≤◌, ℕ, None, Some, Option};
ghost use Rattle.fib_addr.specs.Prefixes.{Prefix as PrefixValue};
ghost use Rattle.fib_resolve.specs.declared.types.Tables.{Tables as TablesValue};
ghost use Rattle.fib_stack_ledger.specs.Deferred.{late_at};
ghost use Rattle.fib_core_steady.specs.Aims.{IsLasting};
ghost use Rattle.fib_plane_view.specs.Promise.{IsBegun};
ghost use Rattle.fib_plane_view.specs.View.{IsBalance, View};
ghost use Rattle.fib_ply.specs.Tables.{Stands, object_in};
ghost use Rattle.fib_core_promise.specs.Matches.{FitsVersions};
ghost use Rattle.fib_stack.specs.Moments.{moment};
ghost use Rattle.fib_stack.specs.inner.Leaving.{FromLeaving, HasLeft, IsLeaving, WentFrom};

use crate::records::give_old;
use crate::stack::Stack;
use fib_addr::Prefix;
use fib_plane_view::Objects;
use fib_ply::PrefixTable;
use fib_stack_queue::Queue;

/// Takes the prefix out of the table, if it is there, and lets its balance go.
fn take_out<P: Objects>(on: &mut P, table: &mut PrefixTable, entry: Prefix)
    requires stands { Stands (P.promise on.old) table.old (P.view on.old) }
    requires fits { FitsVersions (P.promise on.old).versions (object_in table.old) }
    requires changing { (P.promise on.old).settled < (P.promise on.old).applied }
    requires prefix { 1 ≤ entry.len }
    requires leaves { IsLasting (P.promise on.old).versions entry → ⊥ }
    requires held { (o : ℕ) → object_in table.old entry ≡ Some o → IsBalance (P.view on.old) o }
    requires apart { (d : PrefixValue) (o : ℕ) → object_in table.old entry ≡ Some o → object_in table.old d ≡ Some o → d ≡ entry }
    requires spare { 16 * table.old.plies ≤ (P.view on.old).spare }
    ensures went { WentFrom (P.view on.old) (P.view on.new) (object_in table.old entry) }
    ensures free { (P.view on.old).free ≤ (P.view on.new).free }
    ensures here { object_in table.new entry ≡ None }
    ensures others { (d : PrefixValue) → (d ≡ entry → ⊥) → object_in table.new d ≡ object_in table.old d }
    ensures stands { Stands (P.promise on.new) table.new (P.view on.new) }
    ensures fits { FitsVersions (P.promise on.new).versions (object_in table.new) }
    ensures promise { P.promise on.new ≡ P.promise on.old }
{
    if let Some(object) = table.object(entry) {
        table.remove(on, entry);
        on.let_go(object);
    }
}

/// The prefix leaves the table with all that it held. There must be room for the edges that this replaces.
pub fn leave<P: Objects>(
    on: &mut P,
    stack: &mut Stack,
    table: &mut PrefixTable,
    queue: &mut Queue,
    entry: Prefix,
)
    requires left { (S : TablesValue) × (rank : PrefixValue → ℕ)
        × IsLeaving S rank (P.promise on.old) (moment (P.view on.old) table.old stack.old queue.old) entry }
    requires prefix { 1 ≤ entry.len }
    requires spare { 16 * table.old.plies ≤ (P.view on.old).spare }
    ensures turn { let before = moment (P.view on.old) table.old stack.old queue.old in
        let after = moment (P.view on.new) table.new stack.new queue.new in
        FromLeaving (P.promise on.old) before entry (λ S rank. HasLeft S rank (P.promise on.old) entry before after) }
    ensures clear { (k : ℕ) → late_at stack.new.late.members entry k ≡ None }
    ensures free { (P.view on.old).free ≤ (P.view on.new).free }
    ensures stored { (P.view on.old).stored ≤ (P.view on.new).stored }
    ensures promise { P.promise on.new ≡ P.promise on.old }
{
    take_out(on, table, entry);
    stack.late.clear(entry);
    let old = stack.ledger.forget(entry);
    give_old(on, &old);
    queue.remove(entry);
}
