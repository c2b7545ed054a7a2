// What a turn of an entry makes ready: all that may fail comes before its first put.
ghost use Rattle.std.specs.Prelude.{◌≡◌, ◌⊎◌, ◌+◌, ◌-◌, ◌*◌, ◌^◌, ◌<◌, ◌≤◌, ℕ, Bool, true, ◌&&◌, [], IfOk, IfSome, IfNone, OnErr, OnOk, Option, None};
ghost use Rattle.std.specs.Prelude.{Some, length, vec_capacity};
ghost use Rattle.fib_addr.specs.Prefixes.{Prefix as PrefixValue};
ghost use Rattle.fib_resolve.specs.Aims.{marked_list};
ghost use Rattle.fib_resolve.specs.Touched.{differ};
ghost use Rattle.fib_resolve.specs.declared.types.Tables.{Tables as TablesValue};
ghost use Rattle.fib_resolve_changes.specs.Ranks.{has_entry, wakes};
ghost use Rattle.fib_entries_rows.specs.Known.{StandsFor, rank_of};
ghost use Rattle.fib_stack_ledger.specs.Ledgers.{was_in};
ghost use Rattle.fib_core_steady.specs.Names.{Names};
ghost use Rattle.fib_plane_view.specs.Frames.{IsQuiet};
ghost use Rattle.fib_plane_view.specs.Promise.{MayClear, Promise as PromiseValue, Serves};
ghost use Rattle.fib_plane_view.specs.View.{HasRoom, IsBalance};
ghost use Rattle.fib_ply.specs.Tables.{Stands, object_in};
ghost use Rattle.fib_stack.specs.Calls.{TakesOnly};
ghost use Rattle.fib_stack.specs.Records.{SamePlane};
ghost use Rattle.fib_stack.specs.Moments.{parts_of};
ghost use Rattle.fib_stack.specs.inner.Readied.{GotObject, HasRoomFor, IsRead, balances_for};
ghost use Rattle.fib_stack.specs.inner.Turning.{ForTables};

use crate::records::{Want, give_all, take_all};
use crate::stack::{Plan, Stack};
use crate::wanted::{forwards, wanted};
use fib_addr::Prefix;
use fib_entries::Entries;
use fib_plane_view::Objects;
use fib_ply::PrefixTable;
use fib_pool::Kind;
use fib_stack_ledger::Ledger;
use fib_stack_queue::Queue;
use fib_stack_waking::woken_where;
use std::alloc::{AllocError, Global};

fn differs(left: bool, right: bool) -> bool
    ensures { result ≡ differ left right }
{
    if left { !right } else { right }
}

/// What the entry wants, and who is woken.
pub fn read(
    alloc: Global,
    ledger: &Ledger,
    entries: &Entries,
    entry: Prefix,
) -> Result<Plan, AllocError>
    requires { (S : TablesValue) × StandsFor entries.now S }
    ensures { ForTables entries.now (λ S. IfOk result (IsRead S (rank_of entries.now.rows) (was_in ledger.now.rows) entry)) }
{
    let marks = entries.marked(entry);
    let does = forwards(ledger, marks);
    let wanted = wanted(alloc, ledger, marks)?;
    let uses = Vec::with_capacity(alloc, marks.len())?;
    let changed = differs(ledger.forwarded(entry), does);
    let woken = woken_where(alloc, entries, entry, changed)?;
    Ok(Plan {
        entry,
        object: 0,
        forwards: does,
        wanted,
        uses,
        woken,
    })
}

/// All room for the rest of a turn.
pub fn make_room<P: Objects>(
    on: &mut P,
    stack: &mut Stack,
    table: &mut PrefixTable,
    queue: &mut Queue,
    uses: usize,
    woken: usize,
) -> Result<(), AllocError>
    requires stands { (p : PromiseValue) × Stands p table.old (P.view on.old) }
    ensures room { OnOk result (HasRoomFor (P.view on.new) stack.new table.new queue.new uses woken) }
    ensures parts { parts_of table.new stack.new queue.new ≡ parts_of table.old stack.old queue.old }
    ensures same { HasRoom (P.view on.old) (P.view on.new) }
    ensures promise { P.promise on.new ≡ P.promise on.old }
{
    let alloc = stack.late.allocator();
    table.room(on)?;
    stack.late.reserve(16)?;
    stack.ledger.reserve(uses)?;
    table.reserve(alloc, 1)?;
    queue.reserve(alloc, woken)
}

/// What a new entry may take: its balance, and a ply for each group of four bits below the root.
const NEEDED: u32 = 8;

/// The entry's balance, or one that is taken for it, where there are objects for its plies too.
pub fn object_for<P: Objects>(on: &mut P, table: &PrefixTable, entry: Prefix) -> Option<u32>
    requires { (o : ℕ) → object_in table.now entry ≡ Some o → IsBalance (P.view on.old) o }
    ensures some { IfSome result (GotObject (P.view on.old) (P.view on.new) (object_in table.now) entry) }
    ensures none { IfNone result (P.view on.new ≡ P.view on.old) }
    ensures short { IfNone result ((P.view on.old).free < 8) }
    ensures taken { (P.view on.old).free ≤ (P.view on.new).free + balances_for (object_in table.now entry) }
    ensures same { (o : ℕ) → object_in table.now entry ≡ Some o → P.view on.new ≡ P.view on.old }
    ensures calls { TakesOnly (P.view on.old) (P.view on.new) }
    ensures quiet { (look : PrefixValue → Option ℕ) → IsQuiet look (P.view on.old) (P.view on.new) }
    ensures serves { (n : Names) → Serves (P.promise on.old) n (P.view on.old) → Serves (P.promise on.old) n (P.view on.new) }
    ensures promise { P.promise on.new ≡ P.promise on.old }
{
    match table.object(entry) {
        Some(object) => Some(object),
        None => {
            if on.free() < NEEDED {
                return None;
            }
            on.take(Kind::Balance)
        }
    }
}
