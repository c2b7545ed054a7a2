// The prefix table's first prefixes, before the first change: each gets a balance that drops.
ghost use Rattle.std.specs.Prelude.{◌≡◌, ◌∷◌, ◌++◌, ◌*◌, ◌+◌, ◌<◌, ◌≤◌, [], IfOk, List, None, OnOk, length, map, true};
ghost use Rattle.fib_addr.specs.Longest.{everything};
ghost use Rattle.fib_addr.specs.Prefixes.{Prefix as PrefixValue};
ghost use Rattle.fib_entries_rows.specs.Known.{StandsFor, prefix_of};
ghost use Rattle.fib_resolve.specs.Tables.{fresh};
ghost use Rattle.fib_plane_view.specs.View.{HasRoom, IsTaken};
ghost use Rattle.fib_pool.specs.declared.object.Kind.TheVariants as kinds;
ghost use Rattle.fib_ply.specs.Tables.{Stands, object_in};
ghost use Rattle.fib_control_quiet.specs.Early.{IsTried};
ghost use Rattle.fib_plane.specs.Views.{IsBare};
ghost use Rattle.fib_stack_waking.specs.Waking.{is_among};
ghost use Rattle.fib_control.specs.inner.Starting.{IsStarted};

use fib_addr::Prefix;
use fib_entries::Entries;
use fib_plane_view::Objects;
use fib_ply::PrefixTable;
use fib_pool::Kind;
use std::alloc::{AllocError, Global};

// A balance that drops. An object must be free.
fn balance<P: Objects>(on: &mut P) -> u32
    requires free { 0 < (P.view on.old).free }
    ensures taken { IsTaken (P.view on.old) (P.view on.new) kinds.Balance result }
    ensures promise { P.promise on.new ≡ P.promise on.old }
{
    match on.take(Kind::Balance) {
        Some(object) => object,
        None => unreachable!(),
    }
}

// A table with 0.0.0.0/0 alone.
fn begin<P: Objects>(alloc: Global, on: &mut P) -> Result<PrefixTable, AllocError>
    requires bare { IsBare (P.promise on.old) (P.view on.old) }
    requires free { 63 ≤ (P.view on.old).free }
    ensures started { IfOk result (λ t. IsStarted (P.promise on.new) t (P.view on.new) (everything ∷ [])) }
    ensures promise { P.promise on.new ≡ P.promise on.old }
{
    let mut table = PrefixTable::new(alloc);
    table.reserve(alloc, 1)?;
    let object = balance(on);
    table.ready(on, object);
    Ok(table)
}

// Room for one prefix more, in the table and on the plane.
fn room_for_one<P: Objects>(
    alloc: Global,
    on: &mut P,
    table: &mut PrefixTable,
) -> Result<(), AllocError>
    requires tried { IsTried (P.promise on.old) table.old (P.view on.old) }
    ensures members { table.new.rows.members ≡ table.old.rows.members }
    ensures plies { table.new.plies ≡ table.old.plies }
    ensures room { OnOk result (0 < table.new.rows.spare) }
    ensures same { HasRoom (P.view on.old) (P.view on.new) }
    ensures spare { OnOk result (16 * (table.new.plies + 7) ≤ (P.view on.new).spare) }
    ensures stands { OnOk result (Stands (P.promise on.new) table.new (P.view on.new)) }
    ensures promise { P.promise on.new ≡ P.promise on.old }
{
    table.reserve(alloc, 1)?;
    table.room(on)
}

// Adds a prefix that isn't in the table, with a balance of its own.
fn add_new<P: Objects>(
    alloc: Global,
    on: &mut P,
    table: &mut PrefixTable,
    prefix: Prefix,
) -> Result<(), AllocError>
    requires started { (named : List PrefixValue) × IsStarted (P.promise on.old) table.old (P.view on.old) named
        × (is_among named everything ≡ true) × (length named < 7) }
    requires absent { object_in table.old prefix ≡ None }
    ensures started { (named : List PrefixValue) → IsStarted (P.promise on.old) table.old (P.view on.old) named
        → OnOk result (IsStarted (P.promise on.new) table.new (P.view on.new) (named ++ prefix ∷ [])) }
    ensures promise { P.promise on.new ≡ P.promise on.old }
{
    // A length tells that it is a prefix: the bits past it are cleared.
    let _length = prefix.len();
    let object = balance(on);
    room_for_one(alloc, on, table)?;
    table.add(on, prefix, object);
    Ok(())
}

// Adds a prefix if it isn't in the table.
fn place<P: Objects>(
    alloc: Global,
    on: &mut P,
    table: &mut PrefixTable,
    prefix: Prefix,
) -> Result<(), AllocError>
    requires { (named : List PrefixValue) × IsStarted (P.promise on.old) table.old (P.view on.old) named
        × (is_among named everything ≡ true) × (length named < 7) }
    ensures started { (named : List PrefixValue) → IsStarted (P.promise on.old) table.old (P.view on.old) named
        → OnOk result (IsStarted (P.promise on.new) table.new (P.view on.new) (named ++ prefix ∷ [])) }
    ensures promise { P.promise on.new ≡ P.promise on.old }
{
    if table.object(prefix).is_some() {
        return Ok(());
    }
    add_new(alloc, on, table, prefix)
}

/// A table with 0.0.0.0/0 and the entries of the fresh tables, each at a balance of its own that drops.
pub fn first_table<P: Objects>(
    alloc: Global,
    on: &mut P,
    entries: &Entries,
) -> Result<PrefixTable, AllocError>
    requires bare { IsBare (P.promise on.old) (P.view on.old) }
    requires free { 63 ≤ (P.view on.old).free }
    requires entries { StandsFor entries.now fresh }
    ensures started { IfOk result (λ t. IsStarted (P.promise on.new) t (P.view on.new) (everything ∷ map prefix_of entries.now.rows)) }
    ensures promise { P.promise on.new ≡ P.promise on.old }
{
    let mut table = begin(alloc, on)?;
    for row in 0..entries.len() {
        place(alloc, on, &mut table, entries.at(row))?;
    }
    Ok(table)
}
