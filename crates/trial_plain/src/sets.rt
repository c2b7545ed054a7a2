// Random sets of prefixes against the plain longest match.
ghost use Rattle.std.specs.Prelude.{OnOk};
ghost use Rattle.fib_control_quiet.specs.Early.{IsTried};

use crate::prefixes::{add_new, answer, remove};
use crate::trouble::Trouble;
use fib_addr::{Addr, Prefix};
use fib_plane_view::Objects;
use fib_ply::PrefixTable;
use std::alloc::Global;

/// Numbers without a pattern, the same in each run.
#[derive(Drop)]
pub struct Numbers {
    state: u64,
}

impl Numbers {
    /// From that number on.
    pub fn new(state: u64) -> Numbers {
        Numbers { state }
    }

    fn next(&mut self) -> u32 {
        self.state = self
            .state
            .wrapping_mul(6364136223846793005)
            .wrapping_add(1442695040888963407);
        (self.state >> 32) as u32
    }

    // Few bits differ, so that prefixes often lie in each other.
    fn prefix(&mut self) -> Prefix {
        let bits = self.next() & 0x8C11_8D07;
        let len = 1 + self.next() % 32;
        Prefix::masked(Addr(bits), len as u8)
    }
}

/// A prefix that was added, with its balance.
#[derive(Clone, Copy)]
struct Row {
    prefix: Prefix,
    object: u32,
}

// The object of the longest prefix that contains the address.
fn longest(rows: &[Row], addr: Addr) -> Option<u32> {
    let mut found = None;
    let mut len = 0;
    for row in rows {
        if row.prefix.contains(addr) && row.prefix.len() >= len {
            found = Some(row.object);
            len = row.prefix.len();
        }
    }
    found
}

// Whether the plies lead an address to the longest match.
fn is_led<P: Objects>(on: &P, table: &PrefixTable, rows: &[Row], addr: Addr) -> bool
    requires { IsTried (P.promise on.now) table.now (P.view on.now) }
{
    answer(on, table, addr) == longest(rows, addr)
}

// The same of both ends of each prefix, and of the addresses next to them.
fn are_led<P: Objects>(on: &P, table: &PrefixTable, rows: &[Row]) -> bool
    requires { IsTried (P.promise on.now) table.now (P.view on.now) }
{
    for row in rows {
        let first = row.prefix.bits().0;
        let last = row.prefix.last().0;
        for addr in [first, last, first.wrapping_sub(1), last.wrapping_add(1)] {
            if !is_led(on, table, rows, Addr(addr)) {
                return false;
            }
        }
    }
    true
}

// A further prefix, unless the table has it.
fn grow<P: Objects>(
    alloc: Global,
    on: &mut P,
    table: &mut PrefixTable,
    rows: &mut Vec<Row>,
    prefix: Prefix,
) -> Result<(), Trouble>
    requires { IsTried (P.promise on.old) table.old (P.view on.old) }
    ensures { OnOk result (IsTried (P.promise on.new) table.new (P.view on.new)) }
{
    if table.object(prefix).is_some() {
        return Ok(());
    }
    add_new(alloc, on, table, prefix)?;
    if let Some(object) = table.object(prefix) {
        let Ok(()) = rows.push(Row { prefix, object }) else {
            return Err(Trouble::Memory);
        };
    }
    Ok(())
}

// Up to eight further prefixes.
fn grow_all<P: Objects>(
    alloc: Global,
    on: &mut P,
    table: &mut PrefixTable,
    rows: &mut Vec<Row>,
    numbers: &mut Numbers,
) -> Result<(), Trouble>
    requires { IsTried (P.promise on.old) table.old (P.view on.old) }
    ensures { OnOk result (IsTried (P.promise on.new) table.new (P.view on.new)) }
{
    for _turn in 0..8 {
        grow(alloc, on, table, rows, numbers.prefix())?;
    }
    Ok(())
}

/// Adds random prefixes, each with a balance of its own. Whether the table leads all ends right, and does so when a prefix has left.
pub fn is_right<P: Objects>(
    alloc: Global,
    on: &mut P,
    table: &mut PrefixTable,
    numbers: &mut Numbers,
) -> Result<bool, Trouble>
    requires { IsTried (P.promise on.old) table.old (P.view on.old) }
{
    let prefix = Prefix::masked(Addr(0), 0);
    let Some(object) = table.object(prefix) else {
        return Ok(false);
    };
    let mut rows = Vec::new(alloc);
    let Ok(()) = rows.push(Row { prefix, object }) else {
        return Err(Trouble::Memory);
    };
    grow_all(alloc, on, table, &mut rows, numbers)?;
    if !are_led(on, table, &rows) {
        return Ok(false);
    }
    let Some(row) = rows.pop() else {
        return Ok(false);
    };
    remove(on, table, row.prefix)?;
    Ok(are_led(on, table, &rows))
}
