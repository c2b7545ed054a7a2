// The prefixes of a table with their objects.
ghost use Rattle.std.specs.Prelude.{◌≡◌, ◌≢◌, ◌<◌, ◌-◌, ◌^◌, ◌≤◌, ◌↔◌, ◌+◌, ◌*◌, ℕ, None, Some, [], IfNone, IfSome, IsTrue, OnOk};
ghost use Rattle.fib_addr.specs.Prefixes.{Prefix as PrefixValue, IsPrefix};
ghost use Rattle.fib_core_promise.specs.Matches.{added, look_of, removed};
ghost use Rattle.fib_ply.specs.Rows.{ArePrefixes, held};
ghost use Rattle.fib_ply.specs.inner.Upto.{Begins, HasNone, IsCommon, IsLast};

use crate::set::Prefixes;
use fib_addr::{Addr, Prefix};
use fib_base_ordered::{Keyed, Ordered};
use std::alloc::{AllocError, Global};
use std::marker::Model;

/// A prefix with its object.
#[derive(Clone, Copy, Debug, PartialEq, Eq)]
pub struct Row {
    pub prefix: Prefix,
    pub object: u32,
}

impl Keyed for Row {
    ghost use Rattle.fib_ply.specs.Rows.{rank};

    ghost rank = { rank };

    fn key(&self) -> u64 {
        key_of(self.prefix)
    }
}

/// By bits, then by length.
fn key_of(prefix: Prefix) -> u64
    ensures key { result ≡ 64 * prefix.bits + prefix.len }
    ensures prefix { IsPrefix prefix }
{
    64 * u64::from(prefix.bits().0) + u64::from(prefix.len())
}

/// Prefixes with their objects, in order. Contracts see the rows, and for how many more there is room.
#[derive(Drop)]
pub struct Rows {
    rows: Ordered<Row>,
}

impl Model for Rows {
    ghost use Rattle.fib_base_ordered.specs.Sets.{Order};
    ghost use Rattle.fib_ply.specs.Rows.{ArePrefixes};
    ghost use Rattle.fib_ply.specs.declared.rows.Row.{Row as RowValue};

    ghost Value = { Order RowValue };

    ghost view = { λ s. s.rows };

    ghost invariant = { λ s. ArePrefixes s.rows.members };
}

impl Rows {
    /// No prefix yet, and no room.
    pub fn new(alloc: Global) -> Rows
        ensures { result.members ≡ [] }
    {
        Rows {
            rows: Ordered::new(alloc),
        }
    }

    /// Room for that many more.
    pub fn reserve(&mut self, alloc: Global, more: usize) -> Result<(), AllocError>
        ensures members { self.new.members ≡ self.old.members }
        ensures room { OnOk result (more ≤ self.new.spare) }
        ensures spare { self.old.spare ≤ self.new.spare }
    {
        self.rows.reserve(alloc, more)
    }

    /// The prefix's object.
    pub fn find(&self, prefix: Prefix) -> Option<u32>
        ensures { result ≡ held self.now.members prefix }
    {
        match self.rows.find(key_of(prefix)) {
            Some(row) => Some(row.object),
            None => None,
        }
    }

    /// The last row that stands no later than the block of the first `len` bits `top`: all prefixes that contain the block stand up to it.
    fn last_up_to(&self, len: u32, top: u32) -> Option<Row>
        requires len { len ≤ 32 }
        requires top { top < 2 ^ len }
        ensures some { IfSome result (λ r. IsLast (held self.now.members) len top r) }
        ensures none { IfNone result (HasNone (held self.now.members) len top) }
    {
        self.rows.last_below(key_of(prefix_of(len, top)) + 1)
    }

    /// Tells contracts that each row has a prefix.
    pub fn are_prefixes(&self)
        ensures { ArePrefixes self.now.members }
    {
        // Reading the rows tells what holds of each.
        let _ = &self.rows;
    }

    /// Takes a prefix in, for which there must be room.
    pub fn take_in(&mut self, prefix: Prefix, object: u32)
        requires absent { held self.old.members prefix ≡ None }
        requires room { 0 < self.old.spare }
        ensures held { held self.new.members ≡ added (held self.old.members) prefix object }
        ensures spare { self.old.spare ≤ self.new.spare + 1 }
    {
        // A length tells that it is a prefix: the bits past it are cleared.
        let _length = prefix.len();
        self.rows.insert(Row { prefix, object });
    }

    /// Takes a prefix out.
    pub fn take_out(&mut self, prefix: Prefix)
        ensures held { held self.new.members ≡ removed (held self.old.members) prefix }
        ensures spare { self.old.spare ≤ self.new.spare }
    {
        let _ = self.rows.remove(key_of(prefix));
    }
}

/// The prefix of this length with these first bits.
fn prefix_of(len: u32, top: u32) -> Prefix
    requires len { len ≤ 32 }
    requires top { top < 2 ^ len }
    ensures { result ≡ record { bits = top * 2 ^ (32 - len); len = len } }
{
    let first = u64::from(top) << (32 - len);
    Prefix::masked(Addr(first as u32), len as u8)
}

/// A block of addresses, by the length and the value of its first bits.
#[derive(Clone, Copy)]
struct Block {
    len: u32,
    top: u32,
}

/// Whether the prefix is that long and begins with these bits.
fn begins(prefix: Prefix, len: u32, top: u32) -> bool
    requires len { (0 < len) × (len ≤ 32) }
    ensures { IsTrue result ↔ Begins prefix len top }
{
    len <= u32::from(prefix.len()) && prefix.bits().0 >> (32 - len) == top
}

/// The longest block in which both the prefix and the block of the first `len` bits `top` lie.
fn common(prefix: Prefix, len: u32, top: u32) -> Block
    requires prefix { IsPrefix prefix }
    requires len { len ≤ 32 }
    requires top { top < 2 ^ len }
    ensures common { IsCommon prefix len top result.len result.top }
    ensures top { result.top < 2 ^ result.len }
{
    let mut n = len;
    let mut block = top;
    while n > 0 && !begins(prefix, n, block) {
        n -= 1;
        block /= 2;
    }
    Block { len: n, top: block }
}

impl Prefixes for Rows {
    ghost use Rattle.fib_core_promise.specs.Matches.{look_of};
    ghost use Rattle.fib_ply.specs.Rows.{held};

    ghost look = { λ s. look_of (held s.members) };

    ghost room = { λ s. s.spare };

    fn best(&self, len: u32, top: u32) -> Option<u32> {
        let mut n = len;
        let mut block = top;
        while n > 0 {
            let Some(row) = self.last_up_to(n, block) else {
                return None;
            };
            let common = common(row.prefix, n, block);
            if common.len == u32::from(row.prefix.len()) {
                return Some(row.object);
            }
            n = common.len;
            block = common.top;
        }
        self.find(prefix_of(0, block))
    }

    fn needs(&self, depth: u32, value: u32) -> bool {
        let shift = 32 - 4 * depth;
        let first = u64::from(value) << shift;
        let end = (u64::from(value) + 1) << shift;
        match self.rows.first_from(64 * first + u64::from(4 * depth + 1)) {
            Some(row) => row.key() < 64 * end,
            None => false,
        }
    }

    fn insert(&mut self, len: u32, top: u32, object: u32) {
        self.take_in(prefix_of(len, top), object);
    }

    fn remove(&mut self, len: u32, top: u32) {
        self.take_out(prefix_of(len, top));
    }
}
