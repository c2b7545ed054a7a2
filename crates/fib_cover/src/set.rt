// A set of prefixes.
ghost use Rattle.std.specs.Prelude.{◌≡◌, ◌≢◌, ◌≤◌, ◌<◌, ℕ, [], ◌⊎◌, ◌↔◌, Contains, IsTrue, IfOk, OnOk, OnErr, filter, length};
ghost use Rattle.std.specs.BTreeMap.Range.{IsLeBy, range_contains};
ghost use Rattle.fib_addr.specs.Prefixes.{Prefix as PrefixValue, IsPrefix};
ghost use Rattle.fib_cover.specs.Covers.{ArePrefixes, IsAscending, IsLongestMatch, is_inside, prefix_cmp};

use fib_addr::{Addr, Prefix};
use std::alloc::{AllocError, Global};
use std::collections::BTreeSet;
use std::collections::btree_set::{Iter, Range};
use std::marker::Model;
use std::ops::Bound;

/// A set of prefixes. Contracts see it as the list of its members in order of bits, then length.
pub struct PrefixSet {
    members: BTreeSet<Prefix>,
    /// For each length, whether a member may have it: look-ups pass over the other lengths.
    lengths: [bool; 33],
}

// The prover follows what a drop does here, once, and not at every way out past an owner.
impl Drop for PrefixSet {
    fn drop(self) {
        let PrefixSet {
            members: _,
            lengths: _,
        } = self;
    }
}

impl Model for PrefixSet {
    ghost use Rattle.std.specs.Prelude.{List};
    ghost use Rattle.fib_addr.specs.Prefixes.{Prefix as PrefixValue};

    ghost Value = { List PrefixValue };

    ghost view = { λ s. s.members.keys };

    ghost use Rattle.fib_cover.specs.inner.Lengths.{AreMembers};

    ghost invariant = { λ s. AreMembers s.lengths s.members.keys };
}

impl PrefixSet {
    /// The empty set, which takes no memory yet.
    pub fn new(alloc: Global) -> PrefixSet
        ensures { result ≡ [] }
    {
        PrefixSet {
            members: BTreeSet::new(alloc),
            lengths: [false; 33],
        }
    }

    /// The set of these prefixes.
    pub fn of(alloc: Global, prefixes: &[Prefix]) -> Result<PrefixSet, AllocError>
        ensures { IfOk result (λ v. (q : PrefixValue) → Contains v q ↔ Contains prefixes.now q) }
    {
        let mut set = PrefixSet::new(alloc);
        for p in prefixes {
            set.insert(*p)?;
        }
        Ok(set)
    }

    /// Takes the prefix in; true exactly where it was no member. Where no memory is left the set stays as it was.
    pub fn insert(&mut self, prefix: Prefix) -> Result<bool, AllocError>
        ensures changed { IfOk result (λ added. IsTrue added ↔ (Contains self.old prefix → ⊥)) }
        ensures members { OnOk result ((q : PrefixValue) → Contains self.new q ↔ Contains self.old q ⊎ (q ≡ prefix)) }
        ensures err { OnErr result (self.new ≡ self.old) }
        ensures ordered { IsAscending self.new }
    {
        let length = prefix.len();
        let added = self.members.insert(prefix)?;
        self.lengths[usize::from(length)] = true;
        Ok(added)
    }

    /// Takes the prefix out; true exactly where it was a member. Takes no memory.
    pub fn remove(&mut self, prefix: Prefix) -> bool
        ensures changed { IsTrue result ↔ Contains self.old prefix }
        ensures members { (q : PrefixValue) → Contains self.new q ↔ Contains self.old q × (q ≢ prefix) }
        ensures ordered { IsAscending self.new }
    {
        self.members.remove(&prefix)
    }

    /// The number of members, each of which is a prefix and stands once.
    pub fn len(&self) -> usize
        ensures len { result ≡ length self.now }
        ensures ordered { IsAscending self.now }
        ensures prefixes { ArePrefixes self.now }
    {
        self.members.len()
    }

    /// Whether there is no member.
    pub fn is_empty(&self) -> bool
        ensures { IsTrue result ↔ (self.now ≡ []) }
    {
        self.members.is_empty()
    }

    /// Whether the prefix is a member.
    pub fn contains(&self, prefix: Prefix) -> bool
        ensures { IsTrue result ↔ Contains self.now prefix }
    {
        self.members.contains(&prefix)
    }

    /// The longest member that contains the address; None exactly where no member does. At most one look-up for each length that members
    /// have had.
    pub fn best(&self, addr: Addr) -> Option<Prefix>
        ensures { IsLongestMatch self.now 33 addr result }
    {
        self.longest(addr, 33)
    }

    /// The longest member of a length below 32 that contains the address; None exactly where no such member does.
    pub fn cover(&self, addr: Addr) -> Option<Prefix>
        ensures { IsLongestMatch self.now 32 addr result }
    {
        self.longest(addr, 32)
    }

    /// The longest member of a length below the limit that contains the address; None exactly where no such member does. One look-up for each
    /// length that members have had, from the longest on.
    pub fn longest(&self, addr: Addr, limit: u8) -> Option<Prefix>
        requires { limit ≤ 33 }
        ensures { IsLongestMatch self.now limit addr result }
    {
        // Read so that the proof knows its range.
        let _number = addr.0;
        for len in (0..limit).rev() {
            if !self.lengths[usize::from(len)] {
                continue;
            }
            let prefix = Prefix::masked(addr, len);
            if self.members.contains(&prefix) {
                return Some(prefix);
            }
        }
        None
    }

    /// The members, in order, one after the other. Takes no memory.
    pub fn iter(&self) -> Iter<'_, Prefix>
        ensures { result ≡ self.now }
    {
        self.members.iter()
    }

    /// The members, in order.
    pub fn listed(&self, alloc: Global) -> Result<Vec<Prefix>, AllocError>
        ensures listed { IfOk result (λ v. v.items ≡ self.now) }
        ensures ordered { IsAscending self.now }
    {
        gather_all(alloc, &self.members)
    }

    /// The members inside the prefix, in order: those at least as long whose first address is one of it. Costs what it yields.
    pub fn inside(&self, alloc: Global, prefix: Prefix) -> Result<Vec<Prefix>, AllocError>
        ensures { IfOk result (λ v. v.items ≡ filter (is_inside prefix) self.now) }
    {
        // A length tells that it is a prefix: the bits past it are cleared.
        let _length = prefix.len();
        let last = Prefix::host(prefix.last());
        between(alloc, &self.members, prefix, last)
    }
}

/// The members from the first prefix to the last, in order.
fn between(
    alloc: Global,
    members: &BTreeSet<Prefix>,
    first: Prefix,
    last: Prefix,
) -> Result<Vec<Prefix>, AllocError>
    requires { IsLeBy prefix_cmp first last }
    ensures { IfOk result (λ v. v.items ≡ filter
        (range_contains prefix_cmp (Bound.Included first) (Bound.Included last)) members.now.keys) }
{
    gather(alloc, members.range(first..=last))
}

/// The prefixes that are left of a range.
fn gather(alloc: Global, part: Range<'_, Prefix>) -> Result<Vec<Prefix>, AllocError>
    ensures { IfOk result (λ v. v.items ≡ part.entry) }
{
    let mut out = Vec::new(alloc);
    for prefix in part {
        out.push(*prefix)?;
    }
    Ok(out)
}

/// The members of the set, in order.
fn gather_all(alloc: Global, members: &BTreeSet<Prefix>) -> Result<Vec<Prefix>, AllocError>
    ensures listed { IfOk result (λ v. v.items ≡ members.now.keys) }
    ensures ordered { IsAscending members.now.keys }
{
    // A length tells that the set's members ascend.
    let _count = members.len();
    let mut out = Vec::new(alloc);
    for member in members.iter() {
        out.push(*member)?;
    }
    Ok(out)
}
