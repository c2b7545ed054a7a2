// The prefixes that come and go, and what covers an entry afterwards.
ghost use Rattle.std.specs.Prelude.{◌≡◌, ◌↔◌, ◌⊎◌, [], true, false, List, Contains, IfOk, OnOk};
ghost use Rattle.fib_addr.specs.Prefixes.{Prefix as PrefixValue};
ghost use Rattle.fib_cover.specs.Covers.{ArePrefixes, IsLongestMatch};
ghost use Rattle.fib_follow_features.specs.FoundBy.{cover_among};
ghost use Rattle.fib_follow_looked.specs.inner.Adding.{Adds, AddsEach};
ghost use Rattle.fib_follow_plan.specs.inner.Telling.{AreSo, IsMerged, IsNearest, has_so, is_so};

use crate::lists::has_pairs;
use fib_addr::{Addr, Prefix};
use fib_base_blocks::Blocks;
use fib_cover::PrefixSet;
use fib_follow_looked::{longer, longest_beside};
use fib_follow_view::{Anew, View};
use std::alloc::{AllocError, Global};

/// The prefixes of entries made anew.
pub struct Covers {
    /// Those that are entries afterwards.
    pub come: PrefixSet,
    /// Those that are none.
    pub gone: PrefixSet,
}

// The prover follows what a drop does here, once, and not at every way out past an owner.
impl Drop for Covers {
    fn drop(self) {
        let Covers { come: _, gone: _ } = self;
    }
}

fn is_so(x: &Anew, is: bool) -> bool
    ensures { result ≡ is_so is x.now }
{
    if is { has_pairs(x) } else { !has_pairs(x) }
}

fn add_one(set: &mut PrefixSet, e: Prefix) -> Result<(), AllocError>
    ensures { OnOk result ((q : PrefixValue) → Contains set.new q ↔ Contains set.old q ⊎ (q ≡ e)) }
{
    set.insert(e)?;
    Ok(())
}

/// Puts the prefix to the set where it has pairs, or where it has none.
fn add_so(set: &mut PrefixSet, x: &Anew, is: bool) -> Result<(), AllocError>
    ensures { OnOk result (Adds (has_so is x.now) set.old set.new) }
{
    if is_so(x, is) {
        return add_one(set, x.prefix);
    }
    Ok(())
}

/// The prefixes that have pairs, or those that have none.
fn those(alloc: Global, changed: &Blocks<Anew>, is: bool) -> Result<PrefixSet, AllocError>
    ensures each { IfOk result (λ v. AddsEach (has_so is) changed.now [] v) }
    ensures prefixes { IfOk result ArePrefixes }
{
    let mut set = PrefixSet::new(alloc);
    'changed: for place in 0..changed.len() {
        add_so(&mut set, &changed[place], is)?;
    }
    // A length tells that they are prefixes.
    let _count = set.len();
    Ok(set)
}

/// The longest of the prefixes that is shorter and contains this one, that of every address where none does.
pub fn above(order: &PrefixSet, q: Prefix) -> Prefix
    ensures { (c : PrefixValue) → IsNearest order.now q c → result ≡ c }
{
    // Read so that the proof knows that members are prefixes.
    let _count = order.len();
    match order.longest(q.bits(), q.len()) {
        Some(cover) => cover,
        None => Prefix::masked(Addr(0), 0),
    }
}

impl Covers {
    /// Those of the view.
    pub fn of(alloc: Global, view: &View<'_>) -> Result<Covers, AllocError>
        ensures come { IfOk result (λ x. AreSo true view.now.changed x.come) }
        ensures gone { IfOk result (λ x. AreSo false view.now.changed x.gone) }
        ensures prefixes { IfOk result (λ x. ArePrefixes x.come) }
    {
        let come = those(alloc, view.changed(), true)?;
        let gone = those(alloc, view.changed(), false)?;
        Ok(Covers { come, gone })
    }

    /// The longest prefix below 32 that contains the address afterwards, where these were all before.
    fn longest(&self, order: &PrefixSet, addr: Addr) -> Option<Prefix>
        ensures { (after : List PrefixValue) → IsMerged order.now self.now after → IsLongestMatch after 32 addr result }
    {
        longer(
            longest_beside(order, &self.gone, addr, 32),
            self.come.longest(addr, 32),
        )
    }

    /// The cover of an entry afterwards, where these were the prefixes of all entries before.
    pub fn cover(&self, order: &PrefixSet, e: Prefix) -> Prefix
        ensures { (after : List PrefixValue) → IsMerged order.now self.now after → result ≡ cover_among after e }
    {
        let addr = e.bits();
        // Read so that the proof knows the address's range, and that members are prefixes.
        let _number = addr.0;
        let _count = order.len();
        let _more = self.come.len();
        match self.longest(order, addr) {
            Some(cover) => cover,
            None => Prefix::masked(Addr(0), 0),
        }
    }
}
