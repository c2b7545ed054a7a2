// The entries after a change.
ghost use Rattle.std.specs.Prelude.{◌≡◌, Some, map, option_copied, length, slice_get, option_and_then, Contains, IfOk, IfSome, ◌<◌};
ghost use Rattle.fib_addr.specs.Prefixes.{same_prefix};
ghost use Rattle.fib_cover.specs.Covers.{IsAscending};
ghost use Rattle.fib_resolve.specs.Pairs.{chosen, cover, is_derived};
ghost use Rattle.fib_resolve.specs.Forwarding.{is_met};
ghost use Rattle.fib_resolve.specs.declared.types.Path.{Path as PathValue};
ghost use Rattle.fib_resolve.specs.declared.types.PathKind.TheVariants as kinds;
ghost use Rattle.fib_resolve.specs.declared.types.Tables.{Tables as TablesValue};
ghost use Rattle.fib_resolve_changes.specs.Ranks.{has_entry};
ghost use Rattle.fib_resolve_pairs.specs.Numbers.{goal_of};
ghost use Rattle.fib_follow_view.specs.Views.{IsAfter, anew_prefix, is_changed, made_of};
ghost use Rattle.fib_follow_view.specs.inner.Told.{chosen_in, cover_by, derived_in, entry_in, goals_in, met_in};

use crate::before::Before;
use crate::parts;
use fib_addr::{Addr, Prefix};
use fib_base_blocks::{Blocks, Sought};
use fib_base_list::List;
use fib_resolve::{Need, Pair, Path};
use std::alloc::{AllocError, Global};
use std::cmp::Ordering;
use std::marker::Model;

/// An entry that was made anew.
#[derive(Drop)]
pub struct Anew {
    pub prefix: Prefix,
    /// Its pairs, the best first; none where the prefix is no entry.
    pub pairs: List<Pair>,
    /// The cover of a host; of no meaning for a shorter prefix.
    pub cover: Prefix,
}

impl Sought<Anew> for Prefix {
    ghost use Rattle.fib_cover.specs.Covers.{prefix_cmp};

    ghost order = { λ p x. prefix_cmp x.prefix p };

    fn compare(&self, x: &Anew) -> Ordering {
        x.prefix.cmp(self)
    }
}

/// The place of what was made anew of the prefix.
fn place_of(changed: &Blocks<Anew>, e: Prefix) -> Option<usize>
    requires { IsAscending (map anew_prefix changed.now) }
    ensures value { option_and_then (slice_get changed.now) result ≡ made_of changed.now e }
    ensures inside { IfSome result (λ k. k < length changed.now) }
{
    match changed.search(&e) {
        Ok(place) => Some(place),
        Err(_) => None,
    }
}

/// What was made anew of the prefix.
fn made<'a>(changed: &'a Blocks<Anew>, e: Prefix) -> Option<&'a Anew>
    requires { IsAscending (map anew_prefix changed.now) }
    ensures { option_copied result ≡ made_of changed.now e }
{
    match place_of(changed, e) {
        Some(place) => changed.get(place),
        None => None,
    }
}

/// The entries as they are after a change: those that were made anew, and beside them those of before. `IsAfter` says of which tables
/// before and after it they are.
pub struct View<'a> {
    before: Before<'a>,
    changed: &'a Blocks<Anew>,
}

// The prover follows what a drop does here, once, and not at every way out past an owner.
impl Drop for View<'_> {
    fn drop(self) {
        let View {
            before: _,
            changed: _,
        } = self;
    }
}

impl<'a> Model for View<'a> {
    ghost use Rattle.std.specs.Prelude.{map};
    ghost use Rattle.fib_cover.specs.Covers.{IsAscending};
    ghost use Rattle.fib_follow_view.specs.Views.{Seen, anew_prefix};

    ghost Value = { Seen };

    ghost view = { λ s. record { before = s.before; changed = s.changed.now } };

    ghost invariant = { λ s. IsAscending (map anew_prefix s.changed.now) };
}

impl<'a> View<'a> {
    /// Those of before, with these made anew, in order.
    pub fn new(before: Before<'a>, changed: &'a Blocks<Anew>) -> View<'a>
        requires { IsAscending (map anew_prefix changed.now) }
        ensures { result ≡ record { before = before.entry; changed = changed.now } }
    {
        View { before, changed }
    }

    /// The entries before the change.
    pub fn before(&self) -> &Before<'a>
        ensures { result.now ≡ self.now.before }
    {
        &self.before
    }

    /// The entries that were made anew, in order.
    pub fn changed(&self) -> &'a Blocks<Anew>
        ensures changed { result.now ≡ self.now.changed }
        ensures ordered { IsAscending (map anew_prefix self.now.changed) }
    {
        self.changed
    }

    /// What was made anew of the prefix; None exactly where nothing was.
    pub fn made(&self, e: Prefix) -> Option<&'a Anew>
        ensures { option_copied result ≡ made_of self.now.changed e }
    {
        made(self.changed, e)
    }

    /// Whether the prefix's entry was made anew.
    pub fn is_changed(&self, e: Prefix) -> bool
        ensures { result ≡ is_changed self.now.changed e }
    {
        match self.made(e) {
            Some(_) => true,
            None => false,
        }
    }

    /// Whether the prefix is an entry.
    pub fn is_entry(&self, e: Prefix) -> bool
        ensures value { result ≡ entry_in self.now e }
        ensures after { (S T : TablesValue) → IsAfter self.now S T → result ≡ has_entry T e }
    {
        match self.made(e) {
            Some(x) => parts::are_some(x.pairs.as_slice()),
            None => self.before.is_entry(e),
        }
    }

    /// The prefix's chosen list, empty where it is no entry.
    pub fn chosen(&self, e: Prefix) -> &'a [Path]
        ensures value { result.now ≡ chosen_in self.now e }
        ensures after { (S T : TablesValue) → IsAfter self.now S T → result.now ≡ chosen T e }
    {
        match self.made(e) {
            Some(x) => parts::first_paths(x.pairs.as_slice()),
            None => self.before.chosen(e),
        }
    }

    /// Whether the prefix's best source is recursive resolution.
    pub fn is_derived(&self, e: Prefix) -> bool
        ensures value { result ≡ derived_in self.now e }
        ensures after { (S T : TablesValue) → IsAfter self.now S T → result ≡ is_derived T e }
    {
        match self.made(e) {
            Some(x) => parts::is_pair_derived(x.pairs.as_slice()),
            None => self.before.is_derived(e),
        }
    }

    /// Whether the need of a path with that next hop is met.
    pub fn is_met(&self, need: Need, a: Addr) -> bool
        ensures value { result ≡ met_in self.now need a }
        ensures after { (S T : TablesValue) → IsAfter self.now S T → result ≡ is_met T need a }
    {
        match need {
            Need::Any => true,
            Need::Host => !self.is_derived(Prefix::host(a)),
            Need::Attached => parts::is_attached_list(self.chosen(Prefix::host(a))),
        }
    }

    /// Where each path of the prefix's chosen list leads.
    pub fn goals(&self, alloc: Global, e: Prefix) -> Result<Vec<Option<Prefix>>, AllocError>
        ensures value { IfOk result (λ v. v.items ≡ goals_in self.now e) }
        ensures after { IfOk result (λ v. (S T : TablesValue) → IsAfter self.now S T
            → v.items ≡ map (λ p. goal_of T e p.kind) (chosen T e)) }
    {
        match self.made(e) {
            Some(x) => parts::kind_goals(alloc, x.cover, parts::first_paths(x.pairs.as_slice())),
            None => self.before.goals(alloc, e),
        }
    }

    /// The prefix's cover, where a path of its chosen list leads there.
    pub fn cover(&self, e: Prefix) -> Option<Prefix>
        ensures value { result ≡ cover_by self.now.before e (made_of self.now.changed e) }
        ensures after { (S T : TablesValue) (p : PathValue) → IsAfter self.now S T → Contains (chosen T e) p → p.kind ≡ kinds.Cover
            → result ≡ Some (cover T e.bits) }
    {
        match self.made(e) {
            Some(x) => Some(x.cover),
            None => self.before.cover(e),
        }
    }
}
