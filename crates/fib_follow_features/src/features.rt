// The entries that have each feature.
ghost use Rattle.std.specs.Prelude.{◌≡◌, ◌∷◌, [], ◌↔◌, ◌⊎◌, None, Contains, OnOk, OnErr, IsTrue, filter, option_copied, IfOk};
ghost use Rattle.std.specs.Map.{lookup};
ghost use Rattle.fib_addr.specs.Prefixes.{Prefix as PrefixValue};
ghost use Rattle.fib_cover.specs.Covers.{is_inside};
ghost use Rattle.fib_follow_features.specs.declared.feature.Feature.{Feature as FeatureValue};
ghost use Rattle.fib_entries_rows.specs.inner.Building.{AreHeld};
ghost use Rattle.fib_entries_rows.specs.inner.Compare.{AreKept};
ghost use Rattle.fib_follow_features.specs.FoundBy.{row_features, AreExact};
ghost use Rattle.fib_follow_features.specs.Holders.{holders, members_of, same_feature, Forgets, Notes, NotesSome};
ghost use Rattle.fib_follow_features.specs.inner.Puts.{Puts, TakesOut, AreSame};

use crate::feature::Feature;
use crate::found_by;
use fib_addr::Prefix;
use fib_base_blocks::Blocks;
use fib_cover::PrefixSet;
use fib_entries_rows::Row;
use fib_paths::PathLists;
use std::alloc::{AllocError, Global};
use std::collections::HashMap;
use std::marker::Model;

/// For each feature, the entries that are found by it. Contracts see the features with these. An entry may be found by a feature that it
/// has no more: its row tells.
pub struct Features {
    sets: HashMap<Feature, PrefixSet>,
    alloc: Global,
}

// The prover follows what a drop does here, once, and not at every way out past an owner.
impl Drop for Features {
    fn drop(self) {
        let Features { sets: _, alloc: _ } = self;
    }
}

impl Model for Features {
    ghost use Rattle.std.specs.Prelude.{List};
    ghost use Rattle.fib_follow_features.specs.Holders.{Holders};

    ghost Value = { List Holders };

    ghost view = { λ s. s.sets.entries };
}

/// One more in the set.
fn insert(set: &mut PrefixSet, e: Prefix) -> Result<(), AllocError>
    ensures ok { OnOk result ((q : PrefixValue) → Contains set.new q ↔ Contains set.old q ⊎ (q ≡ e)) }
    ensures err { OnErr result (set.new ≡ set.old) }
{
    match set.insert(e) {
        Ok(_) => Ok(()),
        Err(fault) => Err(fault),
    }
}

/// The entry of the row is found by all that it has.
fn note_row(
    found: &mut Features,
    alloc: Global,
    lists: &PathLists,
    order: &PrefixSet,
    row: &Row,
) -> Result<(), AllocError>
    requires { AreKept lists.now row.now.pairs }
    ensures { OnOk result (Notes found.old found.new row.now.prefix (row_features lists.now order.now row.now)) }
{
    let features = found_by::row_features(alloc, lists, order, row)?;
    found.note(row.prefix, features.as_slice())
}

impl Features {
    /// No entry is found by any. Takes no memory yet.
    pub fn new(alloc: Global) -> Features
        ensures { result ≡ [] }
    {
        Features {
            sets: HashMap::new(alloc),
            alloc,
        }
    }

    /// Each of the rows is found by its features, and nothing else is. The covers of hosts are among these prefixes.
    pub fn of(
        alloc: Global,
        lists: &PathLists,
        order: &PrefixSet,
        rows: &Blocks<Row>,
    ) -> Result<Features, AllocError>
        requires { AreHeld rows.now lists.now }
        ensures { IfOk result (λ x. AreExact lists.now order.now rows.now x) }
    {
        let mut found = Features::new(alloc);
        'rows: for place in 0..rows.len() {
            note_row(&mut found, alloc, lists, order, &rows[place])?;
        }
        Ok(found)
    }

    /// The entries that are found by the feature, in a set; None where there is none.
    pub fn holders(&self, feature: Feature) -> Option<&PrefixSet>
        ensures { members_of (option_copied result) ≡ holders self.now feature }
    {
        self.sets.get(&feature)
    }

    /// Those inside the prefix, in order.
    pub fn holders_inside(
        &self,
        alloc: Global,
        feature: Feature,
        prefix: Prefix,
    ) -> Result<Vec<Prefix>, AllocError>
        ensures { IfOk result (λ v. v.items ≡ filter (is_inside prefix) (holders self.now feature)) }
    {
        match self.holders(feature) {
            Some(set) => set.inside(alloc, prefix),
            None => Ok(Vec::new(alloc)),
        }
    }

    /// The first that is found by a feature.
    fn begin(&mut self, feature: Feature, e: Prefix) -> Result<(), AllocError>
        requires { lookup (same_feature feature) self.old ≡ None }
        ensures ok { OnOk result (Puts self.old self.new feature e) }
        ensures err { OnErr result (AreSame self.old self.new) }
    {
        let mut set = PrefixSet::new(self.alloc);
        insert(&mut set, e)?;
        self.sets.insert(feature, set)?;
        Ok(())
    }

    /// The entry is found by that feature.
    fn put(&mut self, feature: Feature, e: Prefix) -> Result<(), AllocError>
        ensures ok { OnOk result (Puts self.old self.new feature e) }
        ensures err { OnErr result (AreSame self.old self.new) }
    {
        match self.sets.get_mut(&feature) {
            Some(set) => insert(set, e),
            None => self.begin(feature, e),
        }
    }

    /// The entry is found by each of these features. Where memory is wanted it may be found by some of them.
    pub fn note(&mut self, e: Prefix, features: &[Feature]) -> Result<(), AllocError>
        ensures ok { OnOk result (Notes self.old self.new e features.now) }
        ensures err { OnErr result (NotesSome self.old self.new e features.now) }
    {
        for feature in features {
            self.put(*feature, e)?;
        }
        Ok(())
    }

    /// The entry isn't found by that feature any more; whether none is.
    fn strike(&mut self, feature: Feature, e: Prefix) -> bool
        ensures out { TakesOut self.old self.new feature e }
        ensures none { IsTrue result → holders self.new feature ≡ [] }
    {
        match self.sets.get_mut(&feature) {
            Some(set) => {
                set.remove(e);
                set.is_empty()
            }
            None => false,
        }
    }

    /// The entry isn't found by that feature any more.
    fn take_out(&mut self, feature: Feature, e: Prefix)
        ensures { TakesOut self.old self.new feature e }
    {
        if self.strike(feature, e) {
            let _ = self.sets.remove(&feature);
        }
    }

    /// The entry isn't found any more by those of the old features that aren't among the new ones. Takes no memory.
    pub fn forget(&mut self, e: Prefix, old: &[Feature], new: &[Feature])
        ensures { Forgets self.old self.new e old.now new.now }
    {
        for feature in old {
            if !new.contains(feature) {
                self.take_out(*feature, e);
            }
        }
    }
}
