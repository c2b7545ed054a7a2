// Entries that follow changes of the tables.
ghost use Rattle.std.specs.Prelude.{◌≡◌, ◌<◌, ◌≤◌, ◌-◌, ◌^◌, ℕ, map, IfErr, IfOk, IfSome, OnErr, OnOk};
ghost use Rattle.fib_resolve.specs.Sizes.{size};
ghost use Rattle.fib_resolve.specs.declared.types.Tables.{Tables as TablesValue};
ghost use Rattle.fib_entries_rows.specs.Changes.{FromBefore, IsFollowed, IsTooMany};
ghost use Rattle.fib_entries_rows.specs.Known.{prefix_of};
ghost use Rattle.fib_follow_write.specs.Plans.{IsPlan};
ghost use Rattle.fib_follow_plan.specs.Noted.{AreTold};
ghost use Rattle.fib_entries.specs.inner.Planned.{HasWritten, IsFrom, IsPlanned};

use crate::entries::Entries;
use crate::steps::{Course, Planned, plan_for};
use fib_config::Config;
use fib_entries_rows::changes::{FollowError, Followed};
use fib_follow_looked::are_short;
use fib_follow_plan::{Renoted, forget_all, note_all};
use fib_follow_view::Before;
use fib_follow_write::{Plan, write};
use fib_resolve_changes::Change;
use std::alloc::AllocError;

impl Entries {
    /// Makes the entries stand for the tables after changes, and answers which prefixes the changes touch and which have another rank.
    /// After a fault all is as before.
    ///
    /// It asks for no tables of before, but that they differ from those after at most where the changes say. `TooMany` comes exactly
    /// where the tables are larger than `most` objects, and tells their size.
    ///
    /// What the changes reach is made anew and written. All entries are made anew only where the size before isn't told exactly, where a
    /// rank would fall below 0, or where an address that is named has a length above 32, which no edit brings.
    pub fn follow_changes(
        &mut self,
        after: &Config,
        changes: &[Change],
        most: u32,
    ) -> Result<Followed, FollowError>
        requires { most < 2 ^ 32 - 1 }
        ensures followed { IfOk result (λ f. FromBefore self.old changes.now after.now.tables
            (λ S. IsFollowed self.old self.new S after.now.tables most f)) }
        ensures too_many { IfErr result (λ e. FromBefore self.old changes.now after.now.tables
            (λ _. IsTooMany (size after.now.tables) most e)) }
        ensures err { OnErr result (self.new ≡ self.old) }
    {
        match self.planned(after, changes, most)? {
            Some(planned) => self.carry_out(after, changes, planned),
            None => self.follow_anew(after, changes, most),
        }
    }

    /// What is to be written of the changes; None where the entries have to be made anew.
    fn planned(
        &self,
        after: &Config,
        changes: &[Change],
        most: u32,
    ) -> Result<Option<Planned>, FollowError>
        requires { most < 2 ^ 32 - 1 }
        ensures planned { IfOk result (λ o. IfSome o (IsPlanned self.now changes.now after.now.tables)) }
        ensures fits { IfOk result (λ o. IfSome o (λ x. x.objects ≤ most)) }
        ensures too_many { IfErr result (λ e. (S : TablesValue) → IsFrom self.now changes.now S after.now.tables
            → IsTooMany (size after.now.tables) most e) }
    {
        if self.objects == u32::MAX || !are_short(changes) {
            return Ok(None);
        }
        let course = Course {
            before: Before::new(&self.rows, &self.lists, &self.order, self.objects),
            features: &self.features,
            after,
            changes,
        };
        plan_for(self.alloc, &course, most)
    }

    /// Writes the plan. What has other features is found by them too before it is written, and by them alone afterwards.
    fn write_noted(&mut self, plan: Plan, renoted: &[Renoted]) -> Result<(), AllocError>
        requires plan { IsPlan self.old.rows plan }
        requires noted { AreTold self.old.rows self.old.lists (map prefix_of self.old.rows) plan renoted.now }
        ensures ok { OnOk result (HasWritten plan self.old self.new) }
        ensures err { OnErr result (self.new ≡ self.old) }
    {
        note_all(&mut self.features, renoted)?;
        write(
            self.alloc,
            &mut self.rows,
            &mut self.lists,
            &mut self.order,
            plan,
        )?;
        forget_all(&mut self.features, renoted);
        Ok(())
    }

    /// Writes what was planned.
    fn carry_out(
        &mut self,
        after: &Config,
        changes: &[Change],
        planned: Planned,
    ) -> Result<Followed, FollowError>
        requires { IsPlanned self.old changes.now after.now.tables planned }
        ensures followed { IfOk result (λ f. (most : ℕ) → planned.objects ≤ most → most < 2 ^ 32 - 1
            → FromBefore self.old changes.now after.now.tables (λ S. IsFollowed self.old self.new S after.now.tables most f)) }
        ensures too_many { IfErr result (λ e. (size most : ℕ) → IsTooMany size most e) }
        ensures err { OnErr result (self.new ≡ self.old) }
    {
        // Only clauses name the tables and the changes.
        let _after = after;
        let _changes = changes;
        let Planned {
            plan,
            followed,
            renoted,
            objects,
        } = planned;
        self.write_noted(plan, renoted.as_slice())?;
        self.objects = objects;
        Ok(followed)
    }
}
