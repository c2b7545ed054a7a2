// A change that is worked out, step by step, while nothing is written.
ghost use Rattle.std.specs.Prelude.{◌≡◌, ◌<◌, ◌≤◌, ◌-◌, ◌^◌, map, min, IfErr, IfOk, IfSome, OnOk};
ghost use Rattle.std.specs.List.{AllByRecursion};
ghost use Rattle.fib_cover.specs.Covers.{IsAscending};
ghost use Rattle.fib_resolve.specs.Sizes.{size};
ghost use Rattle.fib_resolve.specs.declared.types.Tables.{Tables as TablesValue};
ghost use Rattle.fib_entries_rows.specs.Changes.{IsTooMany};
ghost use Rattle.fib_follow_view.specs.Views.{IsAfter, Seen, anew_prefix};
ghost use Rattle.fib_follow_part.specs.Parts.{AreRanks, IsPart};
ghost use Rattle.fib_follow_looked.specs.Looks.{AreNear, IsShortChange};
ghost use Rattle.fib_follow_write.specs.Plans.{IsPlan};
ghost use Rattle.fib_entries.specs.inner.Planned.{AreRowsNoted, IsAround, IsFrom, IsMadeFor, IsPlanned, IsRenoted, IsSize};

use fib_base_blocks::Blocks;
use fib_config::Config;
use fib_cover::PrefixSet;
use fib_entries_rows::changes::{FollowError, Followed};
use fib_follow_features::Features;
use fib_follow_looked::{Around, Named, Shorts, asks, changed, looked, see_neighbors};
use fib_follow_part::{Part, ranks};
use fib_follow_plan::{Renoted, answered, held_ends, hops_after, others, plan, renoted};
use fib_follow_sized::sized;
use fib_follow_told::{Written, bodies, edges_of, told};
use fib_follow_view::{Anew, Before, View};
use fib_follow_write::Plan;
use fib_resolve_changes::Change;
use std::alloc::{AllocError, Global};

/// A change: the entries before it, by what they are found, the tables after it, and where these can be others.
pub struct Course<'a> {
    pub before: Before<'a>,
    pub features: &'a Features,
    pub after: &'a Config,
    pub changes: &'a [Change],
}

// The prover follows what a drop does here, once, and not at every way out past an owner.
impl Drop for Course<'_> {
    fn drop(self) {
        let Course {
            before: _,
            features: _,
            after: _,
            changes: _,
        } = self;
    }
}

/// Who is looked at, and what is known of covers and next hops around them.
pub struct Looked {
    pub prefixes: PrefixSet,
    pub around: Around,
}

// The prover follows what a drop does here, once, and not at every way out past an owner.
impl Drop for Looked {
    fn drop(self) {
        let Looked {
            prefixes: _,
            around: _,
        } = self;
    }
}

/// What is to be written of a change, what is told of it, which features are noted, and the size of the tables after it.
#[derive(Drop)]
pub struct Planned {
    pub plan: Plan,
    pub followed: Followed,
    pub renoted: Vec<Renoted>,
    pub objects: u32,
}

/// The same entries before the change.
fn again<'a>(before: &Before<'a>) -> Before<'a>
    ensures { result ≡ before.now }
{
    Before::new(
        before.rows(),
        before.lists(),
        before.order(),
        before.objects(),
    )
}

/// Who is looked at.
fn look_around(alloc: Global, course: &Course<'_>) -> Result<Looked, AllocError>
    requires short { AllByRecursion IsShortChange course.now.changes.now }
    requires noted { AreRowsNoted course.now.before course.now.features.now }
    ensures near { OnOk result (AreNear course.now.after.now.tables) }
    ensures around { IfOk result (λ x. (S : TablesValue) → IsFrom course.now.before course.now.changes.now S course.now.after.now.tables
        → IsAround course.now.changes.now S course.now.after.now.tables x) }
{
    see_neighbors(alloc, course.after)?;
    let named = Named::of(alloc, &course.before, course.after, course.changes)?;
    let shorts = Shorts::of(alloc, &course.before, course.after, &named)?;
    let asks = asks(alloc, &course.before, &shorts)?;
    let hosts = answered(alloc, course.features, asks.as_slice())?;
    let prefixes = looked(
        alloc,
        &course.before,
        course.after,
        &named,
        &shorts,
        hosts.as_slice(),
    )?;
    let hops = hops_after(alloc, course.after, course.features, &named, &prefixes)?;
    Ok(Looked {
        prefixes,
        around: Around { shorts, hops },
    })
}

/// The entries that are others after the change.
fn changed_by(alloc: Global, course: &Course<'_>) -> Result<Blocks<Anew>, AllocError>
    requires short { AllByRecursion IsShortChange course.now.changes.now }
    requires noted { AreRowsNoted course.now.before course.now.features.now }
    ensures ordered { IfOk result (λ x. IsAscending (map anew_prefix x)) }
    ensures after { IfOk result (λ x. (S : TablesValue) → IsFrom course.now.before course.now.changes.now S course.now.after.now.tables
        → IsAfter (record { before = course.now.before; changed = x }) S course.now.after.now.tables) }
{
    let found = look_around(alloc, course)?;
    changed(
        alloc,
        &course.before,
        course.after,
        &found.around,
        &found.prefixes,
    )
}

/// The size of the tables after the change.
fn size_after(alloc: Global, course: &Course<'_>, view: &View<'_>) -> Result<u32, AllocError>
    requires same { view.now.before ≡ course.now.before }
    requires noted { AreRowsNoted course.now.before course.now.features.now }
    ensures { IfOk result (λ n. (S : TablesValue) → IsAfter view.now S course.now.after.now.tables → IsSize course.now.after.now.tables n) }
{
    let held = held_ends(alloc, view, course.features)?;
    sized(alloc, view, view.before().rows(), &held)
}

/// What is to be written of a change, where the part that it reaches has these ranks.
fn planned_with(
    alloc: Global,
    course: &Course<'_>,
    view: &View<'_>,
    part: &Part,
    ranks: &[u32],
    objects: u32,
) -> Result<Planned, AllocError>
    requires same { view.now.before ≡ course.now.before }
    requires noted { AreRowsNoted course.now.before course.now.features.now }
    ensures suits { IfOk result (λ x. IsPlan course.now.before.rows x.plan) }
    ensures noted { IfOk result (λ x. IsRenoted course.now.before x) }
    ensures objects { IfOk result (λ x. x.objects ≡ objects) }
    ensures works { IfOk result (λ x. (S : TablesValue) → IsFrom course.now.before course.now.changes.now S course.now.after.now.tables
        → IsAfter view.now S course.now.after.now.tables → IsPart view.now S course.now.after.now.tables part.now
        → AreRanks view.now S course.now.after.now.tables part.now ranks.now → IsMadeFor view.now S course.now.after.now.tables x) }
{
    let others = others(alloc, course.features, course.changes, view.changed())?;
    let written = Written::of(alloc, part, others.as_slice())?;
    let bodies = bodies(alloc, course.after, view, part, written.list())?;
    let edges = edges_of(alloc, view)?;
    let followed = told(alloc, view, part, ranks, bodies.as_slice())?;
    let renoted = renoted(alloc, view, course.features)?;
    let plan = plan(alloc, view, part, ranks, bodies, &edges)?;
    Ok(Planned {
        plan,
        followed,
        renoted,
        objects,
    })
}

/// The same, where the part has ranks; None where it has none.
fn planned_by(
    alloc: Global,
    course: &Course<'_>,
    view: &View<'_>,
    part: &Part,
    objects: u32,
) -> Result<Option<Planned>, AllocError>
    requires same { view.now.before ≡ course.now.before }
    requires noted { AreRowsNoted course.now.before course.now.features.now }
    ensures suits { IfOk result (λ o. IfSome o (λ x. IsPlan course.now.before.rows x.plan)) }
    ensures noted { IfOk result (λ o. IfSome o (IsRenoted course.now.before)) }
    ensures objects { IfOk result (λ o. IfSome o (λ x. x.objects ≡ objects)) }
    ensures works { IfOk result (λ o. IfSome o (λ x. (S : TablesValue)
        → IsFrom course.now.before course.now.changes.now S course.now.after.now.tables
        → IsAfter view.now S course.now.after.now.tables → IsPart view.now S course.now.after.now.tables part.now
        → IsMadeFor view.now S course.now.after.now.tables x)) }
{
    match ranks(alloc, view, part)? {
        Some(ranks) => {
            let planned = planned_with(alloc, course, view, part, ranks.as_slice(), objects)?;
            Ok(Some(planned))
        }
        None => Ok(None),
    }
}

/// What is to be written of a change, where the tables after it take so many objects: by the small part where that has ranks, else by the
/// whole one. None where a rank would fall below 0.
fn planned_at(
    alloc: Global,
    course: &Course<'_>,
    view: &View<'_>,
    objects: u32,
) -> Result<Option<Planned>, AllocError>
    requires same { view.now.before ≡ course.now.before }
    requires noted { AreRowsNoted course.now.before course.now.features.now }
    ensures suits { IfOk result (λ o. IfSome o (λ x. IsPlan course.now.before.rows x.plan)) }
    ensures noted { IfOk result (λ o. IfSome o (IsRenoted course.now.before)) }
    ensures objects { IfOk result (λ o. IfSome o (λ x. x.objects ≡ objects)) }
    ensures works { IfOk result (λ o. IfSome o (λ x. (S : TablesValue)
        → IsFrom course.now.before course.now.changes.now S course.now.after.now.tables
        → IsAfter view.now S course.now.after.now.tables → IsMadeFor view.now S course.now.after.now.tables x)) }
{
    let short = Part::of(alloc, view)?;
    if let Some(planned) = planned_by(alloc, course, view, &short, objects)? {
        return Ok(Some(planned));
    }
    let whole = Part::whole(alloc, view)?;
    let found = planned_by(alloc, course, view, &whole, objects)?;
    Ok(found)
}

/// What is to be written of a change. None where a rank would fall below 0; `TooMany` where the tables after it take more objects than are
/// allowed. No address of the changes has a length above 32.
pub fn plan_for(
    alloc: Global,
    course: &Course<'_>,
    most: u32,
) -> Result<Option<Planned>, FollowError>
    requires short { AllByRecursion IsShortChange course.now.changes.now }
    requires noted { AreRowsNoted course.now.before course.now.features.now }
    requires most { most < 2 ^ 32 - 1 }
    ensures planned { IfOk result (λ o. IfSome o (IsPlanned course.now.before course.now.changes.now course.now.after.now.tables)) }
    ensures fits { IfOk result (λ o. IfSome o (λ x. x.objects ≤ most)) }
    ensures too_many { IfErr result (λ e. (S : TablesValue)
        → IsFrom course.now.before course.now.changes.now S course.now.after.now.tables → IsTooMany (size course.now.after.now.tables) most e) }
{
    let changed = changed_by(alloc, course)?;
    let view = View::new(again(&course.before), &changed);
    let objects = size_after(alloc, course, &view)?;
    if objects > most {
        return Err(FollowError::TooMany(objects));
    }
    let planned = planned_at(alloc, course, &view, objects)?;
    Ok(planned)
}
