// The entries of which features can be others.
ghost use Rattle.std.specs.Prelude.{ℕ, List, IfOk, map};
ghost use Rattle.fib_entries_rows.specs.Known.{prefix_of};
ghost use Rattle.fib_follow_features.specs.FoundBy.{AreNoted};
ghost use Rattle.fib_follow_part.specs.Parts.{Part};
ghost use Rattle.fib_follow_told.specs.declared.body.Body.{Body};
ghost use Rattle.fib_follow_told.specs.declared.edges.Edges.{Edges};
ghost use Rattle.fib_follow_write.specs.Plans.{IsPlan};
ghost use Rattle.fib_follow_plan.specs.Made.{plan_of};
ghost use Rattle.fib_follow_plan.specs.Noted.{AreOfRows, AreTold};

use crate::asked::add_all_asked;
use crate::changed::add_changed;
use crate::covers::Covers;
use crate::entry::Renoted;
use fib_follow_features::Features;
use fib_follow_view::View;
use std::alloc::{AllocError, Global};

/// The entries of which features can be others with a change: those that were made anew, and those found by a cover that goes, or by one
/// below which another comes that contains them; each with all features that its row has. An error means that memory ran out.
pub fn renoted(
    alloc: Global,
    view: &View<'_>,
    features: &Features,
) -> Result<Vec<Renoted>, AllocError>
    ensures told { IfOk result (λ list. (p : Part) (ranks : List ℕ) (bodies : List Body) (x : Edges)
        → AreNoted view.now.before.lists (map prefix_of view.now.before.rows) view.now.before.rows features.now
        → IsPlan view.now.before.rows (plan_of view.now p ranks bodies x)
        → AreTold view.now.before.rows view.now.before.lists (map prefix_of view.now.before.rows) (plan_of view.now p ranks bodies x)
        list.items) }
    ensures old { IfOk result (λ list. AreOfRows view.now.before.lists (map prefix_of view.now.before.rows) view.now.before.rows list.items) }
{
    // A length tells that they are prefixes.
    let _count = view.before().order().len();
    let covers = Covers::of(alloc, view)?;
    let mut out = Vec::new(alloc);
    add_changed(&mut out, alloc, view, &covers)?;
    add_all_asked(&mut out, alloc, view, features, &covers)?;
    Ok(out)
}
