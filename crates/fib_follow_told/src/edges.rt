// The edges that come and go.
ghost use Rattle.std.specs.Prelude.{◌≡◌, ◌++◌, [], OnOk, IfOk, flat_map};
ghost use Rattle.fib_reach.specs.Walks.{AllDiffer};
ghost use Rattle.fib_resolve.specs.declared.types.Tables.{Tables as TablesValue};
ghost use Rattle.fib_follow_view.specs.Views.{IsAfter};
ghost use Rattle.fib_follow_view.specs.inner.Told.{next_before, next_in};
ghost use Rattle.fib_follow_told.specs.Told.{AreEdges};
ghost use Rattle.fib_follow_told.specs.inner.Gathered.{AddsEdges, Gathers, edge_beside};
ghost use Rattle.fib_follow_told.specs.inner.Lacking.{Comes, Goes};

use crate::seen::targets;
use fib_addr::Prefix;
use fib_base_list::List;
use fib_entries_rows::dependants::Dependants;
use fib_follow_view::View;
use std::alloc::{AllocError, Global};

/// Edges that a change makes others, each by the entry where it begins and that to which it leads.
pub struct Edges {
    /// Those that are there after the change alone.
    pub come: List<(Prefix, Prefix)>,
    /// Those that were there before it alone.
    pub go: List<(Prefix, Prefix)>,
}

// The prover follows what a drop does here, once, and not at every way out past an owner.
impl Drop for Edges {
    fn drop(self) {
        let Edges { come: _, go: _ } = self;
    }
}

/// Where the prefix leads after the change, each once.
fn next(alloc: Global, view: &View<'_>, e: Prefix) -> Result<Dependants, AllocError>
    ensures { IfOk result (λ seen. Gathers (next_in view.now e) [] seen) }
{
    let goals = view.goals(alloc, e)?;
    targets(alloc, goals.as_slice())
}

/// Where it led before the change, each once.
fn next_before(alloc: Global, view: &View<'_>, e: Prefix) -> Result<Dependants, AllocError>
    ensures { IfOk result (λ seen. Gathers (next_before view.now e) [] seen) }
{
    let goals = view.before().goals(alloc, e)?;
    targets(alloc, goals.as_slice())
}

/// Appends the edge, where it doesn't lead to one of the others.
fn add_edge(
    out: &mut List<(Prefix, Prefix)>,
    e: Prefix,
    others: &Dependants,
    target: Prefix,
) -> Result<(), AllocError>
    ensures { OnOk result (out.new ≡ out.old ++ edge_beside e others.now target) }
{
    if others.has(target) {
        return Ok(());
    }
    out.push((e, target))?;
    Ok(())
}

/// Appends the edges from the prefix to those that aren't among the others.
fn add_edges(
    out: &mut List<(Prefix, Prefix)>,
    e: Prefix,
    others: &Dependants,
    targets: &[Prefix],
) -> Result<(), AllocError>
    ensures { OnOk result (out.new ≡ out.old ++ flat_map (edge_beside e others.now) targets.now) }
{
    'targets: for place in 0..targets.len() {
        add_edge(out, e, others, targets[place])?;
    }
    Ok(())
}

/// Appends the edges from the prefix that come, and those that go.
fn add_both(
    alloc: Global,
    view: &View<'_>,
    e: Prefix,
    come: &mut List<(Prefix, Prefix)>,
    go: &mut List<(Prefix, Prefix)>,
) -> Result<(), AllocError>
    ensures come { OnOk result (AddsEdges (Comes view.now e) e come.old come.new) }
    ensures go { OnOk result (AddsEdges (Goes view.now e) e go.old go.new) }
{
    let after = next(alloc, view, e)?;
    let before = next_before(alloc, view, e)?;
    add_edges(come, e, &before, after.as_slice())?;
    add_edges(go, e, &after, before.as_slice())
}

/// The edges that come with the change and those that go with it, each once. An error means that memory ran out.
pub fn edges_of(alloc: Global, view: &View<'_>) -> Result<Edges, AllocError>
    ensures edges { IfOk result (λ x. (S T : TablesValue) → IsAfter view.now S T → AreEdges S T x) }
    ensures once { IfOk result (λ x. AllDiffer x.come) }
{
    let mut come = List::new(alloc);
    let mut go = List::new(alloc);
    let changed = view.changed();
    'changed: for place in 0..changed.len() {
        add_both(alloc, view, changed[place].prefix, &mut come, &mut go)?;
    }
    Ok(Edges { come, go })
}
