// What is known of each path of each entry.
ghost use Rattle.std.specs.Prelude.{◌≡◌, IfOk, Contains};
ghost use Rattle.fib_resolve.specs.Pairs.{chosen};
ghost use Rattle.fib_resolve.specs.Loops.{looped_kind};
ghost use Rattle.fib_resolve.specs.Forwarding.{usable_by};
ghost use Rattle.fib_resolve_pairs.specs.inner.Edges.{goal_number};
ghost use Rattle.test_plain.specs.inner.Rows.{is_entry, facts_of_path, facts_of, rows_of};

use fib_addr::Prefix;
use fib_base_list::List;
use fib_resolve::{Path, PathKind};
use fib_resolve_pairs::Meaning;
use std::alloc::{AllocError, Global};

/// What is known of a path of a chosen list.
#[derive(Clone, Copy)]
pub struct PathFacts {
    /// The number of the entry to which it leads.
    pub target: Option<u32>,
    /// Whether it is looped.
    pub looped: bool,
    /// Whether it is usable if its target, where it has one, forwards.
    pub ready: bool,
}

/// Whether the path is usable if its target forwards.
#[tactic(auto, using(crate::proofs::Leading::ready_recursive, crate::proofs::Leading::ready_cover))]
fn is_ready(meaning: &Meaning<'_>, e: Prefix, p: &Path, looped: bool, target: Option<u32>) -> bool
    requires looped { looped ≡ looped_kind meaning.now e p.now.kind }
    requires target { target ≡ goal_number meaning.now e p.now.kind }
    ensures { result ≡ usable_by meaning.now (is_entry meaning.now) e p.now }
{
    match p.kind {
        PathKind::Drop => false,
        PathKind::Local => true,
        PathKind::Attached(i) => meaning.is_up(i),
        PathKind::Hop { interface, .. } => meaning.is_up(interface),
        PathKind::Recursive(a) => !looped && (meaning.is_met(p.need, a) && target.is_some()),
        PathKind::Cover => target.is_some(),
    }
}

#[tactic(auto, unfolding(crate::specs::inner::Rows::facts_of_path))]
fn facts_for(meaning: &Meaning<'_>, e: Prefix, p: &Path) -> PathFacts
    requires { Contains (chosen meaning.now e) p.now }
    ensures { result ≡ facts_of_path meaning.now e p.now }
{
    let target = meaning.goal_number(e, p.kind);
    let looped = meaning.is_looped(e, p);
    let ready = is_ready(meaning, e, p, looped, target);
    PathFacts {
        target,
        looped,
        ready,
    }
}

#[tactic(auto, unfolding(crate::specs::inner::Rows::facts_of))]
fn row(alloc: Global, meaning: &Meaning<'_>, e: Prefix) -> Result<List<PathFacts>, AllocError>
    ensures { IfOk result (λ row. row ≡ facts_of meaning.now e) }
{
    let mut out = List::new(alloc);
    for p in meaning.chosen(e) {
        out.push(facts_for(meaning, e, p))?;
    }
    Ok(out)
}

/// What is known of the paths of each entry.
#[tactic(auto, unfolding(crate::specs::inner::Rows::rows_of))]
pub fn rows(alloc: Global, meaning: &Meaning<'_>) -> Result<Vec<List<PathFacts>>, AllocError>
    ensures { IfOk result (λ v. v.items ≡ rows_of meaning.now) }
{
    let mut out = Vec::new(alloc);
    for e in meaning.entries() {
        out.push(row(alloc, meaning, *e)?)?;
    }
    Ok(out)
}
