// The parts of a plan.
ghost use Rattle.std.specs.Prelude.{◌≡◌, ◌++◌, Contains, IfOk, OnOk, filter, map, slice_index};
ghost use Rattle.fib_addr.specs.Prefixes.{IsPrefix};
ghost use Rattle.fib_entries_rows.specs.Known.{rank_of};
ghost use Rattle.fib_follow_view.specs.Views.{anew_prefix};
ghost use Rattle.fib_follow_view.specs.declared.view.Anew.{Anew as AnewValue};
ghost use Rattle.fib_follow_part.specs.Parts.{rank_after};
ghost use Rattle.fib_follow_plan.specs.Made.{comes, edge_of, goes, has_pairs, is_fresh, listed_of, marks_of, only, paired_of};

use fib_addr::Prefix;
use fib_base_blocks::Blocks;
use fib_base_list::List;
use fib_follow_part::Part;
use fib_follow_told::Body;
use fib_follow_view::{Anew, Before, View};
use fib_follow_write::{Edge, Listed, Marks, Paired};
use fib_resolve::{Pair, Path};
use std::alloc::{AllocError, Global};

/// What was made anew is read, so that the proof knows that its prefixes are prefixes.
pub fn see_prefixes(changed: &Blocks<Anew>)
    ensures { (x : AnewValue) → Contains changed.now x → IsPrefix x.prefix }
{
    'changed: for place in 0..changed.len() {
        let _length = changed[place].prefix.len();
    }
}

/// Whether the prefix is an entry after the change.
pub fn has_pairs(x: &Anew) -> bool
    ensures { result ≡ has_pairs x.now }
{
    match x.pairs.as_slice() {
        [] => false,
        [_, ..] => true,
    }
}

fn goes(x: &Anew) -> bool
    ensures { result ≡ goes x.now }
{
    !has_pairs(x)
}

/// Whether it is one that it wasn't before.
fn comes(before: &Before<'_>, x: &Anew) -> bool
    ensures { result ≡ comes before.now.rows x.now }
{
    has_pairs(x) && !before.is_entry(x.prefix)
}

/// Appends the prefix where it passes.
fn push_if(out: &mut List<Prefix>, test: bool, e: Prefix) -> Result<(), AllocError>
    ensures { OnOk result (out.new ≡ out.old ++ only test e) }
{
    if test {
        out.push(e)?;
    }
    Ok(())
}

/// The prefixes that become entries.
pub fn came(alloc: Global, view: &View<'_>) -> Result<List<Prefix>, AllocError>
    ensures { IfOk result (λ l. l ≡ map anew_prefix (filter (comes view.now.before.rows) view.now.changed)) }
{
    let mut out = List::new(alloc);
    let changed = view.changed();
    'changed: for place in 0..changed.len() {
        let x = &changed[place];
        push_if(&mut out, comes(view.before(), x), x.prefix)?;
    }
    Ok(out)
}

/// The prefixes that are entries no more.
pub fn gone(alloc: Global, view: &View<'_>) -> Result<List<Prefix>, AllocError>
    ensures { IfOk result (λ l. l ≡ map anew_prefix (filter goes view.now.changed)) }
{
    let mut out = List::new(alloc);
    let changed = view.changed();
    'changed: for place in 0..changed.len() {
        let x = &changed[place];
        push_if(&mut out, goes(x), x.prefix)?;
    }
    Ok(out)
}

fn copied(alloc: Global, paths: &[Path]) -> Result<List<Path>, AllocError>
    ensures { IfOk result (λ l. l ≡ paths.now) }
{
    let items = Vec::from_slice(alloc, paths)?;
    Ok(List::from_vec(items))
}

/// The source with its list.
fn listed(alloc: Global, x: &Pair) -> Result<Listed, AllocError>
    ensures { IfOk result (λ l. l ≡ listed_of x.now) }
{
    let paths = copied(alloc, x.paths.as_slice())?;
    Ok(Listed {
        source: x.source,
        paths,
    })
}

fn all_listed(alloc: Global, pairs: &[Pair]) -> Result<List<Listed>, AllocError>
    ensures { IfOk result (λ l. l ≡ map listed_of pairs.now) }
{
    let mut out = List::new(alloc);
    'pairs: for place in 0..pairs.len() {
        let one = listed(alloc, &pairs[place])?;
        out.push(one)?;
    }
    Ok(out)
}

/// Appends the entry with its pairs, where it has some.
fn push_paired(out: &mut List<Paired>, alloc: Global, x: &Anew) -> Result<(), AllocError>
    ensures { OnOk result (out.new ≡ out.old ++ only (has_pairs x.now) (paired_of x.now)) }
{
    if !has_pairs(x) {
        return Ok(());
    }
    let pairs = all_listed(alloc, x.pairs.as_slice())?;
    out.push(Paired {
        prefix: x.prefix,
        pairs,
    })?;
    Ok(())
}

/// The entries that were made anew with their pairs.
pub fn paired(alloc: Global, view: &View<'_>) -> Result<List<Paired>, AllocError>
    ensures { IfOk result (λ l. l ≡ map paired_of (filter has_pairs view.now.changed)) }
{
    let mut out = List::new(alloc);
    let changed = view.changed();
    'changed: for place in 0..changed.len() {
        push_paired(&mut out, alloc, &changed[place])?;
    }
    Ok(out)
}

fn rank_at(ranks: &[u32], place: usize) -> u32
    ensures { result ≡ slice_index ranks.now place }
{
    match ranks.get(place) {
        Some(rank) => *rank,
        None => 0,
    }
}

fn rank_before(view: &View<'_>, e: Prefix) -> u32
    ensures { result ≡ rank_of view.now.before.rows e }
{
    match view.before().row(e) {
        Some(row) => row.rank(),
        None => 0,
    }
}

fn rank_after(view: &View<'_>, part: &Part, ranks: &[u32], e: Prefix) -> u32
    ensures { result ≡ rank_after view.now part.now ranks.now e }
{
    match part.place(e) {
        Some(place) => rank_at(ranks, place),
        None => rank_before(view, e),
    }
}

/// The body's marks with the rank after the change.
fn marks_of(view: &View<'_>, part: &Part, ranks: &[u32], body: Body) -> Marks
    ensures { result ≡ marks_of view.now part.now ranks.now body }
{
    let prefix = body.prefix;
    let (looped, met, marked) = body.into_lists();
    Marks {
        prefix,
        looped,
        met,
        marked,
        rank: rank_after(view, part, ranks, prefix),
    }
}

/// The same of each body.
pub fn marks(
    alloc: Global,
    view: &View<'_>,
    part: &Part,
    ranks: &[u32],
    bodies: List<Body>,
) -> Result<List<Marks>, AllocError>
    ensures { IfOk result (λ l. l ≡ map (marks_of view.now part.now ranks.now) bodies) }
{
    let mut out = List::new(alloc);
    for body in bodies.into_vec() {
        out.push(marks_of(view, part, ranks, body))?;
    }
    Ok(out)
}

/// Whether the edge isn't there yet.
fn is_fresh(before: &Before<'_>, from: Prefix, to: Prefix) -> bool
    ensures { result ≡ is_fresh before.now.rows (from, to) }
{
    match before.row(to) {
        Some(row) => !row.dependants().has(from),
        None => true,
    }
}

fn edge_of(edge: (Prefix, Prefix)) -> Edge
    ensures { result ≡ edge_of edge }
{
    Edge {
        from: edge.0,
        to: edge.1,
    }
}

/// Those of the edges that aren't there yet.
fn fresh_edges(
    alloc: Global,
    before: &Before<'_>,
    edges: &[(Prefix, Prefix)],
) -> Result<Vec<Edge>, AllocError>
    ensures { IfOk result (λ v. v.items ≡ map edge_of (filter (is_fresh before.now.rows) edges.now)) }
{
    edges
        .iter()
        .copied()
        .filter(|edge| is_fresh(before, edge.0, edge.1))
        .map(|edge| edge_of(edge))
        .collect(alloc)
}

/// Those of the edges that aren't there yet.
pub fn edges_in(
    alloc: Global,
    before: &Before<'_>,
    edges: &[(Prefix, Prefix)],
) -> Result<List<Edge>, AllocError>
    ensures { IfOk result (λ l. l ≡ map edge_of (filter (is_fresh before.now.rows) edges.now)) }
{
    let found = fresh_edges(alloc, before, edges)?;
    Ok(List::from_vec(found))
}

fn all_edges(alloc: Global, edges: &[(Prefix, Prefix)]) -> Result<Vec<Edge>, AllocError>
    ensures { IfOk result (λ v. v.items ≡ map edge_of edges.now) }
{
    edges.iter().map(|edge| edge_of(*edge)).collect(alloc)
}

/// The edges as a plan has them.
pub fn edges_out(alloc: Global, edges: &[(Prefix, Prefix)]) -> Result<List<Edge>, AllocError>
    ensures { IfOk result (λ l. l ≡ map edge_of edges.now) }
{
    let found = all_edges(alloc, edges)?;
    Ok(List::from_vec(found))
}
