// Rows made anew from tables.
ghost use Rattle.std.specs.Prelude.{◌≡◌, ◌<◌, ◌^◌, ◌↔◌, IfOk, Contains, length};
ghost use Rattle.fib_addr.specs.Prefixes.{Prefix as PrefixValue};
ghost use Rattle.fib_cover.specs.Covers.{IsAscending};
ghost use Rattle.fib_reach.specs.Walks.{AllDiffer};
ghost use Rattle.fib_resolve.specs.Loops.{targets};
ghost use Rattle.fib_resolve.specs.Pairs.{entries, pairs};
ghost use Rattle.fib_resolve.specs.Tables.{IsSound};
ghost use Rattle.fib_entries_rows.specs.Known.{IsRow};
ghost use Rattle.fib_entries_rows.specs.inner.Building.{AreAnew, AreParts, AreRows, AreTaken};
ghost use Rattle.fib_entries_rows.specs.inner.Edges.{AreEdgesOf, AreSourcesIn};

use crate::dependants::Dependants;
use crate::edges::{edges_of, kept_of};
use crate::groups::{backward, dependants_of};
use crate::parts::{self, Parts};
use crate::ranks::ranks;
use crate::rows::{Body, Row};
use fib_addr::Prefix;
use fib_base_list::List;
use fib_paths::{PathListId, PathLists};
use fib_reach::Graph;
use fib_resolve_pairs::Meaning;
use std::alloc::{AllocError, Global};

/// The row of an entry.
fn row_at(
    alloc: Global,
    parts: Parts<'_>,
    prefix: Prefix,
    rank: u32,
    dependants: List<Prefix>,
) -> Result<Row, AllocError>
    requires parts { AreParts parts }
    requires once { AllDiffer dependants }
    requires all { (d : PrefixValue) → Contains dependants d ↔ Contains (targets parts.meaning.now d) prefix }
    ensures row { IfOk result (λ r. IsRow parts.entry.lists.now parts.entry.meaning.now r) }
    ensures own { IfOk result (λ r. (r.prefix ≡ prefix) × (r.rank ≡ rank)) }
{
    // The count tells that the lists are interned: each is there once, and has a user.
    let _count = parts.lists.count();
    // Read so that the proof knows that it is a prefix.
    let _len = prefix.len();
    let set = Dependants::of(alloc, dependants.as_slice())?;
    let paths = parts.meaning.chosen(prefix);
    let looped = parts::marks_of(alloc, parts.meaning, prefix, paths)?;
    let marked = parts::marked_of(alloc, parts.meaning, prefix, paths, looped.as_slice())?;
    let body = Body {
        pairs: parts::held_of(alloc, parts, prefix)?,
        looped,
        met: parts::mets_of(alloc, parts.meaning, prefix, paths)?,
        marked,
        dependants: set,
        rank,
    };
    let row = Row::new(alloc, prefix, body)?;
    Ok(row)
}

/// The rows of the entries in this order, with these ranks. `back` has the edges turned round, each once.
fn rows_of(
    alloc: Global,
    parts: Parts<'_>,
    order: &[Prefix],
    back: &Graph,
    edges: &[(u32, u32)],
    ranks: &[u32],
) -> Result<Vec<Row>, AllocError>
    requires parts { AreParts parts }
    requires ascending { IsAscending order.now }
    requires few { length order.now < 2 ^ 32 }
    requires ranks { length ranks.now ≡ length order.now }
    requires edges { AreEdgesOf parts.meaning.now order.now (length order.now) edges.now }
    requires back { AreSourcesIn (length order.now) edges.now back.now }
    requires same { (e : PrefixValue) → Contains order.now e ↔ Contains (entries parts.meaning.now) e }
    ensures { IfOk result (λ v. AreRows parts.entry.lists.now parts.entry.meaning.now order.now ranks.now (length order.now) v.items) }
{
    // Only clauses name the edges.
    let _edges = edges;
    let mut out = Vec::with_capacity(alloc, order.len())?;
    for place in 0..order.len() {
        let dependants = dependants_of(alloc, order, back, edges, place)?;
        out.push(row_at(alloc, parts, order[place], ranks[place], dependants)?)?;
    }
    Ok(out)
}

/// The rows of the entries in this order, with ranks that fall along each edge that isn't looped.
pub fn rows_anew(
    alloc: Global,
    meaning: &Meaning<'_>,
    lists: &PathLists,
    ids: &[PathListId],
    order: &[Prefix],
) -> Result<Vec<Row>, AllocError>
    requires sound { IsSound meaning.now }
    requires taken { AreTaken lists.now (pairs meaning.now) ids.now }
    requires ascending { IsAscending order.now }
    requires same { (e : PrefixValue) → Contains order.now e ↔ Contains (entries meaning.now) e }
    ensures { IfOk result (λ v. AreAnew lists.now meaning.now order.now v.items) }
{
    let Ok(nodes) = u32::try_from(order.len()) else {
        return Err(AllocError);
    };
    let edges = edges_of(alloc, meaning, order)?;
    let edges = edges.as_slice();
    let kept = kept_of(alloc, meaning, order, edges)?;
    let ranks = ranks(alloc, nodes, kept.as_slice())?;
    let back = backward(alloc, nodes, edges)?;
    let places = parts::places_of(alloc, meaning)?;
    let parts = Parts {
        meaning,
        lists,
        ids,
        places: places.as_slice(),
    };
    rows_of(alloc, parts, order, &back, edges, ranks.as_slice())
}
