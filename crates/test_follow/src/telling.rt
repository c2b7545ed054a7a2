// A route comes by way of an address that is no entry yet, and goes again: what is written of that, and what is told.
ghost use Rattle.std.specs.Prelude.{IfOk, map};
ghost use Rattle.fib_cover.specs.Covers.{IsAscending};
ghost use Rattle.fib_resolve.specs.Reachable.{IsWritten};
ghost use Rattle.fib_follow_view.specs.Views.{anew_prefix};

use crate::held::HeldRows;
use crate::steps::{next_hop, recursive_route, route, route_anew};
use fib_addr::{Addr, Prefix};
use fib_base_blocks::Blocks;
use fib_base_list::List;
use fib_config::Config;
use fib_entries_rows::Moved;
use fib_follow_part::{Part, ranks};
use fib_follow_told::{Body, Written, bodies, edges_of, moved, told, touched};
use fib_follow_view::{Anew, View};
use fib_resolve::{Aim, Edit};
use std::alloc::{AllocError, Global};
use std::test::Fail;

/// Whether the only edge is that from the route to its next hop.
fn is_the_edge(edges: &[(Prefix, Prefix)]) -> bool {
    let [(from, to)] = edges else {
        return false;
    };
    *from == route() && *to == next_hop()
}

fn aims_at(aim: Aim, prefix: Prefix) -> bool {
    match aim {
        Aim::On(target) => target == prefix,
        Aim::Ends(_) => false,
    }
}

/// Whether the body is that of the route: one path, which isn't looped, needs nothing, counts, and leads to the next hop.
fn is_of_route(body: &Body) -> bool {
    let ([looped], [met], [mark]) = (
        body.looped.as_slice(),
        body.met.as_slice(),
        body.marked.as_slice(),
    ) else {
        return false;
    };
    !*looped && *met && mark.counts && aims_at(mark.aim, next_hop())
}

/// Whether it is that of the route, or of the next hop, which has no paths.
fn is_right(body: &Body) -> bool {
    if body.prefix == route() {
        return is_of_route(body);
    }
    body.prefix == next_hop() && body.marked.is_empty()
}

fn is_the_route(list: &[Prefix]) -> bool {
    let [only] = list else {
        return false;
    };
    *only == route()
}

/// Whether the route alone has another rank, and had none, or had one.
fn is_moved(list: &[Moved], had: bool) -> bool {
    let [only] = list else {
        return false;
    };
    only.prefix == route() && had == (only.rank != 0)
}

/// Whether the route alone is touched and moved, by each of the calls.
fn is_told(
    alloc: Global,
    view: &View<'_>,
    part: &Part,
    bodies: &[Body],
    had: bool,
) -> Result<bool, AllocError> {
    let Some(ranks) = ranks(alloc, view, part)? else {
        return Ok(false);
    };
    let list = touched(alloc, view, bodies)?;
    let moves = moved(alloc, view, part, ranks.as_slice())?;
    let all = told(alloc, view, part, ranks.as_slice(), bodies)?;
    let apart = is_the_route(list.as_slice()) && is_moved(moves.as_slice(), had);
    Ok(apart && is_the_route(all.touched.list()) && is_moved(all.moved.as_slice(), had))
}

/// What is made anew, alone.
fn alone(alloc: Global, anew: Anew) -> Result<Blocks<Anew>, AllocError>
    ensures { IfOk result (λ l. IsAscending (map anew_prefix l)) }
{
    let mut out = Blocks::new(alloc);
    out.push(anew)?;
    Ok(out)
}

/// What comes: the edge, both rows, each once where the route is named beside the part too, and what is told.
fn comes(alloc: Global, config: &Config, held: &HeldRows) -> Result<bool, Fail> {
    let changed = alone(alloc, route_anew(alloc, config, &held.before())?)?;
    let view = View::new(held.before(), &changed);
    let part = Part::whole(alloc, &view)?;
    let written = Written::of(alloc, &part, &[route()])?;
    let both = written.list().len() == 2 && written.has(route()) && written.has(next_hop());
    let bodies = bodies(alloc, config, &view, &part, written.list())?;
    let right = bodies.as_slice().iter().all(|body| is_right(body));
    let edges = edges_of(alloc, &view)?;
    let one = is_the_edge(edges.come.as_slice()) && edges.go.is_empty();
    Ok(one && both && right && is_told(alloc, &view, &part, bodies.as_slice(), false)?)
}

#[test]
fn a_route_that_comes_is_told(rt: HostRuntime) -> Result<(), Fail> {
    let mut config = Config::new(rt.alloc(), 1_000)?;
    let held = HeldRows::of(rt.alloc(), config.tables())?;
    config.edit(&recursive_route(rt.alloc())?)?;
    if !comes(rt.alloc(), &config, &held)? {
        return Err("a step went otherwise".into());
    }
    Ok(())
}

/// 20.0.0.0/8 goes.
fn no_route(alloc: Global) -> Edit
    ensures { IsWritten result }
{
    Edit::DelRoute {
        prefix: Prefix::masked(Addr(0x1400_0000), 8),
        api: false,
        paths: List::new(alloc),
    }
}

/// The route as no entry.
fn route_gone(alloc: Global) -> Anew {
    Anew {
        prefix: Prefix::masked(Addr(0x1400_0000), 8),
        pairs: List::new(alloc),
        cover: Prefix::masked(Addr(0), 0),
    }
}

/// What goes: the edge, and what is told. The next hop, which is looked at no further here, keeps its row.
fn goes(alloc: Global, config: &Config, held: &HeldRows) -> Result<bool, Fail> {
    let changed = alone(alloc, route_gone(alloc))?;
    let view = View::new(held.before(), &changed);
    let part = Part::of(alloc, &view)?;
    let written = Written::of(alloc, &part, &[])?;
    let bodies = bodies(alloc, config, &view, &part, written.list())?;
    let edges = edges_of(alloc, &view)?;
    let one = edges.come.is_empty() && is_the_edge(edges.go.as_slice());
    Ok(one && is_told(alloc, &view, &part, bodies.as_slice(), true)?)
}

#[test]
fn a_route_that_goes_is_told(rt: HostRuntime) -> Result<(), Fail> {
    let mut config = Config::new(rt.alloc(), 1_000)?;
    config.edit(&recursive_route(rt.alloc())?)?;
    let held = HeldRows::of(rt.alloc(), config.tables())?;
    config.edit(&no_route(rt.alloc()))?;
    if !goes(rt.alloc(), &config, &held)? {
        return Err("a step went otherwise".into());
    }
    Ok(())
}
