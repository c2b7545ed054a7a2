// The possible ends.
ghost use Rattle.std.specs.Prelude.{◌≡◌, ◌++◌, ◌∷◌, [], OnOk, IfOk, map, filter, flat_map, filter_map};
ghost use Rattle.fib_resolve.specs.Pairs.{chosen, entries};
ghost use Rattle.fib_resolve.specs.Forwarding.{usable};
ghost use Rattle.fib_resolve.specs.Resolution.{ends};
ghost use Rattle.test_plain.specs.inner.Exits.{exit_of, exits_of, exits, end_of, exit_end};

use crate::snapshot::Snapshot;
use crate::view;
use fib_addr::Prefix;
use fib_resolve::{End, Path, PathKind};
use std::alloc::{AllocError, Global};

/// A usable path: its entry and its kind.
#[derive(Clone, Copy)]
pub struct Exit {
    pub entry: Prefix,
    pub kind: PathKind,
}

/// The end of the path, where it goes on nowhere.
fn exit_end(view: &Snapshot<'_>, exit: &Exit) -> Option<End>
    ensures { result ≡ exit_end view.now exit.now }
{
    let e = exit.entry;
    match exit.kind {
        PathKind::Local => Some(End::Receive),
        PathKind::Attached(i) => Some(view.meaning().attached_end(e, i)),
        PathKind::Hop {
            next_hop,
            interface,
        } => Some(view.meaning().hop_end(interface, next_hop)),
        _ => None,
    }
}

fn add_exits(out: &mut Vec<Exit>, entry: Prefix, paths: &[Path]) -> Result<(), AllocError>
    ensures { OnOk result (out.new.items ≡ out.old.items ++ map (exit_of entry) paths.now) }
{
    for p in paths {
        out.push(Exit {
            entry,
            kind: p.kind,
        })?;
    }
    Ok(())
}

fn add_entry(
    out: &mut Vec<Exit>,
    alloc: Global,
    view: &Snapshot<'_>,
    e: Prefix,
) -> Result<(), AllocError>
    ensures { OnOk result (out.new.items ≡ out.old.items ++ exits_of view.now e) }
{
    let usable = view::usable_paths(alloc, view, e)?;
    add_exits(out, e, usable.as_slice())
}

fn exits(alloc: Global, view: &Snapshot<'_>) -> Result<Vec<Exit>, AllocError>
    ensures { IfOk result (λ v. v.items ≡ exits view.now) }
{
    let mut out = Vec::new(alloc);
    for e in view.known().entries() {
        add_entry(&mut out, alloc, view, *e)?;
    }
    Ok(out)
}

fn ends_of(alloc: Global, view: &Snapshot<'_>, all: &[Exit]) -> Result<Vec<End>, AllocError>
    ensures { IfOk result (λ v. v.items ≡ filter_map (exit_end view.now) all.now) }
{
    all.iter().filter_map(|x| exit_end(view, x)).collect(alloc)
}

/// Drop, and the ends of all usable paths that go on nowhere, with repeats.
pub fn ends(alloc: Global, view: &Snapshot<'_>) -> Result<Vec<End>, AllocError>
    ensures { IfOk result (λ v. v.items ≡ ends view.now) }
{
    let all = exits(alloc, view)?;
    let found = ends_of(alloc, view, all.as_slice())?;
    let mut out = Vec::new(alloc);
    out.push(End::Drop)?;
    out.extend_from_slice(found.as_slice())?;
    Ok(out)
}
