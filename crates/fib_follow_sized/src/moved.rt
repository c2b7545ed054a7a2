// The entries that come or go, and the plies on the way to them.
ghost use Rattle.std.specs.Prelude.{◌≡◌, ◌++◌, IfOk, OnOk, filter, flat_map, length};
ghost use Rattle.fib_resolve.specs.Sizes.{plies_of};
ghost use Rattle.fib_follow_view.specs.inner.Told.{entry_in};
ghost use Rattle.fib_follow_sized.specs.inner.Counts.{moves, moving, on_way_of, one_if, was_entry};

use fib_addr::Prefix;
use fib_base_blocks::Blocks;
use fib_follow_view::{Anew, View};
use fib_resolve_pairs::distinct;
use std::alloc::{AllocError, Global};

/// Whether the prefix is an entry before the change or after it, and not both.
fn moves(view: &View<'_>, e: Prefix) -> bool
    ensures { result ≡ moves view.now e }
{
    if view.before().is_entry(e) {
        !view.is_entry(e)
    } else {
        view.is_entry(e)
    }
}

fn push_if(out: &mut Vec<Prefix>, test: bool, e: Prefix) -> Result<(), AllocError>
    ensures { OnOk result (out.new.items ≡ out.old.items ++ one_if test e) }
{
    if test {
        out.push(e)?;
    }
    Ok(())
}

/// Those of the changed entries that come or go.
pub fn moved(
    alloc: Global,
    view: &View<'_>,
    changed: &Blocks<Anew>,
) -> Result<Vec<Prefix>, AllocError>
    ensures { IfOk result (λ v. v.items ≡ flat_map (moving view.now) changed.now) }
{
    let mut out = Vec::new(alloc);
    'changed: for place in 0..changed.len() {
        let e = changed[place].prefix;
        push_if(&mut out, moves(view, e), e)?;
    }
    Ok(out)
}

/// Appends the plies on the way to the prefix.
fn add_plies(out: &mut Vec<Prefix>, p: Prefix) -> Result<(), AllocError>
    ensures { OnOk result (out.new.items ≡ out.old.items ++ plies_of p) }
{
    for k in 0..(p.len() + 3) / 4 {
        out.push(Prefix::masked(p.bits(), 4 * k))?;
    }
    Ok(())
}

/// The plies on the way to the prefixes, each once.
pub fn on_way(alloc: Global, prefixes: &[Prefix]) -> Result<Vec<Prefix>, AllocError>
    ensures { IfOk result (λ v. v.items ≡ on_way_of prefixes.now) }
{
    let mut out = Vec::new(alloc);
    for p in prefixes {
        add_plies(&mut out, *p)?;
    }
    distinct(alloc, out.as_slice())
}

/// How many of the prefixes were entries.
pub fn entries_before(view: &View<'_>, prefixes: &[Prefix]) -> usize
    ensures { result ≡ length (filter (was_entry view.now) prefixes.now) }
{
    prefixes
        .iter()
        .filter(|e| view.before().is_entry(**e))
        .count()
}

/// How many of them are entries after the change.
pub fn entries_after(view: &View<'_>, prefixes: &[Prefix]) -> usize
    ensures { result ≡ length (filter (entry_in view.now) prefixes.now) }
{
    prefixes.iter().filter(|e| view.is_entry(**e)).count()
}
