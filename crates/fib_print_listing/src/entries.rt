// The listing of entries.
ghost use Rattle.std.specs.Prelude.{◌≡◌, ◌++◌, OnOk, OnErr, IfOk, map, codes};
ghost use Rattle.fib_entries_rows.specs.Known.{StandsFor};
ghost use Rattle.fib_print_listing.specs.Order.{row_from, gap};
ghost use Rattle.fib_print_listing.specs.inner.Views.{source_in};
ghost use Rattle.fib_print_listing.specs.Entries.{source_text, is_drop, cover_at, mark_text, marked_text, marked_from};
ghost use Rattle.fib_print_listing.specs.Entries.{sources_text, paths_text, entry_text, fib_text};

use crate::rows::put_gap;
use crate::view::View;
use fib_addr::{Prefix, put_prefix};
use fib_entries::Entries;
use fib_paths::PathListId;
use fib_print::put_path;
use fib_resolve::{FibSource, Path, PathKind, Tables};
use std::alloc::{AllocError, Global};

fn source_name(source: FibSource) -> &'static str
    ensures { result.now ≡ source_text source }
{
    match source {
        FibSource::Special => "special",
        FibSource::Interface => "interface",
        FibSource::Api => "api",
        FibSource::Cli => "cli",
        FibSource::Adjacency => "adjacency",
        FibSource::RecursiveResolution => "recursive-resolution",
        FibSource::DefaultRoute => "default-route",
    }
}

fn put_names(out: &mut Vec<u8>, sources: &[(FibSource, PathListId)]) -> Result<(), AllocError>
    ensures { OnOk result (out.new.items ≡ out.old.items ++ row_from (codes "+") 0 (map source_text (map source_in sources.now))) }
{
    for (k, source) in sources.iter().enumerate() {
        put_gap(out, "+", k)?;
        out.extend_from_slice(source_name(source.0).as_bytes())?;
    }
    Ok(())
}

#[tactic(auto, unfolding(crate::specs::Entries::sources_text))]
fn put_sources(out: &mut Vec<u8>, view: &View<'_>, e: Prefix) -> Result<(), AllocError>
    ensures { OnOk result (out.new.items ≡ out.old.items ++ sources_text view.now e) }
{
    put_names(out, view.sources(e))
}

fn is_drop(kind: PathKind) -> bool
    ensures { result ≡ is_drop kind }
{
    match kind {
        PathKind::Drop => true,
        _ => false,
    }
}

fn cover_at(view: &View<'_>, e: Prefix, kind: PathKind) -> Option<Prefix>
    ensures { result ≡ cover_at view.now e kind }
{
    match kind {
        PathKind::Cover => Some(view.cover(e.bits())),
        _ => None,
    }
}

fn mark_name(looped: bool, fine: bool) -> &'static str
    ensures { result.now ≡ mark_text looped fine }
{
    if looped {
        " looped"
    } else if fine {
        ""
    } else {
        " unresolved"
    }
}

#[tactic(auto, unfolding(crate::specs::Entries::marked_text))]
fn put_marked(
    out: &mut Vec<u8>,
    view: &View<'_>,
    e: Prefix,
    place: usize,
    path: &Path,
) -> Result<(), AllocError>
    ensures { OnOk result (out.new.items ≡ out.old.items ++ marked_text view.now e place path.now) }
{
    put_path(out, view.tables(), path, cover_at(view, e, path.kind))?;
    let fine = is_drop(path.kind) || view.is_usable(e, place);
    let mark = mark_name(view.is_looped(e, place), fine);
    out.extend_from_slice(mark.as_bytes())
}

fn put_marked_all(
    out: &mut Vec<u8>,
    view: &View<'_>,
    e: Prefix,
    paths: &[Path],
) -> Result<(), AllocError>
    ensures { OnOk result (out.new.items ≡ out.old.items ++ marked_from view.now e 0 paths.now) }
{
    for (place, path) in paths.iter().enumerate() {
        put_gap(out, ", ", place)?;
        put_marked(out, view, e, place, path)?;
    }
    Ok(())
}

#[tactic(auto, unfolding(crate::specs::Entries::paths_text))]
fn put_paths(out: &mut Vec<u8>, view: &View<'_>, e: Prefix) -> Result<(), AllocError>
    ensures { OnOk result (out.new.items ≡ out.old.items ++ paths_text view.now e) }
{
    put_marked_all(out, view, e, view.chosen(e))
}

#[tactic(auto, unfolding(crate::specs::Entries::entry_text))]
fn put_entry(out: &mut Vec<u8>, view: &View<'_>, e: Prefix) -> Result<(), AllocError>
    ensures { OnOk result (out.new.items ≡ out.old.items ++ entry_text view.now e) }
{
    put_prefix(out, e)?;
    out.extend_from_slice(b" ")?;
    put_sources(out, view, e)?;
    out.extend_from_slice(b": ")?;
    put_paths(out, view, e)?;
    out.extend_from_slice(b"\n")
}

#[tactic(auto, unfolding(crate::specs::Entries::fib_text))]
fn put_all(out: &mut Vec<u8>, view: &View<'_>) -> Result<(), AllocError>
    ensures { OnOk result (out.new.items ≡ out.old.items ++ fib_text view.now) }
{
    for place in 0..view.count() {
        put_entry(out, view, view.entry(place))?;
    }
    Ok(())
}

/// Appends the text of `show ip fib`: a line for each effective entry, in order of bits, then of lengths, with the names of its
/// sources from the best on and the paths of its chosen list, each with its mark. Where memory is wanted `out` is as it was.
pub fn put_entries(
    out: &mut Vec<u8>,
    alloc: Global,
    tables: &Tables,
    entries: &Entries,
) -> Result<(), AllocError>
    requires { StandsFor entries.now tables.now }
    ensures ok { OnOk result (out.new.items ≡ out.old.items ++ fib_text tables.now) }
    ensures err { OnErr result (out.new.items ≡ out.old.items) }
{
    let view = View::new(alloc, tables, entries)?;
    let mut text = Vec::new(alloc);
    put_all(&mut text, &view)?;
    out.extend_from_slice(text.as_slice())
}
