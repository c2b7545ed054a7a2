// The listing of path-lists.
ghost use Rattle.std.specs.Prelude.{◌≡◌, ◌++◌, OnOk, OnErr, IfOk, codes, flat_map, map};
ghost use Rattle.fib_entries_rows.specs.Known.{StandsFor};
ghost use Rattle.fib_print_listing.specs.Order.{row_from, gap};
ghost use Rattle.fib_print_listing.specs.PathLists.{plain_text, lists_text};
ghost use Rattle.fib_print_listing.specs.inner.Lists.{AreCounts, AreListed, entry_line, line_text};

use crate::rows::put_gap;
use fib_entries::Entries;
use fib_paths::PathLists;
use fib_print::{put_number, put_path};
use fib_resolve::{Path, Tables};
use std::alloc::{AllocError, Global};
use std::collections::BTreeMap;

/// The kept lists in order, each with the number of its users.
fn counts_of(alloc: Global, lists: &PathLists) -> Result<BTreeMap<&[Path], u32>, AllocError>
    ensures { IfOk result (λ m. AreCounts lists.now m.entries) }
{
    let mut counts = BTreeMap::new(alloc);
    for place in 0..lists.count() {
        let id = lists.at(place);
        counts.insert(lists.content(id), lists.users(id))?;
    }
    Ok(counts)
}

fn put_paths(out: &mut Vec<u8>, tables: &Tables, paths: &[Path]) -> Result<(), AllocError>
    ensures { OnOk result (out.new.items ≡ out.old.items ++ row_from (codes ", ") 0 (map (plain_text tables.now) paths.now)) }
{
    for (k, path) in paths.iter().enumerate() {
        put_gap(out, ", ", k)?;
        put_path(out, tables, path, None)?;
    }
    Ok(())
}

fn put_list_line(
    out: &mut Vec<u8>,
    tables: &Tables,
    paths: &[Path],
    users: u32,
) -> Result<(), AllocError>
    ensures { OnOk result (out.new.items ≡ out.old.items ++ line_text tables.now users paths.now) }
{
    out.extend_from_slice(b"users ")?;
    put_number(out, u64::from(users))?;
    out.extend_from_slice(b": ")?;
    put_paths(out, tables, paths)?;
    out.extend_from_slice(b"\n")
}

fn put_all(
    out: &mut Vec<u8>,
    tables: &Tables,
    counts: &BTreeMap<&[Path], u32>,
) -> Result<(), AllocError>
    ensures text { OnOk result (out.new.items ≡ out.old.items ++ flat_map (entry_line tables.now) counts.now.entries) }
    ensures ordered { OnOk result (AreListed counts.now.entries) }
{
    for (paths, users) in counts.iter() {
        put_list_line(out, tables, paths, *users)?;
    }
    Ok(())
}

/// Appends the text of `show fib path-lists`: a line for each list that an effective pair has, with the number of these pairs. Lists
/// are ordered by the first paths that differ, and a list that another begins with stands first. Where memory is wanted `out` is as
/// it was.
#[tactic(auto, using(crate::proofs::Counting::lists_told))]
pub fn put_path_lists(
    out: &mut Vec<u8>,
    alloc: Global,
    tables: &Tables,
    entries: &Entries,
) -> Result<(), AllocError>
    requires { StandsFor entries.now tables.now }
    ensures ok { OnOk result (out.new.items ≡ out.old.items ++ lists_text tables.now) }
    ensures err { OnErr result (out.new.items ≡ out.old.items) }
{
    let lists = entries.lists();
    // Read so that the proof knows that each kept list has a user.
    let _count = lists.count();
    let counts = counts_of(alloc, lists)?;
    let mut text = Vec::new(alloc);
    put_all(&mut text, tables, &counts)?;
    out.extend_from_slice(text.as_slice())
}
