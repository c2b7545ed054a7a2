// The listing of Hop ends.
ghost use Rattle.std.specs.Prelude.{◌≡◌, ◌++◌, OnOk, OnErr, IfOk, flat_map, codes};
ghost use Rattle.fib_resolve.specs.declared.types.Tables.{Tables as TablesValue};
ghost use Rattle.fib_entries_rows.specs.Known.{StandsFor};
ghost use Rattle.fib_print_listing.specs.Adjacencies.{adjacencies_text};
ghost use Rattle.fib_print_listing.specs.inner.Hops.{AddsHops, AreHops, AreHopsOrdered, aim_hops, end_hops, hop_line, mark_hops};

use fib_addr::Mac;
use fib_entries::Entries;
use fib_print::put_end;
use fib_resolve::{Adjacency, Aim, End, Marked, Tables};
use std::alloc::{AllocError, Global};
use std::collections::BTreeMap;

fn add_end(hops: &mut BTreeMap<Adjacency, Option<Mac>>, end: End) -> Result<(), AllocError>
    ensures { OnOk result (AddsHops (end_hops end) hops.old.entries hops.new.entries) }
{
    match end {
        End::Hop {
            interface,
            next_hop,
            mac,
        } => {
            let key = Adjacency {
                interface,
                next_hop,
            };
            hops.insert(key, mac)?;
            Ok(())
        }
        _ => Ok(()),
    }
}

fn add_hop(hops: &mut BTreeMap<Adjacency, Option<Mac>>, aim: Aim) -> Result<(), AllocError>
    ensures { OnOk result (AddsHops (aim_hops aim) hops.old.entries hops.new.entries) }
{
    match aim {
        Aim::Ends(end) => add_end(hops, end),
        Aim::On(_) => Ok(()),
    }
}

fn add_hops(hops: &mut BTreeMap<Adjacency, Option<Mac>>, marks: &[Marked]) -> Result<(), AllocError>
    ensures { OnOk result (AddsHops (flat_map mark_hops marks.now) hops.old.entries hops.new.entries) }
{
    for mark in marks {
        add_hop(hops, mark.aim)?;
    }
    Ok(())
}

/// The Hop ends of all chosen paths in order, each once, with its MAC where that is known.
fn hops_of(alloc: Global, entries: &Entries) -> Result<BTreeMap<Adjacency, Option<Mac>>, AllocError>
    ensures { IfOk result (λ m. (S : TablesValue) → StandsFor entries.now S → AreHops entries.now S m.entries) }
{
    let mut hops = BTreeMap::new(alloc);
    for place in 0..entries.len() {
        add_hops(&mut hops, entries.marked(entries.at(place)))?;
    }
    Ok(hops)
}

fn put_hop(
    out: &mut Vec<u8>,
    tables: &Tables,
    x: Adjacency,
    mac: Option<Mac>,
) -> Result<(), AllocError>
    ensures { OnOk result (out.new.items ≡ out.old.items ++ hop_line tables.now (x, mac)) }
{
    let end = End::Hop {
        interface: x.interface,
        next_hop: x.next_hop,
        mac,
    };
    put_end(out, tables, &end)?;
    out.extend_from_slice(b"\n")
}

fn put_all(
    out: &mut Vec<u8>,
    tables: &Tables,
    hops: &BTreeMap<Adjacency, Option<Mac>>,
) -> Result<(), AllocError>
    ensures text { OnOk result (out.new.items ≡ out.old.items ++ flat_map (hop_line tables.now) hops.now.entries) }
    ensures ordered { OnOk result (AreHopsOrdered hops.now.entries) }
{
    for (x, mac) in hops.iter() {
        put_hop(out, tables, *x, *mac)?;
    }
    Ok(())
}

/// Appends the text of `show adj`: the text of each distinct Hop end of the chosen paths, usable or not, in order of the interface,
/// then of the next hop. Where memory is wanted `out` is as it was.
#[tactic(auto, using(crate::proofs::Hops::hops_told))]
pub fn put_adjacencies(
    out: &mut Vec<u8>,
    alloc: Global,
    tables: &Tables,
    entries: &Entries,
) -> Result<(), AllocError>
    requires { StandsFor entries.now tables.now }
    ensures ok { OnOk result (out.new.items ≡ out.old.items ++ adjacencies_text tables.now) }
    ensures err { OnErr result (out.new.items ≡ out.old.items) }
{
    let hops = hops_of(alloc, entries)?;
    let mut text = Vec::new(alloc);
    put_all(&mut text, tables, &hops)?;
    out.extend_from_slice(text.as_slice())
}
