// The texts of paths.
ghost use Rattle.std.specs.Prelude.{◌≡◌, ◌++◌, OnOk, OnErr, IfOk, codes};
ghost use Rattle.fib_addr.specs.Texts.{address_text};
ghost use Rattle.fib_print.specs.Ends.{name_of};
ghost use Rattle.fib_print.specs.Paths.{cover_text, kind_text, need_text, numbers_text, path_text};

use crate::ends::name_at;
use crate::text::{put_number, put_text};
use fib_addr::{Addr, Prefix, put_addr, put_prefix};
use fib_resolve::{Need, Path, PathKind, Tables};
use std::alloc::{AllocError, Global};

fn put_cover(out: &mut Vec<u8>, cover: Option<Prefix>) -> Result<(), AllocError>
    ensures { OnOk result (out.new.items ≡ out.old.items ++ cover_text cover) }
{
    match cover {
        None => put_text(out, "cover"),
        Some(prefix) => {
            put_text(out, "cover ")?;
            put_prefix(out, prefix)
        }
    }
}

fn put_hop(out: &mut Vec<u8>, addr: Addr, name: &[u8]) -> Result<(), AllocError>
    ensures { OnOk result (out.new.items ≡ out.old.items ++ (codes "hop " ++ address_text addr ++ codes " " ++ name.now)) }
{
    put_text(out, "hop ")?;
    put_addr(out, addr)?;
    put_text(out, " ")?;
    out.extend_from_slice(name)
}

fn put_attached(out: &mut Vec<u8>, name: &[u8]) -> Result<(), AllocError>
    ensures { OnOk result (out.new.items ≡ out.old.items ++ (codes "attached " ++ name.now)) }
{
    put_text(out, "attached ")?;
    out.extend_from_slice(name)
}

fn put_via(out: &mut Vec<u8>, addr: Addr) -> Result<(), AllocError>
    ensures { OnOk result (out.new.items ≡ out.old.items ++ (codes "via " ++ address_text addr)) }
{
    put_text(out, "via ")?;
    put_addr(out, addr)
}

#[tactic(auto, unfolding(crate::specs::Paths::kind_text))]
fn put_kind(
    out: &mut Vec<u8>,
    tables: &Tables,
    cover: Option<Prefix>,
    kind: PathKind,
) -> Result<(), AllocError>
    ensures { OnOk result (out.new.items ≡ out.old.items ++ kind_text tables.now cover kind) }
{
    match kind {
        PathKind::Drop => put_text(out, "drop"),
        PathKind::Local => put_text(out, "local"),
        PathKind::Attached(interface) => put_attached(out, name_at(tables, interface)),
        PathKind::Hop {
            next_hop,
            interface,
        } => put_hop(out, next_hop, name_at(tables, interface)),
        PathKind::Recursive(addr) => put_via(out, addr),
        PathKind::Cover => put_cover(out, cover),
    }
}

#[tactic(auto, unfolding(crate::specs::Paths::numbers_text))]
fn put_numbers(out: &mut Vec<u8>, weight: u8, preference: u8) -> Result<(), AllocError>
    ensures { OnOk result (out.new.items ≡ out.old.items ++ numbers_text weight preference) }
{
    put_text(out, " weight ")?;
    put_number(out, u64::from(weight))?;
    put_text(out, " preference ")?;
    put_number(out, u64::from(preference))
}

fn need_name(need: Need) -> &'static str
    ensures { result.now ≡ need_text need }
{
    match need {
        Need::Any => "",
        Need::Host => " resolve-via-host",
        Need::Attached => " resolve-via-attached",
    }
}

/// Appends the text of a path: its kind with what belongs to it, its weight and preference, and its need where that isn't Any. The
/// prefix of the cover stands behind the word `cover` where one is given. Unchanged on want of memory.
#[tactic(auto, unfolding(crate::specs::Paths::path_text))]
pub fn put_path(
    out: &mut Vec<u8>,
    tables: &Tables,
    path: &Path,
    cover: Option<Prefix>,
) -> Result<(), AllocError>
    ensures ok { OnOk result (out.new.items ≡ out.old.items ++ path_text tables.now cover path.now) }
    ensures err { OnErr result (out.new.items ≡ out.old.items) }
{
    let mut text = Vec::new(*out.allocator());
    put_kind(&mut text, tables, cover, path.kind)?;
    put_numbers(&mut text, path.weight, path.preference)?;
    put_text(&mut text, need_name(path.need))?;
    out.extend_from_slice(&text)
}
