// The lines of packets.
ghost use Rattle.std.specs.Prelude.{◌≡◌, ◌++◌, OnOk, OnErr, IfOk, decimal};
ghost use Rattle.fib_print.specs.Packets.{version_text, window_text, flow_text, packet_text, not_ipv4_text, bad_header_text, cut_text};
ghost use Rattle.fib_print.specs.inner.Growing.{HasKept};

use crate::ends::put_end;
use crate::text::{or_undone, put_number, put_text, write_addr};
use fib_core_results::{Record, Version};
use fib_resolve::Tables;
use std::alloc::{AllocError, Global};

#[tactic(auto, unfolding(crate::specs::Packets::version_text), using(crate::proofs::Growing::kept_on, crate::proofs::Growing::kept_one, crate::proofs::Growing::kept_all))]
fn write_version(out: &mut Vec<u8>, version: Version) -> Result<(), AllocError>
    ensures ok { OnOk result (out.new.items ≡ out.old.items ++ version_text version) }
    ensures err { OnErr result (HasKept out.old.items out.new.items) }
{
    put_number(out, u64::from(version.settled))?;
    put_text(out, ".")?;
    put_number(out, u64::from(version.applied))
}

#[tactic(auto, unfolding(crate::specs::Packets::window_text), using(crate::proofs::Growing::kept_on, crate::proofs::Growing::kept_one, crate::proofs::Growing::kept_all))]
fn write_window(out: &mut Vec<u8>, answer: &Record) -> Result<(), AllocError>
    ensures ok { OnOk result (out.new.items ≡ out.old.items ++ window_text answer.now) }
    ensures err { OnErr result (HasKept out.old.items out.new.items) }
{
    write_version(out, answer.lo)?;
    put_text(out, "-")?;
    write_version(out, answer.hi)
}

#[tactic(auto, unfolding(crate::specs::Packets::flow_text), using(crate::proofs::Growing::kept_on, crate::proofs::Growing::kept_one, crate::proofs::Growing::kept_all))]
fn write_flow(out: &mut Vec<u8>, number: u32, answer: &Record) -> Result<(), AllocError>
    ensures ok { OnOk result (out.new.items ≡ out.old.items ++ flow_text number answer.now) }
    ensures err { OnErr result (HasKept out.old.items out.new.items) }
{
    put_text(out, "packet ")?;
    put_number(out, u64::from(number))?;
    put_text(out, " ")?;
    write_addr(out, answer.addr)?;
    put_text(out, " ")?;
    put_number(out, u64::from(answer.hash))?;
    put_text(out, " ")
}

#[tactic(auto, unfolding(crate::specs::Packets::packet_text), using(crate::proofs::Growing::kept_on, crate::proofs::Growing::kept_one, crate::proofs::Growing::kept_all))]
fn write_packet(
    out: &mut Vec<u8>,
    tables: &Tables,
    number: u32,
    answer: &Record,
) -> Result<(), AllocError>
    ensures ok { OnOk result (out.new.items ≡ out.old.items ++ packet_text tables.now number answer.now) }
    ensures err { OnErr result (HasKept out.old.items out.new.items) }
{
    write_flow(out, number, answer)?;
    write_window(out, answer)?;
    put_text(out, " ")?;
    put_end(out, tables, &answer.end)?;
    put_text(out, "\n")
}

/// Appends the line of a flow: `packet N ADDRESS HASH S.A-T.B END`, where S.A and T.B are the settled and applied numbers of the
/// answer's window, and a line feed. It takes no memory but what the vector grows by, and leaves it as it was where that is wanting.
pub fn put_packet(
    out: &mut Vec<u8>,
    tables: &Tables,
    number: u32,
    answer: &Record,
) -> Result<(), AllocError>
    ensures ok { OnOk result (out.new.items ≡ out.old.items ++ packet_text tables.now number answer.now) }
    ensures err { OnErr result (out.new.items ≡ out.old.items) }
{
    let before = out.len();
    let written = write_packet(out, tables, number, answer);
    or_undone(out, before, written)
}

/// A word, a number, and what follows.
fn numbered(alloc: Global, before: &str, number: u32, after: &str) -> Result<Vec<u8>, AllocError>
    ensures { IfOk result (λ v. v.items ≡ before.now ++ decimal number ++ after.now) }
{
    let mut text = Vec::new(alloc);
    put_text(&mut text, before)?;
    put_number(&mut text, u64::from(number))?;
    put_text(&mut text, after)?;
    Ok(text)
}

/// Appends the line of a packet that isn't IPv4. Unchanged on want of memory.
#[tactic(auto, unfolding(crate::specs::Packets::not_ipv4_text))]
pub fn put_not_ipv4(out: &mut Vec<u8>, number: u32) -> Result<(), AllocError>
    ensures ok { OnOk result (out.new.items ≡ out.old.items ++ not_ipv4_text number) }
    ensures err { OnErr result (out.new.items ≡ out.old.items) }
{
    let text = numbered(*out.allocator(), "packet ", number, " not ipv4\n")?;
    out.extend_from_slice(&text)
}

/// Appends the line of a packet whose IPv4 header is bad. Unchanged on want of memory.
#[tactic(auto, unfolding(crate::specs::Packets::bad_header_text))]
pub fn put_bad_header(out: &mut Vec<u8>, number: u32) -> Result<(), AllocError>
    ensures ok { OnOk result (out.new.items ≡ out.old.items ++ bad_header_text number) }
    ensures err { OnErr result (out.new.items ≡ out.old.items) }
{
    let text = numbered(*out.allocator(), "packet ", number, " bad header\n")?;
    out.extend_from_slice(&text)
}

/// Appends the line of a capture that ends inside a packet. Unchanged on want of memory.
#[tactic(auto, unfolding(crate::specs::Packets::cut_text))]
pub fn put_cut(out: &mut Vec<u8>, number: u32) -> Result<(), AllocError>
    ensures ok { OnOk result (out.new.items ≡ out.old.items ++ cut_text number) }
    ensures err { OnErr result (out.new.items ≡ out.old.items) }
{
    let text = numbered(
        *out.allocator(),
        "capture ends inside packet ",
        number,
        "\n",
    )?;
    out.extend_from_slice(&text)
}
