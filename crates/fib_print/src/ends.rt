// The texts of ends.
ghost use Rattle.std.specs.Prelude.{◌≡◌, ◌++◌, None, OnErr, OnOk, Some, codes};
ghost use Rattle.fib_addr.specs.Texts.{address_text};
ghost use Rattle.fib_print.specs.Ends.{name_of, hop_text, end_text};
ghost use Rattle.fib_print.specs.inner.Growing.{HasKept};

use crate::text::{or_undone, put_text, write_addr, write_mac};
use fib_addr::{Addr, Mac};
use fib_resolve::{End, Tables};
use std::alloc::AllocError;

/// The name of the interface with that number; empty where there is none.
#[tactic(auto, unfolding(crate::specs::Ends::name_of))]
pub fn name_at(tables: &Tables, interface: u32) -> &[u8]
    ensures { result.now ≡ name_of tables.now interface }
{
    match tables.interfaces.as_slice().get(interface as usize) {
        Some(found) => found.name.as_bytes(),
        None => &[],
    }
}

// Appends a word, an interface's name and an address on it.
#[tactic(auto, using(crate::proofs::Growing::kept_on, crate::proofs::Growing::kept_one, crate::proofs::Growing::kept_all))]
fn write_on(out: &mut Vec<u8>, word: &str, name: &[u8], addr: Addr) -> Result<(), AllocError>
    ensures ok { OnOk result (out.new.items ≡ out.old.items ++ (word.now ++ name.now ++ codes " " ++ address_text addr)) }
    ensures err { OnErr result (HasKept out.old.items out.new.items) }
{
    put_text(out, word)?;
    out.extend_from_slice(name)?;
    put_text(out, " ")?;
    write_addr(out, addr)
}

// Appends a next hop on an interface whose MAC isn't known.
#[tactic(auto, using(crate::proofs::Growing::kept_on, crate::proofs::Growing::kept_one, crate::proofs::Growing::kept_all))]
fn write_incomplete(out: &mut Vec<u8>, name: &[u8], addr: Addr) -> Result<(), AllocError>
    ensures ok { OnOk result (out.new.items ≡ out.old.items ++ hop_text name.now addr None) }
    ensures err { OnErr result (HasKept out.old.items out.new.items) }
{
    write_on(out, "incomplete ", name, addr)
}

// And one whose MAC is.
#[tactic(auto, using(crate::proofs::Growing::kept_on, crate::proofs::Growing::kept_one, crate::proofs::Growing::kept_all))]
fn write_adj(out: &mut Vec<u8>, name: &[u8], addr: Addr, mac: Mac) -> Result<(), AllocError>
    ensures ok { OnOk result (out.new.items ≡ out.old.items ++ hop_text name.now addr (Some mac)) }
    ensures err { OnErr result (HasKept out.old.items out.new.items) }
{
    write_on(out, "adj ", name, addr)?;
    put_text(out, " ")?;
    write_mac(out, mac)
}

#[tactic(auto, using(crate::proofs::Growing::kept_on, crate::proofs::Growing::kept_one, crate::proofs::Growing::kept_all))]
fn write_hop(out: &mut Vec<u8>, name: &[u8], addr: Addr, mac: Option<Mac>) -> Result<(), AllocError>
    ensures ok { OnOk result (out.new.items ≡ out.old.items ++ hop_text name.now addr mac) }
    ensures err { OnErr result (HasKept out.old.items out.new.items) }
{
    match mac {
        None => write_incomplete(out, name, addr),
        Some(mac) => write_adj(out, name, addr, mac),
    }
}

// The text of an end.
#[tactic(auto, unfolding(crate::specs::Ends::end_text), using(crate::proofs::Growing::kept_on, crate::proofs::Growing::kept_one, crate::proofs::Growing::kept_all))]
fn write_end(out: &mut Vec<u8>, tables: &Tables, end: &End) -> Result<(), AllocError>
    ensures ok { OnOk result (out.new.items ≡ out.old.items ++ end_text tables.now end.now) }
    ensures err { OnErr result (HasKept out.old.items out.new.items) }
{
    match *end {
        End::Drop => put_text(out, "drop"),
        End::Receive => put_text(out, "receive"),
        End::Glean(interface) => {
            put_text(out, "glean ")?;
            out.extend_from_slice(name_at(tables, interface))
        }
        End::Hop {
            interface,
            next_hop,
            mac,
        } => write_hop(out, name_at(tables, interface), next_hop, mac),
    }
}

/// Appends the text of an end: `drop`, `receive`, `glean NAME`, `adj NAME ADDRESS MAC`, or `incomplete NAME ADDRESS` where the MAC
/// isn't known. The name of an interface that the tables lack is empty. It takes no memory but what the vector grows by, and leaves
/// it as it was where that is wanting.
pub fn put_end(out: &mut Vec<u8>, tables: &Tables, end: &End) -> Result<(), AllocError>
    ensures ok { OnOk result (out.new.items ≡ out.old.items ++ end_text tables.now end.now) }
    ensures err { OnErr result (out.new.items ≡ out.old.items) }
{
    let before = out.len();
    let written = write_end(out, tables, end);
    or_undone(out, before, written)
}
