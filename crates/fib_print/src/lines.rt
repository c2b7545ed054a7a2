// The texts of refused lines.
ghost use Rattle.std.specs.Prelude.{◌≡◌, ◌++◌, OnOk, OnErr, IfOk};
ghost use Rattle.fib_print.specs.Lines.{message, refusal_text, batch_text};

use crate::text::{put_number, put_text};
use fib_resolve::Refusal;
use std::alloc::{AllocError, Global};

/// Why a line of a batch is refused, beside the reasons that a line alone has.
#[derive(Clone, Copy, Debug, PartialEq, Eq)]
pub enum BatchFault {
    /// A `lookup`, `show`, `forward` or `begin` line within a batch.
    InBatch,
    /// A `commit` line outside a batch.
    NoBatch,
    /// The `commit` of a batch in which a line was refused.
    Spoiled,
    /// The `begin` of a batch that the script's end leaves.
    NotCommitted,
}

#[tactic(auto, unfolding(crate::specs::Lines::message))]
fn message(alloc: Global, line: u32, text: &str) -> Result<Vec<u8>, AllocError>
    ensures { IfOk result (λ v. v.items ≡ message line text.now) }
{
    let mut whole = Vec::new(alloc);
    put_text(&mut whole, "line ")?;
    put_number(&mut whole, u64::from(line))?;
    put_text(&mut whole, ": ")?;
    put_text(&mut whole, text)?;
    put_text(&mut whole, "\n")?;
    Ok(whole)
}

/// Appends `line N: TEXT` and a line feed. Unchanged on want of memory.
pub fn put_message(out: &mut Vec<u8>, line: u32, text: &str) -> Result<(), AllocError>
    ensures ok { OnOk result (out.new.items ≡ out.old.items ++ message line text.now) }
    ensures err { OnErr result (out.new.items ≡ out.old.items) }
{
    let whole = message(*out.allocator(), line, text)?;
    out.extend_from_slice(&whole)
}

fn refusal_name(refusal: Refusal) -> &'static str
    ensures { result.now ≡ refusal_text refusal }
{
    match refusal {
        Refusal::NoSuchInterface => "no such interface",
        Refusal::InterfaceExists => "interface exists",
        Refusal::TooManyInterfaces => "too many interfaces",
        Refusal::AddressThere => "address is there",
        Refusal::NoSuchAddress => "no such address",
        Refusal::ConnectedElsewhere => "connected on another interface",
        Refusal::NoSuchNeighbor => "no such neighbor",
        Refusal::MixedPaths => "mixed paths",
        Refusal::TooManyPaths => "too many paths",
        Refusal::NoSuchRoute => "no such route",
        Refusal::NoSuchPath => "no such path",
        Refusal::TooLarge => "too large",
    }
}

/// Appends the line of a refused edit: `line N: ` with the refusal's text, and a line feed. Unchanged on want of memory.
pub fn put_refusal(out: &mut Vec<u8>, line: u32, refusal: Refusal) -> Result<(), AllocError>
    ensures ok { OnOk result (out.new.items ≡ out.old.items ++ message line (refusal_text refusal)) }
    ensures err { OnErr result (out.new.items ≡ out.old.items) }
{
    put_message(out, line, refusal_name(refusal))
}

fn batch_name(fault: BatchFault) -> &'static str
    ensures { result.now ≡ batch_text fault }
{
    match fault {
        BatchFault::InBatch => "in a batch",
        BatchFault::NoBatch => "no batch",
        BatchFault::Spoiled => "batch spoiled",
        BatchFault::NotCommitted => "batch not committed",
    }
}

/// Appends the line of a refusal that comes of a batch, and a line feed. Unchanged on want of memory.
pub fn put_batch(out: &mut Vec<u8>, line: u32, fault: BatchFault) -> Result<(), AllocError>
    ensures ok { OnOk result (out.new.items ≡ out.old.items ++ message line (batch_text fault)) }
    ensures err { OnErr result (out.new.items ≡ out.old.items) }
{
    put_message(out, line, batch_name(fault))
}
