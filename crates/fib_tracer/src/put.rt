// What is printed of passes.
ghost use Rattle.std.specs.Prelude.{◌≡◌, ◌<◌, ◌≤◌, ◌+◌, ◌^◌, ◌++◌, List, ℕ, drop, length, IfOk, OnOk, OnErr, IsErrOf};
ghost use Rattle.fib_outside.specs.Outside.{Appends, HasRisen};
ghost use Rattle.fib_rounds.specs.Writes.{AppendsSome};
ghost use Rattle.fib_worker_crew.specs.Packets.{Matched};
ghost use Rattle.fib_print.specs.Packets.{packet_text};
ghost use Rattle.fib_trace.specs.Texts.{loads_text};
ghost use Rattle.fib_tracer.specs.Passes.{passes_text};
ghost use Rattle.fib_tracer.specs.inner.Printing.{HasMoved, IsShort, told_text};

use crate::log::Traced;
use crate::run::Told;
use fib_capture::{Capture, Packet};
use fib_outside::{Failed, Sink};
use fib_print::{put_bad_header, put_not_ipv4, put_packet};
use fib_resolve::Tables;
use fib_rounds::{RunFault, put_all, put_last};
use fib_trace::{Load, put_load};
use std::alloc::AllocError;

/// So many bytes of text are written before more is made.
const PIECE: usize = 65_536;

// A line for each load, numbered from 0.
fn put_loads(out: &mut Vec<u8>, tables: &Tables, loads: &[Load]) -> Result<(), AllocError>
    requires { length loads.now < 2 ^ 32 }
    ensures { OnOk result (out.new.items ≡ out.old.items ++ loads_text tables.now 0 loads.now) }
{
    for (number, load) in loads.iter().enumerate() {
        put_load(out, tables, number as u32, load)?;
    }
    Ok(())
}

// The line of a flow and those of its loads.
fn put_pass(out: &mut Vec<u8>, tables: &Tables, at: u32, pass: &Traced) -> Result<(), AllocError>
    requires { length pass.now.loads < 2 ^ 32 }
    ensures { OnOk result (out.new.items ≡ out.old.items ++ (packet_text tables.now at pass.now.result
        ++ loads_text tables.now 0 pass.now.loads)) }
{
    put_packet(out, tables, at, &pass.result)?;
    put_loads(out, tables, pass.loads.as_slice())
}

// What is printed of the packet in that place; a flow takes the first of these passes. Answers the passes that are left.
fn put_next<'p>(
    text: &mut Vec<u8>,
    tables: &Tables,
    packets: &Capture,
    at: u32,
    passes: &'p [Traced],
) -> Result<&'p [Traced], AllocError>
    requires inside { at < length packets.now.packets }
    requires each { Matched IsShort (drop at packets.now.packets) passes.now }
    ensures text { IfOk result (λ left. text.new.items ++ passes_text tables.now (at + 1) (drop (at + 1) packets.now.packets) left.now
        ≡ text.old.items ++ passes_text tables.now at (drop at packets.now.packets) passes.now) }
    ensures each { IfOk result (λ left. Matched IsShort (drop (at + 1) packets.now.packets) left.now) }
{
    match packets.at(at) {
        Packet::NotIpv4 => {
            put_not_ipv4(text, at)?;
            Ok(passes)
        }
        Packet::BadHeader => {
            put_bad_header(text, at)?;
            Ok(passes)
        }
        Packet::Flow { .. } => {
            let [pass, others @ ..] = passes else {
                return Ok(passes);
            };
            put_pass(text, tables, at, pass)?;
            Ok(others)
        }
    }
}

// Writes the text and begins a new one, where it has grown to a piece.
fn write_piece<K: Sink>(out: &mut K, text: &mut Vec<u8>) -> Result<(), Failed>
    ensures ok { OnOk result (HasMoved (K.written out.old) (K.written out.new) text.old.items text.new.items) }
    ensures some { OnErr result (AppendsSome (K.written out.old) (K.written out.new) text.old.items) }
    ensures failed { OnErr result (HasRisen (K.faults out.old) (K.faults out.new)) }
    ensures counted { K.faults out.old ≤ K.faults out.new }
{
    if text.len() < PIECE {
        return Ok(());
    }
    put_all(out, text)?;
    text.clear();
    Ok(())
}

// Prints the packets and their passes behind this text, and writes all but the last piece.
fn write_passes<K: Sink>(
    out: &mut K,
    text: &mut Vec<u8>,
    tables: &Tables,
    packets: &Capture,
    passes: &[Traced],
) -> Result<(), RunFault>
    requires { Matched IsShort packets.now.packets passes.now }
    ensures ok { OnOk result (HasMoved (K.written out.old) (K.written out.new)
        (text.old.items ++ passes_text tables.now 0 packets.now.packets passes.now) text.new.items) }
    ensures some { OnErr result (AppendsSome (K.written out.old) (K.written out.new)
        (text.old.items ++ passes_text tables.now 0 packets.now.packets passes.now)) }
    ensures write { IsErrOf result RunFault.Write → HasRisen (K.faults out.old) (K.faults out.new) }
    ensures counted { K.faults out.old ≤ K.faults out.new }
{
    let mut rest = passes;
    for at in 0..packets.count() {
        rest = put_next(text, tables, packets, at, rest)?;
        write_piece(out, text)?;
    }
    Ok(())
}

/// Writes what a traced run tells: the text of its lines, each packet and the loads of each pass, and the last line of a capture that is cut. Memory
/// is taken for a piece of the text at a time. Where that fails, a first part was written.
pub fn write_told<K: Sink>(
    out: &mut K,
    told: Told,
    tables: &Tables,
    packets: &Capture,
) -> Result<(), RunFault>
    requires { Matched IsShort packets.now.packets told.passes.items }
    ensures ok { OnOk result (Appends (K.written out.old) (K.written out.new) (told_text tables.now packets.now told)) }
    ensures some { OnErr result (AppendsSome (K.written out.old) (K.written out.new) (told_text tables.now packets.now told)) }
    ensures write { IsErrOf result RunFault.Write → HasRisen (K.faults out.old) (K.faults out.new) }
    ensures counted { K.faults out.old ≤ K.faults out.new }
{
    let Told { mut text, passes } = told;
    write_passes(out, &mut text, tables, packets, &passes)?;
    put_last(&mut text, packets)?;
    put_all(out, &text)?;
    Ok(())
}
