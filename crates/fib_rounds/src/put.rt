// What a run writes.
ghost use Rattle.std.specs.Prelude.{◌≡◌, ◌<◌, ◌≤◌, ◌+◌, ◌++◌, ◌⊎◌, ℕ, length, OnOk, OnErr, IsErrOf};
ghost use Rattle.fib_outside.specs.Outside.{HasRisen, Appends};
ghost use Rattle.fib_worker_crew.specs.Packets.{span};
ghost use Rattle.fib_worker_crew.specs.Results.{numbered, results_of};
ghost use Rattle.fib_rounds_homing.specs.Places.{joined, parts_of};
ghost use Rattle.fib_rounds_taps.specs.Taps.{Takes, TakesSome};
ghost use Rattle.fib_rounds.specs.Packets.{packets_text, last_text};
ghost use Rattle.fib_rounds.specs.Writes.{AppendsSome, AreLaid};

use crate::fault::RunFault;
use crate::opening::Opening;
use fib_capture::{Capture, Packet};
use fib_core_results::Record;
use fib_outside::{Failed, Sink};
use fib_print::{put_bad_header, put_cut, put_not_ipv4, put_packet};
use fib_resolve::Tables;
use fib_rounds_taps::{Tap, take_all};
use fib_worker_crew::Results;
use std::alloc::AllocError;

/// What the lines of packets are printed from: the tables at the close of their round, and the capture.
#[derive(Drop)]
pub struct Page<'a> {
    pub tables: &'a Tables,
    pub packets: &'a Capture,
}

/// Writes all the bytes, in as many pieces as the sink takes them. Where a write fails, the first of them were written.
pub fn put_all<K: Sink>(out: &mut K, bytes: &[u8]) -> Result<(), Failed>
    ensures ok { OnOk result (Appends (K.written out.old) (K.written out.new) bytes.now) }
    ensures err { OnErr result (AppendsSome (K.written out.old) (K.written out.new) bytes.now) }
    ensures failed { OnErr result (HasRisen (K.faults out.old) (K.faults out.new)) }
    ensures counted { K.faults out.old ≤ K.faults out.new }
{
    let mut at = 0;
    'pieces: while at < bytes.len() {
        at += out.write(&bytes[at..])?;
    }
    Ok(())
}

/// Appends a line for each packet from one place up to another; the flows print the results in turn.
fn put_span(
    text: &mut Vec<u8>,
    tables: &Tables,
    packets: &Capture,
    from: u32,
    to: u32,
    results: &[(u32, Record)],
) -> Result<(), AllocError>
    requires order { from ≤ to }
    requires inside { to ≤ length packets.now.packets }
    ensures { OnOk result (text.new.items ≡ text.old.items ++ packets_text tables.now from (span packets.now.packets from to)
        (results_of results.now)) }
{
    let mut rest = results;
    for at in from..to {
        match packets.at(at) {
            Packet::NotIpv4 => put_not_ipv4(text, at)?,
            Packet::BadHeader => put_bad_header(text, at)?,
            Packet::Flow { .. } => {
                let [kept, others @ ..] = rest else {
                    return Ok(());
                };
                put_packet(text, tables, at, &kept.1)?;
                rest = others;
            }
        }
    }
    Ok(())
}

/// Appends the last line, where the capture is cut inside a packet.
pub fn put_last(text: &mut Vec<u8>, packets: &Capture) -> Result<(), AllocError>
    ensures { OnOk result (text.new.items ≡ text.old.items ++ last_text packets.now.cut) }
{
    match packets.cut_at() {
        Some(number) => put_cut(text, number),
        None => Ok(()),
    }
}

// The packets from one place up to another.
#[derive(Clone, Copy, Debug, PartialEq, Eq)]
struct Stretch {
    from: u32,
    to: u32,
}

// Writes a line for each packet of a frame, and then has the tap take the frame's results.
fn write_frame<K: Sink, T: Tap>(
    out: &mut K,
    tap: &mut T,
    text: &mut Vec<u8>,
    page: &Page<'_>,
    frame: Stretch,
    results: &Results,
) -> Result<(), RunFault>
    requires order { frame.from ≤ frame.to }
    requires inside { frame.to ≤ length page.now.packets.now.packets }
    ensures ok { OnOk result (Appends (K.written out.old) (K.written out.new)
        (packets_text page.now.tables.now frame.from (span page.now.packets.now.packets frame.from frame.to)
        (results_of results.now.list))) }
    ensures took { OnOk result (Takes (T.taken tap.old) (T.taken tap.new) results.now.list) }
    ensures err { OnErr result (AppendsSome (K.written out.old) (K.written out.new)
        (packets_text page.now.tables.now frame.from (span page.now.packets.now.packets frame.from frame.to)
        (results_of results.now.list))) }
    ensures took_some { OnErr result (TakesSome (T.taken tap.old) (T.taken tap.new) results.now.list) }
    ensures write { IsErrOf result RunFault.Write → HasRisen (K.faults out.old) (K.faults out.new)
        ⊎ HasRisen (T.faults tap.old) (T.faults tap.new) }
    ensures counted { K.faults out.old ≤ K.faults out.new }
    ensures tapped { T.faults tap.old ≤ T.faults tap.new }
{
    text.clear();
    put_span(
        text,
        page.tables,
        page.packets,
        frame.from,
        frame.to,
        results.list(),
    )?;
    put_all(out, text)?;
    take_all(tap, results.list())?;
    Ok(())
}

/// Writes a line for each packet of a round, frame by frame, and after each frame has the tap take its results; the flows print the
/// frames' results. Memory is taken for the text of one frame at most, and by the tap.
pub fn write_frames<K: Sink, T: Tap>(
    out: &mut K,
    tap: &mut T,
    text: &mut Vec<u8>,
    page: &Page<'_>,
    round: Opening,
    places: &[Option<Results>],
) -> Result<(), RunFault>
    requires order { round.first ≤ round.to }
    requires inside { round.to ≤ length page.now.packets.now.packets }
    requires laid { AreLaid page.now.packets.now.packets round.first round.to places.now }
    ensures ok { OnOk result (Appends (K.written out.old) (K.written out.new)
        (packets_text page.now.tables.now round.first (span page.now.packets.now.packets round.first round.to)
        (joined (parts_of places.now)))) }
    ensures took { OnOk result (Takes (T.taken tap.old) (T.taken tap.new)
        (numbered round.first (span page.now.packets.now.packets round.first round.to) (joined (parts_of places.now)))) }
    ensures err { OnErr result (AppendsSome (K.written out.old) (K.written out.new)
        (packets_text page.now.tables.now round.first (span page.now.packets.now.packets round.first round.to)
        (joined (parts_of places.now)))) }
    ensures took_some { OnErr result (TakesSome (T.taken tap.old) (T.taken tap.new)
        (numbered round.first (span page.now.packets.now.packets round.first round.to) (joined (parts_of places.now)))) }
    ensures write { IsErrOf result RunFault.Write → HasRisen (K.faults out.old) (K.faults out.new)
        ⊎ HasRisen (T.faults tap.old) (T.faults tap.new) }
    ensures counted { K.faults out.old ≤ K.faults out.new }
    ensures tapped { T.faults tap.old ≤ T.faults tap.new }
{
    let mut at = round.first;
    'frames: for place in places {
        if let Some(results) = place {
            let next = at + (round.to - at).min(256);
            write_frame(
                out,
                tap,
                text,
                page,
                Stretch { from: at, to: next },
                results,
            )?;
            at = next;
        }
    }
    Ok(())
}
