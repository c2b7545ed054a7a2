use crate::expect::{holds, same};
use fib_outside::{
    Failed, FreeGate, Gate, HonestShelf, HonestSink, MeetGate, MemoryShelf, MemorySink, Part,
    Shelf, Sink,
};
use std::alloc::{AllocError, Global};
use std::test::Fail;

fn files_of(alloc: Global, files: &[(&str, &[u8])]) -> Result<Vec<(String, Vec<u8>)>, AllocError> {
    let mut held = Vec::new(alloc);
    for (name, bytes) in files {
        held.push((String::from_str(alloc, name)?, bytes.to_vec(alloc)?))?;
    }
    Ok(held)
}

#[test]
fn memory_sink_fails_where_told(rt: HostRuntime) -> Result<(), Fail> {
    let failing = [1, 3].to_vec(rt.alloc())?;
    let mut sink = MemorySink::new(rt.alloc(), 6, failing)?;
    let rows: [(&[u8], Result<usize, Failed>, &[u8]); 8] = [
        (b"ab", Ok(2), b"ab"),
        (b"c", Err(Failed), b"ab"),
        (b"cde", Ok(3), b"abcde"),
        (b"", Err(Failed), b"abcde"),
        (b"fg", Err(Failed), b"abcde"),
        (b"f", Ok(1), b"abcdef"),
        (b"", Ok(0), b"abcdef"),
        (b"g", Err(Failed), b"abcdef"),
    ];
    for (piece, answer, written) in rows {
        same(&rt, sink.write(piece), answer);
        same(&rt, sink.bytes(), written);
    }
    Ok(())
}

#[test]
fn memory_shelf_fails_where_told(rt: HostRuntime) -> Result<(), Fail> {
    let files = files_of(rt.alloc(), &[("a", b"first"), ("b", b""), ("a", b"second")])?;
    let mut shelf = MemoryShelf::new(files, [1].to_vec(rt.alloc())?);
    let mut into = [0u8; 3];
    same(&rt, shelf.fetch(Part::Commands, "missing"), Err(Failed));
    same(&rt, shelf.fetch(Part::Commands, "a"), Err(Failed));
    if shelf.fetch(Part::Capture, "a").is_ok() {
        same(&rt, shelf.read(&mut into), Ok(3));
        same(&rt, into.as_slice(), b"fir".as_slice());
        same(&rt, shelf.read(&mut into), Ok(2));
        same(&rt, into.as_slice(), b"str".as_slice());
        same(&rt, shelf.read(&mut into), Ok(0));
    }
    same(&rt, shelf.fetch(Part::Commands, "b"), Ok(()));
    Ok(())
}

#[test]
fn honest_forms_never_fail(rt: HostRuntime) -> Result<(), Fail> {
    let mut shelf = HonestShelf::new(files_of(rt.alloc(), &[("a", b"bytes")])?);
    let mut into = [0u8; 8];
    for (name, count) in [("a", 5), ("missing", 0), ("a", 5)] {
        if shelf.fetch(Part::Commands, name).is_ok() {
            same(&rt, shelf.read(&mut into), Ok(count));
        }
    }
    let mut sink = HonestSink::new(rt.alloc());
    same(&rt, sink.write(b"ab"), Ok(2));
    same(&rt, sink.write(b"c"), Ok(1));
    holds(&rt, !sink.lost());
    same(&rt, sink.bytes(), b"abc".as_slice());
    Ok(())
}

// A gate is passed by its bound.
fn pass<G: Gate>(gate: &G) {
    gate.changing(1);
    gate.before(0, 0);
    gate.applied(1);
}

#[test]
fn free_gate_returns() {
    pass(&FreeGate);
}

#[test]
fn meet_gate_gives_up(rt: HostRuntime) {
    // Either of the two alone gives up; another packet and another change pass.
    let gate = MeetGate::new(7, 2, 3);
    gate.before(0, 6);
    gate.changing(1);
    holds(&rt, !gate.met());
    gate.applied(2);
    gate.before(1, 7);
    holds(&rt, !gate.met());
    gate.changing(2);
    holds(&rt, gate.met());

    let gate = MeetGate::new(7, 2, 3);
    gate.changing(2);
    gate.before(0, 7);
    holds(&rt, !gate.met());
}
