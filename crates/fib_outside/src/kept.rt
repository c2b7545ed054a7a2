// A gate that keeps what it was told.
use crate::Gate;
use std::alloc::{AllocError, Global};
use std::sync::atomic::{AtomicU32, Ordering};

/// What a gate is told of a run.
#[derive(Clone, Copy, Debug, PartialEq, Eq)]
pub enum Told {
    /// The change of this number is about to be tried.
    Changing(u32),
    /// The change of this number was made.
    Applied(u32),
    /// This worker is about to forward the packet of this number.
    Before {
        /// The worker's number.
        worker: u32,
        /// The packet's number in the capture.
        packet: u32,
    },
}

// A call that came: what it told, the worker if it was one's, and the number that it named.
#[derive(Drop)]
struct Call {
    kind: AtomicU32,
    worker: AtomicU32,
    number: AtomicU32,
}

const CHANGING: u32 = 1;

const APPLIED: u32 = 2;

const BEFORE: u32 = 3;

impl Call {
    // A call that has not come.
    fn none() -> Call {
        Call {
            kind: AtomicU32::new(0),
            worker: AtomicU32::new(0),
            number: AtomicU32::new(0),
        }
    }

    // The kind is stored last: where it stands, the others do.
    fn keep(&self, kind: u32, worker: u32, number: u32) {
        self.worker.store(worker, Ordering::SeqCst);
        self.number.store(number, Ordering::SeqCst);
        self.kind.store(kind, Ordering::SeqCst);
    }

    fn told(&self) -> Option<Told> {
        let kind = self.kind.load(Ordering::SeqCst);
        let number = self.number.load(Ordering::SeqCst);
        let worker = self.worker.load(Ordering::SeqCst);
        match kind {
            CHANGING => Some(Told::Changing(number)),
            APPLIED => Some(Told::Applied(number)),
            BEFORE => Some(Told::Before {
                worker,
                packet: number,
            }),
            _ => None,
        }
    }
}

/// A gate that keeps what it was told, in the order in which the calls came to it, up to as many calls as it was made for. It returns at
/// once from each, and takes memory only as it is made.
#[derive(Drop)]
pub struct KeptGate {
    next: AtomicU32,
    calls: Vec<Call>,
}

impl KeptGate {
    /// A gate that keeps so many calls.
    pub fn new(alloc: Global, room: u32) -> Result<KeptGate, AllocError> {
        let mut calls = Vec::with_capacity(alloc, room as usize)?;
        for _call in 0..room {
            calls.push(Call::none())?;
        }
        Ok(KeptGate {
            next: AtomicU32::new(0),
            calls,
        })
    }

    /// How many calls came, modulo 2^32, those that are not kept too.
    pub fn count(&self) -> u32 {
        self.next.load(Ordering::SeqCst)
    }

    /// What the call of that place told, counted from 0; None where it did not come, or is not kept. It is whole once no call runs.
    pub fn told(&self, place: u32) -> Option<Told> {
        match self.calls.get(place as usize) {
            Some(call) => call.told(),
            None => None,
        }
    }

    fn keep(&self, kind: u32, worker: u32, number: u32) {
        let place = self.next.fetch_add(1, Ordering::SeqCst);
        if let Some(call) = self.calls.get(place as usize) {
            call.keep(kind, worker, number);
        }
    }
}

impl Gate for KeptGate {
    fn changing(&self, change: u32) {
        self.keep(CHANGING, 0, change);
    }

    fn applied(&self, change: u32) {
        self.keep(APPLIED, 0, change);
    }

    fn before(&self, worker: u32, packet: u32) {
        self.keep(BEFORE, worker, packet);
    }
}
