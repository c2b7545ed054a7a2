// A gate that holds one packet back until another has come.
use crate::Gate;
use crate::waiting::is_set_within;
use std::sync::atomic::{AtomicBool, Ordering};

/// A gate that holds the worker of one packet back until another packet has come. It gives up after so many yields, so no call waits for
/// good, and none needs a runtime. All other calls return at once.
#[derive(Drop)]
pub struct HoldGate {
    packet: u32,
    until: u32,
    turns: u64,
    held: AtomicBool,
    came: AtomicBool,
    gave_up: AtomicBool,
}

impl HoldGate {
    /// A gate that holds the packet of the one number until that of the other has come, and gives up after so many yields.
    pub fn new(packet: u32, until: u32, turns: u64) -> HoldGate {
        HoldGate {
            packet,
            until,
            turns,
            held: AtomicBool::new(false),
            came: AtomicBool::new(false),
            gave_up: AtomicBool::new(false),
        }
    }

    /// Whether both came, and it did not give up.
    pub fn met(&self) -> bool {
        self.held.load(Ordering::SeqCst)
            && self.came.load(Ordering::SeqCst)
            && !self.gave_up.load(Ordering::SeqCst)
    }
}

impl Gate for HoldGate {
    fn changing(&self, _change: u32) {}

    fn applied(&self, _change: u32) {}

    fn before(&self, _worker: u32, packet: u32) {
        if packet == self.until {
            self.came.store(true, Ordering::SeqCst);
        }
        if packet == self.packet {
            self.held.store(true, Ordering::SeqCst);
            if !is_set_within(&self.came, self.turns) {
                self.gave_up.store(true, Ordering::SeqCst);
            }
        }
    }
}
