// A gate at which a change and a packet meet.
use crate::Gate;
use crate::waiting::is_set_within;
use std::sync::atomic::{AtomicBool, Ordering};

/// A gate that holds one change back until one packet has come, and that packet until the change was made. Each of the two
/// gives up after so many yields, so no call waits for good, and none needs a runtime. All other calls return at once.
#[derive(Drop)]
pub struct MeetGate {
    packet: u32,
    change: u32,
    turns: u64,
    changing: AtomicBool,
    before: AtomicBool,
    applied: AtomicBool,
    gave_up: AtomicBool,
}

impl MeetGate {
    /// A gate for the packet of this number and the change of that one, each of which gives up after so many yields.
    pub fn new(packet: u32, change: u32, turns: u64) -> MeetGate {
        MeetGate {
            packet,
            change,
            turns,
            changing: AtomicBool::new(false),
            before: AtomicBool::new(false),
            applied: AtomicBool::new(false),
            gave_up: AtomicBool::new(false),
        }
    }

    /// Whether both came, and neither gave up.
    pub fn met(&self) -> bool {
        self.changing.load(Ordering::SeqCst)
            && self.before.load(Ordering::SeqCst)
            && !self.gave_up.load(Ordering::SeqCst)
    }

    // Yields until the flag is set, or gives up.
    fn wait_for(&self, flag: &AtomicBool) {
        if !is_set_within(flag, self.turns) {
            self.gave_up.store(true, Ordering::SeqCst);
        }
    }
}

impl Gate for MeetGate {
    fn changing(&self, change: u32) {
        if change == self.change {
            self.changing.store(true, Ordering::SeqCst);
            self.wait_for(&self.before);
        }
    }

    fn applied(&self, change: u32) {
        if change == self.change {
            self.applied.store(true, Ordering::SeqCst);
        }
    }

    fn before(&self, _worker: u32, packet: u32) {
        if packet == self.packet {
            self.before.store(true, Ordering::SeqCst);
            self.wait_for(&self.applied);
        }
    }
}
