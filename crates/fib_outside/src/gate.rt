// What is told of a run as it goes on.

/// It is told of each change and of each packet. A contract can say nothing of what a gate does when it is told: it may count, wait
/// or do nothing. So no contract rests on one.
pub trait Gate: Sync {
    /// Before the change of this number is made.
    fn changing(&self, change: u32);

    /// After the change of this number was made.
    fn applied(&self, change: u32);

    /// Before a worker forwards the packet of this number in the capture.
    fn before(&self, worker: u32, packet: u32);
}

/// A gate that returns at once.
#[derive(Clone, Copy, Debug, Default, PartialEq, Eq)]
pub struct FreeGate;

impl Gate for FreeGate {
    fn changing(&self, _change: u32) {}

    fn applied(&self, _change: u32) {}

    fn before(&self, _worker: u32, _packet: u32) {}
}
