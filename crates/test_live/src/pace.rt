// How threads keep in step: a change is made, and then each worker forwards its share of packets beside it.
use std::sync::atomic::{AtomicU32, Ordering};
use std::thread;

// How often one wait yields at most. It then goes on: nothing that is judged depends on it.
const YIELDS: u32 = 20_000_000;

// How many changes began, and how many shares of packets were forwarded.
#[derive(Drop)]
pub struct Pace {
    begun: AtomicU32,
    shares: AtomicU32,
}

// Yields until the count is at least so great.
fn wait_for(count: &AtomicU32, least: u32) {
    for _ in 0..YIELDS {
        if count.load(Ordering::SeqCst) >= least {
            return;
        }
        thread::yield_now();
    }
}

impl Pace {
    // Nothing began.
    pub fn new() -> Pace {
        Pace {
            begun: AtomicU32::new(0),
            shares: AtomicU32::new(0),
        }
    }

    // One more change began.
    pub fn begin(&self) {
        self.begun.fetch_add(1, Ordering::SeqCst);
    }

    // One more share was forwarded.
    pub fn finish_share(&self) {
        self.shares.fetch_add(1, Ordering::SeqCst);
    }

    // Waits until so many changes began.
    pub fn wait_for_change(&self, least: u32) {
        wait_for(&self.begun, least);
    }

    // Waits until so many shares were forwarded.
    pub fn wait_for_shares(&self, least: u32) {
        wait_for(&self.shares, least);
    }
}
