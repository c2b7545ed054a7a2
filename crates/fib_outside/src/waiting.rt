// How gates wait.
use std::sync::atomic::{AtomicBool, Ordering};

/// How many loads of the flag that is waited for one yield is: so a gate needs no runtime.
const LOADS: u32 = 1000;

/// Yields until the flag is set, at most so many times, and answers whether it was.
pub fn is_set_within(flag: &AtomicBool, turns: u64) -> bool {
    for _ in 0..turns {
        if is_set_soon(flag) {
            return true;
        }
    }
    false
}

// One yield: loads the flag until it is set, at most so many times.
fn is_set_soon(flag: &AtomicBool) -> bool {
    for _ in 0..LOADS {
        if flag.load(Ordering::SeqCst) {
            return true;
        }
    }
    false
}
