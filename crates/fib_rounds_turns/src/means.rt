// What lines are run with.
use fib_outside::Gate;
use std::alloc::Global;
use std::sync::Wait;

/// What lines are run with: the runtime, by which settling waits for passes; where memory is taken; who is told of changes; and how many turns a
/// change may be followed by.
#[derive(Drop)]
pub struct Means<'a, R: Wait, G: Gate> {
    pub rt: &'a R,
    pub alloc: Global,
    pub gate: &'a G,
    /// At most so many prefixes have their turn after a change, before the next line. No text depends on it.
    pub walk: u32,
}
