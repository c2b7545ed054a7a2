// What an edit can have changed.
use fib_addr::{Addr, Prefix};
use fib_resolve::{Address, FibSource};

/// A place in the tables that an edit can have changed.
#[derive(Clone, Copy, Debug)]
pub enum Change {
    /// The interface of that number came, or its flag was set.
    Flag(u32),
    /// That address of an interface came or went.
    Address(Address),
    /// The neighbor with that interface and address came, went, or got another MAC.
    Neighbor { interface: u32, addr: Addr },
    /// The route of that prefix and source came, went, or got another list.
    Route { prefix: Prefix, source: FibSource },
}
