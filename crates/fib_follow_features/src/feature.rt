// By what entries are found.
use fib_addr::{Addr, Prefix};
use fib_resolve::Adjacency;

/// By what an entry is found without a look at all entries.
#[derive(Clone, Copy, PartialEq, Eq, Debug, Hash)]
pub enum Feature {
    /// A path of its chosen list leaves by that interface.
    Over(u32),
    /// A path of its chosen list has that Hop end.
    End(Adjacency),
    /// A recursive path of its chosen list needs something of the entry of that address.
    Needs(Addr),
    /// It has a list of the API or the command line, chosen or hidden, with a recursive path to that address.
    Via(Addr),
    /// It is a host with a pair that its cover makes, that of a neighbor or of a next hop, and that is its cover.
    Under(Prefix),
}
