// What the definitions list: effective pairs and adjacencies.

use crate::types::{FibSource, Path};
use fib_addr::{Addr, Prefix};
use fib_base_list::List;

/// An effective pair: a prefix, a source of it, and that source's path-list.
#[derive(Drop)]
pub struct Pair {
    pub prefix: Prefix,
    pub source: FibSource,
    pub paths: List<Path>,
}

/// The interface and the next hop of a Hop end, in the order of listings.
#[derive(Clone, Copy, PartialEq, Eq, PartialOrd, Ord, Debug, Hash)]
pub struct Adjacency {
    pub interface: u32,
    pub next_hop: Addr,
}
