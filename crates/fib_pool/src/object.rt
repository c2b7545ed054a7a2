// What an object is.
use fib_addr::Addr;

/// What an object stands for.
#[derive(Clone, Copy, Debug, PartialEq, Eq)]
pub enum Kind {
    /// Four bits of an address: a cell for each.
    Ply,
    /// The sixteen buckets of an entry.
    Balance,
    /// An adjacency record, in words.
    Adjacency,
}

/// An object that is taken: its kind, and how often it is counted.
#[derive(Clone, Copy, Debug, PartialEq, Eq)]
pub struct Object {
    pub kind: Kind,
    /// How many edges lead to it, and one more where it is held.
    pub count: u64,
}

/// Where a packet leaves the router: by the interface, to the next hop, which answers to the hardware address of this number, if one is
/// known.
#[derive(Clone, Copy, Debug, PartialEq, Eq, Hash)]
pub struct AdjacencyRecord {
    pub interface: u32,
    pub next_hop: Addr,
    pub mac: Option<u64>,
}

/// The object of an adjacency record that was taken.
#[derive(Clone, Copy, Debug, PartialEq, Eq)]
pub struct TakenRecord {
    pub object: u32,
    /// No equal record was kept: the object was free, and its cells are to be stored.
    pub fresh: bool,
}
