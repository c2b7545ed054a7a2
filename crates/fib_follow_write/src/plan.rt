// What a plan is made of.
use fib_addr::Prefix;
use fib_base_list::List;
use fib_paths::PathListId;
use fib_resolve::{FibSource, Marked, Path};

/// An entry that leads to another.
#[derive(Clone, Copy)]
pub struct Edge {
    /// The entry that leads there.
    pub from: Prefix,
    /// The entry to which it leads.
    pub to: Prefix,
}

/// A source of an entry with its path-list.
#[derive(Drop)]
pub struct Listed {
    pub source: FibSource,
    pub paths: List<Path>,
}

/// An entry with the sources and path-lists that it gets, the best source first.
#[derive(Drop)]
pub struct Paired {
    pub prefix: Prefix,
    pub pairs: List<Listed>,
}

/// An entry with the sources and the numbers of the path-lists that it gets.
#[derive(Drop)]
pub struct Sourced {
    pub prefix: Prefix,
    pub pairs: List<(FibSource, PathListId)>,
}

/// An entry with what its row gets of the paths of its chosen list, and its rank.
#[derive(Drop)]
pub struct Marks {
    pub prefix: Prefix,
    /// For each path, whether it is looped.
    pub looped: List<bool>,
    /// For each path, whether its need is met.
    pub met: List<bool>,
    /// For each path, what it is for and whether it counts.
    pub marked: List<Marked>,
    pub rank: u32,
}
