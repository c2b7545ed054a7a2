//! Keys of paths and ranks of sources as numbers.

ghost use Rattle.std.specs.Prelude.{◌≡◌, ℕ, ◌≤◌, ◌<◌};
ghost use Rattle.std.specs.Ordering.{is_lt, nat_cmp, ordering_then};
ghost use Rattle.fib_resolve.specs.Pairs.{attached_kind, recursive_kind};
ghost use Rattle.fib_resolve.specs.Keys.{kind_rank, next_hop_of, interface_of, kind_leaves, need_rank, is_derived_source, is_drop_or_local};
ghost use Rattle.fib_resolve.specs.Keys.{source_rank, same_source, key_of, key_lt, same_key, same_path, key_cmp, path_cmp};

use crate::types::{FibSource, Need, Path, PathKind};
use fib_addr::Addr;
use std::cmp::Ordering;

/// What a path is known by, in the order of keys. An absent part counts as 0.
#[derive(Clone, Copy, PartialEq, Eq, PartialOrd, Ord, Debug)]
pub struct Key {
    pub kind: u8,
    pub next_hop: u32,
    pub interface: u32,
    pub need: u8,
}

impl PathKind {
    /// The kind's place in the order of kinds.
    pub fn rank(self) -> u8
        ensures value { result ≡ kind_rank self }
        ensures bound { result < 6 }
    {
        match self {
            PathKind::Drop => 0,
            PathKind::Local => 1,
            PathKind::Attached(_) => 2,
            PathKind::Hop { .. } => 3,
            PathKind::Recursive(_) => 4,
            PathKind::Cover => 5,
        }
    }

    /// Whether it is Drop or Local: a list with such a path has no other.
    pub fn is_drop_or_local(self) -> bool
        ensures { result ≡ is_drop_or_local self }
    {
        self.rank() < 2
    }

    /// The next hop's number, or 0 where the kind has none.
    pub fn next_hop(self) -> u32
        ensures { result ≡ next_hop_of self }
    {
        match self {
            PathKind::Hop { next_hop, .. } | PathKind::Recursive(next_hop) => next_hop.0,
            _ => 0,
        }
    }

    /// The interface, or 0 where the kind has none.
    pub fn interface(self) -> u32
        ensures { result ≡ interface_of self }
    {
        match self {
            PathKind::Attached(interface) | PathKind::Hop { interface, .. } => interface,
            _ => 0,
        }
    }

    /// The address at whose entry the packet goes on, where the kind is Recursive.
    pub fn recursive(self) -> Option<Addr>
        ensures { result ≡ recursive_kind self }
    {
        match self {
            PathKind::Recursive(next_hop) => Some(next_hop),
            _ => None,
        }
    }

    /// The interface on whose link the packet's target is, where the kind is Attached.
    pub fn attached(self) -> Option<u32>
        ensures { result ≡ attached_kind self }
    {
        match self {
            PathKind::Attached(interface) => Some(interface),
            _ => None,
        }
    }

    /// Whether packets of the path leave by an interface: Attached and Hop.
    pub fn leaves(self) -> bool
        ensures { result ≡ kind_leaves self }
    {
        matches!(self, PathKind::Attached(_) | PathKind::Hop { .. })
    }
}

impl Need {
    /// The need's place in the order of needs.
    pub fn rank(self) -> u8
        ensures { result ≡ need_rank self }
    {
        match self {
            Need::Any => 0,
            Need::Host => 1,
            Need::Attached => 2,
        }
    }
}

impl FibSource {
    /// The source's place in the order of sources, the best first.
    pub fn rank(self) -> u8
        ensures value { result ≡ source_rank self }
        ensures bound { result < 7 }
    {
        match self {
            FibSource::Special => 0,
            FibSource::Interface => 1,
            FibSource::Api => 2,
            FibSource::Cli => 3,
            FibSource::Adjacency => 4,
            FibSource::RecursiveResolution => 5,
            FibSource::DefaultRoute => 6,
        }
    }

    /// Whether it is recursive resolution, the source of the entries that next hops make.
    pub fn is_derived(self) -> bool
        ensures { result ≡ is_derived_source self }
    {
        self.rank() == 5
    }
}

/// The path's key.
pub fn key_of(path: &Path) -> Key
    ensures { result ≡ key_of path.now }
{
    Key {
        kind: path.kind.rank(),
        next_hop: path.kind.next_hop(),
        interface: path.kind.interface(),
        need: path.need.rank(),
    }
}

/// Whether the first key stands before the second.
#[tactic(auto, unfolding(crate::specs::Keys::key_lt))]
pub fn is_before(a: Key, b: Key) -> bool
    ensures { result ≡ key_lt a b }
{
    a < b
}

/// The order of keys.
pub fn compare(a: Key, b: Key) -> Ordering
    ensures { result ≡ key_cmp a b }
{
    a.cmp(&b)
}

/// Whether both are one key.
pub fn is_same_key(a: Key, b: Key) -> bool
    ensures { result ≡ same_key a b }
{
    a == b
}

/// Whether both are one source.
pub fn is_same_source(a: FibSource, b: FibSource) -> bool
    ensures { result ≡ same_source a b }
{
    a.rank() == b.rank()
}

/// Whether both paths have one key, weight and preference.
pub fn is_same_path(a: &Path, b: &Path) -> bool
    ensures { result ≡ same_path a.now b.now }
{
    key_of(a) == key_of(b) && a.weight == b.weight && a.preference == b.preference
}

/// The order of paths in listings: by key, then weight, then preference.
pub fn compare_paths(a: &Path, b: &Path) -> Ordering
    ensures { result ≡ path_cmp a.now b.now }
{
    key_of(a).cmp(&key_of(b)).then(
        a.weight
            .cmp(&b.weight)
            .then(a.preference.cmp(&b.preference)),
    )
}
