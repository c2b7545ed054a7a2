// The plain types of the tables and of the edits that change them.
ghost use Rattle.std.specs.Prelude.{◌≡◌};
ghost use Rattle.fib_resolve.specs.Tables.{fresh, IsSound};

use crate::names::Name;
use fib_addr::{Addr, Mac, Prefix};
use fib_base_blocks::Blocks;
use fib_base_list::List;
use std::alloc::Global;

/// Where an effective pair comes from. Of two sources of a prefix the earlier in this order is the better.
#[derive(Clone, Copy, PartialEq, Eq, PartialOrd, Ord, Debug, Hash)]
pub enum FibSource {
    /// The prefixes that every table has dropped: 0.0.0.0/32, 224.0.0.0/4, 240.0.0.0/4 and 255.255.255.255/32.
    Special,
    /// An address of an interface.
    Interface,
    /// A route written by `api ip route`.
    Api,
    /// A route written by `ip route`.
    Cli,
    /// A neighbor.
    Adjacency,
    /// The next hop of a recursive path.
    RecursiveResolution,
    /// 0.0.0.0/0, which every table has.
    DefaultRoute,
}

/// What a path does with a packet, in the order of kinds.
#[derive(Clone, Copy, PartialEq, Eq, PartialOrd, Ord, Debug, Hash)]
pub enum PathKind {
    /// The packet is dropped. Such a path is never usable.
    Drop,
    /// The packet is for the router itself.
    Local,
    /// The packet's target is on the link of that interface.
    Attached(u32),
    /// The packet leaves over that interface to that neighbor.
    Hop { next_hop: Addr, interface: u32 },
    /// The packet goes on at the entry of that address.
    Recursive(Addr),
    /// The packet goes on at the entry's cover. Only entries that a next hop made have such a path.
    Cover,
}

/// What a recursive path needs of the entry that it goes on at.
#[derive(Clone, Copy, PartialEq, Eq, PartialOrd, Ord, Debug, Hash)]
pub enum Need {
    /// Nothing.
    Any,
    /// That its best source is another than recursive resolution (`resolve-via-host`).
    Host,
    /// That its list is one Attached or Hop path (`resolve-via-attached`).
    Attached,
}

/// One path of a path-list, ordered by key, then weight, then preference. A path's key is its kind with what belongs to it, and its
/// need: no list has a key twice.
#[derive(Clone, Copy, PartialEq, Eq, PartialOrd, Ord, Debug, Hash)]
pub struct Path {
    pub kind: PathKind,
    /// Any, unless the kind is Recursive.
    pub need: Need,
    /// From 1 to 255: its share of the sixteen buckets among the used paths.
    pub weight: u8,
    /// The usable paths of the least number are used.
    pub preference: u8,
}

/// An interface. Interfaces are numbered from 0 in the order of their making.
#[derive(Drop)]
pub struct Interface {
    pub name: Name,
    /// Whether its Attached and Hop paths are usable. A new interface is down.
    pub up: bool,
}

/// An address of an interface, with the length of its prefix, at most 32.
#[derive(Clone, Copy, PartialEq, Eq, Debug)]
pub struct Address {
    pub interface: u32,
    pub addr: Addr,
    pub len: u8,
}

/// A neighbor's MAC on an interface.
#[derive(Clone, Copy, PartialEq, Eq, Debug)]
pub struct Neighbor {
    pub interface: u32,
    pub addr: Addr,
    pub mac: Mac,
}

/// A written route. Its source is Api or Cli.
#[derive(Drop)]
pub struct Route {
    pub prefix: Prefix,
    pub source: FibSource,
    pub paths: List<Path>,
}

/// All that the commands have written. What it means stands in `specs/`, from `Pairs` on. The neighbors and the routes, which may be many,
/// lie in blocks: one that comes or goes moves few of the others.
pub struct Tables {
    pub interfaces: List<Interface>,
    pub addresses: List<Address>,
    pub neighbors: Blocks<Neighbor>,
    pub routes: Blocks<Route>,
}

// The prover follows what a drop does here, once, and not at every way out past an owner.
impl Drop for Tables {
    fn drop(self) {
        let Tables {
            interfaces: _,
            addresses: _,
            neighbors: _,
            routes: _,
        } = self;
    }
}

impl Tables {
    /// The tables as they begin: four empty lists. Takes no memory yet.
    #[tactic(auto, using(crate::proofs::Sound::sound_fresh))]
    pub fn fresh(alloc: Global) -> Tables
        ensures value { result ≡ fresh }
        ensures sound { IsSound result }
    {
        Tables {
            interfaces: List::new(alloc),
            addresses: List::new(alloc),
            neighbors: Blocks::new(alloc),
            routes: Blocks::new(alloc),
        }
    }
}

/// Where a packet ends.
#[derive(Clone, Copy, PartialEq, Eq, Debug)]
pub enum End {
    Drop,
    /// For the router itself.
    Receive,
    /// The target's MAC is sought on the link of that interface.
    Glean(u32),
    /// Sent over that interface to that neighbor, whose MAC may still be unknown.
    Hop {
        interface: u32,
        next_hop: Addr,
        mac: Option<Mac>,
    },
}

/// A path's kind as a command writes it, with the interface by name.
#[derive(Drop)]
pub enum SpecKind {
    Drop,
    Local,
    Attached(Name),
    Hop(Addr, Name),
    Recursive(Addr),
}

/// A path as a command writes it.
#[derive(Drop)]
pub struct PathSpec {
    pub kind: SpecKind,
    /// From 1 to 255.
    pub weight: u8,
    pub preference: u8,
    /// Any, unless the kind is Recursive.
    pub need: Need,
}

/// A change of the tables.
#[derive(Drop)]
pub enum Edit {
    /// Appends an interface, which is down.
    CreateInterface(Name),
    /// Sets an interface's flag.
    SetState {
        name: Name,
        up: bool,
    },
    /// Gives an interface an address with its prefix length, at most 32.
    AddAddress {
        name: Name,
        addr: Addr,
        len: u8,
    },
    /// Takes an address with that length from an interface.
    DelAddress {
        name: Name,
        addr: Addr,
        len: u8,
    },
    /// Sets the MAC of a neighbor, or makes it.
    SetNeighbor {
        name: Name,
        addr: Addr,
        mac: Mac,
    },
    /// Takes out a neighbor.
    DelNeighbor {
        name: Name,
        addr: Addr,
    },
    /// Sets paths in the list of that prefix and source. Of two paths with one key the later counts.
    AddRoute {
        prefix: Prefix,
        api: bool,
        paths: List<PathSpec>,
    },
    /// Takes the paths with these keys out of that list, or without paths the whole route.
    DelRoute {
        prefix: Prefix,
        api: bool,
        paths: List<PathSpec>,
    },
}

/// Why an edit is refused. Where several reasons apply, it is the first in this order.
#[derive(Clone, Copy, PartialEq, Eq, Debug)]
pub enum Refusal {
    /// The edit names an interface, in a path too, that there isn't.
    NoSuchInterface,
    /// The interface to be made is there.
    InterfaceExists,
    /// There are 256 interfaces.
    TooManyInterfaces,
    /// The interface has that address with that length.
    AddressThere,
    /// The interface lacks that address with that length.
    NoSuchAddress,
    /// Another interface has an address of the same prefix, which is shorter than 32.
    ConnectedElsewhere,
    /// There is no such neighbor.
    NoSuchNeighbor,
    /// The list would have a Drop or Local path beside another.
    MixedPaths,
    /// The list would have more than 16 paths.
    TooManyPaths,
    /// That source has no route of the prefix.
    NoSuchRoute,
    /// The route's list lacks the key of a path.
    NoSuchPath,
    /// The edited tables would take more objects than there is room for.
    TooLarge,
}
