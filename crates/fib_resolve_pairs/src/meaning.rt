// What tables mean, but for which entries forward.
ghost use Rattle.std.specs.Prelude.{◌≡◌, ◌<◌, ◌^◌, ◌↔◌, IfOk, IfSome, Some, Contains, length};
ghost use Rattle.fib_addr.specs.Prefixes.{Prefix as PrefixValue};
ghost use Rattle.fib_cover.specs.Covers.{IsAscending, ArePrefixes};
ghost use Rattle.fib_resolve.specs.Pairs.{pairs, entries, chosen, cover, best};
ghost use Rattle.fib_resolve.specs.Loops.{looped, looped_kind};
ghost use Rattle.fib_resolve.specs.declared.types.Path.{Path as PathValue};
ghost use Rattle.fib_resolve.specs.declared.types.PathKind.TheVariants as kinds;
ghost use Rattle.fib_resolve_pairs.specs.Numbers.{number_in};
ghost use Rattle.fib_resolve.specs.Forwarding.{is_up, is_met};
ghost use Rattle.fib_resolve.specs.Resolution.{mac_of, hop_end, attached_end};
ghost use Rattle.fib_resolve.specs.Sizes.{adjacencies};
ghost use Rattle.fib_resolve.specs.Tables.{IsSound};
ghost use Rattle.fib_resolve_pairs.specs.inner.Edges.{goal_number};

use crate::known::Known;
use crate::{loops, macs, met};
use fib_addr::{Addr, Mac, Prefix};
use fib_cover::PrefixSet;
use fib_resolve::{Adjacency, End, Need, Pair, Path, PathKind, Tables};
use std::alloc::{AllocError, Global};
use std::collections::{HashMap, HashSet};
use std::marker::Model;

/// What tables mean, but for which entries forward: pairs, covers, loops, needs and MACs. Contracts see the tables.
///
/// Making it takes a look-up or two for each pair, path and edge.
pub struct Meaning<'a> {
    known: Known<'a>,
    order: PrefixSet,
    macs: HashMap<Adjacency, Mac>,
    /// The edges that lie on cycles, by the entries' numbers.
    on_cycles: HashSet<(u32, u32)>,
    /// For each entry by its number, whether such an edge starts there: of the other entries nothing else is asked.
    starts: Vec<bool>,
}

// The prover follows what a drop does here, once, and not at every way out past an owner.
impl Drop for Meaning<'_> {
    fn drop(self) {
        let Meaning {
            known: _,
            order: _,
            macs: _,
            on_cycles: _,
            starts: _,
        } = self;
    }
}

impl<'a> Model for Meaning<'a> {
    ghost use Rattle.fib_resolve.specs.declared.types.Tables.{Tables as TablesValue};

    ghost Value = { TablesValue };

    ghost use Rattle.fib_resolve_pairs.specs.inner.Meanings.{IsMeaning};

    ghost view = { λ s. s.known };

    ghost invariant = { λ s. IsMeaning s.known s.order s.macs s.on_cycles.keys s.starts.items };
}

impl<'a> Meaning<'a> {
    /// What these tables mean. Tables with 2^32 entries or more want more memory than there is.
    pub fn of(alloc: Global, tables: &'a Tables) -> Result<Meaning<'a>, AllocError>
        requires { IsSound tables.now }
        ensures { IfOk result (λ s. s ≡ tables.now) }
    {
        let known = Known::of(alloc, tables)?;
        let order = PrefixSet::of(alloc, known.entries())?;
        // Read so that the proof knows that the set is in order.
        let _count = order.len();
        let macs = macs::macs(alloc, tables)?;
        let on_cycles = loops::looped_edges(alloc, &known)?;
        let starts = loops::starts(alloc, &known, &on_cycles)?;
        Ok(Meaning {
            known,
            order,
            macs,
            on_cycles,
            starts,
        })
    }

    /// What is known of the entries.
    pub fn known(&self) -> &Known<'a>
        ensures { result.now ≡ self.now }
    {
        &self.known
    }

    /// The number of the entry to which a path of that kind leads; None where it leads to none.
    pub fn goal_number(&self, e: Prefix, kind: PathKind) -> Option<u32>
        ensures value { result ≡ goal_number self.now e kind }
        ensures below { IfSome result (λ k. k < length (entries self.now)) }
    {
        loops::goal_number(&self.known, e, kind)
    }

    /// The tables.
    pub fn tables(&self) -> &'a Tables
        ensures tables { result.now ≡ self.now }
        ensures sound { IsSound self.now }
    {
        self.known.tables()
    }

    /// The effective pairs, each once.
    pub fn pairs(&self) -> &[Pair]
        ensures { result.now ≡ pairs self.now }
    {
        self.known.pairs()
    }

    /// The effective entries, each once.
    pub fn entries(&self) -> &[Prefix]
        ensures { result.now ≡ entries self.now }
    {
        self.known.entries()
    }

    /// The effective entries in order of bits, then length.
    pub fn listed(&self, alloc: Global) -> Result<Vec<Prefix>, AllocError>
        ensures ordered { IfOk result (λ v. IsAscending v.items) }
        ensures prefixes { IfOk result (λ v. ArePrefixes v.items) }
        ensures all { IfOk result (λ v. (e : PrefixValue) → Contains v.items e ↔ Contains (entries self.now) e) }
    {
        // Read so that the proof knows that members are prefixes.
        let _count = self.order.len();
        let listed = self.order.listed(alloc)?;
        Ok(listed)
    }

    /// The set of the effective entries; all else goes.
    pub fn into_entries(self) -> PrefixSet
        ensures all { (e : PrefixValue) → Contains result e ↔ Contains (entries self.entry) e }
        ensures ordered { IsAscending result }
    {
        let Meaning {
            known: _,
            order,
            macs: _,
            on_cycles: _,
            starts: _,
        } = self;
        order
    }

    /// The chosen list of an entry, empty where the prefix is none.
    pub fn chosen(&self, e: Prefix) -> &[Path]
        ensures { result.now ≡ chosen self.now e }
    {
        self.known.chosen(e)
    }

    /// The cover of an address: the longest effective prefix below 32 that contains it.
    pub fn cover(&self, addr: Addr) -> Prefix
        ensures { result ≡ cover self.now addr }
    {
        self.known.cover(addr)
    }

    /// The longest effective prefix that contains the address.
    #[tactic(auto, unfolding(fib_resolve::specs::Pairs::best))]
    pub fn best(&self, addr: Addr) -> Prefix
        ensures { result ≡ best self.now addr }
    {
        // Read so that the proof knows the address's range, and that members are prefixes.
        let _number = addr.0;
        let _count = self.order.len();
        match self.order.best(addr) {
            Some(prefix) => prefix,
            None => Prefix::masked(Addr(0), 0),
        }
    }

    /// Whether the path, which is one of the entry's chosen list, is looped.
    pub fn is_looped(&self, e: Prefix, p: &Path) -> bool
        requires { Contains (chosen self.now e) p.now }
        ensures { result ≡ looped_kind self.now e p.now.kind }
    {
        match p.kind {
            PathKind::Recursive(a) => match self.known.number(e) {
                Some(number) => {
                    // The list tells that there are fewer than 2^32 entries.
                    let _few = self.known.entries();
                    self.is_looped_from(e, number as u32, a)
                }
                None => false,
            },
            _ => false,
        }
    }

    /// Whether a recursive path to that next hop, which is one of the chosen list of the entry with that number, is looped.
    fn is_looped_from(&self, e: Prefix, number: u32, a: Addr) -> bool
        requires number { number_in self.now e ≡ Some number }
        requires there { (p : PathValue) × Contains (chosen self.now e) p × (p.kind ≡ kinds.Recursive a) }
        ensures { result ≡ looped self.now e a }
    {
        if !loops::is_start(self.starts.as_slice(), number as usize) {
            return false;
        }
        loops::is_looped(&self.on_cycles, &self.known, e, number, a)
    }

    /// The number of an entry: its place among the entries.
    pub fn number(&self, prefix: Prefix) -> Option<usize>
        ensures value { result ≡ number_in self.now prefix }
        ensures below { IfSome result (λ k. k < length (entries self.now)) }
        ensures few { length (entries self.now) < 2 ^ 32 }
    {
        // The list tells that there are fewer than 2^32 entries.
        let _few = self.known.entries();
        self.known.number(prefix)
    }

    /// Whether the interface is there and up.
    pub fn is_up(&self, interface: u32) -> bool
        ensures { result ≡ is_up self.now interface }
    {
        met::is_up(self.known.tables(), interface)
    }

    /// Whether the need of a recursive path with that next hop is met.
    pub fn is_met(&self, need: Need, next_hop: Addr) -> bool
        ensures { result ≡ is_met self.now need next_hop }
    {
        met::is_met(&self.known, need, next_hop)
    }

    /// The MAC of the neighbor with that interface and address, whether or not it has an entry.
    pub fn mac_of(&self, interface: u32, next_hop: Addr) -> Option<Mac>
        ensures { result ≡ mac_of self.now interface next_hop }
    {
        let link = Adjacency {
            interface,
            next_hop,
        };
        self.macs.get(&link).copied()
    }

    /// The Hop end over that interface to that next hop.
    pub fn hop_end(&self, interface: u32, next_hop: Addr) -> End
        ensures { result ≡ hop_end self.now interface next_hop }
    {
        End::Hop {
            interface,
            next_hop,
            mac: self.mac_of(interface, next_hop),
        }
    }

    /// The end of an Attached path of the entry: a Hop to the entry's own address where it is a host, else a glean.
    pub fn attached_end(&self, e: Prefix, interface: u32) -> End
        ensures { result ≡ attached_end self.now e interface }
    {
        if e.len() == 32 {
            self.hop_end(interface, e.bits())
        } else {
            End::Glean(interface)
        }
    }

    /// The Hop ends of all chosen lists, each once, usable or not.
    pub fn adjacencies(&self, alloc: Global) -> Result<Vec<Adjacency>, AllocError>
        ensures { IfOk result (λ v. v.items ≡ adjacencies self.now) }
    {
        self.known.adjacencies(alloc)
    }
}
