// What a path of an entry is for, in the form in which an entry is restacked.

use crate::types::End;
use fib_addr::Prefix;

/// What a bucket of an entry is for: it ends a packet, or sends it on to another entry.
#[derive(Clone, Copy, PartialEq, Eq, Debug)]
pub enum Aim {
    /// Packets end there.
    Ends(End),
    /// Packets go on at that entry.
    On(Prefix),
}

/// A path of a chosen list: what it is for, whether it counts, and its share.
#[derive(Clone, Copy, PartialEq, Eq, Debug)]
pub struct Marked {
    pub aim: Aim,
    /// Whether the path is usable where the entry that it is aimed at, if there is one, forwards.
    pub counts: bool,
    /// From 1 to 255: its share of the sixteen buckets among the used paths.
    pub weight: u8,
    /// The usable paths of the least number are used.
    pub preference: u8,
}
