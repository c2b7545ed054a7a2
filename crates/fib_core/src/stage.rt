// Stages, and the steps between them.
ghost use Rattle.std.specs.Prelude.{◌≡◌, ℕ, ◌<◌, ◌≤◌, ◌^◌};
ghost use Rattle.fib_core.specs.Words.{value_of};
ghost use Rattle.fib_core.specs.Walk.{Place, from_balance, from_ply, halved, hop_of, mac_in, root};
ghost use Rattle.fib_core.specs.Trails.{IsMac};
ghost use Rattle.fib_core.specs.Stages.{end_in, StandsAt};

use crate::word::Word;
use fib_addr::{Addr, Mac};
use fib_resolve::End;

/// Where a pass stands.
#[derive(Clone, Copy, Debug, PartialEq, Eq)]
pub enum Stage {
    /// On the ply in that object, at a depth from 0 to 7: it loads the cell of the address's next four bits.
    Ply { object: u32, depth: u8 },
    /// On the balance in that object: it loads the cell of the lower four bits of what is left of the hash.
    Balance { object: u32, left: u32 },
    /// On the adjacency in that object, of which nothing was read yet.
    Adjacency { object: u32 },
    /// At its end.
    Ended(End),
}

impl Stage {
    /// Where each pass begins: on the ply in object 0.
    pub fn first() -> Stage
        ensures { (h : ℕ) → StandsAt h root result }
    {
        Stage::Ply {
            object: 0,
            depth: 0,
        }
    }

    /// The pass's end; None exactly where it goes on.
    pub fn end(self) -> Option<End>
        ensures { (h : ℕ) (p : Place) → StandsAt h p self → result ≡ end_in p }
    {
        match self {
            Stage::Ply { .. } => None,
            Stage::Balance { .. } => None,
            Stage::Adjacency { .. } => None,
            Stage::Ended(end) => Some(end),
        }
    }
}

/// Where the word in a ply's cell brings a packet of that flow hash.
#[inline(always)]
pub fn after_ply(word: Word, depth: u8, hash: u32) -> Stage
    requires { depth ≤ 7 }
    ensures { StandsAt hash (from_ply depth word) result }
{
    match word {
        Word::ToPly(object) => {
            if depth < 7 {
                Stage::Ply {
                    object,
                    depth: depth + 1,
                }
            } else {
                Stage::Ended(End::Drop)
            }
        }
        Word::ToBalance(object) => Stage::Balance { object, left: hash },
        Word::Drop => Stage::Ended(End::Drop),
        Word::Receive => Stage::Ended(End::Drop),
        Word::Glean(_) => Stage::Ended(End::Drop),
        Word::ToAdjacency(_) => Stage::Ended(End::Drop),
        Word::Plain(_) => Stage::Ended(End::Drop),
    }
}

/// Where the word in a balance's cell brings a packet, of whose flow hash this is left: each further balance takes half of it.
#[inline(always)]
pub fn after_balance(word: Word, left: u32) -> Stage
    ensures { (h n : ℕ) → halved h n ≡ left → StandsAt h (from_balance n word) result }
{
    match word {
        Word::Drop => Stage::Ended(End::Drop),
        Word::Receive => Stage::Ended(End::Receive),
        Word::Glean(interface) => Stage::Ended(End::Glean(interface)),
        Word::ToBalance(object) => Stage::Balance {
            object,
            left: left / 2,
        },
        Word::ToAdjacency(object) => Stage::Adjacency { object },
        Word::ToPly(_) => Stage::Ended(End::Drop),
        Word::Plain(_) => Stage::Ended(End::Drop),
    }
}

// The number that a word holds.
#[inline(always)]
fn value(word: Word) -> u64
    ensures { result ≡ value_of word }
{
    match word {
        Word::Drop => 0,
        Word::Receive => 0,
        Word::Glean(interface) => interface as u64,
        Word::ToPly(object) => object as u64,
        Word::ToBalance(object) => object as u64,
        Word::ToAdjacency(object) => object as u64,
        Word::Plain(number) => number,
    }
}

// 0 is no hardware address, and any other number the one below it.
#[inline(always)]
fn mac_of(number: u64) -> Option<Mac>
    requires { IsMac (mac_in number) }
    ensures { result ≡ mac_in number }
{
    if number == 0 {
        None
    } else {
        Mac::new(number - 1)
    }
}

/// The end that an adjacency's three words say. Its interface and its next hop are numbers of 32 bits, and the third is 0 or one more than a hardware
/// address of 48 bits.
#[inline(always)]
pub fn adjacency_end(interface: Word, hop: Word, mac: Word) -> End
    requires interface { value_of interface < 2 ^ 32 }
    requires hop { value_of hop < 2 ^ 32 }
    requires mac { IsMac (mac_in (value_of mac)) }
    ensures { result ≡ hop_of interface hop mac }
{
    End::Hop {
        interface: value(interface) as u32,
        next_hop: Addr(value(hop) as u32),
        mac: mac_of(value(mac)),
    }
}
