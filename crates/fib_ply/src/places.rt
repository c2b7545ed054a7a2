//! The cell of an address.
ghost use Rattle.std.specs.Prelude.{◌≡◌, ℕ, ◌+◌, ◌*◌, ◌/◌, ◌^◌, ◌<◌, ◌≤◌};
ghost use Rattle.fib_ply.specs.Served.{Paths};
ghost use Rattle.fib_ply.specs.inner.Trie.{IsTrie};
ghost use Rattle.fib_ply.specs.inner.Change.{IsCellOf, IsEnd};

use fib_core::Word;
use fib_plane_view::Objects;

/// A cell of a ply, and how deep the ply is.
#[derive(Clone, Copy)]
pub struct Place {
    pub ply: u32,
    pub depth: u32,
    pub slot: u32,
}

/// The cell without a deeper ply in which the address lies.
pub fn find<P: Objects>(on: &P, addr: u32) -> Place
    requires { (n : Paths) × IsTrie n (P.view on.now) }
    ensures { (n : Paths) → IsTrie n (P.view on.now) → IsCellOf n (P.view on.now) addr result.ply result.depth result.slot }
{
    let mut ply = 0;
    for depth in 0..8 {
        let slot = (addr >> (28 - 4 * depth)) % 16;
        match on.word(ply, slot) {
            Word::ToPly(child) => ply = child,
            _ => return Place { ply, depth, slot },
        }
    }
    unreachable!()
}

/// A cell without a deeper ply, and the ply above its ply.
#[derive(Clone, Copy)]
pub struct Leaf {
    pub above: u32,
    pub ply: u32,
    pub depth: u32,
    pub slot: u32,
}

/// The same, with the ply above.
pub fn find_leaf<P: Objects>(on: &P, addr: u32) -> Leaf
    requires { (n : Paths) × IsTrie n (P.view on.now) }
    ensures { (n : Paths) → IsTrie n (P.view on.now) → IsEnd n (P.view on.now) addr result.above result.ply result.depth result.slot }
{
    let mut above = 0;
    let mut ply = 0;
    for depth in 0..8 {
        let slot = (addr >> (28 - 4 * depth)) % 16;
        match on.word(ply, slot) {
            Word::ToPly(child) => {
                above = ply;
                ply = child;
            }
            _ => {
                return Leaf {
                    above,
                    ply,
                    depth,
                    slot,
                };
            }
        }
    }
    unreachable!()
}
