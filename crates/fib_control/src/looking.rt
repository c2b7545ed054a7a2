// The walk of a packet over the cells as they are.
ghost use Rattle.std.specs.Prelude.{◌≡◌, ℕ};
ghost use Rattle.fib_core.specs.Walk.{IsFlow, Place, end_at, stepped, walk};
ghost use Rattle.fib_core.specs.Stages.{StandsAt};
ghost use Rattle.fib_control.specs.inner.Readable.{IsReadable};

use fib_addr::{Addr, nibble};
use fib_core::{Stage, adjacency_end, after_balance, after_ply};
use fib_core_board::Board;
use fib_plane::Plane;
use fib_plane_view::Objects;
use fib_resolve::End;

// One step of the walk: an adjacency is read whole.
fn step<B: Board>(plane: &Plane<B>, addr: Addr, hash: u32, stage: Stage) -> Stage
    requires { IsReadable plane.now.plane.board stage }
    ensures { (p : Place) → StandsAt hash p stage → StandsAt hash (stepped plane.now.plane.board.union.cells addr hash p) result }
{
    match stage {
        Stage::Ply { object, depth } => {
            let word = plane.load(object, nibble(addr, depth) as u32);
            after_ply(word, depth, hash)
        }
        Stage::Balance { object, left } => {
            let word = plane.load(object, left % 16);
            after_balance(word, left)
        }
        Stage::Adjacency { object } => {
            let interface = plane.load(object, 0);
            let hop = plane.load(object, 1);
            let mac = plane.load(object, 2);
            Stage::Ended(adjacency_end(interface, hop, mac))
        }
        Stage::Ended(end) => Stage::Ended(end),
    }
}

// The end there; Drop where the walk goes on.
fn end_of(stage: Stage) -> End
    ensures { (h : ℕ) (p : Place) → StandsAt h p stage → result ≡ end_at p }
{
    match stage {
        Stage::Ended(end) => end,
        Stage::Ply { .. } | Stage::Balance { .. } | Stage::Adjacency { .. } => End::Drop,
    }
}

// The address as a number of 32 bits.
fn bits_of(addr: Addr) -> u32
    ensures { result ≡ addr }
{
    addr.0
}

/// An address and a flow hash have 32 bits each.
pub fn is_flow(addr: Addr, hash: u32)
    ensures { IsFlow addr hash }
{
    // Reading them tells that each has 32 bits.
    let _bits = bits_of(addr);
    let _hash = hash;
}

/// The end of the walk of an address and a flow hash over the plane's cells.
pub fn look_up<B: Board>(plane: &Plane<B>, addr: Addr, hash: u32) -> End
    ensures { result ≡ walk plane.now.plane.board.union.cells addr hash }
{
    plane.tells();
    // A walk over cells without a cycle loads no more edges than there are objects.
    let steps = plane.used() + plane.free() + 1;
    let mut stage = Stage::first();
    for _hop in 0..steps {
        if let Stage::Ended(end) = stage {
            return end;
        }
        stage = step(plane, addr, hash, stage);
    }
    end_of(stage)
}
