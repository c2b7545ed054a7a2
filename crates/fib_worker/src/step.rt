// Hops, one by one.
ghost use Rattle.fib_worker.specs.Steps.{HopsTo};

use crate::hops::hop_on;
use crate::pass::{Done, Pass};
use fib_core::Stage;

/// What a hop makes of a pass.
pub enum Step<'a> {
    /// It loaded an edge, and the pass goes on.
    More(Pass<'a>),
    /// The pass has its end.
    Finish(Done<'a>),
}

impl<'a> Pass<'a> {
    /// One load of the cell that the packet's walk asks where the pass stands, or the three words of the adjacency. The pass goes on exactly
    /// where that was an edge.
    pub fn hop(self) -> Step<'a>
        ensures { HopsTo self.entry result }
    {
        let Pass {
            mut seat,
            stage,
            addr,
            hash,
            lo,
            hops,
        } = self;
        let stage = hop_on(&mut seat, stage, addr, hash);
        let hops = hops + 1;
        match stage {
            Stage::Ended(end) => Step::Finish(Done {
                seat,
                end,
                addr,
                hash,
                lo,
                hops,
            }),
            stage => Step::More(Pass {
                seat,
                stage,
                addr,
                hash,
                lo,
                hops,
            }),
        }
    }
}
