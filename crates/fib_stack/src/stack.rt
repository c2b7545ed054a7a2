// What the stack keeps, and what a turn makes ready.
ghost use Rattle.std.specs.Prelude.{◌≡◌, ◌<◌, [], length};
ghost use Rattle.fib_addr.specs.Prefixes.{Prefix as PrefixValue};
ghost use Rattle.fib_pool.specs.declared.object.AdjacencyRecord.{AdjacencyRecord as Record};
ghost use Rattle.fib_stack_ledger.specs.Ledgers.{known_of, times, total, used_by};

use fib_addr::Prefix;
use fib_resolve::Marked;
use fib_stack_ledger::{Lates, Ledger, Use};
use fib_stack_queue::Queued;
use std::alloc::Global;

/// The buckets of entries, as far as they aren't in the plane: what is known of each prefix since its last turn, and which buckets are
/// deferred.
pub struct Stack {
    pub(crate) ledger: Ledger,
    pub(crate) late: Lates,
}

// The prover follows what a drop does here, once, and not at every way out past an owner.
impl Drop for Stack {
    fn drop(self) {
        let Stack { ledger: _, late: _ } = self;
    }
}

/// What a turn of an entry needs, made ready before its first put.
#[derive(Drop)]
pub struct Plan {
    pub entry: Prefix,
    /// Its balance.
    pub object: u32,
    /// Whether it forwards now.
    pub forwards: bool,
    /// The path at each bucket.
    pub wanted: Vec<Marked>,
    /// The adjacency records that it uses from now on.
    pub uses: Vec<Use>,
    /// Who is woken.
    pub woken: Vec<Queued>,
}

impl Stack {
    /// Nothing is known and nothing is deferred.
    pub fn new(alloc: Global) -> Stack
        ensures known { result.ledger.rows ≡ [] }
        ensures late { result.late.members ≡ [] }
    {
        Stack {
            ledger: Ledger::new(alloc),
            late: Lates::new(alloc),
        }
    }

    /// An adjacency record that is used is used by a prefix. Does nothing.
    pub fn tells(&self)
        ensures { (m : Record) → 0 < total self.now.ledger.rows m → (e : PrefixValue)
            × (0 < times m (used_by (known_of self.now.ledger.rows e))) }
    {
        self.ledger.tells();
    }

    /// How many buckets are deferred.
    pub fn deferred(&self) -> u32
        ensures { result ≡ length self.now.late.members }
    {
        self.late.len()
    }
}
