// What is plain of changes and of tables, by the ranges of their numbers.
ghost use Rattle.std.specs.Prelude.{◌≡◌, ◌↔◌, ◌<◌, ◌^◌, Contains, IsTrue, OnOk};
ghost use Rattle.std.specs.List.{AllByRecursion, list_all};
ghost use Rattle.fib_resolve.specs.declared.types.Neighbor.{Neighbor as NeighborValue};
ghost use Rattle.fib_follow_looked.specs.Looks.{AreNear, IsShortChange};
ghost use Rattle.fib_follow_looked.specs.inner.Naming.{is_short_change};

use fib_addr::{Addr, Prefix};
use fib_base_blocks::Blocks;
use fib_config::Config;
use fib_follow_pairs::attached_at;
use fib_resolve::Neighbor;
use fib_resolve_changes::Change;
use std::alloc::{AllocError, Global};

/// Whether an address that comes or goes has a length of at most 32.
fn is_short(change: &Change) -> bool
    ensures { result ≡ is_short_change change.now }
{
    match *change {
        Change::Address(a) => a.len <= 32,
        Change::Flag(_) | Change::Neighbor { .. } | Change::Route { .. } => true,
    }
}

fn all_short(changes: &[Change]) -> bool
    ensures { result ≡ list_all is_short_change changes.now }
{
    changes.iter().all(|change| is_short(change))
}

/// Whether each address that comes or goes has a length of at most 32, as each that a line can write.
#[tactic(auto, using(crate::proofs::Near::are_short))]
pub fn are_short(changes: &[Change]) -> bool
    ensures { IsTrue result ↔ AllByRecursion IsShortChange changes.now }
{
    all_short(changes)
}

fn number_of(n: &Neighbor) -> u32
    ensures value { result ≡ n.now.addr }
    ensures small { result < 2 ^ 32 }
{
    n.addr.0
}

fn see_each(neighbors: &Blocks<Neighbor>)
    ensures { (n : NeighborValue) → Contains neighbors.now n → n.addr < 2 ^ 32 }
{
    for place in 0..neighbors.len() {
        let n = &neighbors[place];
        let _number = number_of(n);
    }
}

/// Reads neighbors so that proofs know that those which count are addresses. None is read where the prefix of every address attaches to no
/// interface: that alone would cover a number past the addresses. An error means that memory ran out.
pub fn see_neighbors(alloc: Global, after: &Config) -> Result<(), AllocError>
    ensures { OnOk result (AreNear after.now.tables) }
{
    let tables = after.tables();
    let everything = Prefix::masked(Addr(0), 0);
    let attached = attached_at(alloc, after, everything)?;
    match attached {
        Some(_) => {
            see_each(&tables.neighbors);
            Ok(())
        }
        None => Ok(()),
    }
}
