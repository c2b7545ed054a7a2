// The MACs of neighbors by interface and address.
ghost use Rattle.std.specs.Prelude.{IfOk};
ghost use Rattle.fib_resolve_pairs.specs.inner.Meanings.{AreMacs};

use fib_addr::Mac;
use fib_resolve::{Adjacency, Tables};
use std::alloc::{AllocError, Global};
use std::collections::HashMap;

/// For each interface and address, the MAC of its first neighbor.
pub fn macs(alloc: Global, tables: &Tables) -> Result<HashMap<Adjacency, Mac>, AllocError>
    ensures { IfOk result (λ m. AreMacs tables.now.neighbors m) }
{
    let mut macs = HashMap::new(alloc);
    let neighbors = &tables.neighbors;
    for place in (0..neighbors.len()).rev() {
        let n = &neighbors[place];
        let link = Adjacency {
            interface: n.interface,
            next_hop: n.addr,
        };
        macs.insert(link, n.mac)?;
    }
    Ok(macs)
}
