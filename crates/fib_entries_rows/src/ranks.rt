// Ranks that fall along edges without cycles.
ghost use Rattle.std.specs.Prelude.{◌≡◌, ◌<◌, ℕ, IfOk, Contains, length, slice_index};
ghost use Rattle.fib_loops.specs.Loops.{AreEdges, IsLooped};

use fib_loops::mark;
use std::alloc::{AllocError, Global};

/// The rank above those of all entries that were made anew. They begin high, so that later changes can lower ranks.
pub const TOP: u32 = 1 << 31;

/// A number for each node, which falls along each edge.
pub fn ranks(alloc: Global, nodes: u32, edges: &[(u32, u32)]) -> Result<Vec<u32>, AllocError>
    requires edges { AreEdges nodes edges.now }
    requires open { (d : ℕ × ℕ) → Contains edges.now d → IsLooped edges.now d → ⊥ }
    ensures { IfOk result (λ v. (length v.items ≡ nodes)
        × ((d : ℕ × ℕ) → Contains edges.now d → slice_index v.items d.1 < slice_index v.items d.0)) }
{
    let marks = mark(alloc, nodes, edges)?;
    let mut out = Vec::from_elem(alloc, 0u32, nodes as usize)?;
    let order = marks.order();
    let base = TOP.saturating_sub(nodes);
    for place in 0..order.len() {
        let Ok(above) = u32::try_from(place) else {
            return Err(AllocError);
        };
        let Some(rank) = base.checked_add(above) else {
            return Err(AllocError);
        };
        out[order[place] as usize] = rank;
    }
    Ok(out)
}
