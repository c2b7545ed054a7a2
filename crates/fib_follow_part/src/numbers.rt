// Numbers that fall along edges.
ghost use Rattle.std.specs.Prelude.{◌≡◌, ◌↔◌, ◌<◌, ℕ, List, IfOk, Contains, length, slice_index};
ghost use Rattle.fib_loops.specs.Loops.{AreEdges, IsLooped, IsMarked};
ghost use Rattle.fib_reach.specs.Walks.{AllDiffer};
ghost use Rattle.fib_follow_part.specs.inner.Searched.{FallsAlong, IsFiltered};

use fib_loops::{Marks, mark};
use std::alloc::{AllocError, Global};

/// A number for each node, below their count: its place in the order of the marks, which falls along each edge that was marked, where none
/// lies on a cycle.
fn numbered(alloc: Global, nodes: u32, marks: &Marks) -> Result<Vec<u32>, AllocError>
    requires once { AllDiffer marks.now.order }
    requires all { (x : ℕ) → Contains marks.now.order x ↔ x < nodes }
    ensures len { IfOk result (λ v. length v.items ≡ nodes) }
    ensures below { IfOk result (λ v. (n : ℕ) → Contains v.items n → n < nodes) }
    ensures falls { IfOk result (λ v. (edges : List (ℕ × ℕ)) → IsMarked nodes edges marks.now → FallsAlong edges v.items) }
{
    let mut out = Vec::from_elem(alloc, 0u32, nodes as usize)?;
    let order = marks.order();
    for place in 0..order.len() {
        let Ok(number) = u32::try_from(place) else {
            return Err(AllocError);
        };
        out[order[place] as usize] = number;
    }
    Ok(out)
}

/// A number for each node, below their count, which falls along each of the edges that are left, where none of these lies on a cycle. The
/// marks are those of all the edges: where all are left they tell it.
pub fn numbers(
    alloc: Global,
    nodes: u32,
    edges: &[(u32, u32)],
    marks: &Marks,
    left: &[(u32, u32)],
) -> Result<Vec<u32>, AllocError>
    requires marks { IsMarked nodes edges.now marks.now }
    requires edges { AreEdges nodes left.now }
    requires left { IsFiltered edges.now left.now }
    ensures len { IfOk result (λ v. length v.items ≡ nodes) }
    ensures below { IfOk result (λ v. (n : ℕ) → Contains v.items n → n < nodes) }
    ensures falls { IfOk result (λ v. FallsAlong left.now v.items) }
{
    if left.len() == edges.len() {
        return numbered(alloc, nodes, marks);
    }
    let again = mark(alloc, nodes, left)?;
    numbered(alloc, nodes, &again)
}
