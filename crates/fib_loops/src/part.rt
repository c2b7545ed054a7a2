// Nodes parted into those that lead to one another.
ghost use Rattle.std.specs.Prelude.{◌≡◌, ℕ, ◌+◌, ◌<◌, ◌^◌, length, slice_index, OnOk, IfOk};
ghost use Rattle.std.specs.List.{All};
ghost use Rattle.fib_loops.specs.inner.Parting.{BackEdge, IsOrdered, IsParted, take_all};
ghost use Rattle.fib_reach.specs.Graphs.{IsClosed};

use crate::enter::Entering;
use fib_reach::Graph;
use std::alloc::{AllocError, Global};

/// Gives the number to each of the sources that has none, and makes it a member of the part.
fn take_in(
    parts: &mut Vec<u32>,
    members: &mut Vec<u32>,
    number: u32,
    sources: &[u32],
) -> Result<(), AllocError>
    requires { All (λ x. x < length parts.old.items) sources.now }
    ensures parts { OnOk result (parts.new.items ≡ (take_all number parts.old.items members.old.items sources.now).0) }
    ensures members { OnOk result (members.new.items ≡ (take_all number parts.old.items members.old.items sources.now).1) }
{
    for source in sources {
        if parts[*source as usize] == 0 {
            members.push(*source)?;
            parts[*source as usize] = number;
        }
    }
    Ok(())
}

/// Grows the part after the first ones from its root: gives its number to all nodes without one that lead there.
fn grow(
    back: &Graph,
    walk: &Entering,
    parts: &mut Vec<u32>,
    members: &mut Vec<u32>,
    done: u32,
    root: u32,
) -> Result<(), AllocError>
    requires closed { IsClosed back.now }
    requires ordered { IsOrdered (BackEdge back.now) (length back.now) walk.now.starts.items walk.now.ranks.items walk.now.order.items }
    requires parted { IsParted (BackEdge back.now) (length back.now) walk.now.ranks.items parts.old.items done }
    requires few { length back.now < 2 ^ 32 }
    requires rank { slice_index walk.now.ranks.items root + done ≡ length back.now }
    requires root { root < length back.now }
    requires new { slice_index parts.old.items root ≡ 0 }
    ensures { OnOk result (IsParted (BackEdge back.now) (length back.now) walk.now.ranks.items parts.new.items (done + 1)) }
{
    let number = done + 1;
    members.clear();
    members.push(root)?;
    parts[root as usize] = number;
    let mut place = 0;
    while place < members.len() {
        let sources = back.targets(members[place]);
        take_in(parts, members, number, sources)?;
        place += 1;
    }
    Ok(())
}

/// The number of each node's part. Nodes have one number exactly where they lead to one another.
pub fn part_all(alloc: Global, back: &Graph, walk: &Entering) -> Result<Vec<u32>, AllocError>
    requires closed { IsClosed back.now }
    requires few { length back.now < 2 ^ 32 }
    requires ordered { IsOrdered (BackEdge back.now) (length back.now) walk.now.starts.items walk.now.ranks.items walk.now.order.items }
    ensures { IfOk result (λ parts. IsParted (BackEdge back.now) (length back.now) walk.now.ranks.items parts.items (length back.now)) }
{
    let nodes = back.nodes();
    let mut parts = Vec::from_elem(alloc, 0, nodes as usize)?;
    let mut members = Vec::new(alloc);
    for done in 0..nodes {
        let root = walk.order[(nodes - 1 - done) as usize];
        if parts[root as usize] == 0 {
            grow(back, walk, &mut parts, &mut members, done, root)?;
        }
    }
    Ok(parts)
}
