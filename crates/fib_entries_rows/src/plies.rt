// The plies that one entry alone makes.
ghost use Rattle.std.specs.Prelude.{◌≡◌, ◌+◌, ◌/◌, ◌<◌, ◌≤◌, cond};
ghost use Rattle.fib_entries_rows.specs.inner.Plies.{is_on_way, is_own, own_below};

use crate::look::is_same;
use fib_addr::Prefix;

/// Whether the ply at that depth on the way to the prefix is on the way to the other too, where there is one.
fn is_on_way(p: Prefix, depth: u8, other: &Option<Prefix>) -> bool
    requires { depth < 8 }
    ensures { result ≡ is_on_way p depth other.now }
{
    match other {
        Some(e) => {
            let e = *e;
            4 * depth < e.len()
                && is_same(
                    Prefix::masked(p.bits(), 4 * depth),
                    Prefix::masked(e.bits(), 4 * depth),
                )
        }
        None => false,
    }
}

/// Whether it is on the way to neither of the two, and isn't that of all addresses.
fn is_own(p: Prefix, before: &Option<Prefix>, after: &Option<Prefix>, depth: u8) -> bool
    requires { depth < 8 }
    ensures { result ≡ is_own p before.now after.now depth }
{
    0 < depth && !(is_on_way(p, depth, before) || is_on_way(p, depth, after))
}

fn unit(is: bool) -> u32
    ensures value { result ≡ cond is 1 0 }
    ensures bound { result ≤ 1 }
{
    if is { 1 } else { 0 }
}

/// How many plies on the way to the prefix are on the way to neither of the two.
pub fn own_plies(p: Prefix, before: &Option<Prefix>, after: &Option<Prefix>) -> u32
    ensures plies { result ≡ own_below p before.now after.now ((p.len + 3) / 4) }
    ensures few { result ≤ 8 }
{
    let mut plies = 0u32;
    for depth in 0..(p.len() + 3) / 4 {
        plies += unit(is_own(p, before, after, depth));
    }
    plies
}
