//! Sixteen buckets for weighted paths: each bucket holds the place of a path, and a path has about as many as its share of the weights.
//!
//! No memory is taken.
#![tactic(auto)]

ghost use Rattle.std.specs.Prelude.{◌≡◌, ℕ, ◌+◌, ◌-◌, ◌*◌, ◌/◌, ◌%◌, ◌<◌, ◌≤◌, ◌++◌, ◌∷◌, length, sum, sum_by, count_by, take, drop};
ghost use Rattle.std.specs.Prelude.{replicate, slice_index, All};
ghost use Rattle.std.specs.List.{enumerate_from};
ghost use Rattle.fib_buckets.specs.Shares.{floor_of, rest_of, extra, stands_before, count_before, share_of, buckets, IsFair};

fn total_of(weights: &[u8]) -> u32
    requires { length weights.now ≤ 16 }
    ensures { result ≡ sum weights.now }
{
    weights.iter().map(|w| u32::from(*w)).sum()
}

/// What a weight first gets.
fn floor_of(total: u32, w: u8) -> u32
    requires { 0 < total }
    ensures value { result ≡ floor_of total w }
    ensures bound { result ≤ 4080 }
{
    16 * u32::from(w) / total
}

/// What is left of a weight's sixteen parts then.
fn rest_of(total: u32, w: u8) -> u32
    requires { 0 < total }
    ensures { result ≡ rest_of total w }
{
    16 * u32::from(w) % total
}

/// The buckets that are left.
#[tactic(auto, unfolding(crate::specs::Shares::extra))]
fn extra(weights: &[u8], total: u32) -> u32
    requires few { length weights.now ≤ 16 }
    requires total { total ≡ sum weights.now }
    requires positive { 0 < total }
    ensures { result ≡ extra weights.now }
{
    let mut given = 0u32;
    for w in weights {
        given += floor_of(total, *w);
    }
    16u32.saturating_sub(given)
}

/// Whether path p gets a bucket that is left before path q. A path is its place and its weight.
fn stands_before(total: u32, p: (usize, u8), q: (usize, u8)) -> bool
    requires { 0 < total }
    ensures { result ≡ stands_before total p q }
{
    let (a, b) = (rest_of(total, p.1), rest_of(total, q.1));
    a > b || (a == b && p.0 < q.0)
}

/// How many paths do so before that one.
#[tactic(auto, unfolding(crate::specs::Shares::count_before))]
fn count_before(weights: &[u8], total: u32, q: (usize, u8)) -> usize
    requires total { total ≡ sum weights.now }
    requires positive { 0 < total }
    ensures { result ≡ count_before weights.now q }
{
    weights
        .iter()
        .enumerate()
        .filter(|(i, w)| stands_before(total, (*i, **w), q))
        .count()
}

/// How many buckets a path gets.
#[tactic(auto, unfolding(crate::specs::Shares::share_of))]
fn share_of(weights: &[u8], total: u32, left: u32, p: (usize, u8)) -> u32
    requires total { total ≡ sum weights.now }
    requires positive { 0 < total }
    requires left { left ≡ extra weights.now }
    ensures { result ≡ share_of weights.now p }
{
    let first = floor_of(total, p.1);
    if count_before(weights, total, p) < left as usize {
        first + 1
    } else {
        first
    }
}

/// Writes a run of one value, behind what is written.
fn put_run(out: &mut [u8], at: usize, count: usize, value: u8)
    requires { at + count ≤ length out.old }
    ensures { take (at + count) out.new ≡ take at out.old ++ replicate count value }
{
    for k in 0..count {
        out[at + k] = value;
    }
}

/// The place of each bucket's path, by the weights of the paths.
///
/// Path j first gets floor(16 w_j / W) buckets, where W is the sum of the weights. The buckets that are left go one each to the paths of
/// the greatest remainders 16 w_j mod W, the earlier path first where two are equal. Paths take consecutive runs in their order.
pub fn share(weights: &[u8]) -> [u8; 16]
    requires few { length weights.now ≤ 16 }
    requires some { 0 < sum weights.now }
    ensures rule { result ≡ buckets weights.now }
    ensures fair { IsFair weights.now result }
{
    let total = total_of(weights);
    let left = extra(weights, total);
    let mut out = [0u8; 16];
    let mut at = 0usize;
    for (j, w) in weights.iter().enumerate() {
        let count = share_of(weights, total, left, (j, *w)) as usize;
        put_run(&mut out, at, count, j as u8);
        at += count;
    }
    out
}
