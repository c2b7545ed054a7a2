// Keys in the order of a list, each with a number that rises along it.
ghost use Rattle.std.specs.Prelude.{◌≡◌, ◌<◌, ◌≤◌, map, length};
ghost use Rattle.std.specs.List.{position_or_len};
ghost use Rattle.fib_base_keyed.specs.inner.Rows.{AreApart, key_of};

use fib_base_blocks::{Blocks, Sought};
use std::cmp::Ordering;

/// A key, and a number that is greater than those of the keys before it. An order that is broken costs time alone: what a search finds
/// is compared with the key.
#[derive(Clone, Copy)]
pub struct Row<K> {
    pub key: K,
    pub stamp: u64,
}

/// A number that is sought.
#[derive(Drop)]
struct Stamp {
    stamp: u64,
}

impl<K> Sought<Row<K>> for Stamp {
    ghost use Rattle.std.specs.Ordering.{nat_cmp};

    ghost order = { λ s r. nat_cmp r.stamp s.stamp };

    fn compare(&self, element: &Row<K>) -> Ordering {
        element.stamp.cmp(&self.stamp)
    }
}

/// A number that is greater than those of all rows; None where there is none.
pub fn next_stamp<K>(rows: &Blocks<Row<K>>) -> Option<u64> {
    let count = rows.len();
    if count == 0 {
        return Some(0);
    }
    rows[count - 1].stamp.checked_add(1)
}

/// The place of the key, or else the number of rows, by a search.
fn searched<K: Eq + Copy>(rows: &Blocks<Row<K>>, key: K) -> usize
    ensures { result ≡ position_or_len (K.eq key) (map key_of rows.now) }
{
    for place in 0..rows.len() {
        if key == rows[place].key {
            return place;
        }
    }
    rows.len()
}

/// The place of the key, or else the number of rows. A number that leads elsewhere makes it a search of all rows.
pub fn placed<K: Eq + Copy>(rows: &Blocks<Row<K>>, stamp: u64, key: K) -> usize
    requires { AreApart K.eq rows.now }
    ensures { result ≡ position_or_len (K.eq key) (map key_of rows.now) }
{
    let sought = Stamp { stamp };
    if let Ok(place) = rows.search(&sought) {
        if key == rows[place].key {
            return place;
        }
    }
    searched(rows, key)
}
