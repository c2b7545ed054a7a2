// A list of keys.
ghost use Rattle.std.specs.Prelude.{◌≡◌, ◌<◌, ◌≤◌, ◌++◌, ◌∷◌, [], IfSome, length};
ghost use Rattle.std.specs.List.{insert, position_or_len, remove};
ghost use Rattle.fib_base_keyed.specs.inner.Rows.{Notes};

use crate::rows::{Row, next_stamp, placed};
use fib_base_blocks::{Blocks, Spare};
use std::alloc::Global;
use std::collections::HashMap;
use std::hash::Hash;
use std::marker::Model;

/// Keys in the order of a list, no two of them equal. Contracts see the list. The place of a key is found in about the time of a binary
/// search, whatever came and went before: each key has a number that rises along the list, the number is found by the key, and the
/// place by the number.
#[derive(Drop)]
pub struct Keyed<K: Eq + Hash> {
    rows: Blocks<Row<K>>,
    stamps: HashMap<K, u64>,
}

impl<K: Eq + Hash> Model for Keyed<K> {
    ghost use Rattle.std.specs.Prelude.{List, map};
    ghost use Rattle.std.specs.HashMap.{get};
    ghost use Rattle.fib_base_keyed.specs.inner.Rows.{AreKnown, key_of};

    ghost Value = { List K };

    ghost view = { λ s. map key_of s.rows };

    ghost invariant = { λ s. AreKnown K.eq s.rows (get K.eq s.stamps) };
}

/// What a key that went needs for its way back: its number, and the memory, where there was some.
#[derive(Drop)]
pub struct Gone<K> {
    stamp: u64,
    spare: Option<Spare<Row<K>>>,
}

/// The numbers with one more; None where the key had one, or where memory is wanted.
fn noted<K: Eq + Hash + Copy + Drop>(
    stamps: HashMap<K, u64>,
    key: K,
    stamp: u64,
) -> Option<HashMap<K, u64>>
    ensures { IfSome result (λ m. Notes K.eq stamps m key stamp) }
{
    let mut more = stamps;
    match more.insert(key, stamp) {
        Ok(None) => Some(more),
        _ => None,
    }
}

impl<K: Eq + Hash + Copy + Drop> Keyed<K> {
    /// The empty list. Takes no memory yet.
    pub fn new(alloc: Global) -> Keyed<K>
        ensures { result ≡ [] }
    {
        Keyed {
            rows: Blocks::new(alloc),
            stamps: HashMap::new(alloc),
        }
    }

    /// How many keys there are.
    pub fn len(&self) -> usize
        ensures { result ≡ length self.now }
    {
        self.rows.len()
    }

    /// The place of the key, or else the number of keys.
    pub fn place_of(&self, key: K) -> usize
        ensures { result ≡ position_or_len (K.eq key) self.now }
    {
        match self.stamps.get(&key) {
            Some(stamp) => placed(&self.rows, *stamp, key),
            None => self.rows.len(),
        }
    }

    /// The list with one key more at the end; None where it was there, or where memory is wanted.
    pub fn with_last(self, key: K) -> Option<Keyed<K>>
        ensures { IfSome result (λ s. s ≡ self ++ key ∷ []) }
    {
        let Keyed { rows, stamps } = self;
        let stamp = next_stamp(&rows)?;
        let stamps = noted(stamps, key, stamp)?;
        let mut more = rows;
        let Ok(()) = more.push(Row { key, stamp }) else {
            return None;
        };
        Some(Keyed { rows: more, stamps })
    }

    /// Takes the key at the place out, and gives its number. Takes no memory.
    pub fn remove(&mut self, place: usize) -> u64
        requires { place < length self.old }
        ensures { self.new ≡ remove self.old place }
    {
        let row = self.rows.remove(place);
        // The row has the number too.
        let _stamp = self.stamps.remove(&row.key);
        row.stamp
    }

    /// Takes the key at the place out, and gives what its way back needs: the memory for it is reserved.
    pub fn take_out(&mut self, place: usize) -> Gone<K>
        requires { place < length self.old }
        ensures { self.new ≡ remove self.old place }
    {
        let spare = self.rows.spare().ok();
        let stamp = self.remove(place);
        Gone { stamp, spare }
    }

    /// The list with a key that went at its place again; None where it is there, where there is no such place, or where no memory was
    /// reserved. Takes no other.
    pub fn with_again(self, place: usize, key: K, gone: Gone<K>) -> Option<Keyed<K>>
        ensures { IfSome result (λ s. s ≡ insert self place key) }
    {
        let Keyed { rows, stamps } = self;
        let Gone { stamp, spare } = gone;
        let spare = spare?;
        if place > rows.len() || rows.len() >= spare.most() {
            return None;
        }
        let stamps = noted(stamps, key, stamp)?;
        let mut more = rows;
        more.put_back(place, Row { key, stamp }, spare);
        Some(Keyed { rows: more, stamps })
    }
}
