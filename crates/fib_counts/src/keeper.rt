// The counters, and the seat that makes seats and takes them home.
ghost use Rattle.std.specs.Prelude.{◌≡◌, ◌<◌, ◌+◌, ◌^◌, ◌++◌, [], IfOk, IfSome, replicate, true, false, slice_set, length};
ghost use Rattle.fib_counts.specs.Counts.{free_in, no_number, outs};
ghost use Rattle.fib_core_lawful.specs.Claims.{times};
ghost use Rattle.fib_counts.specs.Seats.{id_in};

use crate::seat::CountSeat;
use crate::table::{BringHome, Place, Read, SendOut, Words};
use std::alloc::{AllocError, Global};
use std::marker::Model;

/// The words that all seats share, one for each kind of end.
#[derive(Drop)]
pub struct Counters {
    pub(crate) words: Words,
}

/// The first seat on fresh counters.
#[derive(Drop)]
pub struct KeeperSeat {
    place: Place,
}

impl Model for KeeperSeat {
    ghost use Rattle.std.specs.Prelude.{◌≡◌, ℕ, List, []};
    ghost use Rattle.fib_counts.specs.Counts.{keeper, first_keep};
    ghost use Rattle.fib_counts.specs.Seats.{id_of};

    ghost Value = { List ℕ };

    ghost view = { λ s. id_of s.place.table_id };

    ghost invariant = { λ s. (s.place.table_id.words ≡ 770) × (s.place.me ≡ (keeper first_keep, [])) };
}

/// The seat that makes seats, takes them home and tells the totals.
pub struct Keeper<'a> {
    counters: &'a Counters,
    place: Place,
    out: [bool; 8],
    count: u32,
    added: u64,
}

impl Drop for Keeper<'_> {
    fn drop(self) {
        let Keeper {
            counters: _,
            place: _,
            out: _,
            count: _,
            added: _,
        } = self;
    }
}

impl<'a> Model for Keeper<'a> {
    ghost use Rattle.std.specs.Prelude.{◌≡◌, ◌<◌, ◌+◌, ◌^◌, length};
    ghost use Rattle.fib_counts.specs.Counts.{outs};
    ghost use Rattle.fib_counts.specs.Seats.{Keeping, id_of};
    ghost use Rattle.fib_counts.specs.inner.Told.{IsFit, IsKeeper, keep_of};

    ghost Value = { Keeping };

    ghost view = { λ k. record { id = id_of k.place.table_id; out = (keep_of k.place.me.0).out; tally = (keep_of k.place.me.0).tally } };

    ghost invariant = { λ k. (k.place.table_id ≡ k.counters.now.words.shared.table_id) × (k.place.table_id.words ≡ 770)
        × IsKeeper k.place.me × IsFit (keep_of k.place.me.0)
        × ((keep_of k.place.me.0).out ≡ k.out) × (length k.out ≡ 8) × (outs k.out ≡ k.count)
        × (length (keep_of k.place.me.0).tally ≡ k.added) };
}

// So many zeros.
fn zeros(alloc: Global, count: usize) -> Result<Vec<u64>, AllocError>
    ensures { IfOk result (λ v. v.items ≡ replicate count 0) }
{
    Ok(vec![in alloc; 0; count]?)
}

impl Counters {
    /// Fresh counters and the keeper's seat on them.
    pub fn new(alloc: Global) -> Result<(Counters, KeeperSeat), AllocError>
        ensures { IfOk result (λ r. r.1 ≡ id_in r.0) }
    {
        let first = zeros(alloc, 770)?;
        let (words, place) = Words::of_words(alloc, first.as_slice(), &0)?;
        Ok((Counters { words }, KeeperSeat { place }))
    }
}

// The least number that isn't out.
fn free_number(out: &[bool; 8]) -> u32
    requires { outs out.now < 8 }
    ensures least { result ≡ free_in out.now }
    ensures below { result < 8 }
{
    let mut number = 0;
    while number < 7 {
        if !out[number as usize] {
            return number;
        }
        number += 1;
    }
    number
}

impl<'a> Keeper<'a> {
    /// The keeper of counters with which this seat was made.
    pub fn new(counters: &'a Counters, seat: KeeperSeat) -> Keeper<'a>
        requires { seat ≡ id_in counters.now }
        ensures { result ≡ record { id = seat; out = no_number; tally = [] } }
    {
        let KeeperSeat { place } = seat;
        Keeper {
            counters,
            place,
            out: [false; 8],
            count: 0,
            added: 0,
        }
    }

    /// How many seats are out.
    pub fn out(&self) -> u32
        ensures { result ≡ outs self.now.out }
    {
        self.count
    }

    /// How many counts came home.
    pub fn added(&self) -> u64
        ensures { result ≡ length self.now.tally }
    {
        self.added
    }

    /// A seat with no counts yet, which may make 2^32 - 1.
    pub fn seat(&mut self) -> CountSeat<'a>
        requires few { outs self.old.out < 8 }
        requires room { length self.old.tally < 2 ^ 60 }
        ensures keeper { self.new ≡ record {
          id = self.old.id;
          out = slice_set self.old.out (free_in self.old.out) true;
          tally = self.old.tally;
        } }
        ensures seat { result ≡ record { id = self.old.id; tally = record { number = free_in self.old.out; words = [] } } }
        ensures more { outs self.new.out ≡ outs self.old.out + 1 }
    {
        let counters = self.counters;
        let number = free_number(&self.out);
        let place = counters.words.shared.split_seat::<SendOut>(&mut self.place);
        self.out[number as usize] = true;
        self.count += 1;
        CountSeat {
            counters,
            place,
            number,
            left: u32::MAX,
        }
    }

    /// Takes a seat home, with what it counted.
    pub fn home(&mut self, seat: CountSeat<'a>)
        requires { seat.id ≡ self.old.id }
        ensures keeper { self.new ≡ record {
          id = self.old.id;
          out = slice_set self.old.out seat.entry.tally.number false;
          tally = self.old.tally ++ seat.entry.tally.words;
        } }
        ensures less { outs self.new.out + 1 ≡ outs self.old.out }
    {
        let CountSeat {
            counters: _,
            place,
            number,
            left,
        } = seat;
        let shared = &self.counters.words.shared;
        shared.join_seat::<BringHome>(&mut self.place, place);
        // A join tells nothing of the rule: the load tells that the seat was out.
        shared.load::<Read>(&mut self.place, 0);
        self.out[number as usize] = false;
        self.count -= 1;
        self.added += u64::from(u32::MAX - left);
    }

    /// How often that word was counted. No seat may be out.
    pub fn total(&mut self, place: u32) -> u64
        requires inside { place < 770 }
        requires home { outs self.old.out ≡ 0 }
        ensures total { result ≡ times place self.old.tally }
        ensures same { self.new ≡ self.old }
    {
        self.counters
            .words
            .shared
            .load::<Read>(&mut self.place, place as usize)
    }
}
