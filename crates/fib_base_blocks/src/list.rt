// A list in blocks.
ghost use Rattle.std.specs.Prelude.{◌≡◌, ◌<◌, ◌≤◌, ◌-◌, ◌++◌, ◌∷◌, ◌↔◌, [], IfOk, IsTrue, OnErr, OnOk, length, slice_get, slice_index_or};
ghost use Rattle.std.specs.Prelude.{slice_set, take, option_copied};
ghost use Rattle.std.specs.List.{insert, remove};
ghost use Rattle.std.specs.List.Sorted.{IsBinarySearchResult, IsSearchInRange};
ghost use Rattle.std.specs.Borrow.{sem};
ghost use Rattle.fib_base_blocks.specs.Lends.{lends_element};

use crate::layout::{find, put_in, take_out};
use crate::search::{self, Sought};
use crate::spare::{self, Spare};
use std::alloc::{AllocError, Global};
use std::marker::Model;
use std::mem;
use std::ops::{Index, IndexMut};

/// A list that lies in blocks, which are halved where they would have more than 256 elements. An element that comes or
/// goes moves those of its block alone, and one is found by its place with a binary search over the blocks. Contracts see
/// the list.
pub struct Blocks<T> {
    /// None of them is empty.
    blocks: Vec<Vec<T>>,
    /// The place of the first element of each.
    starts: Vec<usize>,
    /// How many elements there are.
    count: usize,
    alloc: Global,
}

// The prover follows what a drop does here, once, and not at every way out past an owner.
impl<T: Drop> Drop for Blocks<T> {
    fn drop(self) {
        let Blocks {
            blocks: _,
            starts: _,
            count: _,
            alloc: _,
        } = self;
    }
}

impl<T> Model for Blocks<T> {
    ghost use Rattle.std.specs.Prelude.{List, flat_map};
    ghost use Rattle.fib_base_blocks.specs.inner.Layout.{IsLaid, items_of};

    ghost Value = { List T };

    ghost view = { λ s. flat_map items_of s.blocks.items };

    ghost invariant = { λ s. IsLaid s.blocks.items s.starts.items s.count };
}

impl<T> Blocks<T> {
    /// The empty list, which takes no memory yet.
    pub fn new(alloc: Global) -> Blocks<T>
        ensures { result ≡ [] }
    {
        Blocks {
            blocks: Vec::new(alloc),
            starts: Vec::new(alloc),
            count: 0,
            alloc,
        }
    }

    /// How many elements it has.
    pub fn len(&self) -> usize
        ensures { result ≡ length self.now }
    {
        self.count
    }

    /// Whether it has no element.
    pub fn is_empty(&self) -> bool
        ensures { IsTrue result ↔ (self.now ≡ []) }
    {
        self.count == 0
    }

    /// The element at the place; None exactly where the list ends before it.
    pub fn get(&self, place: usize) -> Option<&T>
        ensures { option_copied result ≡ slice_get self.now place }
    {
        if place >= self.count {
            return None;
        }
        Some(self.at(place))
    }

    /// The place of an element that is equal to what is sought; or else, where the list is in order, the place where one belongs.
    pub fn search<S: Sought<T>>(&self, sought: &S) -> Result<usize, usize>
        ensures bound { IsSearchInRange result (length self.now) }
        ensures position { IsBinarySearchResult (S.order sought.now) self.now result }
    {
        // Read so that the proof knows its range.
        let _count = self.count;
        search::search(self.blocks.as_slice(), self.starts.as_slice(), sought)
    }

    fn at(&self, place: usize) -> &T
        requires { place < length self.now }
        ensures { result.now ≡ slice_index_or self.now place result.now }
    {
        let at = find(self.blocks.as_slice(), self.starts.as_slice(), place);
        &self.blocks[at.block][at.slot]
    }

    fn at_mut(&mut self, place: usize) -> &mut T
        requires { place < length self.old }
        ensures* writes_back { sem 𝓛 (lends_element T.row self.entry place result) }
        ensures value { result.now ≡ slice_index_or self.old place result.now }
    {
        let at = find(self.blocks.as_slice(), self.starts.as_slice(), place);
        &mut self.blocks[at.block][at.slot]
    }
}

impl<T> Index<usize> for Blocks<T> {
    type Output = T;

    ghost can_index = { λ s place. place < length s };

    ghost index_gives = { λ s place x. x ≡ slice_index_or s place x };

    fn index(&self, place: usize) -> &T {
        self.at(place)
    }
}

impl<T> IndexMut<usize> for Blocks<T> {
    fn index_mut(&mut self, place: usize) -> &mut T
        requires { place < length self.old }
        ensures* writes_back { sem 𝓛 (lends_element T.row self.entry place result) }
        ensures value { result.now ≡ slice_index_or self.old place result.now }
    {
        self.at_mut(place)
    }
}

impl<T: Drop> Blocks<T> {
    /// The elements of the vector, in order. Errs where memory is wanting.
    pub fn of(alloc: Global, elements: Vec<T>) -> Result<Blocks<T>, AllocError>
        ensures { IfOk result (λ s. s ≡ elements.items) }
    {
        let mut out = Blocks::new(alloc);
        for element in elements {
            let end = out.len();
            out.insert(end, element)?;
        }
        Ok(out)
    }

    /// Puts an element in at the place. Errs where memory is wanting, or where there are as many elements as a `usize` counts; the list is
    /// as before then.
    pub fn insert(&mut self, place: usize, element: T) -> Result<(), AllocError>
        requires { place ≤ length self.old }
        ensures ok { OnOk result (self.new ≡ insert self.old place element) }
        ensures err { OnErr result (self.new ≡ self.old) }
    {
        if self.count == usize::MAX {
            return Err(AllocError);
        }
        put_in(
            self.alloc,
            &mut self.blocks,
            &mut self.starts,
            place,
            element,
        )?;
        self.count += 1;
        Ok(())
    }

    /// Takes the element at the place out, and gives it. Takes no memory.
    pub fn remove(&mut self, place: usize) -> T
        requires { place < length self.old }
        ensures value { result ≡ slice_index_or self.old place result }
        ensures list { self.new ≡ remove self.old place }
    {
        let at = find(self.blocks.as_slice(), self.starts.as_slice(), place);
        let element = take_out(&mut self.blocks, &mut self.starts, at);
        self.count -= 1;
        element
    }

    /// Puts an element at the end. Errs as `insert` does; the list is as before then.
    pub fn push(&mut self, element: T) -> Result<(), AllocError>
        ensures ok { OnOk result (self.new ≡ self.old ++ element ∷ []) }
        ensures err { OnErr result (self.new ≡ self.old) }
    {
        let end = self.len();
        self.insert(end, element)
    }

    /// Takes the last element out, where there is one. Takes no memory.
    pub fn pop(&mut self)
        ensures { self.new ≡ take (length self.old - 1) self.old }
    {
        let end = self.len();
        if end > 0 {
            let _last = self.remove(end - 1);
        }
    }

    /// Puts an element in place of the one at the place, which comes back. Takes no memory.
    pub fn replace(&mut self, place: usize, element: T) -> T
        requires { place < length self.old }
        ensures value { result ≡ slice_index_or self.old place result }
        ensures list { self.new ≡ slice_set self.old place element }
    {
        mem::replace(self.at_mut(place), element)
    }

    /// Memory with which an element can come to a list of fewer elements than this one has. Errs where memory is wanting.
    pub fn spare(&self) -> Result<Spare<T>, AllocError>
        ensures { IfOk result (λ s. s ≡ length self.now) }
    {
        Spare::of(self.alloc, self.count)
    }

    /// Puts an element in at the place, with memory that was reserved before. Takes no other.
    pub fn put_back(&mut self, place: usize, element: T, spare: Spare<T>)
        requires place { place ≤ length self.old }
        requires room { length self.old < spare }
        ensures { self.new ≡ insert self.old place element }
    {
        // Read so that the proof knows its range.
        let _most = spare.most();
        spare::put_spared(&mut self.blocks, &mut self.starts, place, element, spare);
        self.count += 1;
    }
}
