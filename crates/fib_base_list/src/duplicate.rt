// Copies that may want memory.
ghost use Rattle.std.specs.Prelude.{◌≡◌, ◌++◌, IfOk, take};

use crate::List;
use std::alloc::{AllocError, Global};

/// A value that can be copied where memory suffices.
///
/// std's `Clone` says nothing of a copy that owns memory; here the copy is equal to what it copies. Want of memory is the only
/// fault, and it leaves the original as it was.
pub trait Duplicate {
    fn duplicate(&self, alloc: Global) -> Result<Self, AllocError>
        ensures { IfOk result (λ x. x ≡ self.now) };
}

impl Duplicate for u8 {
    fn duplicate(&self, _alloc: Global) -> Result<u8, AllocError> {
        Ok(*self)
    }
}

impl<T: Duplicate + Drop> Duplicate for List<T> {
    fn duplicate(&self, alloc: Global) -> Result<List<T>, AllocError> {
        let mut copied = List::new(alloc);
        for item in self.as_slice() {
            copied.push(item.duplicate(alloc)?)?;
        }
        Ok(copied)
    }
}
