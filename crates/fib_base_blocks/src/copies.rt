// Copies of lists.
ghost use Rattle.std.specs.Prelude.{◌≡◌, IfOk, take};

use crate::list::Blocks;
use fib_base_list::Duplicate;
use std::alloc::{AllocError, Global};

impl<T: Duplicate + Drop> Duplicate for Blocks<T> {
    fn duplicate(&self, alloc: Global) -> Result<Blocks<T>, AllocError> {
        let mut copied = Blocks::new(alloc);
        for place in 0..self.len() {
            copied.push(self[place].duplicate(alloc)?)?;
        }
        Ok(copied)
    }
}
