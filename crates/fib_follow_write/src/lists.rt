// Path-lists that get users, and that lose them.
ghost use Rattle.std.specs.Prelude.{◌≡◌, ℕ, OnOk, OnErr, List as Items};
ghost use Rattle.fib_resolve.specs.declared.types.Path.{Path as PathValue};
ghost use Rattle.fib_follow_write.specs.Steps.{AreTaken};
ghost use Rattle.fib_follow_write.specs.Written.{AreKept, GivesPairs, IsSpent, TakesLists, lists_of};
ghost use Rattle.fib_follow_write.specs.inner.Stepped.{AreTakenFor};

use crate::plan::{Listed, Paired};
use crate::steps::{Step, take_all, take_all_back};
use fib_paths::{PathListId, PathLists};
use fib_resolve::FibSource;
use std::alloc::{AllocError, Global};

impl Step<PathLists> for Listed {
    ghost use Rattle.fib_follow_write.specs.inner.Stepped.{IsFree, IsTaken};

    ghost fits = { IsFree };

    ghost makes = { IsTaken };

    fn take(&self, alloc: Global, state: &mut PathLists) -> Result<(), AllocError> {
        // The lists know their memory themselves.
        let _alloc = alloc;
        if !state.has_room(self.paths.as_slice()) {
            return Err(AllocError);
        }
        state.take(self.paths.as_slice())?;
        Ok(())
    }

    fn take_back(&self, state: &mut PathLists) {
        match state.find(self.paths.as_slice()) {
            Some(id) => state.take_back(id),
            None => {}
        }
    }
}

impl Step<PathLists> for Paired {
    ghost use Rattle.fib_follow_write.specs.inner.Stepped.{AreFree, AreTakenFor};

    ghost fits = { AreFree };

    ghost makes = { AreTakenFor };

    fn take(&self, alloc: Global, state: &mut PathLists) -> Result<(), AllocError> {
        take_all(alloc, state, self.pairs.as_slice())
    }

    fn take_back(&self, state: &mut PathLists) {
        take_all_back(state, self.pairs.as_slice());
    }
}

/// Each list of these gets a user more, and is kept. Errs where memory is wanting, or where a list has as many users as a `u32` counts;
/// all is as before then. `take_all_back` takes them back.
pub fn take_lists(alloc: Global, lists: &mut PathLists, paired: &[Paired]) -> Result<(), AllocError>
    ensures ok { OnOk result ((f : Items PathValue → ℕ) → TakesLists (lists_of paired.now) f lists.old lists.new) }
    ensures steps { OnOk result (AreTaken AreTakenFor paired.now lists.old lists.new) }
    ensures err { OnErr result (lists.new ≡ lists.old) }
{
    take_all(alloc, lists, paired)
}

/// The list of each of these pairs loses a user, and is forgotten with its last. Takes no memory.
pub fn give_pairs(lists: &mut PathLists, pairs: &[(FibSource, PathListId)])
    requires kept { AreKept lists.old pairs.now }
    requires counted { (g : Items PathValue → ℕ) × IsSpent g lists.old pairs.now }
    ensures { (g : Items PathValue → ℕ) → IsSpent g lists.old pairs.now → GivesPairs g lists.old lists.new }
{
    'pairs: for place in 0..pairs.len() {
        lists.give(pairs[place].1);
    }
}
