// Entries made anew.
ghost use Rattle.std.specs.Prelude.{◌≡◌, [], IfOk, length};
ghost use Rattle.fib_base_interned.specs.Interned.{AreInterned};
ghost use Rattle.fib_entries_rows.specs.inner.Building.{AreTaken};

use fib_paths::{PathListId, PathLists};
use fib_resolve::Pair;
use std::alloc::{AllocError, Global};

/// The numbers of the pairs' lists, each of which is taken once a pair.
pub fn take_all(
    alloc: Global,
    lists: &mut PathLists,
    pairs: &[Pair],
) -> Result<Vec<PathListId>, AllocError>
    requires { lists.old ≡ [] }
    ensures { IfOk result (λ v. AreTaken lists.new pairs.now v.items) }
{
    if pairs.len() >= u32::MAX as usize {
        return Err(AllocError);
    }
    let mut out = Vec::with_capacity(alloc, pairs.len())?;
    for x in pairs {
        let id = lists.take(x.paths.as_slice())?;
        // The count tells that the lists are interned: each is there once, and has a user.
        let _count = lists.count();
        out.push(id)?;
    }
    Ok(out)
}
