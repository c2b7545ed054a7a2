// Lists without repeats.
ghost use Rattle.std.specs.Prelude.{◌≡◌, IfOk};
ghost use Rattle.std.specs.Set.{unique_keys};

use std::alloc::{AllocError, Global};
use std::collections::HashSet;
use std::hash::Hash;

/// The items, each once: of those that are equal the last stays. Costs one look-up an item.
pub fn distinct<T: Copy + Eq + Hash + Drop>(
    alloc: Global,
    items: &[T],
) -> Result<Vec<T>, AllocError>
    ensures { IfOk result (λ v. v.items ≡ unique_keys T.eq items.now) }
{
    let mut seen = HashSet::new(alloc);
    let mut out = Vec::new(alloc);
    for i in (0..items.len()).rev() {
        let item = items[i];
        if seen.insert(item)? {
            out.push(item)?;
        }
    }
    out.reverse();
    Ok(out)
}
