// Whether marked paths are aimed at an entry.
ghost use Rattle.std.specs.Prelude.{◌≡◌};
ghost use Rattle.fib_resolve_changes.specs.Ranks.{is_aimed_at};
ghost use Rattle.fib_entries_rows.specs.inner.Waking.{aims_at};

use crate::look::is_same;
use fib_addr::Prefix;
use fib_resolve::{Aim, Marked};

fn is_aimed_at(target: Prefix, aim: Aim) -> bool
    ensures { result ≡ is_aimed_at target aim }
{
    match aim {
        Aim::On(entry) => is_same(target, entry),
        Aim::Ends(_) => false,
    }
}

/// Whether a path that isn't looped is aimed at that entry.
pub fn aims_at(target: Prefix, marks: &[Marked], looped: &[bool]) -> bool
    ensures { result ≡ aims_at target marks.now looped.now }
{
    match marks {
        [mark, marks @ ..] => match looped {
            [is_looped, looped @ ..] => (!*is_looped && is_aimed_at(target, mark.aim))
                || aims_at(target, marks, looped),
            [] => false,
        },
        [] => false,
    }
}
