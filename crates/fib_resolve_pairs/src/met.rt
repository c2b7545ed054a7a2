// Which interfaces are up, and which needs are met.
ghost use Rattle.std.specs.Prelude.{◌≡◌};
ghost use Rattle.fib_resolve.specs.Forwarding.{is_attached_list, is_met, is_up};

use crate::known::Known;
use fib_addr::{Addr, Prefix};
use fib_resolve::{Need, Path, PathKind, Tables};

/// Whether the interface is there and up.
pub fn is_up(tables: &Tables, i: u32) -> bool
    ensures { result ≡ is_up tables.now i }
{
    match tables.interfaces.as_slice().get(i as usize) {
        Some(interface) => interface.up,
        None => false,
    }
}

fn is_attached_list(paths: &[Path]) -> bool
    ensures { result ≡ is_attached_list paths.now }
{
    match paths {
        [only] => matches!(only.kind, PathKind::Attached(_) | PathKind::Hop { .. }),
        _ => false,
    }
}

/// Whether the need of a path with that next hop is met.
pub fn is_met(known: &Known<'_>, need: Need, a: Addr) -> bool
    ensures { result ≡ is_met known.now need a }
{
    match need {
        Need::Any => true,
        Need::Host => !known.is_derived(Prefix::host(a)),
        Need::Attached => is_attached_list(known.chosen(Prefix::host(a))),
    }
}
