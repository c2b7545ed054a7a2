// The entries that are found by a feature, as a list.
ghost use Rattle.std.specs.Prelude.{◌≡◌, IfOk};
ghost use Rattle.fib_follow_features.specs.Holders.{holders};

use fib_addr::Prefix;
use fib_follow_features::{Feature, Features};
use std::alloc::{AllocError, Global};

/// Those that are found by the feature, in order.
pub fn listed(
    alloc: Global,
    features: &Features,
    feature: Feature,
) -> Result<Vec<Prefix>, AllocError>
    ensures { IfOk result (λ v. v.items ≡ holders features.now feature) }
{
    match features.holders(feature) {
        Some(set) => set.listed(alloc),
        None => Ok(Vec::new(alloc)),
    }
}
