// The hosts that are asked for.
ghost use Rattle.std.specs.Prelude.{◌≡◌, IfOk, OnOk, map};
ghost use Rattle.fib_resolve.specs.declared.types.Tables.{Tables as TablesValue};
ghost use Rattle.fib_entries_rows.specs.Known.{Known, StandsFor, prefix_of};
ghost use Rattle.fib_follow_features.specs.FoundBy.{AreNoted};
ghost use Rattle.fib_follow_looked.specs.Looks.{AreAnswered};
ghost use Rattle.fib_follow_plan.specs.inner.Hosts.{AreHostsOf, IsShortAsk, hosts_of};

use crate::listed::listed;
use fib_addr::Prefix;
use fib_follow_features::{Feature, Features};
use fib_follow_looked::Ask;
use std::alloc::{AllocError, Global};

/// Those of the cover, where they are wanted of the whole or in a prefix.
fn hosts_of(alloc: Global, features: &Features, ask: Ask) -> Result<Vec<Prefix>, AllocError>
    ensures found { IfOk result (λ v. v.items ≡ hosts_of features.now ask) }
    ensures short { OnOk result (IsShortAsk ask) }
{
    match ask {
        Ask::Under(q) => listed(alloc, features, Feature::Under(q)),
        Ask::Inside { cover, prefix } => {
            // Read so that the proof knows its range.
            let _length = prefix.len();
            features.holders_inside(alloc, Feature::Under(cover), prefix)
        }
    }
}

fn all_hosts(alloc: Global, features: &Features, asks: &[Ask]) -> Result<Vec<Prefix>, AllocError>
    ensures { IfOk result (λ v. AreHostsOf features.now asks.now v.items) }
{
    let mut out = Vec::new(alloc);
    'asks: for place in 0..asks.len() {
        let hosts = hosts_of(alloc, features, asks[place])?;
        out.extend_from_slice(hosts.as_slice())?;
    }
    Ok(out)
}

/// The hosts that are asked for, and maybe others: those that are found by the covers of which the asks speak. An error means that memory
/// ran out.
pub fn answered(alloc: Global, features: &Features, asks: &[Ask]) -> Result<Vec<Prefix>, AllocError>
    ensures { IfOk result (λ v. (k : Known) (S : TablesValue) → StandsFor k S → AreNoted k.lists (map prefix_of k.rows) k.rows features.now
        → AreAnswered S asks.now v.items) }
{
    all_hosts(alloc, features, asks)
}
