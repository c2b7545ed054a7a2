// The entry of one prefix, made anew.
ghost use Rattle.std.specs.Prelude.{◌≡◌, ◌<◌, IfOk};
ghost use Rattle.fib_resolve.specs.Pairs.{pairs};
ghost use Rattle.fib_resolve.specs.Tables.{IsSound};
ghost use Rattle.fib_resolve.specs.declared.types.Tables.{Tables as TablesValue};
ghost use Rattle.fib_resolve_changes.specs.Looked.{attached_at};
ghost use Rattle.fib_follow_pairs.specs.Fresh.{ArePairsAt, IsAround, IsFresh, prefix_in};
ghost use Rattle.fib_follow_pairs.specs.inner.Compared.{paths_made};
ghost use Rattle.fib_follow_pairs.specs.inner.Parts.{cover_in};

use crate::base::{base_pairs, first_paths};
use crate::host::{Host, host_pairs};
use fib_addr::Prefix;
use fib_config::Config;
use fib_resolve::{List, Pair, Path};
use fib_resolve_pairs::attached_of;
use std::alloc::{AllocError, Global};

/// What tables have of an entry by itself.
#[derive(Drop)]
pub struct FreshEntry {
    pub prefix: Prefix,
    /// Its pairs, each source once, the best first.
    pub pairs: List<Pair>,
    /// A host's cover; none for a shorter prefix.
    pub cover: Option<Prefix>,
}

/// What tables have of a prefix.
#[derive(Drop)]
pub enum Fresh {
    Entry(FreshEntry),
    /// The prefix is no entry.
    Gone(Prefix),
}

impl Fresh {
    pub fn prefix(&self) -> Prefix
        ensures { result ≡ prefix_in self.now }
    {
        match self {
            Fresh::Entry(entry) => entry.prefix,
            Fresh::Gone(prefix) => *prefix,
        }
    }

    /// The chosen list; empty where the prefix is no entry.
    fn paths(&self) -> &[Path]
        ensures { result.now ≡ paths_made self.now }
    {
        match self {
            Fresh::Entry(entry) => first_paths(entry.pairs.as_slice()),
            Fresh::Gone(_) => &[],
        }
    }

    /// The interface to which a prefix that is shorter than 32 attaches the addresses that it covers, if it does.
    #[tactic(auto, using(crate::proofs::Made::attached_made))]
    pub fn attached(&self) -> Option<u32>
        ensures { (S : TablesValue) → IsSound S → IsFresh S self.now → (prefix_in self.now).len < 32
            → result ≡ attached_at S (prefix_in self.now) }
    {
        attached_of(self.paths())
    }
}

/// The pairs of a prefix shorter than 32.
fn short_pairs(alloc: Global, config: &Config, prefix: Prefix) -> Result<Vec<Pair>, AllocError>
    requires { prefix.len < 32 }
    ensures { IfOk result (λ v. ArePairsAt (pairs config.now.tables) prefix v.items) }
{
    // Read so that the proof knows that the tables are sound.
    let _tables = config.tables();
    let found = base_pairs(alloc, config, prefix)?;
    Ok(found)
}

/// The prefix's pairs, each source once, the best first. What is known beside them is given for a host alone. An error means that memory
/// ran out.
#[tactic(auto, using(crate::proofs::Hosted::host_again))]
pub fn pairs(
    alloc: Global,
    config: &Config,
    prefix: Prefix,
    around: Option<Host>,
) -> Result<Vec<Pair>, AllocError>
    requires { IsAround config.now.tables prefix around }
    ensures { IfOk result (λ v. ArePairsAt (pairs config.now.tables) prefix v.items) }
{
    match around {
        Some(host) => host_pairs(alloc, config, prefix.bits(), host),
        None => short_pairs(alloc, config, prefix),
    }
}

/// The cover of what is known of a host.
fn cover_of(around: &Option<Host>) -> Option<Prefix>
    ensures { result ≡ cover_in around.now }
{
    match around {
        Some(host) => Some(host.cover),
        None => None,
    }
}

/// What the tables have of a prefix. What is known beside its own base pairs is given for a host alone. An error means that memory ran out.
#[tactic(auto, using(crate::proofs::Made::some_entry, crate::proofs::Made::cover_around))]
pub fn made_anew(
    alloc: Global,
    config: &Config,
    prefix: Prefix,
    around: Option<Host>,
) -> Result<Fresh, AllocError>
    requires { IsAround config.now.tables prefix around }
    ensures prefix { IfOk result (λ f. prefix_in f ≡ prefix) }
    ensures fresh { IfOk result (IsFresh config.now.tables) }
{
    let cover = cover_of(&around);
    let found = pairs(alloc, config, prefix, around)?;
    if found.as_slice().is_empty() {
        return Ok(Fresh::Gone(prefix));
    }
    Ok(Fresh::Entry(FreshEntry {
        prefix,
        pairs: List::from_vec(found),
        cover,
    }))
}
