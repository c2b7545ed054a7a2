// The base pairs of one prefix.
ghost use Rattle.std.specs.Prelude.{◌≡◌, ◌∷◌, ◌++◌, ◌≤◌, [], IfOk, OnOk, find, option_copied};
ghost use Rattle.std.specs.List.{AllByRecursion, list_any};
ghost use Rattle.fib_resolve.specs.Pairs.{base_pairs, is_address, one, plain};
ghost use Rattle.fib_resolve_changes.specs.Looked.{attached_at};
ghost use Rattle.fib_follow_pairs.specs.Fresh.{ArePairsAt};
ghost use Rattle.fib_follow_pairs.specs.inner.Parts.{is_special, special_at, is_connected, is_edge, connected_at, host_at, own_at};
ghost use Rattle.fib_follow_pairs.specs.inner.Parts.{written_at, default_at, base_at, paths_in};

use fib_addr::{Addr, Prefix};
use fib_config::Config;
use fib_resolve::{Address, FibSource, List, Need, Pair, Path, PathKind};
use fib_resolve_pairs::attached_of;
use std::alloc::{AllocError, Global};

/// Appends the prefix's pair of one plain path.
pub fn add(
    out: &mut Vec<Pair>,
    alloc: Global,
    prefix: Prefix,
    source: FibSource,
    kind: PathKind,
) -> Result<(), AllocError>
    ensures { OnOk result (out.new.items ≡ out.old.items ++ one prefix source kind ∷ []) }
{
    let mut paths = List::new(alloc);
    paths.push(Path {
        kind,
        need: Need::Any,
        weight: 1,
        preference: 0,
    })?;
    out.push(Pair {
        prefix,
        source,
        paths,
    })?;
    Ok(())
}

/// Whether every table has the prefix dropped.
fn is_special(prefix: Prefix) -> bool
    ensures { result ≡ is_special prefix }
{
    prefix == Prefix::host(Addr(0))
        || prefix == Prefix::masked(Addr(0xe000_0000), 4)
        || prefix == Prefix::masked(Addr(0xf000_0000), 4)
        || prefix == Prefix::host(Addr(0xffff_ffff))
}

fn add_special(out: &mut Vec<Pair>, alloc: Global, prefix: Prefix) -> Result<(), AllocError>
    ensures { OnOk result (out.new.items ≡ out.old.items ++ special_at prefix) }
{
    if is_special(prefix) {
        add(out, alloc, prefix, FibSource::Special, PathKind::Drop)?;
    }
    Ok(())
}

fn is_connected(prefix: Prefix, a: &Address) -> bool
    requires { a.now.len ≤ 32 }
    ensures { result ≡ is_connected prefix a.now }
{
    a.len < 32 && Prefix::masked(a.addr, a.len) == prefix
}

fn is_edge(addr: Addr, a: &Address) -> bool
    requires { a.now.len ≤ 32 }
    ensures { result ≡ is_edge addr a.now }
{
    if a.len > 30 {
        return false;
    }
    let near = Prefix::masked(a.addr, a.len);
    near.bits() == addr || near.last() == addr
}

/// The first address that is of that prefix, where it is shorter than 32.
fn connected<'a>(prefix: Prefix, addresses: &'a [Address]) -> Option<&'a Address>
    requires { AllByRecursion (λ a. a.len ≤ 32) addresses.now }
    ensures { option_copied result ≡ find (is_connected prefix) addresses.now }
{
    match addresses {
        [a, others @ ..] => {
            if is_connected(prefix, a) {
                Some(a)
            } else {
                connected(prefix, others)
            }
        }
        [] => None,
    }
}

fn is_address(addr: Addr, addresses: &[Address]) -> bool
    ensures { result ≡ is_address addresses.now addr }
{
    addresses.iter().any(|a| a.addr == addr)
}

fn has_edge(addr: Addr, addresses: &[Address]) -> bool
    requires { AllByRecursion (λ a. a.len ≤ 32) addresses.now }
    ensures { result ≡ list_any (is_edge addr) addresses.now }
{
    match addresses {
        [a, others @ ..] => is_edge(addr, a) || has_edge(addr, others),
        [] => false,
    }
}

/// The pair that one of the addresses gives a prefix that is shorter than 32.
fn add_connected(
    out: &mut Vec<Pair>,
    alloc: Global,
    prefix: Prefix,
    addresses: &[Address],
) -> Result<(), AllocError>
    requires { AllByRecursion (λ a. a.len ≤ 32) addresses.now }
    ensures { OnOk result (out.new.items ≡ out.old.items ++ connected_at prefix (find (is_connected prefix) addresses.now)) }
{
    match connected(prefix, addresses) {
        Some(a) => add(
            out,
            alloc,
            prefix,
            FibSource::Interface,
            PathKind::Attached(a.interface),
        ),
        None => Ok(()),
    }
}

/// The pair that one of the addresses gives a host.
fn add_host(
    out: &mut Vec<Pair>,
    alloc: Global,
    prefix: Prefix,
    addresses: &[Address],
) -> Result<(), AllocError>
    requires { AllByRecursion (λ a. a.len ≤ 32) addresses.now }
    ensures { OnOk result (out.new.items ≡ out.old.items
        ++ host_at prefix (is_address addresses.now prefix.bits) (list_any (is_edge prefix.bits) addresses.now)) }
{
    if is_address(prefix.bits(), addresses) {
        return add(out, alloc, prefix, FibSource::Interface, PathKind::Local);
    }
    if has_edge(prefix.bits(), addresses) {
        return add(out, alloc, prefix, FibSource::Interface, PathKind::Drop);
    }
    Ok(())
}

#[tactic(auto, unfolding(crate::specs::inner::Parts::own_at))]
fn add_own(
    out: &mut Vec<Pair>,
    alloc: Global,
    prefix: Prefix,
    addresses: &[Address],
) -> Result<(), AllocError>
    requires { AllByRecursion (λ a. a.len ≤ 32) addresses.now }
    ensures { OnOk result (out.new.items ≡ out.old.items ++ own_at prefix addresses.now) }
{
    if prefix.len() < 32 {
        return add_connected(out, alloc, prefix, addresses);
    }
    add_host(out, alloc, prefix, addresses)
}

fn add_written(
    out: &mut Vec<Pair>,
    alloc: Global,
    prefix: Prefix,
    source: FibSource,
    paths: &[Path],
) -> Result<(), AllocError>
    ensures { OnOk result (out.new.items ≡ out.old.items ++ written_at prefix source paths.now) }
{
    if paths.is_empty() {
        return Ok(());
    }
    let paths = List::from_vec(paths.to_vec(alloc)?);
    out.push(Pair {
        prefix,
        source,
        paths,
    })?;
    Ok(())
}

fn add_default(out: &mut Vec<Pair>, alloc: Global, prefix: Prefix) -> Result<(), AllocError>
    ensures { OnOk result (out.new.items ≡ out.old.items ++ default_at prefix) }
{
    if prefix.len() == 0 {
        add(out, alloc, prefix, FibSource::DefaultRoute, PathKind::Drop)?;
    }
    Ok(())
}

/// All of them by look-ups, in the order of sources.
#[tactic(auto, unfolding(crate::specs::inner::Parts::base_at))]
fn looked_up(alloc: Global, config: &Config, prefix: Prefix) -> Result<Vec<Pair>, AllocError>
    ensures { IfOk result (λ v. v.items ≡ base_at config.now.tables prefix) }
{
    // Read so that the proof knows that the tables are sound.
    let _tables = config.tables();
    let addresses = config.addresses_at(prefix)?;
    let mut out = Vec::new(alloc);
    add_special(&mut out, alloc, prefix)?;
    add_own(&mut out, alloc, prefix, addresses.as_slice())?;
    let api = config.paths_of(prefix, FibSource::Api);
    add_written(&mut out, alloc, prefix, FibSource::Api, api)?;
    let cli = config.paths_of(prefix, FibSource::Cli);
    add_written(&mut out, alloc, prefix, FibSource::Cli, cli)?;
    add_default(&mut out, alloc, prefix)?;
    Ok(out)
}

/// The prefix's pairs that depend on no cover: of every table, of interfaces' addresses, and of its routes. Each source once, the best
/// first. It takes a few look-ups by key. An error means that memory ran out.
#[tactic(auto, using(crate::proofs::BaseParts::base_is))]
pub fn base_pairs(alloc: Global, config: &Config, prefix: Prefix) -> Result<Vec<Pair>, AllocError>
    ensures { IfOk result (λ v. ArePairsAt (base_pairs config.now.tables) prefix v.items) }
{
    // Read so that the proof knows that the tables are sound and how long a prefix is.
    let _tables = config.tables();
    let _len = prefix.len();
    looked_up(alloc, config, prefix)
}

/// The paths of the first pair.
pub fn first_paths(pairs: &[Pair]) -> &[Path]
    ensures { result.now ≡ paths_in pairs.now }
{
    match pairs {
        [x, ..] => x.paths.as_slice(),
        [] => &[],
    }
}

/// The interface to which the prefix's best base pair attaches the addresses that it covers, if it does. An error means that memory ran
/// out.
#[tactic(auto, using(crate::proofs::Hosted::attached_first))]
pub fn attached_at(
    alloc: Global,
    config: &Config,
    prefix: Prefix,
) -> Result<Option<u32>, AllocError>
    ensures { IfOk result (λ o. o ≡ attached_at config.now.tables prefix) }
{
    // Read so that the proof knows that the tables are sound.
    let _tables = config.tables();
    let pairs = base_pairs(alloc, config, prefix)?;
    Ok(attached_of(first_paths(pairs.as_slice())))
}
