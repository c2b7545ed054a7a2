// The paths of a route.
ghost use Rattle.std.specs.Prelude.{◌≡◌, IfOk};
ghost use Rattle.fib_addr.specs.Texts.{Reads};
ghost use Rattle.std.specs.List.{AllByRecursion};
ghost use Rattle.fib_resolve.specs.Reachable.{IsWrittenPath};
ghost use Rattle.fib_commands.specs.Names.{Gives};
ghost use Rattle.fib_commands.specs.Paths.{IsWeighted, is_path_word, hop_of, via_of, attached_of, addressed_of, led_by, target_of};
ghost use Rattle.fib_commands.specs.Paths.{is_recursive, written_of, path_of, paths_of};

use crate::LineError;
use crate::names::{keyword, name, word};
use crate::options::{Options, all_options};
use fib_addr::{Addr, BadText, addr_in};
use fib_base_lines::Words;
use fib_resolve::{List, Need, PathSpec, SpecKind, starts_with_letter};
use std::alloc::Global;

/// Whether the next word goes on with the path, or begins another.
#[tactic(auto, unfolding(crate::specs::Paths::is_path_word))]
fn is_path_word(words: &Words<'_>) -> bool
    ensures { result ≡ is_path_word words.now }
{
    words.next_is("via")
        || words.next_is("weight")
        || words.next_is("preference")
        || words.next_is("resolve-via-host")
        || words.next_is("resolve-via-attached")
}

#[tactic(auto, unfolding(crate::specs::Paths::hop_of))]
fn hop<'a>(alloc: Global, addr: Addr, words: &Words<'a>) -> Result<(SpecKind, Words<'a>), LineError>
    ensures { Gives (λ x. (x.0, x.1)) result (hop_of addr words.now) }
{
    let (text, rest) = word(words)?;
    let name = name(alloc, text)?;
    Ok((SpecKind::Hop(addr, name), rest))
}

/// A path by an address: a name may stand behind it.
#[tactic(auto, unfolding(crate::specs::Paths::via_of))]
fn via<'a>(alloc: Global, addr: Addr, words: Words<'a>) -> Result<(SpecKind, Words<'a>), LineError>
    ensures { Gives (λ x. (x.0, x.1)) result (via_of addr words.entry) }
{
    if !words.has_word() || is_path_word(&words) {
        Ok((SpecKind::Recursive(addr), words))
    } else {
        hop(alloc, addr, &words)
    }
}

#[tactic(auto, unfolding(crate::specs::Paths::attached_of))]
fn attached<'a>(
    alloc: Global,
    text: &[u8],
    words: Words<'a>,
) -> Result<(SpecKind, Words<'a>), LineError>
    ensures { Gives (λ x. (x.0, x.1)) result (attached_of text.now words.entry) }
{
    let name = name(alloc, text)?;
    Ok((SpecKind::Attached(name), words))
}

#[tactic(auto, unfolding(crate::specs::Paths::addressed_of))]
fn addressed<'a>(
    alloc: Global,
    text: &[u8],
    words: Words<'a>,
) -> Result<(SpecKind, Words<'a>), LineError>
    ensures { Gives (λ x. (x.0, x.1)) result (addressed_of text.now words.entry) }
{
    let addr = addr_in(text)?;
    via(alloc, addr, words)
}

#[tactic(auto, unfolding(crate::specs::Paths::led_by))]
fn led_by<'a>(
    alloc: Global,
    text: &[u8],
    words: Words<'a>,
) -> Result<(SpecKind, Words<'a>), LineError>
    ensures { Gives (λ x. (x.0, x.1)) result (led_by text.now words.entry) }
{
    if text == b"drop".as_slice() {
        Ok((SpecKind::Drop, words))
    } else if text == b"local".as_slice() {
        Ok((SpecKind::Local, words))
    } else if starts_with_letter(text) {
        attached(alloc, text, words)
    } else {
        addressed(alloc, text, words)
    }
}

/// Where a path leads.
#[tactic(auto, unfolding(crate::specs::Paths::target_of))]
fn target<'a>(alloc: Global, words: &Words<'a>) -> Result<(SpecKind, Words<'a>), LineError>
    ensures { Gives (λ x. (x.0, x.1)) result (target_of words.now) }
{
    let (first, rest) = word(words)?;
    led_by(alloc, first, rest)
}

fn is_recursive(kind: &SpecKind) -> bool
    ensures { result ≡ is_recursive kind.now }
{
    match kind {
        SpecKind::Recursive(_) => true,
        _ => false,
    }
}

/// A path with its options or their defaults.
#[tactic(auto, unfolding(crate::specs::Paths::written_of))]
fn written(kind: SpecKind, options: Options) -> Result<PathSpec, BadText>
    requires { IsWeighted options }
    ensures value { Reads (λ x. x) result (written_of kind options) }
    ensures written { IfOk result IsWrittenPath }
{
    if !is_recursive(&kind) && options.need.is_some() {
        return Err(BadText);
    }
    Ok(PathSpec {
        kind,
        weight: options.weight.unwrap_or(1),
        preference: options.preference.unwrap_or(0),
        need: options.need.unwrap_or(Need::Any),
    })
}

#[tactic(auto, unfolding(crate::specs::Paths::path_of))]
fn path<'a>(alloc: Global, words: &Words<'a>) -> Result<(PathSpec, Words<'a>), LineError>
    ensures value { Gives (λ x. (x.0, x.1)) result (path_of words.now) }
    ensures written { IfOk result (λ x. IsWrittenPath x.0) }
{
    let rest = keyword("via", words)?;
    let (kind, rest) = target(alloc, &rest)?;
    let (options, rest) = all_options(rest)?;
    let path = written(kind, options)?;
    Ok((path, rest))
}

/// Paths up to the end of the line, which are no more than its words.
pub fn paths(alloc: Global, words: Words<'_>, most: usize) -> Result<List<PathSpec>, LineError>
    ensures value { Gives (λ x. x) result (paths_of most words.entry) }
    ensures written { IfOk result (AllByRecursion IsWrittenPath) }
{
    let mut list = List::new(alloc);
    let mut words = words;
    for _ in 0..most {
        if !words.has_word() {
            return Ok(list);
        }
        let (next, rest) = path(alloc, &words)?;
        list.push(next)?;
        words = rest;
    }
    if !words.has_word() {
        Ok(list)
    } else {
        Err(LineError::Syntax)
    }
}
