// The forms of a line that write no route.
ghost use Rattle.std.specs.Prelude.{◌≡◌, ◌≤◌, IfOk};
ghost use Rattle.fib_addr.specs.Texts.{Reads};
ghost use Rattle.fib_commands.specs.Names.{Gives};
ghost use Rattle.fib_commands.specs.Lines.{IsWrittenLine, create_of, flag_of, state_of, own_address_of, address_words, add_address_of};
ghost use Rattle.fib_commands.specs.Lines.{del_address_of, neighbor_words, set_neighbor_of, last_mac_of, del_neighbor_of, lookup_of};
ghost use Rattle.fib_commands.specs.Lines.{show_fib_of, show_lists_of, show_adj_of, forward_of, begin_of, commit_of};

use crate::names::{finished, keyword, name, word};
use crate::{Line, LineError};
use fib_addr::{Addr, BadText, addr_in, mac_in, number_in, prefix_in};
use fib_base_lines::Words;
use fib_resolve::{Edit, Name};
use std::alloc::Global;

#[tactic(auto, unfolding(crate::specs::Lines::create_of))]
pub fn create(alloc: Global, words: &Words<'_>) -> Result<Line, LineError>
    ensures value { Gives (λ x. x) result (create_of words.now) }
    ensures written { IfOk result IsWrittenLine }
{
    let rest = keyword("create", words)?;
    let rest = keyword("interface", &rest)?;
    let (text, rest) = word(&rest)?;
    finished(&rest)?;
    let name = name(alloc, text)?;
    Ok(Line::Change(Edit::CreateInterface(name)))
}

#[tactic(auto, unfolding(crate::specs::Lines::flag_of))]
fn flag(text: &[u8]) -> Result<bool, BadText>
    ensures { Reads (λ x. x) result (flag_of text.now) }
{
    if text == b"up".as_slice() {
        Ok(true)
    } else if text == b"down".as_slice() {
        Ok(false)
    } else {
        Err(BadText)
    }
}

#[tactic(auto, unfolding(crate::specs::Lines::state_of))]
pub fn set_state(alloc: Global, words: &Words<'_>) -> Result<Line, LineError>
    ensures value { Gives (λ x. x) result (state_of words.now) }
    ensures written { IfOk result IsWrittenLine }
{
    let rest = keyword("set", words)?;
    let rest = keyword("interface", &rest)?;
    let rest = keyword("state", &rest)?;
    let (text, rest) = word(&rest)?;
    let (state, rest) = word(&rest)?;
    finished(&rest)?;
    let name = name(alloc, text)?;
    let up = flag(state)?;
    Ok(Line::Change(Edit::SetState { name, up }))
}

/// NAME PREFIX, the address as written.
#[tactic(auto, unfolding(crate::specs::Lines::own_address_of))]
fn own_address(alloc: Global, words: &Words<'_>) -> Result<(Name, (Addr, u8)), LineError>
    ensures value { Gives (λ x. (x.0, (x.1.0, x.1.1))) result (own_address_of words.now) }
    ensures short { IfOk result (λ x. x.1.1 ≤ 32) }
{
    let (text, rest) = word(words)?;
    let (prefix, rest) = word(&rest)?;
    finished(&rest)?;
    let name = name(alloc, text)?;
    let address = prefix_in(prefix)?;
    Ok((name, address))
}

#[tactic(auto, unfolding(crate::specs::Lines::address_words))]
fn address_words<'a>(words: &Words<'a>) -> Result<Words<'a>, BadText>
    ensures { Reads (λ x. x) result (address_words words.now) }
{
    let rest = keyword("set", words)?;
    let rest = keyword("interface", &rest)?;
    let rest = keyword("ip", &rest)?;
    keyword("address", &rest)
}

#[tactic(auto, unfolding(crate::specs::Lines::add_address_of))]
pub fn add_address(alloc: Global, words: &Words<'_>) -> Result<Line, LineError>
    ensures value { Gives (λ x. x) result (add_address_of words.now) }
    ensures written { IfOk result IsWrittenLine }
{
    let rest = address_words(words)?;
    let (name, (addr, len)) = own_address(alloc, &rest)?;
    Ok(Line::Change(Edit::AddAddress { name, addr, len }))
}

#[tactic(auto, unfolding(crate::specs::Lines::del_address_of))]
pub fn del_address(alloc: Global, words: &Words<'_>) -> Result<Line, LineError>
    ensures value { Gives (λ x. x) result (del_address_of words.now) }
    ensures written { IfOk result IsWrittenLine }
{
    let rest = address_words(words)?;
    let rest = keyword("del", &rest)?;
    let (name, (addr, len)) = own_address(alloc, &rest)?;
    Ok(Line::Change(Edit::DelAddress { name, addr, len }))
}

#[tactic(auto, unfolding(crate::specs::Lines::neighbor_words))]
fn neighbor_words<'a>(words: &Words<'a>) -> Result<Words<'a>, BadText>
    ensures { Reads (λ x. x) result (neighbor_words words.now) }
{
    let rest = keyword("set", words)?;
    let rest = keyword("ip", &rest)?;
    keyword("neighbor", &rest)
}

#[tactic(auto, unfolding(crate::specs::Lines::set_neighbor_of))]
pub fn set_neighbor(alloc: Global, words: &Words<'_>) -> Result<Line, LineError>
    ensures value { Gives (λ x. x) result (set_neighbor_of words.now) }
    ensures written { IfOk result IsWrittenLine }
{
    let rest = neighbor_words(words)?;
    let (text, rest) = word(&rest)?;
    let (addr, rest) = word(&rest)?;
    let (mac, rest) = word(&rest)?;
    finished(&rest)?;
    let name = name(alloc, text)?;
    let addr = addr_in(addr)?;
    let mac = mac_in(mac)?;
    Ok(Line::Change(Edit::SetNeighbor { name, addr, mac }))
}

/// A MAC or nothing, up to the end of the line.
#[tactic(auto, unfolding(crate::specs::Lines::last_mac_of))]
fn last_mac(words: &Words<'_>) -> Result<(), BadText>
    ensures { Reads (λ x. x) result (last_mac_of words.now) }
{
    match words.split_first() {
        None => Ok(()),
        Some((mac, rest)) => {
            finished(&rest)?;
            // Read for its fault alone: a line that forgets a neighbor may name any MAC.
            let _mac = mac_in(mac)?;
            Ok(())
        }
    }
}

#[tactic(auto, unfolding(crate::specs::Lines::del_neighbor_of))]
pub fn del_neighbor(alloc: Global, words: &Words<'_>) -> Result<Line, LineError>
    ensures value { Gives (λ x. x) result (del_neighbor_of words.now) }
    ensures written { IfOk result IsWrittenLine }
{
    let rest = neighbor_words(words)?;
    let rest = keyword("del", &rest)?;
    let (text, rest) = word(&rest)?;
    let (addr, rest) = word(&rest)?;
    last_mac(&rest)?;
    let name = name(alloc, text)?;
    let addr = addr_in(addr)?;
    Ok(Line::Change(Edit::DelNeighbor { name, addr }))
}

#[tactic(auto, unfolding(crate::specs::Lines::lookup_of))]
pub fn lookup(words: &Words<'_>) -> Result<Line, LineError>
    ensures value { Gives (λ x. x) result (lookup_of words.now) }
    ensures written { IfOk result IsWrittenLine }
{
    let rest = keyword("lookup", words)?;
    let (addr, rest) = word(&rest)?;
    let (hash, rest) = word(&rest)?;
    finished(&rest)?;
    let addr = addr_in(addr)?;
    let hash = number_in(hash, u32::MAX)?;
    Ok(Line::Lookup(addr, hash))
}

#[tactic(auto, unfolding(crate::specs::Lines::show_fib_of))]
pub fn show_fib(words: &Words<'_>) -> Result<Line, LineError>
    ensures value { Gives (λ x. x) result (show_fib_of words.now) }
    ensures written { IfOk result IsWrittenLine }
{
    let rest = keyword("show", words)?;
    let rest = keyword("ip", &rest)?;
    let rest = keyword("fib", &rest)?;
    finished(&rest)?;
    Ok(Line::ShowFib)
}

#[tactic(auto, unfolding(crate::specs::Lines::show_lists_of))]
pub fn show_lists(words: &Words<'_>) -> Result<Line, LineError>
    ensures value { Gives (λ x. x) result (show_lists_of words.now) }
    ensures written { IfOk result IsWrittenLine }
{
    let rest = keyword("show", words)?;
    let rest = keyword("fib", &rest)?;
    let rest = keyword("path-lists", &rest)?;
    finished(&rest)?;
    Ok(Line::ShowPathLists)
}

#[tactic(auto, unfolding(crate::specs::Lines::show_adj_of))]
pub fn show_adj(words: &Words<'_>) -> Result<Line, LineError>
    ensures value { Gives (λ x. x) result (show_adj_of words.now) }
    ensures written { IfOk result IsWrittenLine }
{
    let rest = keyword("show", words)?;
    let rest = keyword("adj", &rest)?;
    finished(&rest)?;
    Ok(Line::ShowAdj)
}

#[tactic(auto, unfolding(crate::specs::Lines::forward_of))]
pub fn forward(words: &Words<'_>) -> Result<Line, LineError>
    ensures value { Gives (λ x. x) result (forward_of words.now) }
    ensures written { IfOk result IsWrittenLine }
{
    let rest = keyword("forward", words)?;
    let (count, rest) = word(&rest)?;
    finished(&rest)?;
    let count = number_in(count, u32::MAX)?;
    Ok(Line::Forward(count))
}

#[tactic(auto, unfolding(crate::specs::Lines::begin_of))]
pub fn begin(words: &Words<'_>) -> Result<Line, LineError>
    ensures value { Gives (λ x. x) result (begin_of words.now) }
    ensures written { IfOk result IsWrittenLine }
{
    let rest = keyword("begin", words)?;
    finished(&rest)?;
    Ok(Line::Begin)
}

#[tactic(auto, unfolding(crate::specs::Lines::commit_of))]
pub fn commit(words: &Words<'_>) -> Result<Line, LineError>
    ensures value { Gives (λ x. x) result (commit_of words.now) }
    ensures written { IfOk result IsWrittenLine }
{
    let rest = keyword("commit", words)?;
    finished(&rest)?;
    Ok(Line::Commit)
}
