// The forms of a line that write a route.
ghost use Rattle.std.specs.Prelude.{◌≡◌, ◌<◌, ◌≤◌, length, IfOk, true};
ghost use Rattle.fib_addr.specs.Texts.{Reads};
ghost use Rattle.std.specs.List.{AllByRecursion};
ghost use Rattle.fib_resolve.specs.Reachable.{IsWrittenPath};
ghost use Rattle.fib_commands.specs.Names.{Gives};
ghost use Rattle.fib_commands.specs.Lines.{IsWrittenLine, route_of, some_path, some_route_of, add_route_of, del_route_of, api_add_of, api_del_of};

use crate::names::{keyword, word};
use crate::paths::paths;
use crate::{Line, LineError};
use fib_addr::{Addr, BadText, Prefix, prefix_in};
use fib_base_lines::Words;
use fib_resolve::{Edit, List, PathSpec};
use std::alloc::Global;

/// PREFIX [PATHS].
#[tactic(auto, unfolding(crate::specs::Lines::route_of))]
fn route(alloc: Global, words: &Words<'_>) -> Result<((Addr, u8), List<PathSpec>), LineError>
    ensures value { Gives (λ x. ((x.0.0, x.0.1), x.1)) result (route_of words.now) }
    ensures short { IfOk result (λ x. x.0.1 ≤ 32) }
    ensures written { IfOk result (λ x. AllByRecursion IsWrittenPath x.1) }
{
    let (prefix, rest) = word(words)?;
    let prefix = prefix_in(prefix)?;
    let most = rest.count();
    let paths = paths(alloc, rest, most)?;
    Ok((prefix, paths))
}

/// A list of at least one path.
#[tactic(auto, unfolding(crate::specs::Lines::some_path))]
fn some_path(paths: List<PathSpec>) -> Result<List<PathSpec>, BadText>
    requires { AllByRecursion IsWrittenPath paths }
    ensures value { Reads (λ x. x) result (some_path paths) }
    ensures written { IfOk result (λ x. 0 < length x × AllByRecursion IsWrittenPath x) }
{
    if paths.is_empty() {
        Err(BadText)
    } else {
        Ok(paths)
    }
}

/// PREFIX PATHS.
#[tactic(auto, unfolding(crate::specs::Lines::some_route_of))]
fn some_route(alloc: Global, words: &Words<'_>) -> Result<((Addr, u8), List<PathSpec>), LineError>
    ensures value { Gives (λ x. ((x.0.0, x.0.1), x.1)) result (some_route_of words.now) }
    ensures short { IfOk result (λ x. x.0.1 ≤ 32) }
    ensures written { IfOk result (λ x. 0 < length x.1 × AllByRecursion IsWrittenPath x.1) }
{
    let (prefix, paths) = route(alloc, words)?;
    let paths = some_path(paths)?;
    Ok((prefix, paths))
}

#[tactic(auto, unfolding(crate::specs::Lines::add_route_of))]
pub fn add_route(alloc: Global, api: bool, words: &Words<'_>) -> Result<Line, LineError>
    ensures value { Gives (λ x. x) result (add_route_of api words.now) }
    ensures written { IfOk result IsWrittenLine }
{
    let rest = keyword("ip", words)?;
    let rest = keyword("route", &rest)?;
    let rest = keyword("add", &rest)?;
    let ((addr, len), paths) = some_route(alloc, &rest)?;
    let prefix = Prefix::masked(addr, len);
    Ok(Line::Change(Edit::AddRoute { prefix, api, paths }))
}

#[tactic(auto, unfolding(crate::specs::Lines::del_route_of))]
pub fn del_route(alloc: Global, api: bool, words: &Words<'_>) -> Result<Line, LineError>
    ensures value { Gives (λ x. x) result (del_route_of api words.now) }
    ensures written { IfOk result IsWrittenLine }
{
    let rest = keyword("ip", words)?;
    let rest = keyword("route", &rest)?;
    let rest = keyword("del", &rest)?;
    let ((addr, len), paths) = route(alloc, &rest)?;
    let prefix = Prefix::masked(addr, len);
    Ok(Line::Change(Edit::DelRoute { prefix, api, paths }))
}

#[tactic(auto, unfolding(crate::specs::Lines::api_add_of))]
pub fn api_add(alloc: Global, words: &Words<'_>) -> Result<Line, LineError>
    ensures value { Gives (λ x. x) result (api_add_of words.now) }
    ensures written { IfOk result IsWrittenLine }
{
    let rest = keyword("api", words)?;
    add_route(alloc, true, &rest)
}

#[tactic(auto, unfolding(crate::specs::Lines::api_del_of))]
pub fn api_del(alloc: Global, words: &Words<'_>) -> Result<Line, LineError>
    ensures value { Gives (λ x. x) result (api_del_of words.now) }
    ensures written { IfOk result IsWrittenLine }
{
    let rest = keyword("api", words)?;
    del_route(alloc, true, &rest)
}
