// A line, by its first word.
ghost use Rattle.std.specs.Prelude.{◌≡◌, IfOk};
ghost use Rattle.fib_commands.specs.Names.{Gives};
ghost use Rattle.fib_commands.specs.Lines.{IsWrittenLine, line_of, reading_of, forms, set_forms, route_forms, api_forms, show_forms};

use crate::lines::{
    add_address, begin, commit, create, del_address, del_neighbor, forward, lookup, set_neighbor,
    set_state, show_adj, show_fib, show_lists,
};
use crate::routes::{add_route, api_add, api_del, del_route};
use crate::{Line, LineError};
use fib_base_lines::{Words, is_idle, is_plain};
use std::alloc::Global;

/// `set` ..
#[tactic(auto, unfolding(crate::specs::Lines::reading_of))]
fn set(alloc: Global, words: &Words<'_>) -> Result<Line, LineError>
    ensures value { Gives (λ x. x) result (reading_of set_forms words.now) }
    ensures written { IfOk result IsWrittenLine }
{
    match set_state(alloc, words) {
        Err(LineError::Syntax) => {}
        read => return read,
    }
    match add_address(alloc, words) {
        Err(LineError::Syntax) => {}
        read => return read,
    }
    match del_address(alloc, words) {
        Err(LineError::Syntax) => {}
        read => return read,
    }
    match set_neighbor(alloc, words) {
        Err(LineError::Syntax) => {}
        read => return read,
    }
    del_neighbor(alloc, words)
}

/// `ip route` ..
#[tactic(auto, unfolding(crate::specs::Lines::reading_of))]
fn route(alloc: Global, words: &Words<'_>) -> Result<Line, LineError>
    ensures value { Gives (λ x. x) result (reading_of route_forms words.now) }
    ensures written { IfOk result IsWrittenLine }
{
    match add_route(alloc, false, words) {
        Err(LineError::Syntax) => del_route(alloc, false, words),
        read => read,
    }
}

/// `api ip route` ..
#[tactic(auto, unfolding(crate::specs::Lines::reading_of))]
fn api(alloc: Global, words: &Words<'_>) -> Result<Line, LineError>
    ensures value { Gives (λ x. x) result (reading_of api_forms words.now) }
    ensures written { IfOk result IsWrittenLine }
{
    match api_add(alloc, words) {
        Err(LineError::Syntax) => api_del(alloc, words),
        read => read,
    }
}

/// `show` ..
#[tactic(auto, unfolding(crate::specs::Lines::reading_of))]
fn show(words: &Words<'_>) -> Result<Line, LineError>
    ensures value { Gives (λ x. x) result (reading_of show_forms words.now) }
    ensures written { IfOk result IsWrittenLine }
{
    match show_fib(words) {
        Err(LineError::Syntax) => {}
        read => return read,
    }
    match show_lists(words) {
        Err(LineError::Syntax) => {}
        read => return read,
    }
    show_adj(words)
}

/// A line's words, by the first of them.
#[tactic(auto, using(crate::proofs::Dispatch::at_ip, crate::proofs::Dispatch::at_api, crate::proofs::Dispatch::at_lookup, crate::proofs::Dispatch::at_set, crate::proofs::Dispatch::at_show, crate::proofs::Dispatch::at_create, crate::proofs::Dispatch::at_forward, crate::proofs::Dispatch::at_begin, crate::proofs::Dispatch::at_commit, crate::proofs::Dispatch::at_other))]
fn command(alloc: Global, words: &Words<'_>) -> Result<Line, LineError>
    ensures value { Gives (λ x. x) result (reading_of forms words.now) }
    ensures written { IfOk result IsWrittenLine }
{
    if words.next_is("ip") {
        route(alloc, words)
    } else if words.next_is("api") {
        api(alloc, words)
    } else if words.next_is("lookup") {
        lookup(words)
    } else if words.next_is("set") {
        set(alloc, words)
    } else if words.next_is("show") {
        show(words)
    } else if words.next_is("create") {
        create(alloc, words)
    } else if words.next_is("forward") {
        forward(words)
    } else if words.next_is("begin") {
        begin(words)
    } else if words.next_is("commit") {
        commit(words)
    } else {
        Err(LineError::Syntax)
    }
}

/// What a line says, given without its line feed and the carriage return before that.
///
/// A line without a word, and one whose first word begins with `#`, says nothing. Syntax comes exactly where no form of the
/// grammar gives the line, Memory where there was none for a name or a list of paths.
#[tactic(auto, unfolding(crate::specs::Lines::line_of))]
pub fn read_line(alloc: Global, text: &[u8]) -> Result<Line, LineError>
    ensures value { Gives (λ x. x) result (line_of text.now) }
    ensures written { IfOk result IsWrittenLine }
{
    let words = Words::new(text);
    if is_idle(&words) {
        return Ok(Line::Nothing);
    }
    if !is_plain(text) {
        return Err(LineError::Syntax);
    }
    command(alloc, &words)
}
