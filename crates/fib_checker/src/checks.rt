// Lines that check a source.
ghost use Rattle.std.specs.Prelude.{◌≡◌, ◌++◌, ◌<◌, OnOk, IfSome};
ghost use Rattle.fib_addr.specs.Texts.{Reads};
ghost use Rattle.fib_commands.specs.Names.{Gives};
ghost use Rattle.fib_resolve.specs.Tables.{interface_named};
ghost use Rattle.fib_checker.specs.Checks.{check_in, check_of, verdict, verdicts};

use fib_addr::{Addr, addr_in};
use fib_base_lines::Words;
use fib_commands::LineError;
use fib_commands::names::{finished, keyword, name, word};
use fib_print::put_text;
use fib_resolve::{Name, Tables};
use std::alloc::{AllocError, Global};

/// What a check asks: the address of a source, and the interface over which it came.
#[derive(Drop)]
pub struct Check {
    pub source: Addr,
    pub interface: Name,
}

// What the words of a line check.
#[tactic(auto, unfolding(crate::specs::Checks::check_in))]
fn read_words(alloc: Global, words: &Words<'_>) -> Result<Check, LineError>
    ensures { Gives (λ c. (c.source, c.interface)) result (check_in words.now) }
{
    let rest = keyword("check", words)?;
    let (source, rest) = word(&rest)?;
    let (interface, rest) = word(&rest)?;
    finished(&rest)?;
    let source = addr_in(source)?;
    let interface = name(alloc, interface)?;
    Ok(Check { source, interface })
}

/// What a line `check ADDRESS NAME` checks. Syntax exactly where the line is none.
pub fn read_check(alloc: Global, line: &[u8]) -> Result<Check, LineError>
    ensures { Gives (λ c. (c.source, c.interface)) result (check_of line.now) }
{
    read_words(alloc, &Words::new(line))
}

/// The number of the interface with that name.
pub fn interface_number(tables: &Tables, name: &Name) -> Option<usize>
    ensures { result ≡ interface_named tables.now name.now }
{
    tables
        .interfaces
        .as_slice()
        .iter()
        .position(|i| i.name.is(name))
}

fn verdict(passes: bool) -> &'static str
    ensures { result.now ≡ verdict passes }
{
    if passes { "pass" } else { "fail" }
}

/// Appends what both checks say.
#[tactic(auto, unfolding(crate::specs::Checks::verdicts))]
pub fn put_verdicts(out: &mut Vec<u8>, strictly: bool, loosely: bool) -> Result<(), AllocError>
    ensures { OnOk result (out.new.items ≡ out.old.items ++ verdicts strictly loosely) }
{
    put_text(out, "strict ")?;
    put_text(out, verdict(strictly))?;
    put_text(out, " loose ")?;
    put_text(out, verdict(loosely))?;
    put_text(out, "\n")
}
