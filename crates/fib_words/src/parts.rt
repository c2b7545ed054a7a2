//! The parts of which the command lines of the programs are put together.
ghost use Rattle.std.specs.Prelude.{◌≡◌, map, string_bytes, true, false, IfOk, IfSome, is_some, option_map};
ghost use Rattle.fib_addr.specs.Texts.{Reads};
ghost use Rattle.clap.specs.Faults.{is_simple_and_free};
ghost use Rattle.clap.specs.Simple.{is_simple};
ghost use Rattle.clap.specs.Words.{app_of, rule_of, found_of, first_of, rows_of, matches_of};
ghost use Rattle.fib_words.specs.Parts.{bare_command, is_taken_by, name_rule, number_or, objects_or, option_rule};

use clap::error::ErrorKind;
use clap::{Arg, ArgAction, ArgMatches, Command};
use fib_addr::{BadText, read_number};
use std::alloc::{AllocError, Global};

/// A command without arguments, with no flag for help or version: the words are those after the program's name.
pub fn bare_command<'a>(alloc: Global, name: &'a str) -> Command<'a>
    ensures { app_of result ≡ bare_command name.entry.now }
{
    Command::new(alloc, name)
        .no_binary_name(true)
        .disable_help_flag(true)
}

/// An option that takes one value.
pub fn option<'a>(alloc: Global, name: &'a str) -> Arg<'a>
    ensures rule { rule_of result ≡ option_rule name.entry.now }
    ensures local { result.global ≡ false }
{
    Arg::new(alloc, name).long(name).action(ArgAction::Set)
}

/// A name that stands by itself, and may be left out.
pub fn name<'a>(alloc: Global, name: &'a str) -> Arg<'a>
    ensures rule { rule_of result ≡ name_rule name.entry.now }
    ensures local { result.global ≡ false }
{
    Arg::new(alloc, name).action(ArgAction::Set)
}

/// The matches of the words; None exactly where the command, which is a simple one, does not take them. The only error is want of memory.
pub fn matches_in<'a>(
    command: Command<'a>,
    words: &'a [String],
) -> Result<Option<ArgMatches<'a>>, AllocError>
    requires simple { is_simple (app_of command) ≡ true }
    requires free { is_simple_and_free (app_of command) ≡ true }
    ensures taken { IfOk result (λ found. is_some found ≡ is_taken_by (app_of command.entry) (map string_bytes words.entry.now)) }
    ensures matches { IfOk result (λ found. IfSome found (λ m.
        rows_of (found_of m) ≡ matches_of (app_of command.entry) (map string_bytes words.entry.now))) }
{
    match command.try_get_matches_from(words) {
        Ok(matches) => Ok(Some(matches)),
        Err(error) => match error.kind() {
            ErrorKind::OutOfMemory => Err(AllocError),
            _ => Ok(None),
        },
    }
}

/// The value of this option or name.
pub fn given<'a>(matches: &ArgMatches<'a>, id: &str) -> Option<&'a str>
    ensures { option_map (λ s. s.now) result ≡ first_of id.now (rows_of (found_of matches.now)) }
{
    matches.get_str(id)
}

/// The number of an option, from `least` to `most`; `default` where the option is not there. `BadText` exactly where the text is no such number.
#[tactic(auto, unfolding(crate::specs::Parts::number_or))]
pub fn number_or(default: u32, least: u32, most: u32, text: Option<&str>) -> Result<u32, BadText>
    ensures { Reads (λ n. n) result (number_or default least most (option_map (λ s. s.now) text.entry)) }
{
    let Some(text) = text else {
        return Ok(default);
    };
    let number = read_number(text, most)?;
    if number < least {
        return Err(BadText);
    }
    Ok(number)
}

/// The number of objects: even, from 64 to 131,072, and 16,384 where the option is not there.
#[tactic(auto, unfolding(crate::specs::Parts::objects_or))]
pub fn objects_or(text: Option<&str>) -> Result<u32, BadText>
    ensures { Reads (λ n. n) result (objects_or (option_map (λ s. s.now) text.entry)) }
{
    let number = number_or(16_384, 64, 131_072, text)?;
    if number % 2 == 0 {
        Ok(number)
    } else {
        Err(BadText)
    }
}
