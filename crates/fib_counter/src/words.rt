// The words of the command line.
ghost use Rattle.std.specs.Prelude.{◌≡◌, map, string_bytes, IfOk, IfSome, is_some, option_map};
ghost use Rattle.fib_addr.specs.Texts.{Reads};
ghost use Rattle.clap.specs.Words.{app_of, first_of, found_of, rows_of};
ghost use Rattle.fib_core.specs.Ranges.{InRange};
ghost use Rattle.fib_counter.specs.Words.{accepts, asked_by, asked_in, count_command, settings_of, wanted};

use clap::{ArgMatches, Command};
use fib_addr::BadText;
use fib_core::Settings;
use fib_words::parts::{bare_command, given, matches_in, name, number_or, objects_or, option};
use std::alloc::{AllocError, Global};

/// What the words ask for: the sizes of the run, and the names of its files as they were given.
#[derive(Clone, Copy, Debug, PartialEq, Eq)]
pub struct Asked<'a> {
    pub settings: Settings,
    pub commands: &'a str,
    pub capture: &'a str,
}

// The command: two options, each with one value, and two names.
fn count_command<'a>(alloc: Global) -> Result<Command<'a>, AllocError>
    ensures { IfOk result (λ c. app_of c ≡ count_command) }
{
    bare_command(alloc, "fib_counter")
        .arg(option(alloc, "workers"))?
        .arg(option(alloc, "objects"))?
        .arg(name(alloc, "commands"))?
        .arg(name(alloc, "capture"))
}

#[tactic(auto, unfolding(crate::specs::Words::settings_of))]
fn settings(matches: &ArgMatches<'_>) -> Result<Settings, BadText>
    ensures { Reads (λ s. s) result (settings_of (rows_of (found_of matches.now))) }
{
    let workers = number_or(4, 1, 8, given(matches, "workers"))?;
    let objects = objects_or(given(matches, "objects"))?;
    Ok(Settings {
        workers,
        objects,
        walk: 64,
    })
}

// A name that must be there.
fn needed<'a>(matches: &ArgMatches<'a>, id: &str) -> Result<&'a str, BadText>
    ensures { Reads (λ s. s.now) result (first_of id.now (rows_of (found_of matches.now))) }
{
    match given(matches, id) {
        Some(text) => Ok(text),
        None => Err(BadText),
    }
}

#[tactic(auto, unfolding(crate::specs::Words::asked_by))]
fn read_matches<'a>(matches: &ArgMatches<'a>) -> Result<Asked<'a>, BadText>
    ensures { Reads asked_in result (asked_by (rows_of (found_of matches.now))) }
{
    let settings = settings(matches)?;
    let commands = needed(matches, "commands")?;
    let capture = needed(matches, "capture")?;
    Ok(Asked {
        settings,
        commands,
        capture,
    })
}

/// What these words ask for, which are the command line without the program's name; None exactly where they are not accepted. The settings lie in
/// their ranges. The only error is want of memory.
pub fn read_words<'a>(alloc: Global, words: &'a [String]) -> Result<Option<Asked<'a>>, AllocError>
    ensures value { IfOk result (λ found. option_map asked_in found ≡ wanted (map string_bytes words.entry.now)) }
    ensures accepted { IfOk result (λ found. is_some found ≡ accepts (map string_bytes words.entry.now)) }
    ensures ranges { IfOk result (λ found. IfSome found (λ a. InRange a.settings)) }
{
    let Some(matches) = matches_in(count_command(alloc)?, words)? else {
        return Ok(None);
    };
    Ok(read_matches(&matches).ok())
}
