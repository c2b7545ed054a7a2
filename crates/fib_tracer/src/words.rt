// The command line.
ghost use Rattle.std.specs.Prelude.{◌≡◌, map, string_bytes, IfOk, IfSome, option_map, is_some};
ghost use Rattle.fib_addr.specs.Texts.{Reads};
ghost use Rattle.clap.specs.Words.{app_of, found_of, rows_of};
ghost use Rattle.fib_core.specs.Ranges.{InRange};
ghost use Rattle.fib_tracer.specs.Words.{accepts, sized, trace_command, wanted, wanted_by, wanted_in};

use clap::{ArgMatches, Command};
use fib_addr::BadText;
use fib_words::parts::{bare_command, given, matches_in, name, objects_or, option};
use std::alloc::{AllocError, Global};

/// What the words ask for: so many objects, and the names of the two files.
#[derive(Clone, Copy, Debug, PartialEq, Eq)]
pub struct Wanted<'a> {
    pub objects: u32,
    pub commands: &'a str,
    pub capture: &'a str,
}

// The command: an option and two names.
fn trace_command<'a>(alloc: Global) -> Result<Command<'a>, AllocError>
    ensures { IfOk result (λ c. app_of c ≡ trace_command) }
{
    bare_command(alloc, "fib_tracer")
        .arg(option(alloc, "objects"))?
        .arg(name(alloc, "commands"))?
        .arg(name(alloc, "capture"))
}

// What the words of these matches ask for. Both names are needed.
#[tactic(auto, unfolding(crate::specs::Words::wanted_by))]
fn wanted_of<'a>(matches: &ArgMatches<'a>) -> Result<Wanted<'a>, BadText>
    ensures { Reads wanted_in result (wanted_by (rows_of (found_of matches.now))) }
{
    let objects = objects_or(given(matches, "objects"))?;
    let Some(commands) = given(matches, "commands") else {
        return Err(BadText);
    };
    let Some(capture) = given(matches, "capture") else {
        return Err(BadText);
    };
    Ok(Wanted {
        objects,
        commands,
        capture,
    })
}

/// What these words ask for, which are the command line without the program's name; None exactly where they are not accepted. The only error is
/// want of memory.
pub fn read_words<'a>(alloc: Global, words: &'a [String]) -> Result<Option<Wanted<'a>>, AllocError>
    ensures value { IfOk result (λ found. option_map wanted_in found ≡ wanted (map string_bytes words.entry.now)) }
    ensures accepted { IfOk result (λ found. is_some found ≡ accepts (map string_bytes words.entry.now)) }
    ensures ranges { IfOk result (λ found. IfSome found (λ w. InRange (sized w.objects))) }
{
    let Some(matches) = matches_in(trace_command(alloc)?, words)? else {
        return Ok(None);
    };
    Ok(wanted_of(&matches).ok())
}
