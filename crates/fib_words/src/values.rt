// What the matches of the words say.
ghost use Rattle.fib_addr.specs.Texts.{Reads};
ghost use Rattle.clap.specs.Words.{found_of, rows_of};
ghost use Rattle.fib_words.specs.Words.{source_of, settings_of, asked_by, origin_in, asked_in};

use crate::parts::{given, number_or, objects_or};
use crate::{Asked, Source};
use clap::ArgMatches;
use fib_addr::{BadText, read_number};
use fib_core::Settings;

#[tactic(auto, unfolding(crate::specs::Words::settings_of))]
fn settings(matches: &ArgMatches<'_>) -> Result<Settings, BadText>
    ensures { Reads (λ s. s) result (settings_of (rows_of (found_of matches.now))) }
{
    let workers = number_or(4, 1, 8, given(matches, "workers"))?;
    let objects = objects_or(given(matches, "objects"))?;
    let walk = number_or(64, 0, 65_535, given(matches, "walk"))?;
    Ok(Settings {
        workers,
        objects,
        walk,
    })
}

/// A seed without names, or one or two names without a seed.
#[tactic(auto, unfolding(crate::specs::Words::source_of))]
fn source<'a>(matches: &ArgMatches<'a>) -> Result<Source<'a>, BadText>
    ensures { Reads origin_in result (source_of (rows_of (found_of matches.now))) }
{
    let seed = given(matches, "soak");
    let commands = given(matches, "commands");
    let capture = given(matches, "capture");
    match (seed, commands, capture) {
        (Some(seed), None, None) => Ok(Source::Soak(read_number(seed, u32::MAX)?)),
        (None, Some(commands), capture) => Ok(Source::Files { commands, capture }),
        _ => Err(BadText),
    }
}

/// What the words of these matches ask for.
#[tactic(auto, unfolding(crate::specs::Words::asked_by))]
pub fn asked<'a>(matches: &ArgMatches<'a>) -> Result<Asked<'a>, BadText>
    ensures { Reads asked_in result (asked_by (rows_of (found_of matches.now))) }
{
    let settings = settings(matches)?;
    let source = source(matches)?;
    Ok(Asked { settings, source })
}
