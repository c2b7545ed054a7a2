// The options of a path.
ghost use Rattle.std.specs.Prelude.{◌≡◌, ◌≤◌, IfOk};
ghost use Rattle.fib_addr.specs.Texts.{Reads};
ghost use Rattle.fib_commands.specs.Paths.{IsWeighted, no_options, value_of, with_weight, with_preference, with_need, option_of, options_of};

use crate::names::{keyword, word};
use fib_addr::{BadText, number_in};
use fib_base_lines::Words;
use fib_resolve::Need;

/// The options that were given of a path.
#[derive(Clone, Copy, Debug, PartialEq, Eq)]
pub struct Options {
    pub weight: Option<u8>,
    pub preference: Option<u8>,
    pub need: Option<Need>,
}

const NO_OPTIONS: Options = Options {
    weight: None,
    preference: None,
    need: None,
};

/// A word and its number.
#[tactic(auto, unfolding(crate::specs::Paths::value_of))]
fn value<'a>(text: &str, least: u8, words: &Words<'a>) -> Result<(u8, Words<'a>), BadText>
    ensures value { Reads (λ x. (x.0, x.1)) result (value_of text.now least words.now) }
    ensures bound { IfOk result (λ x. least ≤ x.0) }
{
    let rest = keyword(text, words)?;
    let (number, rest) = word(&rest)?;
    let value = number_in(number, 255)?;
    if value < u32::from(least) {
        return Err(BadText);
    }
    Ok((value as u8, rest))
}

#[tactic(auto, unfolding(crate::specs::Paths::with_weight))]
fn with_weight<'a>(given: Options, words: &Words<'a>) -> Result<(Options, Words<'a>), BadText>
    ensures value { Reads (λ x. (x.0, x.1)) result (with_weight given words.now) }
    ensures weighted { IfOk result (λ x. IsWeighted x.0) }
{
    let (weight, rest) = value("weight", 1, words)?;
    let given = Options {
        weight: Some(weight),
        ..given
    };
    Ok((given, rest))
}

#[tactic(auto, unfolding(crate::specs::Paths::with_preference))]
fn with_preference<'a>(given: Options, words: &Words<'a>) -> Result<(Options, Words<'a>), BadText>
    requires { IsWeighted given }
    ensures value { Reads (λ x. (x.0, x.1)) result (with_preference given words.now) }
    ensures weighted { IfOk result (λ x. IsWeighted x.0) }
{
    let (preference, rest) = value("preference", 0, words)?;
    let given = Options {
        preference: Some(preference),
        ..given
    };
    Ok((given, rest))
}

#[tactic(auto, unfolding(crate::specs::Paths::with_need))]
fn with_need<'a>(
    text: &str,
    need: Need,
    given: Options,
    words: &Words<'a>,
) -> Result<(Options, Words<'a>), BadText>
    requires { IsWeighted given }
    ensures value { Reads (λ x. (x.0, x.1)) result (with_need text.now need given words.now) }
    ensures weighted { IfOk result (λ x. IsWeighted x.0) }
{
    let rest = keyword(text, words)?;
    let given = Options {
        need: Some(need),
        ..given
    };
    Ok((given, rest))
}

/// One more option, where one stands there that is not given yet.
#[tactic(auto, unfolding(crate::specs::Paths::option_of))]
fn option<'a>(given: Options, words: Words<'a>) -> Result<(Options, Words<'a>), BadText>
    requires { IsWeighted given }
    ensures value { Reads (λ x. (x.0, x.1)) result (option_of given words.entry) }
    ensures weighted { IfOk result (λ x. IsWeighted x.0) }
{
    if words.next_is("weight") && given.weight.is_none() {
        return with_weight(given, &words);
    }
    if words.next_is("preference") && given.preference.is_none() {
        return with_preference(given, &words);
    }
    if words.next_is("resolve-via-host") && given.need.is_none() {
        return with_need("resolve-via-host", Need::Host, given, &words);
    }
    if words.next_is("resolve-via-attached") && given.need.is_none() {
        return with_need("resolve-via-attached", Need::Attached, given, &words);
    }
    Ok((given, words))
}

/// Each option at most once, in any order.
#[tactic(auto, unfolding(crate::specs::Paths::options_of))]
pub fn all_options<'a>(words: Words<'a>) -> Result<(Options, Words<'a>), BadText>
    ensures value { Reads (λ x. (x.0, x.1)) result (options_of words.entry) }
    ensures weighted { IfOk result (λ x. IsWeighted x.0) }
{
    let (given, rest) = option(NO_OPTIONS, words)?;
    let (given, rest) = option(given, rest)?;
    option(given, rest)
}
