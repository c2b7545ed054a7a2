//! Words of a line, and names of interfaces.
ghost use Rattle.fib_addr.specs.Texts.{Reads};
ghost use Rattle.fib_commands.specs.Names.{Gives, word, keyword, finished, name_of};

use crate::LineError;
use fib_addr::BadText;
use fib_base_lines::Words;
use fib_resolve::{List, Name};
use std::alloc::Global;

/// The next word of a line, and the words after it. Errs where none is left.
pub fn word<'a>(words: &Words<'a>) -> Result<(&'a [u8], Words<'a>), BadText>
    ensures { Reads (λ x. (x.0.now, x.1)) result (word words.now) }
{
    match words.split_first() {
        Some(found) => Ok(found),
        None => Err(BadText),
    }
}

/// The words after this one. Errs where it isn't the next.
#[tactic(auto, unfolding(crate::specs::Names::keyword))]
pub fn keyword<'a>(text: &str, words: &Words<'a>) -> Result<Words<'a>, BadText>
    ensures { Reads (λ x. x) result (keyword text.now words.now) }
{
    let (next, rest) = word(words)?;
    if next == text.as_bytes() {
        Ok(rest)
    } else {
        Err(BadText)
    }
}

/// Nothing, where no word is left. Errs where one is.
pub fn finished(words: &Words<'_>) -> Result<(), BadText>
    ensures { Reads (λ x. x) result (finished words.now) }
{
    match words.split_first() {
        Some(_) => Err(BadText),
        None => Ok(()),
    }
}

/// The name of an interface that a word is. Syntax where it is none; Memory where there is none for it.
#[tactic(auto, unfolding(crate::specs::Names::name_of))]
pub fn name(alloc: Global, text: &[u8]) -> Result<Name, LineError>
    ensures { Gives (λ x. x) result (name_of text.now) }
{
    if !Name::is_name(text) {
        return Err(LineError::Syntax);
    }
    let text = text.to_vec(alloc)?;
    Ok(Name::from_text(List::from_vec(text)))
}
