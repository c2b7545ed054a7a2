// Words to what they ask for.
ghost use Rattle.std.specs.Prelude.{◌≡◌, map, string_bytes, IfOk, IfSome, option_map, is_some};
ghost use Rattle.fib_words.specs.Words.{asked, asked_in, accepts};
ghost use Rattle.fib_core.specs.Ranges.{InRange};

use crate::Asked;
use crate::command::fib_command;
use crate::parts::matches_in;
use crate::values::asked;
use std::alloc::{AllocError, Global};

/// What these words ask for, which are the command line without the program's name; None exactly where they are not accepted.
///
/// The settings lie in their ranges, and an option that is not there has its default: 4 workers, 16,384 objects, a walk of 64. The
/// only error is want of memory.
pub fn read_words<'a>(alloc: Global, words: &'a [String]) -> Result<Option<Asked<'a>>, AllocError>
    ensures value { IfOk result (λ found. option_map asked_in found ≡ asked (map string_bytes words.entry.now)) }
    ensures accepted { IfOk result (λ found. is_some found ≡ accepts (map string_bytes words.entry.now)) }
    ensures ranges { IfOk result (λ found. IfSome found (λ a. InRange a.settings)) }
{
    let Some(matches) = matches_in(fib_command(alloc)?, words)? else {
        return Ok(None);
    };
    Ok(asked(&matches).ok())
}
