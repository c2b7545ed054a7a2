// What the words ask for.
ghost use Rattle.std.specs.Prelude.{◌≡◌, Some, map, string_bytes, option_map, IfOk, IfSome};
ghost use Rattle.fib_core.specs.Ranges.{InRange};
ghost use Rattle.fib_run.specs.Jobs.{job_in};
ghost use Rattle.fib_frames.specs.Sends.{wanted};

use fib_run::Job;
use fib_words::{Source, read_words};
use std::alloc::{AllocError, Global};

/// What these words ask for; None exactly where they are not accepted: those that `fib_tool` refuses, and those that ask for a seed.
pub fn read_job<'a>(alloc: Global, words: &'a [String]) -> Result<Option<Job<'a>>, AllocError>
    ensures value { IfOk result (λ found. option_map job_in found ≡ wanted (map string_bytes words.entry.now)) }
    ensures ranges { IfOk result (λ found. IfSome found (λ job. InRange job.settings)) }
{
    let Some(asked) = read_words(alloc, words)? else {
        return Ok(None);
    };
    match asked.source {
        Source::Soak(_) => Ok(None),
        Source::Files { commands, capture } => Ok(Some(Job {
            settings: asked.settings,
            commands,
            capture,
        })),
    }
}
