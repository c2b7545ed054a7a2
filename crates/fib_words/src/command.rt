// The command that clap reads the words by.
ghost use Rattle.std.specs.Prelude.{◌≡◌, IfOk};
ghost use Rattle.clap.specs.Words.{app_of};
ghost use Rattle.fib_words.specs.Words.{fib_command};

use crate::parts::{bare_command, name, option};
use clap::Command;
use std::alloc::{AllocError, Global};

/// The command: four options, each with one value, and two names.
pub fn fib_command<'a>(alloc: Global) -> Result<Command<'a>, AllocError>
    ensures { IfOk result (λ c. app_of c ≡ fib_command) }
{
    bare_command(alloc, "fib_tool")
        .arg(option(alloc, "workers"))?
        .arg(option(alloc, "objects"))?
        .arg(option(alloc, "walk"))?
        .arg(option(alloc, "soak"))?
        .arg(name(alloc, "commands"))?
        .arg(name(alloc, "capture"))
}
