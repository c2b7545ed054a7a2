//! The command-line program: it runs a command file, over a capture where one is named, and prints the answers.
//!
//! `fib_tool [--workers N] [--objects N] [--walk N] COMMANDS [CAPTURE]`
//!
//! `fib_tool [--workers N] [--objects N] [--walk N] --soak SEED`
//!
//! Its exit status is that of [`fib_main`]; words that the system cannot give count as a faulty command line.
#![tactic(auto)]

use fib_outside::{FileShelf, FreeGate, StandardOut};
use fib_run::{fib_main, given_words};
use std::process::ExitCode;

fn main(rt: HostRuntime) -> ExitCode {
    let words = match given_words(&rt) {
        Ok(words) => words,
        Err(status) => return ExitCode::from(status),
    };
    let mut shelf = FileShelf::new(&rt);
    let mut out = StandardOut::new(&rt);
    ExitCode::from(fib_main(&rt, rt.alloc(), &words, &mut shelf, &mut out, &FreeGate))
}
