//! The command-line program of traced packets: it runs a command file's changes, forwards a capture's packets over the live cells beside those behind
//! the line `trace`, and prints each packet with every load of its pass.
//!
//! `fib_tracer [--objects N] COMMANDS CAPTURE`
//!
//! Its exit status is that of [`trace_main`]; words that the system cannot give count as a faulty command line.
#![tactic(auto)]

mod beside;
mod lines;
mod log;
mod passes;
mod put;
mod reading;
mod run;
#[cfg(test)]
mod tests;
mod top;
mod words;

use crate::top::trace_main;
use fib_outside::{FileShelf, FreeGate, StandardOut};
use fib_run::given_words;
use std::process::ExitCode;

fn main(rt: HostRuntime) -> ExitCode {
    let words = match given_words(&rt) {
        Ok(words) => words,
        Err(status) => return ExitCode::from(status),
    };
    let mut shelf = FileShelf::new(&rt);
    let mut out = StandardOut::new(&rt);
    ExitCode::from(trace_main(&rt, rt.alloc(), &words, &mut shelf, &mut out, &FreeGate))
}
