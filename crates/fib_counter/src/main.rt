//! The counter: how many packets of a capture leave by each adjacency, are received or dropped, counted by all workers at once and exact.
//!
//! `fib_counter [--workers N] [--objects N] COMMANDS CAPTURE`
//!
//! | option | range | where it is left out |
//! |---|---|---|
//! | `--workers` | 1 to 8 | 4 |
//! | `--objects` | 64 to 131,072, even | 16,384 |
//!
//! [`count_main`](top::count_main) is all of it; `specs/CountOutput.antt` says what it prints. Its exit status is that of the call; words that the
//! system cannot give count as a faulty command line.
#![tactic(auto)]

mod count;
mod counting;
mod lines;
mod posts;
mod run;
#[cfg(test)]
mod tests;
mod top;
mod totals;
mod words;

use crate::top::count_main;
use fib_outside::{FileShelf, FreeGate, StandardOut};
use fib_run::given_words;
use std::process::ExitCode;

fn main(rt: HostRuntime) -> ExitCode {
    let words = match given_words(&rt) {
        Ok(words) => words,
        Err(status) => return ExitCode::from(status),
    };
    let mut shelf = FileShelf::new(&rt);
    let mut out = StandardOut::new(&rt);
    ExitCode::from(count_main(&rt, rt.alloc(), &words, &mut shelf, &mut out, &FreeGate))
}
