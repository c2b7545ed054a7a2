//! The reverse path checker: it runs a command file of changes, and of checks whether a packet of a source may come over an interface.
//!
//! `fib_checker COMMANDS`
//!
//! Beside changes a line may be `check ADDRESS NAME`. It prints `strict pass loose pass`, each `pass` or `fail`: strictly, the packet may come over
//! this interface; loosely, over any. `specs/Output.antt` says what a file prints. The exit status is that of [`check_main`]; words that the system
//! cannot give count as a faulty command line.
#![tactic(auto)]

mod checker;
mod checks;
mod run;
#[cfg(test)]
mod tests;
mod top;
mod words;

use crate::top::check_main;
use fib_outside::{FileShelf, StandardOut};
use fib_run::given_words;
use std::process::ExitCode;

fn main(rt: HostRuntime) -> ExitCode {
    let words = match given_words(&rt) {
        Ok(words) => words,
        Err(status) => return ExitCode::from(status),
    };
    let mut shelf = FileShelf::new(&rt);
    let mut out = StandardOut::new(&rt);
    ExitCode::from(check_main(rt.alloc(), &words, &mut shelf, &mut out))
}
