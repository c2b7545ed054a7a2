//! The command line of `fib_tool`.
//!
//! `fib_tool [--workers N] [--objects N] [--walk N] COMMANDS [CAPTURE]`
//!
//! `fib_tool [--workers N] [--objects N] [--walk N] --soak SEED`
//!
//! | option | range | where it is left out |
//! |---|---|---|
//! | `--workers` | 1 to 8 | 4 |
//! | `--objects` | 64 to 131,072, even | 16,384 |
//! | `--walk` | 0 to 65,535 | 64 |
//! | `--soak` | 0 to 4,294,967,295 | no seed |
//!
//! The words are accepted exactly where one clap command of these four options, each with one value, and two optional names takes
//! them, each value is a number in its range, and either COMMANDS is there without `--soak` or `--soak` is there without names. A
//! number has 1 to 10 decimal digits and nothing else. There is no flag for help or version.
#![tactic(auto)]

mod command;
pub mod laws;
pub mod parts;
mod types;
mod values;
mod words;

pub use types::{Asked, Source};
pub use words::read_words;
