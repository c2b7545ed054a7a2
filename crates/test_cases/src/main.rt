//! Does one run after the other, each as `fib_tool` would; the words of a run are joined by colons.
//!
//! Its data are worked files and generated ones, and the text that it must print for them was made by a program that
//! shares nothing with this repository (`tests/tables.py` writes the generated ones).
//!
//! A run of the words `follow` and a file follows the file's edits with entries, and compares them with the plain
//! programs after each; a run of `drive` and a file drives a control over a plain board by them, a batch as one change,
//! with passes beneath some, and compares what it looks up and what the passes answer. Both print nothing, and end with 9
//! where something differs.
#![tactic(auto)]

mod changing;
mod compared;
mod dice;
mod driven;
mod followed;
mod passing;
mod watched;

use driven::drive_script;
use fib_commands::ScriptError;
use fib_outside::{FileShelf, FreeGate, StandardOut};
use fib_run::fib_main;
use followed::{Difference, follow_script};
use std::alloc::{AllocError, Global};
use std::io::Print;
use std::process::ExitCode;
use std::rt::{Env, Files};
use std::sync::Wait;
use std::thread::Threads;
use std::{env, fs};

/// The status where memory or a file is wanted.
const MEMORY: u8 = 6;

/// The status where what a script's edits led to is another than the plain programs say.
const DIFFERENT: u8 = 9;

// The words after the program's name, or None where they cannot be had.
fn runs_of<R: Env + Alloc<A = Global>>(rt: &R) -> Option<Vec<String>> {
    let all = env::args(rt).ok()?;
    let mut runs = Vec::new(rt.alloc());
    for run in all.skip(1) {
        runs.push(run).ok()?;
    }
    Some(runs)
}

// The words of one run.
fn words_of(alloc: Global, run: &str) -> Result<Vec<String>, AllocError> {
    let mut words = Vec::new(alloc);
    for word in run.split(':') {
        words.push(String::from_str(alloc, word)?)?;
    }
    Ok(words)
}

// Prints where something differs.
fn tell<R: Print>(rt: &R, name: &str, found: Difference) -> u8 {
    match println!(rt; "{name} line {}: {:?}", found.line, found.part) {
        Ok(()) => DIFFERENT,
        Err(_) => MEMORY,
    }
}

/// What a file's edits are followed by.
#[derive(Clone, Copy)]
enum Follower {
    /// Entries, after each edit.
    Entries,
    /// A control over a plain board.
    Control,
}

// The first difference; None where there is none.
fn compare(
    alloc: Global,
    follower: Follower,
    bytes: &[u8],
) -> Result<Option<Difference>, ScriptError> {
    match follower {
        Follower::Entries => follow_script(alloc, bytes),
        Follower::Control => drive_script(alloc, bytes),
    }
}

// The status of a run that follows the edits of a file.
fn follow<R: Files + Print + Alloc<A = Global>>(rt: &R, follower: Follower, name: &str) -> u8 {
    let Ok(bytes) = fs::read(rt, name) else {
        return MEMORY;
    };
    match compare(rt.alloc(), follower, bytes.as_slice()) {
        Ok(None) => 0,
        Ok(Some(found)) => tell(rt, name, found),
        Err(_) => MEMORY,
    }
}

// The status of a run as `fib_tool` does it.
fn run<R: Files + Print + Threads + Wait + Sync + Alloc<A = Global>>(
    rt: &R,
    words: &[String],
) -> u8 {
    let mut shelf = FileShelf::new(rt);
    let mut out = StandardOut::new(rt);
    fib_main(rt, rt.alloc(), words, &mut shelf, &mut out, &FreeGate)
}

// The file whose edits a run follows, and by what, where it does.
fn followed_file(words: &[String]) -> Option<(Follower, &str)> {
    match words {
        [first, name] if first.as_str() == "follow" => Some((Follower::Entries, name.as_str())),
        [first, name] if first.as_str() == "drive" => Some((Follower::Control, name.as_str())),
        _ => None,
    }
}

// Does one run, and answers its status.
fn status_of<R: Files + Print + Threads + Wait + Sync + Alloc<A = Global>>(
    rt: &R,
    words: &[String],
) -> u8 {
    match followed_file(words) {
        Some((follower, name)) => follow(rt, follower, name),
        None => run(rt, words),
    }
}

fn main(rt: HostRuntime) -> ExitCode {
    let Some(runs) = runs_of(&rt) else {
        return ExitCode::from(MEMORY);
    };
    for run in &runs {
        let Ok(words) = words_of(rt.alloc(), run) else {
            return ExitCode::from(MEMORY);
        };
        let status = status_of(&rt, &words);
        if status != 0 {
            return ExitCode::from(status);
        }
    }
    ExitCode::from(0)
}
