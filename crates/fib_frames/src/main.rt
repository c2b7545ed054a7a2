//! A run whose packets leave: it runs a command file over a capture, and sends the frames in which the capture's packets leave the router.
//!
//! `fib_frames [--workers N] [--objects N] [--walk N] COMMANDS [CAPTURE] 2>LINES >FRAMES`
//!
//! What `fib_tool` prints goes to the standard error, and after it a line for each packet whose time to live is used up. A capture file of the frames goes
//! to the standard output. `specs/Frames.antt` says which frame a packet leaves in, and `specs/Sends.antt` what a run may send; [`frames_main`] does it all.
#![tactic(auto)]

mod expired;
mod frames;
mod laws;
mod run;
mod seen;
mod send;
#[cfg(test)]
mod tests;
mod top;
mod words;

use fib_outside::{FileShelf, FreeGate, StandardError, StandardOut};
use fib_run::given_words;
use std::process::ExitCode;
use top::frames_main;

fn main(rt: HostRuntime) -> ExitCode {
    let words = match given_words(&rt) {
        Ok(words) => words,
        Err(status) => return ExitCode::from(status),
    };
    let mut shelf = FileShelf::new(&rt);
    let mut text = StandardError::new(rt.stderr());
    let mut frames = StandardOut::new(&rt);
    ExitCode::from(frames_main(
        &rt,
        rt.alloc(),
        &words,
        &mut shelf,
        &mut text,
        &mut frames,
        &FreeGate,
    ))
}
