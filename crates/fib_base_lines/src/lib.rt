//! The lines of a command file and the words of a line.
//!
//! A file is cut at each line feed, and a line at its spaces and tabs. Nothing here takes memory: a line is a part of the file,
//! a word a part of its line, and both are bytes of any kind.
#![tactic(auto)]

mod lines;
mod words;

pub use lines::{count_lines, cut_line, is_plain};
pub use words::{Words, is_idle};
