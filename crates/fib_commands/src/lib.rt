//! The lines of a command file: what each of them says.
//!
//! A line is read by its words. `specs/Lines.antt` has a rule for each form of a line, `specs/Paths.antt` those of paths and
//! `specs/Names.antt` those of words; `specs/Canonical.antt` the text that is printed for an edit and read back.
#![tactic(auto)]

pub mod laws;
mod lines;
pub mod names;
mod options;
mod paths;
mod read;
mod routes;
mod script;
mod types;

pub use read::read_line;
pub use script::{MOST_LINES, Script, ScriptError};
pub use types::{Line, LineError};
