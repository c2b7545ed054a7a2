//! A round's packets are cut into frames of 256, which workers claim and forward over the shared cells.
//!
//! `specs/Packets.antt` and `specs/Frames.antt` say what packets and frames are, `specs/Results.antt` and `specs/Work.antt` what a worker makes of
//! them: each flow's result is that of a trail of its own, which is one of the worker's past.
#![tactic(auto)]

mod claims;
mod results;
mod span;

pub use claims::{Frame, Taken, Worked, work};
pub use results::Results;
pub use span::forward_span;
