//! What a run reads, writes and tells: files, a stream of output, and a gate.
//!
//! The traits say what a run may count on and nothing else. The forms in memory fail exactly where they are told to, the honest
//! ones never, and the adapters at the end stand for the real files and the real output, of whose content nothing is told.
#![tactic(auto)]

mod faults;
mod files;
mod gate;
mod hold;
mod honest;
mod kept;
mod meet;
mod part;
mod real;
mod shelf;
mod sink;
mod waiting;

pub use gate::{FreeGate, Gate};
pub use hold::HoldGate;
pub use honest::{HonestShelf, HonestSink};
pub use kept::{KeptGate, Told};
pub use meet::MeetGate;
pub use part::{Failed, Part};
pub use real::{FileShelf, StandardError, StandardOut};
pub use shelf::{MemoryShelf, Shelf};
pub use sink::{MemorySink, Sink};
