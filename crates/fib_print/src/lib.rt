//! The texts that the program prints, byte by byte.
//!
//! Every call appends to a vector, and leaves it as it was where memory is wanting. Printed numbers are written by `itoa`.
#![tactic(auto)]

mod ends;
mod lines;
mod packets;
mod paths;
mod text;

pub use ends::{name_at, put_end};
pub use lines::{BatchFault, put_batch, put_message, put_refusal};
pub use packets::{put_bad_header, put_cut, put_not_ipv4, put_packet};
pub use paths::put_path;
pub use text::{put_number, put_text};
