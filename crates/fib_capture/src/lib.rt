//! Capture files (libpcap's classic format), the packets in them, and the hash of a packet's flow.
//!
//! Any bytes are read safely: each refusal has its condition, and a file that ends inside a record gives the packets before it.
#![tactic(auto)]

mod capture;
mod flow;
pub mod laws;
mod packet;
mod read;
mod spans;

pub use capture::Capture;
pub use flow::flow_hash;
pub use packet::{CaptureError, Packet};
pub use spans::Spans;
