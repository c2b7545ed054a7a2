//! IPv4 addresses, prefixes and hardware addresses, and their texts.
//!
//! Every reader answers `BadText` exactly where the text is outside its grammar or range, and what is printed is read back to
//! its value. No reader takes memory.
#![tactic(auto)]

pub mod laws;
mod mac;
mod net;
mod read;
mod write;

pub use mac::Mac;
pub use net::{Addr, Prefix, nibble};
pub use read::{
    BadText, addr_in, mac_in, number_in, prefix_in, read_addr, read_mac, read_number, read_prefix,
};
pub use write::{put_addr, put_mac, put_prefix};
