//! The calls of the crates of tables and of text and bytes, each made once with ample memory.
//!
//! A file a crate. These tests stand apart from what they call, since a crate's own tests have it proved a second time.
#![tactic(auto)]

#[cfg(test)]
mod capture;
#[cfg(test)]
mod commands;
#[cfg(test)]
mod effective;
#[cfg(test)]
mod expect;
#[cfg(test)]
mod paths;
#[cfg(test)]
mod print;
#[cfg(test)]
mod resolve;
#[cfg(test)]
mod results;
#[cfg(test)]
mod soak;
#[cfg(test)]
mod words;
