//! What is kept for reverse path checks, by its calls: turns in any mix with changes, against the definition taken round by round.
#![tactic(auto)]

mod plain;
mod rig;
#[cfg(test)]
mod tests;
