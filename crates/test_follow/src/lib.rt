//! Tests of the calls of the crates `fib_follow_*`, over rows that are made anew of small tables.
#![tactic(auto)]

#[cfg(test)]
mod features;
#[cfg(test)]
mod held;
#[cfg(test)]
mod looked;
#[cfg(test)]
mod sized;
#[cfg(test)]
mod steps;
#[cfg(test)]
mod telling;
#[cfg(test)]
mod writing;
