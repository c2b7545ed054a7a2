//! A control plane at rest: once nothing is queued, deferred or retired, the cells stand for the tables.
//!
//! `specs/Rest.antt` says what is at rest. The laws here are what settling a version rests on, and beginning the first one.
#![tactic(auto)]

pub mod laws;
