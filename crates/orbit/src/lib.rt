//! Orbit records: the samples of a file.
#![tactic(auto)]

pub mod items;
pub mod orbit;
mod rules;
mod types;
