//! Reading a file.
#![tactic(auto)]

mod cells;
mod due;
mod group;
mod keys;
mod opening;
mod passing;
pub mod read;
pub mod report;
mod rows;
mod walk;
