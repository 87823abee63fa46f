//! What stands in a file before its records: its identifier, its label and the headers of its groups.
#![tactic(auto)]

mod calendar;
pub mod header;
pub mod identifier;
pub mod label;
