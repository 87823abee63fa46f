//! Files: picking one record.
#![tactic(auto)]

pub mod fault;
pub mod pick;
