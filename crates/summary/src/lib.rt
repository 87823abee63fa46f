//! The recount of a file's orbit records: how many there are of each key, and from when to when.
#![tactic(auto)]

pub mod key;
pub mod recount;
pub mod row;
pub mod summary_key;
pub mod table;
