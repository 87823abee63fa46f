//! What every kind of record has: its place in a packet, its rules, its faults.
#![tactic(auto)]

pub mod fault;
pub mod halves;
pub mod kind;
pub mod lawful;
pub mod packing;
pub mod rules;
pub mod signed;
