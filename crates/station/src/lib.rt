//! The records of a station: its clock, and the ramps of its transmitter.
#![tactic(auto)]

pub mod clock;
pub mod ramp;
