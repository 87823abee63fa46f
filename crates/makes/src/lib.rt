//! The three makes of carrier, over borrowed memory.
#![tactic(auto)]

pub mod image;
pub mod image_mut;
pub mod layout;
pub mod make;
