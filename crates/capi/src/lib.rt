//! Calls for C programs, over a disk image; c/odf.h declares them.
#![tactic(auto)]

pub mod file;
pub mod numbers;
pub mod picking;
pub mod plain;
