//! The record of a ramp of a transmitter's frequency.
pub mod items;
pub mod kind;

use crate::ramp::items::RampItems;
use record::lawful::Lawful;

/// A lawful ramp record.
pub type Ramp = Lawful<RampItems>;
