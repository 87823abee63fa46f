//! The clock record of a station.
pub mod items;
pub mod kind;

use crate::clock::items::ClockItems;
use record::lawful::Lawful;

/// A lawful clock record.
pub type Clock = Lawful<ClockItems>;
