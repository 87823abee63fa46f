//! The keys by which headers name what they open.
use record::kind::RecordKind;
use station::clock::items::ClockItems;
use station::ramp::items::RampItems;

/// The key of the label's header.
pub(crate) const LABEL: u32 = 101;

/// The key of the identifier's header.
pub(crate) const IDENTIFIER: u32 = 107;

/// The key of the header of a station's ramps.
pub(crate) const RAMPS: u32 = RampItems::KEY;

/// The key of the header of the clock offsets.
pub(crate) const CLOCKS: u32 = ClockItems::KEY;

/// The key of the summary's header.
pub(crate) const SUMMARY: u32 = 105;

/// The key of the end packet: -1 in two's complement.
pub(crate) const END: u32 = 0xFFFF_FFFF;
