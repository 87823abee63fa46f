//! The key of a summary's row.
ghost use Rattle.summary.specs.SummaryKeys.{summary_of, summary_lt};
ghost use Rattle.summary.specs.KeyLaws.{summary_ordered, summary_compares};

use crate::key::Key;
use orbit::orbit::Orbit;
use record::rules::is_within;

/// By what a summary counts the records; keys are in the order of these numbers, the first foremost.
#[derive(Clone, Copy, PartialEq, Eq, PartialOrd, Ord, Debug, Default)]
pub struct SummaryKey {
    /// Receiving station.
    pub receiver: u32,
    /// Downlink band.
    pub downlink: u32,
    /// Data type.
    pub kind: u32,
    /// Channel of a Doppler record; 0 for any other type.
    pub channel: u32,
}

impl Key for SummaryKey {
    ghost keyed = { summary_of };

    ghost lt = { summary_lt };

    ghost ordered = { summary_ordered };

    ghost compares = { summary_compares };

    fn of(orbit: &Orbit) -> Option<SummaryKey> {
        let items = orbit.items();
        // Types 11 to 13, as FORMAT.md has it.
        let doppler = is_within(11, 13, items.kind);
        Some(SummaryKey {
            receiver: items.receiver as u32,
            downlink: items.downlink as u32,
            kind: items.kind as u32,
            channel: if doppler { items.channel as u32 } else { 0 },
        })
    }
}
