//! How far a file has been read.
ghost use Rattle.std.specs.Prelude.{◌≡◌, ◌<◌};
ghost use Rattle.reading.specs.Reading.{station_above};
ghost use Rattle.reading.specs.Walking.{start};

use crate::report::Report;
use std::marker::Model;

/// What was read last, from the orbit records on.
#[derive(Clone, Copy, PartialEq, Eq)]
pub(crate) enum Stage {
    Orbits,
    Ramps { station: u32 },
    Clocks,
    Closed,
}

/// What has been read so far; `report.end` is the packet that comes next, and the end packet once it is met. What has been
/// counted lies behind that packet.
#[derive(Clone, Copy)]
pub(crate) struct Walk {
    pub(crate) stage: Stage,
    pub(crate) report: Report,
}

// A model, and no ghost field: the definitions build such values from contents, without a proof of the counts.
impl Model for Walk {
    ghost use Rattle.reading.specs.Walking.{Progress, Counts};

    ghost Value = { Progress };

    ghost view = { λ w. record { stage = w.stage; report = w.report } };

    ghost invariant = { λ w. Counts (record { stage = w.stage; report = w.report }) };

    ghost inverse = { λ p. record { stage = p.stage; report = p.report } };
}

impl Walk {
    /// The walk behind so many orbit records.
    pub(crate) fn start(orbits: usize) -> Walk
        requires { orbits < 1000000 }
        ensures { result ≡ start orbits }
    {
        Walk {
            stage: Stage::Orbits,
            report: Report {
                end: 5 + orbits,
                orbits,
                groups: 0,
                ramps: 0,
                clocks: 0,
                rows: None,
            },
        }
    }
}

/// What a header's secondary key may be: from the least to the most, and no lower than the lowest that may follow.
#[derive(Clone, Copy)]
pub(crate) struct Bounds {
    pub(crate) least: u32,
    pub(crate) most: u32,
    pub(crate) lowest: u64,
}

impl Bounds {
    /// The bounds of every header but that of a station's ramps: its secondary key is 0.
    pub(crate) const NONE: Bounds = Bounds {
        least: 0,
        most: 0,
        lowest: 0,
    };

    /// The bounds of the header of a station's ramps: a station above the last.
    pub(crate) fn above(last: u32) -> Bounds
        ensures { result ≡ station_above last }
    {
        Bounds {
            least: 1,
            most: 1_023,
            lowest: u64::from(last) + 1,
        }
    }
}

/// A group that was read: its header's secondary key and how many records it has.
#[derive(Clone, Copy)]
pub(crate) struct Group {
    pub(crate) secondary: u32,
    pub(crate) records: usize,
}
