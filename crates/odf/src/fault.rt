//! Why a file is refused.
ghost use Rattle.std.specs.Prelude.{◌≡◌};
ghost use Rattle.odf.specs.Refusals.{refusal_of};
ghost use Rattle.odf.specs.declared.fault.FileFault.TheVariants.{InRecord};

use carrier::fault::Refusal;
use record::fault::RecordFault;
use std::error::Error;
use std::fmt;

/// A file, or a packet of one, that is not as it has to be.
#[derive(Clone, Copy, PartialEq, Eq, Debug)]
pub enum FileFault {
    /// A record is refused.
    InRecord(RecordFault),
    /// A header-like packet where data must stand, the reverse, or a key that may not follow.
    Misplaced { packet: usize },
    /// The cells end before the end packet.
    Ended { packet: usize },
    /// A record out of time order, a ramp that starts before the last one ended, or a station not above the last.
    OutOfOrder { packet: usize },
    /// A row of the summary that differs from the recount, is missing or is too many.
    WrongRow { packet: usize },
    /// A cell after the end packet that is not filler.
    NotFiller { packet: usize },
    /// The caller's rows are fewer than the groups.
    TooFewRows,
}

// A fault of a record tells its own numbers.
impl From<FileFault> for Refusal {
    ghost from_gives = { λ e r. r ≡ refusal_of e };

    fn from(fault: FileFault) -> Refusal {
        let (number, packet) = match fault {
            FileFault::InRecord(fault) => return Refusal::from(fault),
            FileFault::Misplaced { packet } => (21, packet),
            FileFault::Ended { packet } => (23, packet),
            FileFault::OutOfOrder { packet } => (24, packet),
            FileFault::WrongRow { packet } => (25, packet),
            FileFault::NotFiller { packet } => (26, packet),
            FileFault::TooFewRows => (35, 0),
        };
        Refusal {
            number,
            layer: 3,
            packet,
            item: 0,
            byte: 0,
        }
    }
}

impl fmt::Display for FileFault {
    fn fmt<W: fmt::Write>(&self, f: &mut fmt::Formatter<W>) -> fmt::Result {
        Refusal::from(*self).fmt(f)
    }
}

impl Error for FileFault {}

impl From<RecordFault> for FileFault {
    ghost from_gives = { λ e r. r ≡ InRecord e };

    fn from(fault: RecordFault) -> Self {
        FileFault::InRecord(fault)
    }
}
