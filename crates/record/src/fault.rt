//! Why a record is refused.
ghost use Rattle.std.specs.Prelude.{◌≡◌};
ghost use Rattle.record.specs.Refusals.{refusal_of};
ghost use Rattle.record.specs.declared.fault.RecordFault.TheVariants.{InCarrier};

use carrier::fault::{CarrierFault, Refusal};
use std::error::Error;
use std::fmt;

/// A record that cannot be read or formed.
#[derive(Clone, Copy, PartialEq, Eq, Debug)]
pub enum RecordFault {
    /// The cell cannot be read.
    InCarrier(CarrierFault),
    /// An item of the packet breaks its rule.
    BadItem { packet: usize, item: usize },
    /// An item that the caller gave breaks its rule.
    Forbidden { item: usize },
}

// A fault of the carrier tells its own numbers.
impl From<RecordFault> for Refusal {
    ghost from_gives = { λ e r. r ≡ refusal_of e };

    fn from(fault: RecordFault) -> Refusal {
        match fault {
            RecordFault::InCarrier(fault) => Refusal::from(fault),
            RecordFault::BadItem { packet, item } => Refusal {
                number: 22,
                layer: 2,
                packet,
                item,
                byte: 0,
            },
            RecordFault::Forbidden { item } => Refusal {
                number: 31,
                layer: 2,
                packet: 0,
                item,
                byte: 0,
            },
        }
    }
}

impl fmt::Display for RecordFault {
    fn fmt<W: fmt::Write>(&self, f: &mut fmt::Formatter<W>) -> fmt::Result {
        Refusal::from(*self).fmt(f)
    }
}

impl Error for RecordFault {}

impl From<CarrierFault> for RecordFault {
    ghost from_gives = { λ e r. r ≡ InCarrier e };

    fn from(fault: CarrierFault) -> Self {
        RecordFault::InCarrier(fault)
    }
}
