//! Why a call on a carrier is refused, and the numbers that every refusal tells.
ghost use Rattle.std.specs.Prelude.{◌≡◌};
ghost use Rattle.carrier.specs.Refusals.{refusal_of};

use std::error::Error;
use std::fmt;

/// A cell that cannot be read or written.
#[derive(Clone, Copy, PartialEq, Eq, Debug)]
pub enum CarrierFault {
    /// The row ends before this cell.
    NoSuchCell { cell: usize },
    /// A fixed byte of the cell's block is wrong, at this place of the memory.
    Damaged { cell: usize, byte: usize },
}

/// What a refusal tells; what does not apply is 0.
// Numbers, and no enum: programs print them and C programs get them; the enums are the faults.
#[derive(Clone, Copy, PartialEq, Eq, Debug)]
pub struct Refusal {
    pub number: usize,
    pub layer: usize,
    pub packet: usize,
    pub item: usize,
    pub byte: usize,
}

impl From<CarrierFault> for Refusal {
    ghost from_gives = { λ e r. r ≡ refusal_of e };

    fn from(fault: CarrierFault) -> Refusal {
        match fault {
            CarrierFault::NoSuchCell { cell } => Refusal {
                number: 11,
                layer: 1,
                packet: cell,
                item: 0,
                byte: 0,
            },
            CarrierFault::Damaged { cell, byte } => Refusal {
                number: 12,
                layer: 1,
                packet: cell,
                item: 0,
                byte,
            },
        }
    }
}

impl fmt::Display for Refusal {
    fn fmt<W: fmt::Write>(&self, f: &mut fmt::Formatter<W>) -> fmt::Result {
        let Refusal {
            number,
            layer,
            packet,
            item,
            byte,
        } = self;
        write!(
            f,
            "refused {number} layer {layer} packet {packet} item {item} byte {byte}"
        )
    }
}

impl fmt::Display for CarrierFault {
    fn fmt<W: fmt::Write>(&self, f: &mut fmt::Formatter<W>) -> fmt::Result {
        Refusal::from(*self).fmt(f)
    }
}

impl Error for CarrierFault {}
