//! The label and the identifier, with which a file opens.
ghost use Rattle.std.specs.Prelude.{◌≡◌, drop};
ghost use Rattle.record.specs.Kinds.{plain};
ghost use Rattle.label.specs.Identifiers.{bad_identifier};
ghost use Rattle.label.specs.Labels.{unpacked, bad};
ghost use Rattle.reading.specs.Places.{Carried};
ghost use Rattle.reading.specs.Reading.{data_at, identified, data_packet, opening};

use crate::cells::{header_at, next_packet};
use crate::due::Due;
use carrier::Carrier;
use label::identifier::check_identifier;
use label::label::{Label, LabelItems};
use odf::fault::FileFault;
use packet::{Packet, is_header_like};
use record::packing::unpack;

/// Packet `k`, which has to be data.
fn data_packet<C: Carrier>(carrier: &C, k: usize) -> Result<Packet, FileFault>
    ensures { result ≡ data_packet k (drop k (C.Carrier.cells carrier.now)) }
{
    let packet = next_packet(carrier, k)?;
    if is_header_like(&packet) {
        return Err(FileFault::Misplaced { packet: k });
    }
    Ok(packet)
}

/// The label in packet 1.
fn read_label<C: Carrier>(carrier: &C) -> Result<Label, FileFault>
    ensures { result ≡ data_at (plain unpacked bad) 1 (drop 1 (C.Carrier.cells carrier.now)) }
{
    let packet = data_packet(carrier, 1)?;
    Ok(unpack::<LabelItems>(&packet, 1)?)
}

/// Packet 3 has to be the identifier.
fn read_identifier<C: Carrier>(carrier: &C) -> Result<(), FileFault>
    ensures { result ≡ data_at (λ k p. identified k (bad_identifier p)) 3 (drop 3 (C.Carrier.cells carrier.now)) }
{
    let packet = data_packet(carrier, 3)?;
    Ok(check_identifier(&packet, 3)?)
}

/// The label of a file, whose first four packets are its header, the label, the identifier's header and the identifier.
pub(crate) fn read_opening<C: Carrier>(carrier: &C) -> Result<Label, FileFault>
    ensures answer { result ≡ opening (C.Carrier.cells carrier.now) }
    ensures carried { Carried (C.Carrier.cells carrier.now) }
{
    header_at(carrier, 0, Due::LABEL)?;
    let label = read_label(carrier)?;
    header_at(carrier, 2, Due::IDENTIFIER)?;
    read_identifier(carrier)?;
    Ok(label)
}
