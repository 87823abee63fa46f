//! Reading one cell as a record of a named kind.
ghost use Rattle.std.specs.Prelude.{◌≡◌, Some, Err, MatchResult, ◌≢◌};
ghost use Rattle.packet.specs.Packets.{bytes_of};
ghost use Rattle.carrier.specs.Cells.{holds, cell_at, reply};
ghost use Rattle.carrier.specs.declared.fault.CarrierFault.{CarrierFault};
ghost use Rattle.record.specs.Kinds.{packed_by, bad_by};
ghost use Rattle.record.specs.declared.fault.RecordFault.TheVariants.{InCarrier};
ghost use Rattle.record.specs.declared.lawful.Lawful.{Lawful};
ghost use Rattle.odf.specs.Picking.{pick_fault};

use crate::fault::FileFault;
use carrier::Carrier;
use packet::{Packet, is_header_like};
use record::fault::RecordFault;
use record::kind::RecordKind;
use record::lawful::Lawful;
use record::packing::unpack;

/// The packet of a cell.
pub fn packet_at<C: Carrier>(carrier: &C, k: usize) -> Result<Packet, RecordFault>
    ensures { MatchResult result (λ p. cell_at (C.Carrier.cells carrier.now) k ≡ Some (holds p)) (λ e. (f : CarrierFault) × (reply k (cell_at (C.Carrier.cells carrier.now) k) ≡ Err f) × (e ≡ InCarrier f)) }
{
    let mut packet = [0; 36];
    carrier.get(k, &mut packet)?;
    Ok(packet)
}

/// Reads cell `k` as a record of kind `K`, judged by the kind's own rules alone.
pub fn pick<K: RecordKind, C: Carrier>(carrier: &C, k: usize) -> Result<Lawful<K>, FileFault>
    ensures { MatchResult result (λ x. cell_at (C.Carrier.cells carrier.now) k ≡ Some (holds (bytes_of (packed_by K.Items K.Packed.own x)))) (λ e. (e ≡ pick_fault (bad_by K.Items K.Packed.own) k (cell_at (C.Carrier.cells carrier.now) k)) × ((x : Lawful K K.Items) → cell_at (C.Carrier.cells carrier.now) k ≢ Some (holds (bytes_of (packed_by K.Items K.Packed.own x))))) }
{
    // Reading and the recount look at a packet so too, but refuse otherwise, or not at all.
    let packet = packet_at(carrier, k)?;
    if is_header_like(&packet) {
        return Err(FileFault::Misplaced { packet: k });
    }
    Ok(unpack::<K>(&packet, k)?)
}
