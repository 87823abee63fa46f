//! The cells of a file, one after the other.
// A carrier and a packet's number go through the calls side by side. A struct of both would be made anew at each call, since the
// number is what changes and what faults name; the definitions take the cells from there on and the number, too.
ghost use Rattle.std.specs.Prelude.{◌≡◌, ◌&&◌, drop, OnOk, ◌==◌};
ghost use Rattle.std.specs.Str.{bytes_eq};
ghost use Rattle.packet.specs.Packets.{word, header_like};
ghost use Rattle.reading.specs.Outcomes.{and_then};
ghost use Rattle.reading.specs.Places.{Carried, Within};
ghost use Rattle.reading.specs.Reading.{packet_at, opened, filler_at};

use crate::due::Due;
use carrier::Carrier;
use label::header::check_header;
use odf::fault::FileFault;
use odf::pick::packet_at;
use packet::{FILLER, Packet, is_header_like, words_of};

/// The packet of cell `k`; where there is none, the file ends too early.
#[tactic(auto, using(crate::proofs::Walks::past_end, crate::proofs::Walks::held, crate::proofs::Walks::faulty))]
pub(crate) fn next_packet<C: Carrier>(carrier: &C, k: usize) -> Result<Packet, FileFault>
    ensures answer { result ≡ packet_at k (drop k (C.Carrier.cells carrier.now)) }
    ensures carried { Carried (C.Carrier.cells carrier.now) }
    ensures within { OnOk result (Within (C.Carrier.cells carrier.now) k) }
{
    if k >= carrier.count() {
        return Err(FileFault::Ended { packet: k });
    }
    Ok(packet_at(carrier, k)?)
}

/// Whether a packet is header-like and has this key.
#[tactic(auto, using(packet::proofs::PacketLaws::words_at))]
fn is_header(packet: &Packet, key: u32) -> bool
    ensures { result ≡ (header_like packet.now && word packet.now 1 == key) }
{
    is_header_like(packet) && words_of(packet)[0] == key
}

/// The secondary key of this packet, which is packet `k` and has to be the header that is due.
pub(crate) fn open_header(packet: &Packet, k: usize, due: Due) -> Result<u32, FileFault>
    ensures { result ≡ opened due.key due.length due.bounds k packet.now }
{
    if !is_header(packet, due.key) {
        return Err(FileFault::Misplaced { packet: k });
    }
    let bounds = due.bounds;
    let secondary = check_header(packet, k, bounds.least, bounds.most, due.length)?;
    if u64::from(secondary) < bounds.lowest {
        return Err(FileFault::OutOfOrder { packet: k });
    }
    Ok(secondary)
}

/// The secondary key of packet `k`, which has to be the header that is due.
pub(crate) fn header_at<C: Carrier>(carrier: &C, k: usize, due: Due) -> Result<u32, FileFault>
    ensures answer { result ≡ and_then (packet_at k (drop k (C.Carrier.cells carrier.now))) (opened due.key due.length due.bounds k) }
    ensures carried { Carried (C.Carrier.cells carrier.now) }
    ensures within { OnOk result (Within (C.Carrier.cells carrier.now) k) }
{
    let packet = next_packet(carrier, k)?;
    open_header(&packet, k, due)
}

/// Every cell from cell `first` on has to be filler.
#[tactic(auto, using(crate::proofs::Walks::filler_stop, crate::proofs::Walks::filler_wrong, crate::proofs::Walks::filler_on))]
pub(crate) fn check_filler<C: Carrier>(carrier: &C, first: usize) -> Result<(), FileFault>
    ensures { result ≡ filler_at first (drop first (C.Carrier.cells carrier.now)) }
{
    for k in first..carrier.count() {
        let packet = next_packet(carrier, k)?;
        if packet != FILLER {
            return Err(FileFault::NotFiller { packet: k });
        }
    }
    Ok(())
}
