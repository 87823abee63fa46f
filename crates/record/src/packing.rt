//! Records as packets, and packets as records.
ghost use Rattle.std.specs.Prelude.{◌≡◌, false, Some, MatchResult, ◌≢◌};
ghost use Rattle.packet.specs.Packets.{words_of, bytes_of, header_like};
ghost use Rattle.record.specs.Kinds.{kind_of, packed_by, unpacked_by, bad_by, lower, plain, owned};
ghost use Rattle.record.specs.Rules.{broken};
ghost use Rattle.record.specs.declared.fault.RecordFault.TheVariants.{BadItem};
ghost use Rattle.record.specs.declared.lawful.Lawful.{Lawful};

use crate::fault::RecordFault;
use crate::kind::{Packed, RecordKind};
use crate::lawful::Lawful;
use packet::{Packet, packet_of, words_of};

/// The packet of a record, which is never header-like, and from which the record can be read again.
pub fn pack<K: Packed>(from: &Lawful<K>) -> Packet
    ensures bytes { result ≡ bytes_of (K.Packed.packed from.now.items) }
    ensures headless { header_like result ≡ false }
    ensures back { unpacked_by K.Items K.Packed.own (words_of result) ≡ Some from.now }
    ensures apart { (x : Lawful K K.Items) → bytes_of (packed_by K.Items K.Packed.own x) ≡ result → x ≡ from.now }
{
    packet_of(&K::to_words(from))
}

/// The record of which this is the packet; a packet that is no record's is refused at its lowest bad item.
// The number is only what a refusal names, here and in the three calls like it; a struct of packet and number would be made at
// each call, to be taken apart in it.
pub fn unpack<K: Packed>(packet: &Packet, number: usize) -> Result<Lawful<K>, RecordFault>
    ensures found { MatchResult result (λ x. bytes_of (packed_by K.Items K.Packed.own x) ≡ packet.now) (λ e. ((x : Lawful K K.Items) → bytes_of (packed_by K.Items K.Packed.own x) ≢ packet.now) × (e ≡ BadItem number (bad_by K.Items K.Packed.own (words_of packet.now)))) }
    ensures read { result ≡ plain (unpacked_by K.Items K.Packed.own) (bad_by K.Items K.Packed.own) number packet.now }
{
    Lawful::read(K::of_words(&words_of(packet)), number)
}

/// The record of this owner of which this is the packet; refused at the lowest bad item, the owner's among them.
pub fn unpack_owned<K: RecordKind>(
    packet: &Packet,
    number: usize,
    owner: u64,
) -> Result<Lawful<K>, RecordFault>
    ensures { result ≡ owned (kind_of K.Items K.Packed.own K.RecordKind.own) owner number packet.now }
{
    let items = K::of_words(&words_of(packet));
    let item = match (Lawful::checked(items), items.foreign_item(owner)) {
        (Ok(own), None) => return Ok(own),
        (Ok(_), Some(foreign)) => foreign,
        (Err(bad), foreign) => foreign.map_or(bad, |foreign| bad.min(foreign)),
    };
    Err(RecordFault::BadItem {
        packet: number,
        item,
    })
}
