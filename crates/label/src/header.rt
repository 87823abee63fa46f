//! The packet that begins a group of records.
ghost use Rattle.std.specs.Prelude.{◌≡◌, true};
ghost use Rattle.packet.specs.Packets.{bytes_of, header_like};
ghost use Rattle.record.specs.Rules.{broken};
ghost use Rattle.label.specs.Headers.{header_words, header_of, headed, bad_spare};

use packet::{Packet, packet_of, words_of};
use record::fault::RecordFault;
use record::rules::lowest_broken;

/// What a group's header says: its two keys, the length of its records and its own packet number.
#[derive(Clone, Copy, PartialEq, Eq, Debug)]
pub struct Header {
    pub key: i32,
    pub secondary: u32,
    pub length: u32,
    pub packet: u32,
}

impl Header {
    /// The packet of the header, from which it can be read again.
    // No `From`: a packet is an array, which is the library's.
    pub fn to_packet(&self) -> Packet
        ensures bytes { result ≡ bytes_of (header_words self.now) }
        ensures header { header_like result ≡ true }
        ensures back { header_of result ≡ self.now }
    {
        packet_of(&[
            self.key.cast_unsigned(),
            self.secondary,
            self.length,
            self.packet,
            0,
            0,
            0,
            0,
            0,
        ])
    }
}

// The header in the first four words of any packet.
impl From<&Packet> for Header {
    ghost from_gives = { λ p h. h ≡ header_of p.now };

    fn from(packet: &Packet) -> Header {
        let [key, secondary, length, packet, ..] = words_of(packet);
        Header {
            key: key.cast_signed(),
            secondary,
            length,
            packet,
        }
    }
}

/// The secondary key of a header, which has to lie within these bounds; refused at the lowest wrong item of 2, 3, 4, 7, 8 and 9.
// A packet and its number apart, as in `unpack`; the bounds are two numbers, since a range's bounds are methods in clauses.
pub fn check_header(
    packet: &Packet,
    number: usize,
    least: u32,
    most: u32,
    length: u32,
) -> Result<u32, RecordFault>
    ensures { result ≡ headed least most length number packet.now }
{
    let items = words_of(packet);
    let rules = [
        true,
        least <= items[1] && items[1] <= most,
        items[2] == length,
        items[3] as usize == number,
        true,
        true,
        items[6] == 0,
        items[7] == 0,
        items[8] == 0,
    ];
    match lowest_broken(&rules) {
        None => Ok(items[1]),
        Some(item) => Err(RecordFault::BadItem {
            packet: number,
            item,
        }),
    }
}

/// The lowest of words 7, 8 and 9 that is not zero, if one is not.
pub fn spare_item(packet: &Packet) -> Option<usize>
    ensures { result ≡ broken (bad_spare packet.now) }
{
    // The last three rules of `check_header`, in a list of their own, so that each list is the definition's.
    let words = words_of(packet);
    lowest_broken(&[
        true,
        true,
        true,
        true,
        true,
        true,
        words[6] == 0,
        words[7] == 0,
        words[8] == 0,
    ])
}
