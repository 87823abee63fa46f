//! A packet: 36 bytes, read as nine words of 32 bits.
#![tactic(auto)]

ghost use Rattle.std.specs.Prelude.{◌≡◌, ◌<◌, ◌≤◌};
ghost use Rattle.packet.specs.Packets.{word, byte, words_of, bytes_of, header_like};

use std::array;

/// Thirty-six bytes, the most significant of each word first.
pub type Packet = [u8; 36];

/// The packet that fills what a file leaves free.
pub const FILLER: Packet = [0x88; 36];

/// The word with this number, counted from 1.
fn word_of(packet: &Packet, number: usize) -> u32
    requires { (1 ≤ number) × (number ≤ 9) }
    ensures { result ≡ word packet.now number }
{
    let at = 4 * (number - 1);
    u32::from_be_bytes([packet[at], packet[at + 1], packet[at + 2], packet[at + 3]])
}

/// The byte at this place of the packet of nine words.
fn byte_of(words: &[u32; 9], place: usize) -> u8
    requires { place < 36 }
    ensures { result ≡ byte words.now place }
{
    words[place / 4].to_be_bytes()[place % 4]
}

/// The nine words of a packet.
// Functions, and no `From`: both types are arrays, which are the library's.
pub fn words_of(packet: &Packet) -> [u32; 9]
    ensures words { result ≡ words_of packet.now }
    ensures back { bytes_of result ≡ packet.now }
{
    array::from_fn(|i| word_of(packet, i + 1))
}

/// The packet of nine words.
pub fn packet_of(words: &[u32; 9]) -> Packet
    ensures bytes { result ≡ bytes_of words.now }
    ensures back { words_of result ≡ words.now }
{
    array::from_fn(|i| byte_of(words, i))
}

/// Whether words 5 and 6 are both zero: so begins a group, and no record does.
pub fn is_header_like(packet: &Packet) -> bool
    ensures { result ≡ header_like packet.now }
{
    word_of(packet, 5) == 0 && word_of(packet, 6) == 0
}
