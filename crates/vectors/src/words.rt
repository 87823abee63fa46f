//! Numbers and packets written as words.
use packet::Packet;
use std::num::ParseIntError;
use std::str::FromStr;

/// A number that stands in a word.
// std has no trait by which a type tells its largest number; it stands for a word that is none, which no item allows.
pub(crate) trait Integer: FromStr<Err = ParseIntError> {
    /// What a word that is no number stands for.
    const OTHERWISE: Self;
}

impl Integer for u64 {
    const OTHERWISE: u64 = u64::MAX;
}

impl Integer for i64 {
    const OTHERWISE: i64 = i64::MAX;
}

/// The number in a word; the largest where it is none.
pub(crate) fn number<N: Integer>(words: &[&str], place: usize) -> N {
    match words.get(place).map(|word| word.parse::<N>()) {
        Some(Ok(number)) => number,
        _ => N::OTHERWISE,
    }
}

// Not `hex::decode`, which refuses what is 0 here.
fn digit(byte: u8) -> u8 {
    match byte {
        b'0'..=b'9' => byte - b'0',
        b'a'..=b'f' => byte - b'a' + 10,
        _ => 0,
    }
}

/// The packet in the third word, two hexadecimal digits a byte.
pub(crate) fn packet_in(words: &[&str]) -> Packet {
    let mut packet = [0; 36];
    let Some(word) = words.get(2) else {
        return packet;
    };
    for (byte, pair) in packet.iter_mut().zip(word.as_bytes().chunks_exact(2)) {
        *byte = (digit(pair[0]) << 4) | digit(pair[1]);
    }
    packet
}
