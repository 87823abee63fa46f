//! A row of a summary as a packet.
ghost use Rattle.std.specs.Prelude.{◌≡◌, ◌/◌, ◌%◌, ◌^◌};
ghost use Rattle.summary.specs.RowWords.{row_packet};

use crate::summary_key::SummaryKey;
use crate::table::Row;
use packet::{Packet, packet_of};

const BILLION: u64 = 1_000_000_000;

/// The whole seconds of a time, in 32 bits.
fn seconds_of(time: u64) -> u32
    ensures { result ≡ time / 1000000000 % 2 ^ 32 }
{
    (time / BILLION % 0x1_0000_0000) as u32
}

/// The billionths of a time.
fn billionths_of(time: u64) -> u32
    ensures { result ≡ time % 1000000000 }
{
    (time % BILLION) as u32
}

/// The packet of a row.
pub fn row_packet(row: &Row<SummaryKey>) -> Packet
    ensures { result ≡ row_packet row.now }
{
    let key = row.key;
    packet_of(&[
        seconds_of(row.first),
        billionths_of(row.first),
        key.receiver,
        key.channel,
        key.downlink,
        key.kind,
        row.count,
        seconds_of(row.last),
        billionths_of(row.last),
    ])
}
