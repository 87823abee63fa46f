//! The packet that says what kind of file follows.
ghost use Rattle.std.specs.Prelude.{◌≡◌, not, MatchResult, ◌≢◌, ◌==◌, position};
ghost use Rattle.std.specs.List.{zip};
ghost use Rattle.record.specs.declared.fault.RecordFault.TheVariants.{BadItem};
ghost use Rattle.label.specs.Identifiers.{identifier, bad_identifier};

use packet::Packet;
use record::fault::RecordFault;

/// The packet of the identifier's 36 characters.
pub fn identifier() -> Packet
    ensures { result ≡ identifier }
{
    *b"TIMETAG OBSRVBL FREQ, ANCILLARY-DATA"
}

/// The first place, from 0, at which a packet has another character than the identifier.
fn first_difference(packet: &Packet) -> Option<usize>
    ensures { result ≡ position (λ pair. not (pair.0 == pair.1)) (zip packet.now identifier) }
{
    packet
        .iter()
        .zip(&identifier())
        .position(|(found, due)| found != due)
}

/// Whether the packet with this number is the identifier; refused at the lowest character that differs.
// A packet and its number apart, as in `unpack`.
pub fn check_identifier(packet: &Packet, number: usize) -> Result<(), RecordFault>
    ensures { MatchResult result (λ _. packet.now ≡ identifier) (λ e. (packet.now ≢ identifier) × (e ≡ BadItem number (bad_identifier packet.now))) }
{
    match first_difference(packet) {
        None => Ok(()),
        Some(place) => Err(RecordFault::BadItem {
            packet: number,
            item: place + 1,
        }),
    }
}
