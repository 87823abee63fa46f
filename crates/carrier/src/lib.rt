//! A carrier: a row of cells, each of which holds a packet or is damaged.
#![tactic(auto)]

ghost use Rattle.std.specs.Prelude.{◌≡◌, ◌≤◌, List, length};
ghost use Rattle.carrier.specs.Cells.{Cell, Whole, cell_at, reply, filled, stored, first_damage};

use crate::fault::CarrierFault;
use packet::Packet;

pub mod fault;

/// A row of cells to read, at most a million.
pub trait Carrier {
    ghost cells: { Self → List Cell };

    /// How many cells there are; each that holds a packet holds 36 bytes.
    fn count(&self) -> usize
        ensures answer { result ≡ length (cells self.now) }
        ensures few { result ≤ 1000000 }
        ensures whole { Whole (cells self.now) };

    /// Copies the packet of cell `k` into the caller's bytes; refused, it leaves them.
    fn get(&self, k: usize, packet: &mut Packet) -> Result<(), CarrierFault>
        ensures answer { result ≡ reply k (cell_at (cells self.now) k) }
        ensures fills { packet.new ≡ filled (cell_at (cells self.now) k) packet.old };
}

/// A row of cells to read and write.
pub trait WritingCarrier: Carrier {
    // The type of what no writing call changes; an implementation chooses it.
    ghost Kept: { Type 0 };

    // What no writing call changes: which memory is lent, how it is laid out, and that memory but for its cells.
    ghost kept: { Self → Kept };

    /// Puts the packet into cell `k`; refused, it leaves every cell.
    fn put(&mut self, k: usize, packet: &Packet) -> Result<(), CarrierFault>
        ensures answer { result ≡ reply k (cell_at (Self.Carrier.cells self.old) k) }
        ensures stores { Self.Carrier.cells self.new ≡ stored (Self.Carrier.cells self.old) k packet.now }
        ensures stays { kept self.new ≡ kept self.old };
}

/// Whether every cell holds a packet; if not, the refusal at the lowest damaged one.
pub fn check_cells<C: Carrier>(carrier: &C) -> Result<(), CarrierFault>
    ensures { result ≡ first_damage 0 (C.Carrier.cells carrier.now) }
{
    let mut packet = [0; 36];
    for k in 0..carrier.count() {
        carrier.get(k, &mut packet)?;
    }
    Ok(())
}
