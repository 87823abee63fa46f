//! A carrier over borrowed memory, to read.
ghost use Rattle.std.specs.Prelude.{◌≡◌, ◌+◌, ◌<◌, ◌≤◌, length, Err, MatchResult};
ghost use Rattle.carrier.specs.Cells.{Whole, cell_at, reply};
ghost use Rattle.makes.specs.Shapes.{Located, count_of, start_of, place_of, wrong_in, cells_of};

use crate::layout::Layout;
use carrier::Carrier;
use carrier::fault::CarrierFault;
use packet::Packet;

/// A memory to read, and its layout.
#[derive(Clone, Copy)]
pub struct Image<'a, L: Layout> {
    memory: &'a [u8],
    layout: L,
}

impl<'a, L: Layout> Image<'a, L> {
    /// The carrier of a memory with this layout.
    pub fn new(layout: L, bytes: &'a [u8]) -> Self
        ensures memory { result.memory.now ≡ bytes.now }
        ensures layout { result.layout ≡ layout }
    {
        Image {
            memory: bytes,
            layout,
        }
    }

    /// The first fixed byte of the block at `start` that is wrong.
    fn first_wrong(&self, start: usize) -> Option<usize>
        requires { start + (L.shape self.now.layout).block ≤ length self.now.memory.now }
        ensures { result ≡ wrong_in (L.shape self.now.layout).fixed start self.now.memory.now }
    {
        for &(place, value) in self.layout.fixed() {
            if self.memory[start + place] != value {
                return Some(start + place);
            }
        }
        None
    }

    /// Where the block of cell `k` begins.
    pub(crate) fn start_of(&self, k: usize) -> usize
        requires { k < count_of (L.shape self.now.layout) self.now.memory.now }
        ensures is { result ≡ start_of (L.shape self.now.layout) k }
        ensures fits { result + (L.shape self.now.layout).block ≤ length self.now.memory.now }
    {
        k / self.layout.packets() * self.layout.block()
    }

    /// Where the packet of cell `k` begins, damaged or not.
    pub(crate) fn place_of(&self, k: usize) -> usize
        requires { k < count_of (L.shape self.now.layout) self.now.memory.now }
        ensures is { result ≡ place_of (L.shape self.now.layout) k }
        ensures fits { result + 36 ≤ length self.now.memory.now }
    {
        self.start_of(k) + self.layout.first() + 36 * (k % self.layout.packets())
    }

    /// Where the packet of cell `k` begins, or why there is none.
    #[tactic(auto, using(crate::proofs::Rows::length_cells, crate::proofs::Rows::cells_past, crate::proofs::Rows::cell_is))]
    pub(crate) fn locate(&self, k: usize) -> Result<usize, CarrierFault>
        ensures { MatchResult result (λ place. Located (L.shape self.now.layout) self.now.memory.now k place) (λ e. reply k (cell_at (cells_of (L.shape self.now.layout) self.now.memory.now) k) ≡ Err e) }
    {
        if k >= self.count() {
            return Err(CarrierFault::NoSuchCell { cell: k });
        }
        match self.first_wrong(self.start_of(k)) {
            Some(byte) => Err(CarrierFault::Damaged { cell: k, byte }),
            None => Ok(self.place_of(k)),
        }
    }
}

impl<'a, L: Layout> Carrier for Image<'a, L> {
    ghost cells = { λ s. cells_of (L.shape s.layout) s.memory.now };

    fn count(&self) -> usize {
        count_of(self.layout, self.memory)
    }

    fn get(&self, k: usize, packet: &mut Packet) -> Result<(), CarrierFault> {
        let from = self.locate(k)?;
        packet.copy_from_slice(&self.memory[from..from + 36]);
        Ok(())
    }
}

/// How many cells a memory with this layout has; each that holds a packet holds 36 bytes.
// Not a method: tried, and `whole` is not proved there, since of a memory in a struct the check knows its length, not that its
// bytes are below 256.
#[tactic(auto, using(crate::proofs::Rows::length_cells, crate::proofs::Rows::cells_whole))]
fn count_of<L: Layout>(layout: L, memory: &[u8]) -> usize
    ensures is { result ≡ count_of (L.shape layout) memory.now }
    ensures cells { result ≡ length (cells_of (L.shape layout) memory.now) }
    ensures whole { Whole (cells_of (L.shape layout) memory.now) }
{
    (memory.len() / layout.block() * layout.packets()).min(1_000_000)
}
