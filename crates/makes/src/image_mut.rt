//! A carrier over borrowed memory, to read and write.
ghost use Rattle.std.specs.Prelude.{◌≡◌, ℕ, ◌+◌, ◌<◌, ◌≤◌, length, replicate, None, slice_index};
ghost use Rattle.packet.specs.Packets.{filler};
ghost use Rattle.carrier.specs.Cells.{holds, cell_at, reply, stored};
ghost use Rattle.makes.specs.Shapes.{Apart, Kept, NotFixed, count_of, wrong_in, cell_of, cells_of, written, kept_of};

use crate::image::Image;
use crate::layout::Layout;
use carrier::fault::CarrierFault;
use carrier::{Carrier, WritingCarrier};
use packet::{FILLER, Packet};

/// A memory to read and write, and its layout.
#[derive(Drop)]
pub struct ImageMut<'a, L: Layout> {
    memory: &'a mut [u8],
    layout: L,
}

impl<'a, L: Layout> ImageMut<'a, L> {
    /// The carrier of a memory with this layout.
    pub fn new(layout: L, bytes: &'a mut [u8]) -> Self
        ensures value { result.memory.now ≡ bytes.old }
        ensures same { result.memory.ghost_name ≡ bytes.entry.ghost_name }
        ensures layout { result.layout ≡ layout }
    {
        ImageMut {
            memory: bytes,
            layout,
        }
    }

    /// The same memory and layout, to read.
    fn image(&self) -> Image<'_, L>
        ensures memory { result.memory.now ≡ self.now.memory.now }
        ensures layout { result.layout ≡ self.now.layout }
    {
        Image::new(self.layout, self.memory)
    }

    /// Sets the fixed bytes of the block at `start`.
    #[tactic(auto, using(crate::proofs::Clears::all_right))]
    fn set_fixed(&mut self, start: usize)
        requires { start + (L.shape self.old.layout).block ≤ length self.old.memory.now }
        ensures right { wrong_in (L.shape self.old.layout).fixed start self.new.memory.now ≡ None }
        ensures others { (j : ℕ) → NotFixed (L.shape self.old.layout).fixed start j → slice_index self.new.memory.now j ≡ slice_index self.old.memory.now j }
        ensures long { length self.new.memory.now ≡ length self.old.memory.now }
        ensures same { self.new.memory.ghost_name ≡ self.old.memory.ghost_name }
        ensures layout { self.new.layout ≡ self.old.layout }
    {
        for &(place, value) in self.layout.fixed() {
            self.memory[start + place] = value;
        }
    }

    /// Sets the fixed bytes of the block of cell `k`, and makes that cell filler.
    #[tactic(auto, using(crate::proofs::Rows::beside_put_mid, crate::proofs::Rows::part_put_mid, crate::proofs::Clears::cleared_here, crate::proofs::Clears::cleared_others))]
    fn clear_cell(&mut self, k: usize)
        requires { k < count_of (L.shape self.old.layout) self.old.memory.now }
        ensures here { cell_of (L.shape self.old.layout) self.new.memory.now k ≡ holds filler }
        ensures kept { (i : ℕ) → cell_of (L.shape self.old.layout) self.old.memory.now i ≡ holds filler → cell_of (L.shape self.old.layout) self.new.memory.now i ≡ holds filler }
        ensures others { (j : ℕ) → Apart (L.shape self.old.layout) k j → slice_index self.new.memory.now j ≡ slice_index self.old.memory.now j }
        ensures long { length self.new.memory.now ≡ length self.old.memory.now }
        ensures same { self.new.memory.ghost_name ≡ self.old.memory.ghost_name }
        ensures layout { self.new.layout ≡ self.old.layout }
    {
        let start = self.image().start_of(k);
        let place = self.image().place_of(k);
        self.set_fixed(start);
        self.memory[place..place + 36].copy_from_slice(&FILLER);
    }

    /// Makes every cell filler, and sets the fixed bytes of every block that has a cell.
    #[tactic(auto, using(crate::proofs::Rows::length_cells))]
    pub fn clear(&mut self)
        ensures cells { cells_of (L.shape self.old.layout) self.new.memory.now ≡ replicate (length (cells_of (L.shape self.old.layout) self.old.memory.now)) (holds filler) }
        ensures others { (j : ℕ) → ((k : ℕ) → k < length (cells_of (L.shape self.old.layout) self.old.memory.now) → Apart (L.shape self.old.layout) k j) → slice_index self.new.memory.now j ≡ slice_index self.old.memory.now j }
        ensures same { self.new.memory.ghost_name ≡ self.old.memory.ghost_name }
        ensures layout { self.new.layout ≡ self.old.layout }
    {
        for k in 0..self.image().count() {
            self.clear_cell(k);
        }
    }
}

impl<'a, L: Layout> Carrier for ImageMut<'a, L> {
    ghost cells = { λ s. cells_of (L.shape s.layout) s.memory.now };

    fn count(&self) -> usize {
        self.image().count()
    }

    fn get(&self, k: usize, packet: &mut Packet) -> Result<(), CarrierFault> {
        self.image().get(k, packet)
    }
}

impl<'a, L: Layout> WritingCarrier for ImageMut<'a, L> {
    ghost Kept = { Kept };

    ghost kept = { λ s. kept_of (L.shape s.layout) s.memory.ghost_name s.memory.now };

    #[tactic(auto, using(crate::proofs::Rows::written_row, crate::proofs::Rows::beside_put_mid, crate::proofs::Outside::outside_kept))]
    fn put(&mut self, k: usize, packet: &Packet) -> Result<(), CarrierFault>
        ensures answer { result ≡ reply k (cell_at (cells_of (L.shape self.old.layout) self.old.memory.now) k) }
        ensures stores { cells_of (L.shape self.new.layout) self.new.memory.now ≡ stored (cells_of (L.shape self.old.layout) self.old.memory.now) k packet.now }
        ensures stays { kept_of (L.shape self.new.layout) self.new.memory.ghost_name self.new.memory.now ≡ kept_of (L.shape self.old.layout) self.old.memory.ghost_name self.old.memory.now }
        ensures layout { self.new.layout ≡ self.old.layout }
        ensures writes { self.new.memory.now ≡ written (L.shape self.old.layout) self.old.memory.now k packet.now }
    {
        let place = self.image().locate(k)?;
        self.memory[place..place + 36].copy_from_slice(packet);
        Ok(())
    }
}
