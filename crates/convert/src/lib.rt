//! Converting the packets of a carrier into a memory of any make.
#![tactic(auto)]

ghost use Rattle.std.specs.Prelude.{◌≡◌, ◌≤◌, [], ◌++◌, length, drop, Ok, MatchResult};
ghost use Rattle.carrier.specs.Cells.{first_damage};
ghost use Rattle.makes.specs.Names.{shape_of};
ghost use Rattle.makes.specs.Shapes.{cells_of};
ghost use Rattle.convert.specs.Conversion.{Refilled, Smallest, answer};

use carrier::fault::CarrierFault;
use carrier::{Carrier, WritingCarrier, check_cells};
use makes::image_mut::ImageMut;
use makes::layout::{Block1200, Block4800, Disk, Layout};
use makes::make::Make;

/// Copies every packet of `source` into the cell of `target` with the same number.
fn copy_cells<S: Carrier, T: WritingCarrier>(source: &S, target: &mut T) -> Result<(), CarrierFault>
    requires whole { first_damage 0 (S.Carrier.cells source.now) ≡ Ok tt }
    requires ready { first_damage 0 (T.Carrier.cells target.old) ≡ Ok tt }
    requires room { length (S.Carrier.cells source.now) ≤ length (T.Carrier.cells target.old) }
    ensures done { result ≡ Ok tt }
    ensures copies { T.Carrier.cells target.new ≡ S.Carrier.cells source.now ++ drop (length (S.Carrier.cells source.now)) (T.Carrier.cells target.old) }
    ensures stays { T.WritingCarrier.kept target.new ≡ T.WritingCarrier.kept target.old }
{
    let mut packet = [0; 36];
    for k in 0..source.count() {
        source.get(k, &mut packet)?;
        target.put(k, &packet)?;
    }
    Ok(())
}

/// The same as `convert`, of a carrier of any layout over the target.
fn refill<S: Carrier, L: Layout>(
    source: &S,
    image: &mut ImageMut<'_, L>,
) -> Result<usize, CarrierFault>
    ensures answers { result ≡ answer (S.Carrier.cells source.now) (cells_of (L.shape image.old.layout) image.old.memory.now) }
    ensures memory { MatchResult result (λ _. Refilled (L.shape image.old.layout) (S.Carrier.cells source.now) image.old.memory.now image.new.memory.now) (λ _. image.new.memory.now ≡ image.old.memory.now) }
    ensures same { image.new.memory.ghost_name ≡ image.old.memory.ghost_name }
{
    check_cells(source)?;
    let packets = source.count();
    let room = image.count();
    if room < packets {
        return Err(CarrierFault::NoSuchCell { cell: room });
    }
    image.clear();
    copy_cells(source, image)?;
    Ok(packets)
}

/// Makes `target` a memory that holds the packets of `source` and then filler; answers how many packets there are.
/// Refused, it writes nothing.
// An arm for each make, since in each the numbers of the layout are constants when it is compiled: with the make as the layout
// a conversion took up to 1.4 times as long.
pub fn convert<S: Carrier>(source: &S, make: Make, target: &mut [u8]) -> Result<usize, CarrierFault>
    ensures answers { result ≡ answer (S.Carrier.cells source.now) (cells_of (shape_of make) target.old) }
    ensures memory { MatchResult result (λ _. Refilled (shape_of make) (S.Carrier.cells source.now) target.old target.new) (λ _. target.new ≡ target.old) }
{
    match make {
        Make::Disk => refill(source, &mut ImageMut::new(Disk, target)),
        Make::Block1200 => refill(source, &mut ImageMut::new(Block1200, target)),
        Make::Block4800 => refill(source, &mut ImageMut::new(Block4800, target)),
    }
}

/// The length of the smallest memory of a make that `source` can be converted into.
pub fn converted_length<S: Carrier>(source: &S, make: Make) -> usize
    ensures { Smallest (shape_of make) (length (S.Carrier.cells source.now)) result }
{
    source.count().div_ceil(make.packets()) * make.block()
}
