//! Picking one record of a disk image.
ghost use Rattle.std.specs.Prelude.{◌≡◌};
ghost use Rattle.odf.specs.Refusals.{number};
ghost use Rattle.orbit.specs.Orbits.{orbit_kind, items_of as orbit_items_of};
ghost use Rattle.station.specs.ClockWords.{clock_kind, items_of as clock_items_of};
ghost use Rattle.station.specs.RampWords.{ramp_kind, items_of as ramp_items_of};
ghost use Rattle.record.specs.Kinds.{packed_by, bad_by};
ghost use Rattle.capi.specs.Calls.{Leaves, LeavesBy, Picked, disk_cell, plain_refusal, told};
ghost use Rattle.capi.specs.Records.{orbit_numbers, ramp_numbers, clock_numbers};

use crate::numbers::{OdfClock, OdfFault, OdfOrbit, OdfRamp};
use carrier::fault::Refusal;
use makes::image::Image;
use makes::layout::Disk;
use odf::fault::FileFault;
use odf::pick::pick;
use orbit::items::OrbitItems;
use record::kind::RecordKind;
use record::lawful::Lawful;
use station::clock::items::ClockItems;
use station::ramp::items::RampItems;

impl From<Refusal> for OdfFault {
    ghost from_gives = { λ refusal r. r ≡ plain_refusal refusal };

    fn from(refusal: Refusal) -> OdfFault {
        OdfFault {
            number: refusal.number as u64,
            layer: refusal.layer as u64,
            packet: refusal.packet as u64,
            item: refusal.item as u64,
            byte: refusal.byte as u64,
        }
    }
}

/// Tells a fault; its number is the result.
pub(crate) fn tell(e: FileFault, fault: &mut OdfFault) -> u32
    ensures number { result ≡ number e }
    ensures told { fault.new ≡ told e }
{
    let refusal = Refusal::from(e);
    *fault = OdfFault::from(refusal);
    refusal.number as u32
}

/// Picks a record of any kind.
fn pick_plain<K: RecordKind, N: From<Lawful<K>> + Drop>(
    image: &[u8],
    k: usize,
    found: &mut N,
    fault: &mut OdfFault,
) -> u32
    ensures { LeavesBy N.From.from_gives (Picked (packed_by K.Items K.Packed.own) (bad_by K.Items K.Packed.own) k (disk_cell image.now k)) result found.old found.new fault.old fault.new }
{
    match pick::<K, _>(&Image::new(Disk, image), k) {
        Ok(x) => {
            *found = N::from(x);
            0
        }
        Err(e) => tell(e, fault),
    }
}

// Three calls that differ in a type, with four parameters each: C has no generic call, and no pair of a result and a fault.

/// Reads cell `k` of a disk image as an orbit record. The result is 0, and `found` has the items; or it is the number of
/// the fault, which `fault` tells.
#[unsafe(no_mangle)]
pub extern "C" fn odf_pick_orbit(
    image: &[u8],
    k: usize,
    found: &mut OdfOrbit,
    fault: &mut OdfFault,
) -> u32
    ensures { Leaves (λ x. orbit_numbers (orbit_items_of x)) (Picked orbit_kind.packed orbit_kind.bad k (disk_cell image.now k)) result found.old found.new fault.old fault.new }
{
    pick_plain::<OrbitItems, _>(image, k, found, fault)
}

/// Reads cell `k` of a disk image as a ramp, as `odf_pick_orbit` does.
#[unsafe(no_mangle)]
pub extern "C" fn odf_pick_ramp(
    image: &[u8],
    k: usize,
    found: &mut OdfRamp,
    fault: &mut OdfFault,
) -> u32
    ensures { Leaves (λ x. ramp_numbers (ramp_items_of x)) (Picked ramp_kind.packed ramp_kind.bad k (disk_cell image.now k)) result found.old found.new fault.old fault.new }
{
    pick_plain::<RampItems, _>(image, k, found, fault)
}

/// Reads cell `k` of a disk image as a clock offset, as `odf_pick_orbit` does.
#[unsafe(no_mangle)]
pub extern "C" fn odf_pick_clock(
    image: &[u8],
    k: usize,
    found: &mut OdfClock,
    fault: &mut OdfFault,
) -> u32
    ensures { Leaves (λ x. clock_numbers (clock_items_of x)) (Picked clock_kind.packed clock_kind.bad k (disk_cell image.now k)) result found.old found.new fault.old fault.new }
{
    pick_plain::<ClockItems, _>(image, k, found, fault)
}
