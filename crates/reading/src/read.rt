//! READ: whether a carrier holds a file, and how much stands in it.
ghost use Rattle.std.specs.Prelude.{◌≡◌, ◌<◌, ◌≤◌, length, IfOk};
ghost use Rattle.reading.specs.Files.{answer, both, Judged, Telling};
ghost use Rattle.reading.specs.Walking.{start, walked};

use crate::cells::check_filler;
use crate::group::walk_group;
use crate::opening::read_opening;
use crate::passing::step;
use crate::report::Report;
use crate::walk::{Bounds, Stage, Walk};
use carrier::Carrier;
use label::label::spacecraft_of;
use odf::fault::FileFault;
use orbit::items::OrbitItems;

/// What stands behind the orbit records, up to the last cell. Each group takes a cell, so there are no more groups than cells.
fn read_rest<C: Carrier>(carrier: &C, orbits: usize) -> Result<Report, FileFault>
    requires { orbits < 1000000 }
    ensures { result ≡ walked (length (C.Carrier.cells carrier.now)) (start orbits) (C.Carrier.cells carrier.now) }
{
    let mut walk = Walk::start(orbits);
    // A `for` with a bound, since every loop has to end; no turn takes less than a cell.
    for _turn in 0..carrier.count() {
        walk = step(carrier, walk)?;
        if walk.stage == Stage::Closed {
            check_filler(carrier, walk.report.end + 1)?;
            return Ok(walk.report);
        }
    }
    Err(FileFault::Ended {
        packet: walk.report.end,
    })
}

/// Reads the carrier from its first cell to its last. Accepted, it holds a file, and the report tells how much stands in it;
/// refused, the fault is the first. Nothing is changed.
pub fn read<C: Carrier>(carrier: &C) -> Result<Report, FileFault>
    ensures answer { result ≡ answer (C.Carrier.cells carrier.now) }
    ensures file { Judged (C.Carrier.cells carrier.now) result }
    ensures few { length (C.Carrier.cells carrier.now) ≤ 1000000 }
{
    let label = read_opening(carrier)?;
    let orbits = walk_group::<OrbitItems, C>(
        carrier,
        4,
        Bounds::NONE,
        Some(spacecraft_of(&label)),
    )?;
    read_rest(carrier, orbits.records)
}

/// Reads two carriers, of one make or not. Where both are accepted, they hold equal packets up to and with the end packet
/// exactly when they are read as equal contents.
pub fn read_both<C: Carrier, D: Carrier>(one: &C, other: &D) -> Result<(Report, Report), FileFault>
    ensures answer { result ≡ both (answer (C.Carrier.cells one.now)) (answer (D.Carrier.cells other.now)) }
    ensures law { IfOk result (λ b. Telling (C.Carrier.cells one.now) (D.Carrier.cells other.now) b.0 b.1) }
{
    let first = read(one)?;
    let second = read(other)?;
    Ok((first, second))
}
