//! Reading a disk image.
ghost use Rattle.std.specs.Prelude.{◌≡◌};
ghost use Rattle.makes.specs.Shapes.{cells_of, disk};
ghost use Rattle.reading.specs.Files.{answer};
ghost use Rattle.capi.specs.Calls.{call_result, filled, faulted};
ghost use Rattle.capi.specs.Reports.{report_numbers};

use crate::numbers::{OdfFault, OdfReport};
use crate::picking::tell;
use makes::image::Image;
use makes::layout::Disk;
use reading::read::read;
use reading::report::Report;

impl From<Report> for OdfReport {
    ghost from_gives = { λ report r. r ≡ report_numbers report };

    fn from(report: Report) -> OdfReport {
        let (summary, rows) = report.rows.map_or((0, 0), |count| (1, count as u64));
        OdfReport {
            end: report.end as u64,
            orbits: report.orbits as u64,
            rampgroups: report.groups as u64,
            ramps: report.ramps as u64,
            clocks: report.clocks as u64,
            summary,
            rows,
        }
    }
}

/// Reads a disk image. The result is 0, and `report` tells how much stands in the file; or it is the number of the fault,
/// which `fault` tells.
#[unsafe(no_mangle)]
pub extern "C" fn odf_read(image: &[u8], report: &mut OdfReport, fault: &mut OdfFault) -> u32
    ensures result { result ≡ call_result (answer (cells_of disk image.now)) }
    ensures report { report.new ≡ filled report_numbers report.old (answer (cells_of disk image.now)) }
    ensures fault { fault.new ≡ faulted fault.old (answer (cells_of disk image.now)) }
{
    match read(&Image::new(Disk, image)) {
        Ok(found) => {
            *report = OdfReport::from(found);
            0
        }
        Err(e) => tell(e, fault),
    }
}
