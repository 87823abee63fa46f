//! The groups of a file.
#![tactic(auto)]

ghost use Rattle.std.specs.Prelude.{◌≡◌, ◌*◌, ◌≤◌, length};
ghost use Rattle.reading.specs.Files.{reads};
ghost use Rattle.groups.specs.Groups.{group_count, listed, shown, Ready};

use carrier::Carrier;
use label::header::Header;
use odf::fault::FileFault;
use odf::pick::packet_at;
use packet::is_header_like;
use reading::read::read;
use reading::report::Report;

/// A group of a file: its key and secondary key, its header's packet, and how many data packets it has.
#[derive(Clone, Copy, PartialEq, Eq, Debug, Default)]
pub struct GroupRow {
    pub key: i32,
    pub secondary: u32,
    pub packet: usize,
    pub packets: usize,
}

/// How many groups a file has, the end among them.
fn count_groups(report: Report) -> usize
    requires { 2 * report.groups ≤ report.end }
    ensures { result ≡ group_count report }
{
    4 + report.groups + usize::from(report.clocks > 0) + usize::from(report.rows.is_some())
}

/// One row for each group of the file whose end packet is `end`: a header opens a row, and every other packet counts in the
/// row before. Answers how many rows there are.
fn fill_rows<C: Carrier>(carrier: &C, end: usize, rows: &mut [GroupRow]) -> Result<usize, FileFault>
    requires { Ready (C.Carrier.cells carrier.now) end (length rows.old) }
    ensures answer { result ≡ listed (length rows.old) (reads (C.Carrier.cells carrier.now)) }
    ensures shows { rows.new ≡ shown (reads (C.Carrier.cells carrier.now)) rows.old }
{
    // Counted by hand: the number of rows so far is the answer, and tells the last row, in which data counts.
    let mut n = 0;
    for k in 0..=end {
        let packet = packet_at(carrier, k)?;
        if is_header_like(&packet) {
            let header = Header::from(&packet);
            rows[n] = GroupRow {
                key: header.key,
                secondary: header.secondary,
                packet: k,
                packets: 0,
            };
            n += 1;
        } else {
            rows[n - 1].packets += 1;
        }
    }
    Ok(n)
}

/// One row for each group of the file, the end among them: its key, secondary key, header's packet and number of data
/// packets. Answers how many groups there are; the rows behind them are left. Refused as reading is, and with `TooFewRows`
/// where the rows are fewer than the groups; then no row is touched.
// The rows are the caller's, and how many were filled is the answer: the library has no heap.
pub fn groups<C: Carrier>(carrier: &C, rows: &mut [GroupRow]) -> Result<usize, FileFault>
    ensures answer { result ≡ listed (length rows.old) (reads (C.Carrier.cells carrier.now)) }
    ensures shows { rows.new ≡ shown (reads (C.Carrier.cells carrier.now)) rows.old }
{
    let report = read(carrier)?;
    if rows.len() < count_groups(report) {
        return Err(FileFault::TooFewRows);
    }
    fill_rows(carrier, report.end, rows)
}
