//! One group after another, from the orbit records to the end packet.
ghost use Rattle.std.specs.Prelude.{◌≡◌, ◌+◌, length, drop, IfOk};
ghost use Rattle.reading.specs.Outcomes.{seen};
ghost use Rattle.reading.specs.Places.{NotPast};
ghost use Rattle.reading.specs.Reading.{end_behind, summary_at, ramps_above, clock_group, summary, end_packet};
ghost use Rattle.reading.specs.Walking.{rows_over, passed, stepped};

use crate::cells::{header_at, next_packet, open_header};
use crate::due::Due;
use crate::group::walk_group;
use crate::keys::{CLOCKS, END, RAMPS, SUMMARY};
use crate::report::Report;
use crate::rows::check_rows;
use crate::walk::{Bounds, Stage, Walk};
use carrier::Carrier;
use odf::fault::FileFault;
use packet::{is_header_like, words_of};
use station::clock::items::ClockItems;
use station::ramp::items::RampItems;

/// The walk behind a group of ramps, whose station has to be above the last.
fn pass_ramps<C: Carrier>(carrier: &C, walk: Walk, last: u32) -> Result<Walk, FileFault>
    ensures { result ≡ passed walk (C.Carrier.cells carrier.now) (ramps_above last) }
{
    let group = walk_group::<RampItems, C>(carrier, walk.report.end, Bounds::above(last), None)?;
    Ok(Walk {
        stage: Stage::Ramps {
            station: group.secondary,
        },
        report: Report {
            end: walk.report.end + 1 + group.records,
            groups: walk.report.groups + 1,
            ramps: walk.report.ramps + group.records,
            ..walk.report
        },
    })
}

/// The walk behind the group of clock offsets.
fn pass_clocks<C: Carrier>(carrier: &C, walk: Walk) -> Result<Walk, FileFault>
    ensures { result ≡ passed walk (C.Carrier.cells carrier.now) clock_group }
{
    let group = walk_group::<ClockItems, C>(carrier, walk.report.end, Bounds::NONE, None)?;
    Ok(Walk {
        stage: Stage::Clocks,
        report: Report {
            end: walk.report.end + 1 + group.records,
            clocks: walk.report.clocks + group.records,
            ..walk.report
        },
    })
}

/// The walk at the end packet, where there is no summary.
fn pass_end<C: Carrier>(carrier: &C, walk: Walk) -> Result<Walk, FileFault>
    ensures { result ≡ passed walk (C.Carrier.cells carrier.now) end_packet }
{
    header_at(carrier, walk.report.end, Due::END)?;
    Ok(Walk {
        stage: Stage::Closed,
        report: Report {
            rows: None,
            ..walk.report
        },
    })
}

/// Packet `k`, behind the last row of a summary, has to be the end packet; data would be a row too many.
fn check_end_behind<C: Carrier>(carrier: &C, k: usize) -> Result<u32, FileFault>
    ensures { result ≡ end_behind k (drop k (C.Carrier.cells carrier.now)) }
{
    let packet = next_packet(carrier, k)?;
    if !is_header_like(&packet) {
        return Err(FileFault::WrongRow { packet: k });
    }
    open_header(&packet, k, Due::END)
}

/// How many rows the summary has whose header is packet `at`, with the end packet behind them.
fn walk_summary<C: Carrier>(carrier: &C, orbits: usize, at: usize) -> Result<usize, FileFault>
    ensures answer { result ≡ seen (λ _. length (rows_over orbits (C.Carrier.cells carrier.now))) (summary_at (rows_over orbits (C.Carrier.cells carrier.now)) at (drop at (C.Carrier.cells carrier.now))) }
    ensures within { IfOk result (λ n. NotPast (C.Carrier.cells carrier.now) (at + 1 + n)) }
{
    header_at(carrier, at, Due::SUMMARY)?;
    let rows = check_rows(carrier, orbits, at + 1)?;
    check_end_behind(carrier, at + 1 + rows)?;
    Ok(rows)
}

/// The walk at the end packet behind the summary.
fn pass_summary<C: Carrier>(carrier: &C, walk: Walk) -> Result<Walk, FileFault>
    ensures { result ≡ passed walk (C.Carrier.cells carrier.now) summary }
{
    let rows = walk_summary(carrier, walk.report.orbits, walk.report.end)?;
    Ok(Walk {
        stage: Stage::Closed,
        report: Report {
            end: walk.report.end + 1 + rows,
            rows: Some(rows),
            ..walk.report
        },
    })
}

/// The walk behind the group whose header comes next. Which key may follow depends on what was read last.
pub(crate) fn step<C: Carrier>(carrier: &C, walk: Walk) -> Result<Walk, FileFault>
    ensures { result ≡ stepped walk (C.Carrier.cells carrier.now) }
{
    let at = walk.report.end;
    let packet = next_packet(carrier, at)?;
    if !is_header_like(&packet) {
        return Err(FileFault::Misplaced { packet: at });
    }
    match (walk.stage, words_of(&packet)[0]) {
        (Stage::Orbits, RAMPS) => pass_ramps(carrier, walk, 0),
        (Stage::Ramps { station }, RAMPS) => pass_ramps(carrier, walk, station),
        (Stage::Orbits | Stage::Ramps { .. }, CLOCKS) => pass_clocks(carrier, walk),
        (_, SUMMARY) => pass_summary(carrier, walk),
        (_, END) => pass_end(carrier, walk),
        _ => Err(FileFault::Misplaced { packet: at }),
    }
}
