//! Comparing the rows of a summary with the recount.
ghost use Rattle.std.specs.Prelude.{◌≡◌, ◌+◌, [], ◌∷◌, map, length, drop, IfOk, OnOk};
ghost use Rattle.summary.specs.RowWords.{row_packet};
ghost use Rattle.summary.specs.Tables.{rows_in};
ghost use Rattle.reading.specs.Outcomes.{seen};
ghost use Rattle.reading.specs.Places.{Within, NotPast};
ghost use Rattle.reading.specs.Reading.{rows_at};
ghost use Rattle.reading.specs.Walking.{rows_over};

use crate::cells::next_packet;
use carrier::Carrier;
use odf::fault::FileFault;
use summary::recount::lowest_rows;
use summary::row::row_packet;
use summary::summary_key::SummaryKey;
use summary::table::{Row, Table};

/// Packet `k` has to be this row.
fn check_row<C: Carrier>(carrier: &C, row: &Row<SummaryKey>, k: usize) -> Result<(), FileFault>
    ensures answer { result ≡ rows_at k (row_packet row.now ∷ []) (drop k (C.Carrier.cells carrier.now)) }
    ensures within { OnOk result (Within (C.Carrier.cells carrier.now) k) }
{
    let packet = next_packet(carrier, k)?;
    if packet == row_packet(row) {
        Ok(())
    } else {
        Err(FileFault::WrongRow { packet: k })
    }
}

/// The packets from packet `first` on have to be the rows of the table.
fn check_batch<C: Carrier>(
    carrier: &C,
    table: &Table<SummaryKey>,
    first: usize,
) -> Result<(), FileFault>
    requires { NotPast (C.Carrier.cells carrier.now) first }
    ensures answer { result ≡ rows_at first (map row_packet (rows_in table.now)) (drop first (C.Carrier.cells carrier.now)) }
    ensures within { OnOk result (NotPast (C.Carrier.cells carrier.now) (first + length (rows_in table.now))) }
{
    for (i, row) in table.rows().iter().enumerate() {
        check_row(carrier, row, first + i)?;
    }
    Ok(())
}

/// The packets from packet `first` on have to be the rows of the summary of the `orbits` records from packet 5 on; how many
/// rows those are. Each pass over the records gives 64 rows.
pub(crate) fn check_rows<C: Carrier>(
    carrier: &C,
    orbits: usize,
    first: usize,
) -> Result<usize, FileFault>
    requires { NotPast (C.Carrier.cells carrier.now) first }
    ensures answer { result ≡ seen (λ _. length (rows_over orbits (C.Carrier.cells carrier.now))) (rows_at first (rows_over orbits (C.Carrier.cells carrier.now)) (drop first (C.Carrier.cells carrier.now))) }
    ensures within { IfOk result (λ n. NotPast (C.Carrier.cells carrier.now) (first + n)) }
{
    let mut table = Table::<SummaryKey>::new();
    let mut above = None;
    // The packet behind the rows compared so far; no more than one batch of rows is held at a time.
    let mut at = first;
    loop {
        lowest_rows(carrier, 5, orbits, above, &mut table);
        check_batch(carrier, &table, at)?;
        at += table.count();
        above = table.highest();
        if above.is_none() {
            return Ok(at - first);
        }
    }
}
