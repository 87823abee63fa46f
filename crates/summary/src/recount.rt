//! Counting the orbit records of a carrier by a key, without a heap.
ghost use Rattle.std.specs.Prelude.{◌≡◌, ◌+◌, ◌^◌, ◌<◌, take, drop};
ghost use Rattle.carrier.specs.Cells.{cell_at};
ghost use Rattle.orbit.specs.Orbits.{instant};
ghost use Rattle.summary.specs.Found.{orbit_at, orbits_in};
ghost use Rattle.summary.specs.Rows.{note_of, rows_of, over, passes, kept, total_of, Recount};
ghost use Rattle.summary.specs.Tables.{rows_in};

use crate::key::Key;
use crate::table::Table;
use carrier::Carrier;
use orbit::items::OrbitItems;
use orbit::orbit::Orbit;
use packet::is_header_like;
use record::packing::unpack;

/// The orbit record in a cell, if it holds one.
fn orbit_at<C: Carrier>(carrier: &C, k: usize) -> Option<Orbit>
    ensures { result ≡ orbit_at (cell_at (C.Carrier.cells carrier.now) k) }
{
    let mut packet = [0; 36];
    if carrier.get(k, &mut packet).is_err() || is_header_like(&packet) {
        return None;
    }
    unpack::<OrbitItems>(&packet, k).ok()
}

/// Whether a key is above the floor, if there is one.
fn is_above<K: Key>(above: Option<K>, key: &K) -> bool
    ensures { result ≡ passes K.Key.lt above key.now }
{
    above.is_none_or(|floor| floor < *key)
}

/// A record's key, where it has one above the floor.
fn key_above<K: Key>(above: Option<K>, orbit: &Orbit) -> Option<K>
    ensures { result ≡ kept K.Key.lt above (K.Key.keyed orbit.now) }
{
    K::of(orbit).filter(|key| is_above(above, key))
}

/// Notes a record whose key is above the floor.
fn note_record<K: Key>(table: &mut Table<K>, above: Option<K>, orbit: &Orbit)
    requires { total_of (rows_in table.old) + 1 < 2 ^ 32 }
    ensures { rows_in table.new ≡ take 64 (note_of K.Key.lt (kept K.Key.lt above (K.Key.keyed orbit.now)) (instant orbit.now) (rows_in table.old)) }
{
    if let Some(key) = key_above(above, orbit) {
        table.note(key, orbit.time());
    }
}

/// One pass over `count` cells from cell `from` on, or those of them that there are: leaves in the table the first rows of
/// their recount, at most 64, of those whose keys are above the floor.
pub fn lowest_rows<K: Key, C: Carrier>(
    carrier: &C,
    from: usize,
    count: usize,
    above: Option<K>,
    table: &mut Table<K>,
)
    ensures rows { rows_in table.new ≡ take 64 (over K.Key.lt above (rows_of K.Key.lt K.Key.keyed (orbits_in (take count (drop from (C.Carrier.cells carrier.now)))))) }
    ensures laws { Recount K.Key.lt K.Key.keyed (orbits_in (take count (drop from (C.Carrier.cells carrier.now)))) (rows_of K.Key.lt K.Key.keyed (orbits_in (take count (drop from (C.Carrier.cells carrier.now))))) }
{
    table.clear();
    let cells = carrier.count();
    let start = from.min(cells);
    let end = start + count.min(cells - start);
    for k in start..end {
        if let Some(orbit) = orbit_at(carrier, k) {
            note_record(table, above, &orbit);
        }
    }
}
