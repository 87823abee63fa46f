//! Noting records in a table, by their keys.
ghost use Rattle.std.specs.Prelude.{◌≡◌, ◌+◌, ◌^◌, ◌<◌, ◌≤◌, [], ◌∷◌, ◌++◌, length, take, insert, IfOk, IfErr};
ghost use Rattle.summary.specs.Places.{IsRowOf, IsGapFor};
ghost use Rattle.summary.specs.Rows.{fresh, more, note, total_of};
ghost use Rattle.summary.specs.Tables.{rows_in};

use crate::key::Key;
use crate::table::{ROOM, Row, Table};
use arrayvec::ArrayVec;

/// The row of a key that is met for the first time.
fn fresh_row<K: Key>(key: K, time: u64) -> Row<K>
    ensures { result ≡ fresh key time }
{
    Row {
        key,
        count: 1,
        first: time,
        last: time,
    }
}

/// The row with one more record.
fn one_more<K: Key>(row: Row<K>, time: u64) -> Row<K>
    requires { row.count + 1 < 2 ^ 32 }
    ensures { result ≡ more time row }
{
    Row {
        key: row.key,
        count: row.count + 1,
        first: row.first.min(time),
        last: row.last.max(time),
    }
}

/// Puts a row at a place; the rows from there on move up by one, and the last that there is then falls out and is the result.
// Row by row: for the library's `insert` an archive for C needs `memmove` from outside.
fn shift_in<K: Key>(rows: &mut [Row<K>], i: usize, row: Row<K>) -> Row<K>
    requires { i ≤ length rows.old }
    ensures { rows.new ++ result ∷ [] ≡ insert rows.old i row }
{
    let mut carried = row;
    for j in i..rows.len() {
        let next = rows[j];
        rows[j] = carried;
        carried = next;
    }
    carried
}

/// Puts a row at a place; of 64 rows the last falls out.
fn insert_row<K: Key>(rows: &mut ArrayVec<Row<K>, ROOM>, i: usize, row: Row<K>)
    requires { i ≤ length rows.old.items }
    ensures { rows.new.items ≡ take 64 (insert rows.old.items i row) }
{
    let last = shift_in(rows.as_mut_slice(), i, row);
    if rows.len() < ROOM {
        rows.push(last);
    }
}

impl<K: Key> Table<K> {
    /// A table without rows.
    pub fn new() -> Table<K>
        ensures { rows_in result ≡ [] }
    {
        Table {
            rows: ArrayVec::new(),
        }
    }

    /// Leaves no row.
    pub(crate) fn clear(&mut self)
        ensures { rows_in self.new ≡ [] }
    {
        self.rows.clear();
    }

    /// Where the key's row stands, or where it would stand: behind the rows of lower keys.
    fn place_of(&self, key: &K) -> Result<usize, usize>
        ensures found { IfOk result (IsRowOf K.Key.lt key.now (rows_in self.now)) }
        ensures absent { IfErr result (IsGapFor K.Key.lt key.now (rows_in self.now)) }
    {
        self.rows.binary_search_by_key(key, |row| row.key)
    }

    /// Notes one record of a key: one more in the key's row, or a row of its own among the first 64.
    pub(crate) fn note(&mut self, key: K, time: u64)
        requires { total_of (rows_in self.old) + 1 < 2 ^ 32 }
        ensures { rows_in self.new ≡ take 64 (note K.Key.lt key time (rows_in self.old)) }
    {
        match self.place_of(&key) {
            Ok(i) => self.rows[i] = one_more(self.rows[i], time),
            Err(i) => insert_row(&mut self.rows, i, fresh_row(key, time)),
        }
    }
}
