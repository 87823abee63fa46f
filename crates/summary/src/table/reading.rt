//! Reading the rows of a table.
ghost use Rattle.std.specs.Prelude.{◌≡◌, length, ◌==◌};
ghost use Rattle.std.specs.List.{slice_get};
ghost use Rattle.summary.specs.Rows.{highest_of};
ghost use Rattle.summary.specs.Tables.{rows_in};

use crate::key::Key;
use crate::table::{ROOM, Row, Table};

impl<K: Key> Table<K> {
    /// The rows, in the order of their keys.
    pub fn rows(&self) -> &[Row<K>]
        ensures { result.now ≡ rows_in self.now }
    {
        &self.rows
    }

    /// How many rows there are.
    pub fn count(&self) -> usize
        ensures { result ≡ length (rows_in self.now) }
    {
        self.rows.len()
    }

    /// Row `i`, counted from 0, if there is one.
    pub fn row(&self, i: usize) -> Option<Row<K>>
        ensures { result ≡ slice_get (rows_in self.now) i }
    {
        self.rows.get(i).copied()
    }

    /// Whether the table has no room left.
    pub fn is_full(&self) -> bool
        ensures { result ≡ (length (rows_in self.now) == 64) }
    {
        self.rows.is_full()
    }

    /// The key of the last row of a full table; the next pass looks above it.
    pub fn highest(&self) -> Option<K>
        ensures { result ≡ highest_of (rows_in self.now) }
    {
        self.row(ROOM - 1).map(|row| row.key)
    }
}
