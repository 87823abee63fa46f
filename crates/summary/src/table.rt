//! A table of the rows that a pass over the records has room for.
ghost use Rattle.std.specs.Prelude.{◌≤◌, length};
ghost use Rattle.summary.specs.Rows.{Ascends, Ascends-prop};

pub mod noting;
pub mod reading;

use crate::key::Key;
use arrayvec::ArrayVec;

/// How many rows a table has room for.
const ROOM: usize = 64;

/// How many records have a key, with the times of the first and the last in billionths of a second.
#[derive(Clone, Copy, PartialEq, Eq, Debug, Default)]
pub struct Row<K> {
    pub key: K,
    pub count: u32,
    pub first: u64,
    pub last: u64,
}

/// At most 64 rows, whose keys ascend.
#[derive(Drop)]
pub struct Table<K: Key> {
    rows: ArrayVec<Row<K>, ROOM>,
    ghost within: { length rows.items ≤ 64 },
    ghost ascends: { Ascends K.lt rows.items } by { Ascends-prop K.lt rows.items },
}
