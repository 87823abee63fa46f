//! A kind of record: how its lawful records lie in nine words, and when they are.
ghost use Rattle.std.specs.Prelude.{◌≡◌, ℕ, ◌^◌, ◌<◌, List, length, ◌≢◌, slice_index};
ghost use Rattle.record.specs.Rules.{broken};

use crate::lawful::{Items, Lawful};

/// Items that lie in a packet of their own, as nine words.
pub trait Packed: Items {
    // The nine words of items, and the items in nine words.
    ghost packed: { Self → List ℕ };

    ghost unpacked: { List ℕ → Self };

    /// The nine words of a record.
    fn to_words(from: &Lawful<Self>) -> [u32; 9]
        ensures { result ≡ packed from.now.items };

    /// The items in nine words.
    fn of_words(words: &[u32; 9]) -> Self
        ensures { result ≡ unpacked words.now };

    ghost back: { (i : Self) → Self.unfit i ≡ 0 → unpacked (packed i) ≡ i };

    ghost given: { (w : List ℕ) → length w ≡ 9 → ((k : ℕ) → slice_index w k < 2 ^ 32) → packed (unpacked w) ≡ w };

    ghost nine: { (i : Self) → length (packed i) ≡ 9 };

    ghost narrow: { (i : Self) → Self.unfit i ≡ 0 → (k : ℕ) → slice_index (packed i) k < 2 ^ 32 };

    ghost headless: { (i : Self) → Self.unfit i ≡ 0 → slice_index (packed i) 4 ≡ 0 → slice_index (packed i) 5 ≢ 0 };
}

/// A kind of record. Generic code reads the constants and the laws, never a kind's insides.
pub trait RecordKind: Packed {
    /// The primary key of the kind's group.
    const KEY: u32;
    /// The least number of records that a group of the kind has.
    const LEAST: usize;

    ghost KEY: { ℕ };

    ghost LEAST: { ℕ };

    // The item that names another owner, 0 where none does; a record's time, and the time before which none may follow it, in
    // billionths of a second.
    ghost foreign: { ℕ → Self → ℕ };

    ghost starts: { Self → ℕ };

    ghost until: { Self → ℕ };

    /// The item that names another owner, if one does.
    fn foreign_item(&self, owner: u64) -> Option<usize>
        ensures { result ≡ broken (foreign owner self.now) };

    /// The record's time, in billionths of a second.
    fn time_of(from: &Lawful<Self>) -> u64
        ensures { result ≡ starts from.now.items };

    /// The time before which no record may follow, in billionths of a second.
    fn end_time_of(from: &Lawful<Self>) -> u64
        ensures { result ≡ until from.now.items };
}

impl<K: RecordKind> Lawful<K> {
    /// The record's time, in billionths of a second.
    pub fn time(&self) -> u64
        ensures { result ≡ K.RecordKind.starts self.now.items }
    {
        K::time_of(self)
    }

    /// The time before which no record may follow, in billionths of a second.
    pub fn end_time(&self) -> u64
        ensures { result ≡ K.RecordKind.until self.now.items }
    {
        K::end_time_of(self)
    }
}
