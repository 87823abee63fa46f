//! Orbit records as one of the kinds of record.
ghost use Rattle.std.specs.Prelude.{◌≡◌, ◌+◌, ◌*◌};
ghost use Rattle.orbit.specs.OrbitWords.{foreign_orbit};

use crate::items::OrbitItems;
use crate::orbit::Orbit;
use record::kind::RecordKind;

impl RecordKind for OrbitItems {
    const KEY: u32 = 109;

    const LEAST: usize = 0;

    ghost KEY = { 109 };

    ghost LEAST = { 0 };

    ghost foreign = { foreign_orbit };

    ghost starts = { λ i. i.seconds * 1000000000 + i.millis * 1000000 };

    ghost until = { λ i. i.seconds * 1000000000 + i.millis * 1000000 };

    // Item 16 names the spacecraft; a quasar's number passes.
    fn foreign_item(&self, owner: u64) -> Option<usize> {
        match self.kind {
            3 | 4 | 6 => None,
            _ if self.target == owner => None,
            _ => Some(16),
        }
    }

    #[tactic(auto, using(crate::specs::OrbitKindLaws::timed))]
    fn time_of(from: &Orbit) -> u64 {
        let items = from.items();
        items.seconds * 1_000_000_000 + items.millis * 1_000_000
    }

    fn end_time_of(from: &Orbit) -> u64 {
        Self::time_of(from)
    }
}
