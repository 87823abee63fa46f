//! The rules of a clock record, and how it lies in nine words.
ghost use Rattle.station.specs.ClockRules.{bad_clock, clock_words, clock_of};
ghost use Rattle.station.specs.ClockWords.{no_owner, begins};
ghost use Rattle.station.specs.ClockLaws;

use crate::clock::Clock;
use crate::clock::items::ClockItems;
use record::kind::{Packed, RecordKind};
use record::lawful::Items;
use record::rules::{is_signed_pair, is_signed32, is_within, lowest_broken};
use record::signed::{number_of, word_of};

impl Items for ClockItems {
    ghost bad = { bad_clock };

    ghost unfit = { bad_clock };

    #[tactic(auto, using(std::proofs::lemmas::Int::ints), unfolding(crate::specs::ClockRules::bad_clock))]
    fn bad_item(&self) -> Option<usize> {
        lowest_broken(&[
            self.seconds <= 4_294_967_295,
            self.fraction <= 999_999_999,
            is_signed32(self.offset),
            is_signed_pair(self.offset, self.part),
            is_within(1, 1_023, self.primary),
            self.secondary <= 1_023,
            self.spare == 0,
            self.endseconds == 0,
            self.endfraction == 0,
        ])
    }

    ghost keeps = { λ i e. e };
}

impl Packed for ClockItems {
    ghost packed = { clock_words };

    ghost unpacked = { clock_of };

    #[tactic(auto, using(crate::specs::ClockLaws::keeps, crate::specs::ClockLaws::time_fits))]
    fn to_words(from: &Clock) -> [u32; 9] {
        let ClockItems {
            seconds,
            fraction,
            offset,
            part,
            primary,
            secondary,
            spare,
            endseconds,
            endfraction,
        } = from.items();
        [
            seconds as u32,
            fraction as u32,
            word_of(offset),
            word_of(part),
            primary as u32,
            secondary as u32,
            spare as u32,
            endseconds as u32,
            endfraction as u32,
        ]
    }

    #[tactic(auto, unfolding(crate::specs::ClockRules::clock_of))]
    fn of_words(words: &[u32; 9]) -> ClockItems {
        let [
            seconds,
            fraction,
            offset,
            part,
            primary,
            secondary,
            spare,
            endseconds,
            endfraction,
        ] = *words;
        ClockItems {
            seconds: u64::from(seconds),
            fraction: u64::from(fraction),
            offset: number_of(offset),
            part: number_of(part),
            primary: u64::from(primary),
            secondary: u64::from(secondary),
            spare: u64::from(spare),
            endseconds: u64::from(endseconds),
            endfraction: u64::from(endfraction),
        }
    }

    ghost back = { ClockLaws.items_back };

    ghost given = { ClockLaws.words_given };

    ghost nine = { ClockLaws.items_nine };

    ghost narrow = { ClockLaws.items_narrow };

    ghost headless = { λ i e z _. ClockLaws.items_headless i e z };
}

impl RecordKind for ClockItems {
    const KEY: u32 = 2_040;

    const LEAST: usize = 1;

    ghost KEY = { 2040 };

    ghost LEAST = { 1 };

    ghost foreign = { no_owner };

    ghost starts = { begins };

    ghost until = { begins };

    fn foreign_item(&self, _owner: u64) -> Option<usize> {
        None
    }

    #[tactic(auto, using(crate::specs::ClockLaws::time_fits))]
    // As a ramp's: one sum of two fields, of another struct.
    fn time_of(from: &Clock) -> u64 {
        let items = from.items();
        items.seconds * 1_000_000_000 + items.fraction
    }

    fn end_time_of(from: &Clock) -> u64 {
        Self::time_of(from)
    }
}
