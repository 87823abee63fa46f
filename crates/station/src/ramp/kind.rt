//! The rules of a ramp record, and how it lies in nine words.
ghost use Rattle.std.specs.Prelude.{◌≡◌};
ghost use Rattle.station.specs.RampRules.{ended, bad_ramp, ramp_words, ramp_of};
ghost use Rattle.station.specs.RampWords.{other_station, begins, ends};
ghost use Rattle.station.specs.RampLaws;

use crate::ramp::Ramp;
use crate::ramp::items::RampItems;
use record::kind::{Packed, RecordKind};
use record::lawful::Items;
use record::rules::{is_signed_pair, is_signed32, is_within, lowest_broken};
use record::signed::{number_of, word_of};

/// Whether the end is a time that is later than the start.
fn is_ended(items: &RampItems) -> bool
    ensures { result ≡ ended items.now }
{
    items.endseconds <= 4_294_967_295
        && items.endfraction <= 999_999_999
        && (items.seconds < items.endseconds
            || (items.seconds == items.endseconds && items.fraction < items.endfraction))
}

impl Items for RampItems {
    ghost bad = { bad_ramp };

    ghost unfit = { bad_ramp };

    fn bad_item(&self) -> Option<usize> {
        lowest_broken(&[
            self.seconds <= 4_294_967_295,
            self.fraction <= 999_999_999,
            is_signed32(self.rate),
            is_signed_pair(self.rate, self.part),
            self.gigahertz <= 4_194_303,
            is_within(1, 1_023, self.station),
            self.hertz <= 999_999_999,
            self.hertzpart <= 999_999_999,
            is_ended(self),
        ])
    }

    ghost keeps = { λ i e. e };
}

impl Packed for RampItems {
    ghost packed = { ramp_words };

    ghost unpacked = { ramp_of };

    #[tactic(auto, using(crate::specs::RampLaws::keeps, crate::specs::RampLaws::time_fits))]
    fn to_words(from: &Ramp) -> [u32; 9] {
        let RampItems {
            seconds,
            fraction,
            rate,
            part,
            gigahertz,
            station,
            hertz,
            hertzpart,
            endseconds,
            endfraction,
        } = from.items();
        [
            seconds as u32,
            fraction as u32,
            word_of(rate),
            word_of(part),
            (gigahertz * 1_024 + station) as u32,
            hertz as u32,
            hertzpart as u32,
            endseconds as u32,
            endfraction as u32,
        ]
    }

    #[tactic(auto, unfolding(crate::specs::RampRules::ramp_of))]
    fn of_words(words: &[u32; 9]) -> RampItems {
        let [
            seconds,
            fraction,
            rate,
            part,
            band,
            hertz,
            hertzpart,
            endseconds,
            endfraction,
        ] = *words;
        RampItems {
            seconds: u64::from(seconds),
            fraction: u64::from(fraction),
            rate: number_of(rate),
            part: number_of(part),
            gigahertz: u64::from(band / 1_024),
            station: u64::from(band % 1_024),
            hertz: u64::from(hertz),
            hertzpart: u64::from(hertzpart),
            endseconds: u64::from(endseconds),
            endfraction: u64::from(endfraction),
        }
    }

    ghost back = { RampLaws.items_back };

    ghost given = { RampLaws.words_given };

    ghost nine = { RampLaws.items_nine };

    ghost narrow = { RampLaws.items_narrow };

    ghost headless = { λ i e z _. RampLaws.items_headless i e z };
}

impl RecordKind for RampItems {
    const KEY: u32 = 2_030;

    const LEAST: usize = 1;

    ghost KEY = { 2030 };

    ghost LEAST = { 1 };

    ghost foreign = { other_station };

    ghost starts = { begins };

    ghost until = { ends };

    fn foreign_item(&self, owner: u64) -> Option<usize> {
        (self.station != owner).then_some(6)
    }

    #[tactic(auto, using(crate::specs::RampLaws::time_fits))]
    // As a clock record's, and as the end below: one sum of two fields, of another struct or at other names.
    fn time_of(from: &Ramp) -> u64 {
        let items = from.items();
        items.seconds * 1_000_000_000 + items.fraction
    }

    #[tactic(auto, using(crate::specs::RampLaws::end_time_fits))]
    fn end_time_of(from: &Ramp) -> u64 {
        let items = from.items();
        items.endseconds * 1_000_000_000 + items.endfraction
    }
}
