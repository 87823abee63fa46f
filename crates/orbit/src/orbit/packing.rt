//! The items of an orbit record in nine words.
ghost use Rattle.std.specs.Prelude.{◌≡◌, ◌+◌, ◌*◌, ◌^◌, ◌<◌};
ghost use Rattle.std.specs.Int.Signed.{mag};
ghost use Rattle.packet.specs.Fields.{join, Fill};
ghost use Rattle.orbit.specs.OrbitWords.{W2, W5, W67, W89, items2, items5, items67, items89, of20, to20, orbit_words, orbit_of};
ghost use Rattle.orbit.specs.OrbitLaws.{items_back, words_back};
ghost use Rattle.orbit.specs.OrbitKindLaws;

use crate::items::OrbitItems;
use crate::orbit::Orbit;
use record::halves::{halves, joined};
use record::kind::Packed;
use record::signed::{number_of, word_of};

/// The lowest twenty bits of a number.
fn bits20(number: i64) -> u64
    requires { mag number < 2 ^ 19 }
    ensures { result ≡ of20 number }
{
    number.cast_unsigned() % 0x10_0000
}

/// Twenty bits of two's complement as a number.
fn signed20(bits: u64) -> i64
    requires { bits < 2 ^ 20 }
    ensures { result ≡ to20 bits }
{
    if bits < 0x8_0000 {
        bits as i64
    } else {
        bits as i64 - 0x10_0000
    }
}

impl OrbitItems {
    // A function for each of the four words: they differ in how many fields they have and which, and a shift a field is plainest.
    #[tactic(auto, unfolding(packet::specs::Fields::join))]
    fn word2(&self) -> u64
        requires { Fill W2 (items2 self.now) }
        ensures is { result ≡ join W2 (items2 self.now) }
        ensures fits { result < 2 ^ 32 }
    {
        (self.millis << 22) + self.delay
    }

    #[tactic(auto, unfolding(packet::specs::Fields::join))]
    fn word5(&self) -> u64
        requires { Fill W5 (items5 self.now) }
        ensures is { result ≡ join W5 (items5 self.now) }
        ensures fits { result < 2 ^ 32 }
    {
        (self.format << 29)
            + (self.receiver << 22)
            + (self.transmitter << 15)
            + (self.network << 13)
            + (self.kind << 7)
            + (self.downlink << 5)
            + (self.uplink << 3)
            + (self.exciter << 1)
            + self.validity
    }

    #[tactic(auto, unfolding(packet::specs::Fields::join))]
    fn word67(&self) -> u64
        requires { Fill W67 (items67 self.now) }
        ensures { result ≡ join W67 (items67 self.now) }
    {
        (self.channel << 57)
            + (self.target << 47)
            + (self.indicator << 46)
            + (self.high << 24)
            + self.low
    }

    fn word89(&self) -> u64
        requires fill { Fill W89 (items89 self.now) }
        requires small { mag self.now.auxiliary < 2 ^ 19 }
        ensures { result ≡ join W89 (items89 self.now) }
    {
        (bits20(self.auxiliary) << 44) + (self.compression << 22) + self.updelay
    }
}

impl Packed for OrbitItems {
    ghost packed = { orbit_words };

    ghost unpacked = { orbit_of };

    ghost back = { OrbitKindLaws.back };

    ghost given = { words_back };

    ghost nine = { OrbitKindLaws.nine_items };

    ghost narrow = { OrbitKindLaws.narrow_items };

    ghost headless = { λ i e h _. OrbitKindLaws.headless_items i e h };

    fn to_words(from: &Orbit) -> [u32; 9] {
        let items = from.items();
        let [high, low] = halves(items.word67());
        let [top, bottom] = halves(items.word89());
        [
            items.seconds as u32,
            items.word2() as u32,
            word_of(items.whole),
            word_of(items.part),
            items.word5() as u32,
            high,
            low,
            top,
            bottom,
        ]
    }

    fn of_words(words: &[u32; 9]) -> OrbitItems {
        let [seconds, date, whole, part, link, high, low, top, bottom] = *words;
        let date = u64::from(date);
        let link = u64::from(link);
        let middle = joined(high, low);
        let last = joined(top, bottom);
        OrbitItems {
            seconds: u64::from(seconds),
            millis: (date >> 22) % 0x400,
            delay: date % 0x40_0000,
            whole: number_of(whole),
            part: number_of(part),
            format: (link >> 29) % 8,
            receiver: (link >> 22) % 0x80,
            transmitter: (link >> 15) % 0x80,
            network: (link >> 13) % 4,
            kind: (link >> 7) % 0x40,
            downlink: (link >> 5) % 4,
            uplink: (link >> 3) % 4,
            exciter: (link >> 1) % 4,
            validity: link % 2,
            channel: (middle >> 57) % 0x80,
            target: (middle >> 47) % 0x400,
            indicator: (middle >> 46) % 2,
            high: (middle >> 24) % 0x40_0000,
            low: middle % 0x100_0000,
            auxiliary: signed20((last >> 44) % 0x10_0000),
            compression: (last >> 22) % 0x40_0000,
            updelay: last % 0x40_0000,
        }
    }
}
