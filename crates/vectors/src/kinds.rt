//! The items of each kind, from words and as text.
use crate::words::number;
use label::label::LabelItems;
use orbit::items::OrbitItems;
use record::kind::Packed;
use station::clock::items::ClockItems;
use station::ramp::items::RampItems;
use std::alloc::{AllocError, Global};

/// Items that a line of vectors spells out.
pub(crate) trait Spelled: Packed {
    /// The items behind the first two words.
    fn from_words(words: &[&str]) -> Self;

    /// The items as text, in their order.
    fn text(&self, heap: Global) -> Result<String, AllocError>;
}

impl Spelled for OrbitItems {
    fn from_words(words: &[&str]) -> OrbitItems {
        OrbitItems {
            seconds: number(words, 2),
            millis: number(words, 3),
            delay: number(words, 4),
            whole: number(words, 5),
            part: number(words, 6),
            format: number(words, 7),
            receiver: number(words, 8),
            transmitter: number(words, 9),
            network: number(words, 10),
            kind: number(words, 11),
            downlink: number(words, 12),
            uplink: number(words, 13),
            exciter: number(words, 14),
            validity: number(words, 15),
            channel: number(words, 16),
            target: number(words, 17),
            indicator: number(words, 18),
            high: number(words, 19),
            low: number(words, 20),
            auxiliary: number(words, 21),
            compression: number(words, 22),
            updelay: number(words, 23),
        }
    }

    fn text(&self, heap: Global) -> Result<String, AllocError> {
        format!(in heap;
            "{} {} {} {} {} {} {} {} {} {} {} {} {} {} {} {} {} {} {} {} {} {}",
            self.seconds,
            self.millis,
            self.delay,
            self.whole,
            self.part,
            self.format,
            self.receiver,
            self.transmitter,
            self.network,
            self.kind,
            self.downlink,
            self.uplink,
            self.exciter,
            self.validity,
            self.channel,
            self.target,
            self.indicator,
            self.high,
            self.low,
            self.auxiliary,
            self.compression,
            self.updelay
        )
    }
}

impl Spelled for RampItems {
    fn from_words(words: &[&str]) -> RampItems {
        RampItems {
            seconds: number(words, 2),
            fraction: number(words, 3),
            rate: number(words, 4),
            part: number(words, 5),
            gigahertz: number(words, 6),
            station: number(words, 7),
            hertz: number(words, 8),
            hertzpart: number(words, 9),
            endseconds: number(words, 10),
            endfraction: number(words, 11),
        }
    }

    fn text(&self, heap: Global) -> Result<String, AllocError> {
        format!(in heap;
            "{} {} {} {} {} {} {} {} {} {}",
            self.seconds,
            self.fraction,
            self.rate,
            self.part,
            self.gigahertz,
            self.station,
            self.hertz,
            self.hertzpart,
            self.endseconds,
            self.endfraction
        )
    }
}

impl Spelled for ClockItems {
    fn from_words(words: &[&str]) -> ClockItems {
        ClockItems {
            seconds: number(words, 2),
            fraction: number(words, 3),
            offset: number(words, 4),
            part: number(words, 5),
            primary: number(words, 6),
            secondary: number(words, 7),
            spare: number(words, 8),
            endseconds: number(words, 9),
            endfraction: number(words, 10),
        }
    }

    fn text(&self, heap: Global) -> Result<String, AllocError> {
        format!(in heap;
            "{} {} {} {} {} {} {} {} {}",
            self.seconds,
            self.fraction,
            self.offset,
            self.part,
            self.primary,
            self.secondary,
            self.spare,
            self.endseconds,
            self.endfraction
        )
    }
}

/// Eight character codes, the first of them at a place, as one number.
fn text_at(words: &[&str], place: usize) -> u64 {
    words.iter().skip(place).take(8).fold(0u64, |text, word| {
        text.wrapping_mul(256)
            .wrapping_add(word.parse::<u64>().unwrap_or(0))
    })
}

/// The codes of eight characters.
fn codes(heap: Global, text: u64) -> Result<String, AllocError> {
    let [a, b, c, d, e, f, g, h] = text.to_be_bytes();
    format!(in heap; "{a} {b} {c} {d} {e} {f} {g} {h}")
}

impl Spelled for LabelItems {
    fn from_words(words: &[&str]) -> LabelItems {
        LabelItems {
            system: text_at(words, 2),
            program: text_at(words, 10),
            spacecraft: number(words, 18),
            date: number(words, 19),
            time: number(words, 20),
            refdate: number(words, 21),
            reftime: number(words, 22),
        }
    }

    fn text(&self, heap: Global) -> Result<String, AllocError> {
        let system = codes(heap, self.system)?;
        let program = codes(heap, self.program)?;
        format!(in heap;
            "{} {} {} {} {} {} {}",
            system, program, self.spacecraft, self.date, self.time, self.refdate, self.reftime
        )
    }
}
