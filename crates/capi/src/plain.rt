//! The items of a record as plain numbers.
ghost use Rattle.std.specs.Prelude.{◌≡◌, ℕ, List};
ghost use Rattle.orbit.specs.Orbits.{items_of as orbit_items_of};
ghost use Rattle.station.specs.ClockWords.{items_of as clock_items_of};
ghost use Rattle.station.specs.RampWords.{items_of as ramp_items_of};
ghost use Rattle.capi.specs.Records.{Small, orbit_numbers, orbit_naturals, ramp_numbers, ramp_naturals, clock_numbers, clock_naturals};
ghost use Rattle.capi.specs.Small.{small_orbit, small_ramp, small_clock};

use crate::numbers::{OdfClock, OdfOrbit, OdfRamp};
use orbit::items::OrbitItems;
use orbit::orbit::Orbit;
use record::lawful::{Items, Lawful};
use station::clock::Clock;
use station::clock::items::ClockItems;
use station::ramp::Ramp;
use station::ramp::items::RampItems;

/// Items whose unsigned numbers are small in a record. It has no functions: `small_items` learns the fact from it, once for every kind.
trait Plain: Items {
    // The unsigned items.
    ghost naturals: { Self → List ℕ };

    ghost small: { (i : Self) → Self.unfit i ≡ 0 → Small (naturals i) };
}

impl Plain for OrbitItems {
    ghost naturals = { orbit_naturals };

    ghost small = { small_orbit };
}

impl Plain for RampItems {
    ghost naturals = { ramp_naturals };

    ghost small = { small_ramp };
}

impl Plain for ClockItems {
    ghost naturals = { clock_naturals };

    ghost small = { small_clock };
}

/// The items of a record; no unsigned one is large.
fn small_items<I: Plain>(from: &Lawful<I>) -> I
    ensures same { result ≡ from.now.items }
    ensures small { Small (I.naturals result) }
{
    from.items()
}

impl From<Orbit> for OdfOrbit {
    ghost from_gives = { λ x r. r ≡ orbit_numbers (orbit_items_of x) };

    fn from(orbit: Orbit) -> OdfOrbit {
        let i = small_items(&orbit);
        OdfOrbit {
            seconds: i.seconds as i64,
            millis: i.millis as i64,
            delay: i.delay as i64,
            whole: i.whole,
            part: i.part,
            format: i.format as i64,
            receiver: i.receiver as i64,
            transmitter: i.transmitter as i64,
            network: i.network as i64,
            kind: i.kind as i64,
            downlink: i.downlink as i64,
            uplink: i.uplink as i64,
            exciter: i.exciter as i64,
            validity: i.validity as i64,
            channel: i.channel as i64,
            target: i.target as i64,
            indicator: i.indicator as i64,
            high: i.high as i64,
            low: i.low as i64,
            auxiliary: i.auxiliary,
            compression: i.compression as i64,
            updelay: i.updelay as i64,
        }
    }
}

impl From<Ramp> for OdfRamp {
    ghost from_gives = { λ x r. r ≡ ramp_numbers (ramp_items_of x) };

    fn from(ramp: Ramp) -> OdfRamp {
        let i = small_items(&ramp);
        OdfRamp {
            seconds: i.seconds as i64,
            fraction: i.fraction as i64,
            rate: i.rate,
            part: i.part,
            gigahertz: i.gigahertz as i64,
            station: i.station as i64,
            hertz: i.hertz as i64,
            hertzpart: i.hertzpart as i64,
            endseconds: i.endseconds as i64,
            endfraction: i.endfraction as i64,
        }
    }
}

impl From<Clock> for OdfClock {
    ghost from_gives = { λ x r. r ≡ clock_numbers (clock_items_of x) };

    fn from(clock: Clock) -> OdfClock {
        let i = small_items(&clock);
        OdfClock {
            seconds: i.seconds as i64,
            fraction: i.fraction as i64,
            offset: i.offset,
            part: i.part,
            primary: i.primary as i64,
            secondary: i.secondary as i64,
            spare: i.spare as i64,
            endseconds: i.endseconds as i64,
            endfraction: i.endfraction as i64,
        }
    }
}
