//! What an orbit record measured.
ghost use Rattle.std.specs.Prelude.{◌≡◌, true, pos, ◌+ℤ◌, ◌*ℤ◌};
ghost use Rattle.record.specs.Rules.{signed32};
ghost use Rattle.orbit.specs.Orbits.{items_of};
ghost use Rattle.orbit.specs.Values.{value_of, reference_of};

use crate::orbit::Orbit;

/// The observable of a record.
#[derive(Clone, Copy, PartialEq, Eq, Debug)]
pub enum Value {
    /// In billionths of the data type's unit.
    Billionths(i64),
    /// A range in nanoseconds, and the billionths of one apart.
    Nanoseconds { whole: i64, part: i64 },
}

/// A whole and its billionths joined.
fn joined(whole: i64, part: i64) -> i64
    requires whole { signed32 whole ≡ true }
    requires part { signed32 part ≡ true }
    ensures { result ≡ whole *ℤ pos 1000000000 +ℤ part }
{
    whole * 1_000_000_000 + part
}

/// The observable.
// A function, as `reference_of`: `Orbit` is an instance of a type of another crate, which takes no methods here.
pub fn value_of(orbit: &Orbit) -> Value
    ensures { result ≡ value_of (items_of orbit.now) }
{
    let items = orbit.items();
    // The one data type whose observable is split otherwise, by the format's number.
    if items.kind == 41 {
        Value::Nanoseconds {
            whole: joined(items.channel as i64, items.whole),
            part: items.part,
        }
    } else {
        Value::Billionths(joined(items.whole, items.part))
    }
}

/// The reference frequency, in millihertz.
pub fn reference_of(orbit: &Orbit) -> u64
    ensures { result ≡ reference_of (items_of orbit.now) }
{
    let items = orbit.items();
    items.high * 0x100_0000 + items.low
}
