//! What records are counted by.
ghost use Rattle.std.specs.Prelude.{◌≡◌, Bool, Option};
ghost use Rattle.std.specs.Ordering.{is_lt};
ghost use Rattle.orbit.specs.Orbits.{Orbit};
ghost use Rattle.summary.specs.Orders.{Order};

use orbit::orbit::Orbit;

/// A key of orbit records; keys are ordered by `Ord`.
pub trait Key: Copy + Default + Ord {
    // The key of a record, if it has one, and which of two keys is below the other.
    ghost keyed: { Orbit → Option Self };

    ghost lt: { Self → Self → Bool };

    /// The record's key, if it has one.
    fn of(orbit: &Orbit) -> Option<Self>
        ensures { result ≡ keyed orbit.now };

    // The order is total, and `cmp` answers by it.
    ghost ordered: { Order lt };

    ghost compares: { (x y : Self) → lt x y ≡ is_lt (Self.cmp x y) };
}
