//! The data types of orbit records.
ghost use Rattle.std.specs.Prelude.{◌≡◌, is_some};
ghost use Rattle.orbit.specs.Types.{class_at, is_angle};

/// What a data type measures.
#[derive(Clone, Copy, PartialEq, Eq, Debug)]
pub enum Class {
    Vlbi,
    Doppler,
    Range,
    Angle,
}

/// The class of a data type; none where there is no such type.
#[tactic(auto, unfolding(crate::specs::Types::class_at))]
fn class_of(code: u64) -> Option<Class>
    ensures { result ≡ class_at code }
{
    match code {
        1..=6 => Some(Class::Vlbi),
        11..=13 => Some(Class::Doppler),
        36 | 37 | 41 => Some(Class::Range),
        51..=58 => Some(Class::Angle),
        _ => None,
    }
}

/// Whether there is such a type.
pub(crate) fn is_known(code: u64) -> bool
    ensures { result ≡ is_some (class_at code) }
{
    class_of(code).is_some()
}

/// Whether it is an angle.
pub(crate) fn is_angle(code: u64) -> bool
    ensures { result ≡ is_angle (class_at code) }
{
    matches!(class_of(code), Some(Class::Angle))
}
