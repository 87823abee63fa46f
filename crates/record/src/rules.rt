//! Rules that several kinds share.
ghost use Rattle.std.specs.Prelude.{◌≡◌, not, position};
ghost use Rattle.record.specs.Rules.{broken, lowest, paired, within, signed32};

/// The place of the first rule that is broken, counted from 0, if one is.
fn first_broken(rules: &[bool]) -> Option<usize>
    ensures { result ≡ position not rules.now }
{
    rules.iter().position(|kept| !*kept)
}

/// The number of the first rule that is broken, counted from 1, if one is.
pub fn lowest_broken(rules: &[bool]) -> Option<usize>
    ensures { result ≡ broken (lowest 1 rules.now) }
{
    first_broken(rules).map(|place| place + 1)
}

/// Whether a whole and its billionths are a signed pair: never of opposite signs.
pub fn is_signed_pair(whole: i64, part: i64) -> bool
    ensures { result ≡ paired whole part }
{
    part >= -999_999_999
        && part <= 999_999_999
        && !(whole < 0 && part > 0)
        && !(whole > 0 && part < 0)
}

/// Whether a number is from a least number to a most.
pub fn is_within(least: u64, most: u64, number: u64) -> bool
    ensures { result ≡ within least most number }
{
    (least..=most).contains(&number)
}

/// Whether a number has 32 bits, two's complement.
pub fn is_signed32(number: i64) -> bool
    ensures { result ≡ signed32 number }
{
    i32::try_from(number).is_ok()
}
