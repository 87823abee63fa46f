//! Signed numbers of 32 bits, and the words that they lie in.
ghost use Rattle.std.specs.Prelude.{◌≡◌, ◌%◌, ◌^◌, true};
ghost use Rattle.std.specs.Int.{w32, w64};
ghost use Rattle.std.proofs.Common.{of_z, to_z};
ghost use Rattle.record.specs.Rules.{signed32};

/// The lowest 32 bits of a number: its two's complement where it has no more.
pub fn word_of(number: i64) -> u32
    ensures low { result ≡ of_z w64 number % 2 ^ 32 }
    ensures word { signed32 number ≡ true → result ≡ of_z w32 number }
{
    (number.cast_unsigned() % 0x1_0000_0000) as u32
}

/// The number that lies in a word.
pub fn number_of(word: u32) -> i64
    ensures { result ≡ to_z w32 word }
{
    i64::from(word.cast_signed())
}
