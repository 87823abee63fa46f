//! Numbers of 64 bits as two words.
ghost use Rattle.std.specs.Prelude.{◌≡◌, ◌+◌, ◌*◌, ◌/◌, ◌%◌, ◌^◌, [], ◌∷◌};

/// The number of 64 bits that two words make.
pub fn joined(high: u32, low: u32) -> u64
    ensures { result ≡ high * 2 ^ 32 + low }
{
    (u64::from(high) << 32) + u64::from(low)
}

/// The two words of a number of 64 bits.
pub fn halves(number: u64) -> [u32; 2]
    ensures { result ≡ number / 2 ^ 32 ∷ number % 2 ^ 32 ∷ [] }
{
    [(number >> 32) as u32, (number % 0x1_0000_0000) as u32]
}
