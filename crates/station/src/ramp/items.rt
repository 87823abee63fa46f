//! The items of a ramp record, as they come.

/// The items of a ramp record, lawful or not.
#[derive(Clone, Copy, PartialEq, Eq, Debug)]
pub struct RampItems {
    /// The start, in whole seconds.
    pub seconds: u64,
    /// The rest of the start, in billionths of a second.
    pub fraction: u64,
    /// The rate of the ramp, in whole hertz a second.
    pub rate: i64,
    /// The rest of the rate, in billionths.
    pub part: i64,
    /// The frequency at the start, in whole gigahertz.
    pub gigahertz: u64,
    /// The station that transmits.
    pub station: u64,
    /// The rest of the frequency, in whole hertz.
    pub hertz: u64,
    /// The rest of the frequency, in billionths of a hertz.
    pub hertzpart: u64,
    /// The end, in whole seconds.
    pub endseconds: u64,
    /// The rest of the end, in billionths of a second.
    pub endfraction: u64,
}
