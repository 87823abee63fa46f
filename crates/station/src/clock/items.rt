//! The items of a clock record, as they come.

/// The items of a clock record, lawful or not.
#[derive(Clone, Copy, PartialEq, Eq, Debug)]
pub struct ClockItems {
    /// The time, in whole seconds.
    pub seconds: u64,
    /// The rest of the time, in billionths of a second.
    pub fraction: u64,
    /// The offset of the clock, in whole seconds.
    pub offset: i64,
    /// The rest of the offset, in billionths of a second.
    pub part: i64,
    /// The station whose clock it is.
    pub primary: u64,
    /// The station that it is compared with.
    pub secondary: u64,
    /// Not in use: zero.
    pub spare: u64,
    /// Not in use: zero.
    pub endseconds: u64,
    /// Not in use: zero.
    pub endfraction: u64,
}
