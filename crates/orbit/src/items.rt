//! The twenty-two items of an orbit record.

/// The items of an orbit record as they are given, lawful or not.
#[derive(Clone, Copy, PartialEq, Eq, Debug)]
pub struct OrbitItems {
    /// Time tag, whole seconds since the start of 1950.
    pub seconds: u64,
    /// Time tag, milliseconds.
    pub millis: u64,
    /// Downlink delay of the receiving station, nanoseconds.
    pub delay: u64,
    /// Observable, whole part.
    pub whole: i64,
    /// Observable, billionths.
    pub part: i64,
    /// Format of the record.
    pub format: u64,
    /// Receiving station.
    pub receiver: u64,
    /// Transmitting station.
    pub transmitter: u64,
    /// Network of the transmitting station.
    pub network: u64,
    /// Data type.
    // A number, as every item: it may be one that is no data type, and is then refused.
    pub kind: u64,
    /// Downlink band.
    pub downlink: u64,
    /// Uplink band.
    pub uplink: u64,
    /// Exciter band.
    pub exciter: u64,
    /// Validity: 0 is good, 1 is bad.
    pub validity: u64,
    /// Channel, second receiving station, lowest component or whole seconds of the observable.
    pub channel: u64,
    /// Spacecraft or quasar.
    pub target: u64,
    /// Modulus, phase point or independence of receiver and exciter.
    pub indicator: u64,
    /// Reference frequency, high part.
    pub high: u64,
    /// Reference frequency, low part.
    pub low: u64,
    /// Calibration, train axis angle or time offset, as the data type has it.
    pub auxiliary: i64,
    /// Compression time, modulus or highest component.
    pub compression: u64,
    /// Delay of the second receiving or of the transmitting station, nanoseconds.
    pub updelay: u64,
}
