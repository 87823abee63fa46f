//! Faults and records as plain numbers of 64 bits. A struct for each, with numbers for what may be absent: so C programs get them.

/// What a refusal tells; what does not apply is 0.
#[derive(Clone, Copy)]
#[repr(C)]
pub struct OdfFault {
    pub number: u64,
    pub layer: u64,
    pub packet: u64,
    pub item: u64,
    pub byte: u64,
}

/// The items of an orbit record.
#[derive(Clone, Copy)]
#[repr(C)]
pub struct OdfOrbit {
    pub seconds: i64,
    pub millis: i64,
    pub delay: i64,
    pub whole: i64,
    pub part: i64,
    pub format: i64,
    pub receiver: i64,
    pub transmitter: i64,
    pub network: i64,
    pub kind: i64,
    pub downlink: i64,
    pub uplink: i64,
    pub exciter: i64,
    pub validity: i64,
    pub channel: i64,
    pub target: i64,
    pub indicator: i64,
    pub high: i64,
    pub low: i64,
    pub auxiliary: i64,
    pub compression: i64,
    pub updelay: i64,
}

/// The items of a ramp.
#[derive(Clone, Copy)]
#[repr(C)]
pub struct OdfRamp {
    pub seconds: i64,
    pub fraction: i64,
    pub rate: i64,
    pub part: i64,
    pub gigahertz: i64,
    pub station: i64,
    pub hertz: i64,
    pub hertzpart: i64,
    pub endseconds: i64,
    pub endfraction: i64,
}

/// The items of a clock offset.
#[derive(Clone, Copy)]
#[repr(C)]
pub struct OdfClock {
    pub seconds: i64,
    pub fraction: i64,
    pub offset: i64,
    pub part: i64,
    pub primary: i64,
    pub secondary: i64,
    pub spare: i64,
    pub endseconds: i64,
    pub endfraction: i64,
}

/// A file: the packet number of its end packet, and how much it has of each group.
#[derive(Clone, Copy)]
#[repr(C)]
pub struct OdfReport {
    pub end: u64,
    pub orbits: u64,
    pub rampgroups: u64,
    pub ramps: u64,
    pub clocks: u64,
    pub summary: u64,
    pub rows: u64,
}
