//! The items of a record with their names and units.
use orbit::items::OrbitItems;
use record::kind::RecordKind;
use station::clock::items::ClockItems;
use station::ramp::items::RampItems;
use std::fmt;

/// An item: its place in the record, its number, its unit and its name.
#[derive(Clone, Copy)]
pub(crate) struct Entry {
    item: usize,
    number: i128,
    unit: &'static str,
    name: &'static str,
}

impl Entry {
    fn new<N: Into<i128> + Drop>(
        item: usize,
        number: N,
        unit: &'static str,
        name: &'static str,
    ) -> Entry {
        Entry {
            item,
            number: number.into(),
            unit,
            name,
        }
    }
}

impl fmt::Display for Entry {
    fn fmt<W: fmt::Write>(&self, f: &mut fmt::Formatter<W>) -> fmt::Result {
        let Entry {
            item,
            number,
            unit,
            name,
        } = self;
        write!(f, "{item:>2} {number:>11} {unit:<7} {name}")
    }
}

/// Items that are listed one by one.
pub(crate) trait Listed: RecordKind {
    /// Prints the items in their order, a line each.
    // No `Vec` of them: a record that was read is printed even where no memory is left.
    fn print(&self, rt: &HostRuntime);
}

/// Prints the entries of a record, a line each.
fn print_all(rt: &HostRuntime, entries: &[Entry]) {
    for entry in entries {
        let _ = println!(rt; "{entry}");
    }
}

// Units by the numbers of the data types, as the format's table has them.

/// The unit of the observable of a data type.
fn observable_unit(kind: u64) -> &'static str {
    match kind {
        1..=4 => "cycle",
        5 | 6 | 41 => "ns",
        11..=13 => "Hz",
        36 | 37 => "RU",
        51..=58 => "deg",
        _ => "-",
    }
}

/// The unit of item 20 of a data type.
fn auxiliary_unit(kind: u64) -> &'static str {
    match kind {
        5 | 6 => "0.1 ns",
        11..=13 => "mdeg",
        37 => "s",
        _ => "-",
    }
}

/// The unit of item 21 of a data type.
fn compression_unit(kind: u64) -> &'static str {
    match kind {
        1..=4 | 11..=13 => "0.01 s",
        5 | 6 => "1e-7 ns",
        37 => "s",
        _ => "-",
    }
}

impl Listed for OrbitItems {
    fn print(&self, rt: &HostRuntime) {
        let unit = observable_unit(self.kind);
        let entries = [
            Entry::new(1, self.seconds, "s", "record time tag, whole seconds"),
            Entry::new(2, self.millis, "ms", "record time tag, milliseconds"),
            Entry::new(3, self.delay, "ns", "receiving station downlink delay"),
            Entry::new(4, self.whole, unit, "observable, whole part"),
            Entry::new(
                5,
                self.part,
                "1e-9",
                "observable, fractional part, billionths of the unit",
            ),
            Entry::new(6, self.format, "-", "format"),
            Entry::new(7, self.receiver, "-", "receiving station"),
            Entry::new(8, self.transmitter, "-", "transmitting station"),
            Entry::new(9, self.network, "-", "network of the transmitting station"),
            Entry::new(10, self.kind, "-", "data type"),
            Entry::new(11, self.downlink, "-", "downlink band"),
            Entry::new(12, self.uplink, "-", "uplink band"),
            Entry::new(13, self.exciter, "-", "exciter band"),
            Entry::new(14, self.validity, "-", "data validity"),
            Entry::new(
                15,
                self.channel,
                "-",
                "channel, second station, lowest component or seconds",
            ),
            Entry::new(16, self.target, "-", "spacecraft or quasar"),
            Entry::new(17, self.indicator, "-", "indicator"),
            Entry::new(18, self.high, "2^24mHz", "reference frequency, high part"),
            Entry::new(19, self.low, "mHz", "reference frequency, low part"),
            Entry::new(
                20,
                self.auxiliary,
                "-",
                "calibration, train axis angle or time offset",
            ),
            Entry::new(
                21,
                self.compression,
                "-",
                "compression time, modulus or highest component",
            ),
            Entry::new(22, self.updelay, "ns", "second station or uplink delay"),
        ];
        print_all(rt, &entries);
    }
}

impl Listed for RampItems {
    fn print(&self, rt: &HostRuntime) {
        let entries = [
            Entry::new(1, self.seconds, "s", "ramp start time, whole seconds"),
            Entry::new(2, self.fraction, "1e-9 s", "ramp start time, fraction"),
            Entry::new(3, self.rate, "Hz/s", "ramp rate, whole part"),
            Entry::new(4, self.part, "nHz/s", "ramp rate, fractional part"),
            Entry::new(5, self.gigahertz, "GHz", "ramp start frequency, gigahertz"),
            Entry::new(6, self.station, "-", "station"),
            Entry::new(7, self.hertz, "Hz", "ramp start frequency, hertz"),
            Entry::new(
                8,
                self.hertzpart,
                "nHz",
                "ramp start frequency, fractional part",
            ),
            Entry::new(9, self.endseconds, "s", "ramp end time, whole seconds"),
            Entry::new(10, self.endfraction, "1e-9 s", "ramp end time, fraction"),
        ];
        print_all(rt, &entries);
    }
}

impl Listed for ClockItems {
    fn print(&self, rt: &HostRuntime) {
        let entries = [
            Entry::new(1, self.seconds, "s", "start time, whole seconds"),
            Entry::new(2, self.fraction, "1e-9 s", "start time, fraction"),
            Entry::new(3, self.offset, "s", "clock offset, whole part"),
            Entry::new(4, self.part, "1e-9 s", "clock offset, fractional part"),
            Entry::new(5, self.primary, "-", "primary station"),
            Entry::new(6, self.secondary, "-", "secondary station"),
            Entry::new(7, self.spare, "-", "spare"),
            Entry::new(
                8,
                self.endseconds,
                "s",
                "reserved for the end time, whole seconds",
            ),
            Entry::new(
                9,
                self.endfraction,
                "1e-9 s",
                "reserved for the end time, fraction",
            ),
        ];
        print_all(rt, &entries);
    }
}
