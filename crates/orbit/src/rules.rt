//! Which items of an orbit record keep their rules.
// Data types are numbers here, as in the rules that the format states: an item may be one that is no data type.
ghost use Rattle.std.specs.Prelude.{◌≡◌};
ghost use Rattle.orbit.specs.OrbitRules.{held, one_way, receive_only, no_reference, whole_rule, part_rule, auxiliary_rule, orbit_rules, bad_orbit};

use crate::items::OrbitItems;
use crate::types::{is_angle, is_known};
use record::lawful::Items;
use record::rules::{is_signed_pair, is_signed32, is_within, lowest_broken};

/// At most so much, and zero where it has to be.
// The flag is a rule of its own and says nothing of the number beside it, so an `Option` would say less.
fn is_held(value: u64, most: u64, zero: bool) -> bool
    ensures { result ≡ held value most zero }
{
    value <= most && (!zero || value == 0)
}

fn is_one_way(kind: u64, transmitter: u64) -> bool
    ensures { result ≡ one_way kind transmitter }
{
    kind == 11 || transmitter == 0 && (kind == 36 || kind == 37 || kind == 41)
}

fn is_receive_only(kind: u64) -> bool
    ensures { result ≡ receive_only kind }
{
    is_angle(kind) || kind == 3 || kind == 4 || kind == 6 || kind == 11
}

fn has_no_reference(kind: u64, transmitter: u64, network: u64) -> bool
    ensures { result ≡ no_reference kind transmitter network }
{
    is_angle(kind) || kind == 2 || kind == 4 || network == 3 && !is_one_way(kind, transmitter)
}

fn keeps_whole(kind: u64, whole: i64) -> bool
    ensures { result ≡ whole_rule kind whole }
{
    is_signed32(whole) && (kind != 41 || whole >= 0 && whole <= 999_999_999)
}

fn keeps_part(kind: u64, whole: i64, part: i64) -> bool
    ensures { result ≡ part_rule kind whole part }
{
    is_signed_pair(whole, part) && (kind != 41 || part >= 0)
}

fn keeps_auxiliary(kind: u64, network: u64, auxiliary: i64) -> bool
    ensures { result ≡ auxiliary_rule kind network auxiliary }
{
    if auxiliary < -524_288 || auxiliary > 524_287 {
        return false;
    }
    match kind {
        1..=4 => auxiliary >= -100_000 && auxiliary.unsigned_abs() % 10_000 == 0,
        5 | 6 => auxiliary >= -100_000,
        37 => true,
        11..=13 if network == 2 => true,
        _ => auxiliary.unsigned_abs() == 0,
    }
}

/// The rules, an item each.
// `|` and no `||`: without branches the list has one path.
fn rules(items: &OrbitItems) -> [bool; 22]
    ensures { result ≡ orbit_rules items.now }
{
    let kind = items.kind;
    let angle = is_angle(kind);
    let unreferenced = has_no_reference(kind, items.transmitter, items.network);
    [
        items.seconds <= 4_294_967_295,
        items.millis <= 999,
        items.delay <= 0x3f_ffff,
        keeps_whole(kind, items.whole),
        keeps_part(kind, items.whole, items.part),
        items.format == 2,
        is_within(1, 127, items.receiver),
        is_held(items.transmitter, 127, is_receive_only(kind)),
        items.network <= 3,
        is_known(kind),
        is_held(items.downlink, 3, angle),
        is_held(items.uplink, 3, angle | is_one_way(kind, items.transmitter)),
        is_held(items.exciter, 3, angle),
        items.validity <= 1,
        is_held(items.channel, 127, angle | (kind == 36)),
        items.target <= 1023,
        is_held(items.indicator, 1, angle),
        is_held(items.high, 0x3f_ffff, unreferenced),
        is_held(items.low, 0xff_ffff, unreferenced),
        keeps_auxiliary(kind, items.network, items.auxiliary),
        is_held(
            items.compression,
            0x3f_ffff,
            angle | (kind == 36) | (kind == 41),
        ),
        is_held(items.updelay, 0x3f_ffff, angle),
    ]
}

impl Items for OrbitItems {
    ghost bad = { bad_orbit };

    ghost unfit = { bad_orbit };

    ghost keeps = { λ i e. e };

    fn bad_item(&self) -> Option<usize> {
        lowest_broken(&rules(self))
    }
}
