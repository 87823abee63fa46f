//! A label: who wrote a file, for which spacecraft, and when.
ghost use Rattle.std.specs.Prelude.{◌≡◌};
ghost use Rattle.record.specs.Rules.{within};
ghost use Rattle.label.specs.LabelRules.{text_rules, bad_label, unfit};
ghost use Rattle.label.specs.Fits.{fits_lawful};

use crate::calendar::{is_date, is_time};
use record::lawful::{Items, Lawful};
use record::rules::{is_within, lowest_broken};

pub mod kind;

/// The items of a label as given, lawful or not. A text of eight characters is one number, its first in the top byte.
#[derive(Clone, Copy, PartialEq, Eq, Debug)]
pub struct LabelItems {
    // Texts too are numbers, as every item: whoever forms a label gives them so.
    pub system: u64,
    pub program: u64,
    pub spacecraft: u64,
    pub date: u64,
    pub time: u64,
    pub refdate: u64,
    pub reftime: u64,
}

/// A lawful label.
pub type Label = Lawful<LabelItems>;

/// The number of the spacecraft.
// A function: `Label` is an instance of a type of another crate, which takes no methods here.
pub fn spacecraft_of(label: &Label) -> u64
    ensures { result ≡ label.now.items.spacecraft }
{
    label.items().spacecraft
}

/// Whether a character can be printed.
fn is_printable(character: u8) -> bool
    ensures { result ≡ within 0x20 0x7E character }
{
    matches!(character, b' '..=b'~')
}

/// For each character of a text, whether it can be printed.
fn text_rules(text: u64) -> [bool; 8]
    ensures { result ≡ text_rules text }
{
    text.to_be_bytes().map(is_printable)
}

impl Items for LabelItems {
    ghost bad = { bad_label };

    ghost unfit = { unfit };

    fn bad_item(&self) -> Option<usize> {
        let LabelItems {
            system,
            program,
            spacecraft,
            date,
            time,
            refdate,
            reftime,
        } = *self;
        let [s1, s2, s3, s4, s5, s6, s7, s8] = text_rules(system);
        let [p1, p2, p3, p4, p5, p6, p7, p8] = text_rules(program);
        let spacecraft = is_within(1, 1_023, spacecraft);
        let date = is_date(date);
        let time = is_time(time);
        let refdate = refdate == 0 || refdate == 19_500_101;
        let reftime = reftime == 0;
        lowest_broken(&[
            s1, s2, s3, s4, s5, s6, s7, s8, p1, p2, p3, p4, p5, p6, p7, p8, spacecraft, date, time,
            refdate, reftime,
        ])
    }

    ghost keeps = { fits_lawful };
}
