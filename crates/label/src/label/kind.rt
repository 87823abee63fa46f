//! How a label lies in nine words.
ghost use Rattle.label.specs.LabelRules.{label_words, label_of};
ghost use Rattle.label.specs.LabelLaws;

use crate::label::{Label, LabelItems};
use record::halves::{halves, joined};
use record::kind::Packed;

impl Packed for LabelItems {
    ghost packed = { label_words };

    ghost unpacked = { label_of };

    #[tactic(auto, using(crate::specs::LabelLaws::narrow_fit), unfolding(crate::specs::LabelRules::label_words))]
    fn to_words(from: &Label) -> [u32; 9] {
        let LabelItems {
            system,
            program,
            spacecraft,
            date,
            time,
            refdate,
            reftime,
        } = from.items();
        let [system1, system2] = halves(system);
        let [program1, program2] = halves(program);
        [
            system1,
            system2,
            program1,
            program2,
            spacecraft as u32,
            date as u32,
            time as u32,
            refdate as u32,
            reftime as u32,
        ]
    }

    #[tactic(auto, unfolding(crate::specs::LabelRules::label_of))]
    fn of_words(words: &[u32; 9]) -> LabelItems {
        let [
            system1,
            system2,
            program1,
            program2,
            spacecraft,
            date,
            time,
            refdate,
            reftime,
        ] = *words;
        LabelItems {
            system: joined(system1, system2),
            program: joined(program1, program2),
            spacecraft: u64::from(spacecraft),
            date: u64::from(date),
            time: u64::from(time),
            refdate: u64::from(refdate),
            reftime: u64::from(reftime),
        }
    }

    ghost back = { λ i e. LabelLaws.items_back i };

    ghost given = { LabelLaws.words_given };

    ghost nine = { LabelLaws.items_nine };

    ghost narrow = { LabelLaws.items_narrow };

    ghost headless = { λ i e z _. LabelLaws.items_headless i e z };
}
