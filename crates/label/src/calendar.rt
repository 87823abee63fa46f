//! Days and times written as six decimal digits.
ghost use Rattle.std.specs.Prelude.{◌≡◌};
ghost use Rattle.label.specs.Calendar.{days_in, is_date, is_time};

/// The days of a month, in a leap year or another.
// The flag says what year it is, not whether the month is there.
fn days_in(month: u64, leap: bool) -> u64
    ensures { result ≡ days_in month leap }
{
    match month {
        2 => if leap { 29 } else { 28 },
        4 | 6 | 9 | 11 => 30,
        _ => 31,
    }
}

/// Whether the number is a day of 1950 to 2049, as YYMMDD: in those years each fourth is a leap year.
#[tactic(auto, using(std::proofs::lemmas::Bool::Decides::nat_tests), unfolding(crate::specs::Calendar::is_date))]
pub fn is_date(date: u64) -> bool
    ensures { result ≡ is_date date }
{
    let year = date / 10_000;
    let month = date / 100 % 100;
    let day = date % 100;
    let days = days_in(month, year % 4 == 0);
    year <= 99 && month >= 1 && month <= 12 && day >= 1 && day <= days
}

/// Whether the number is a time of the day, as hhmmss.
#[tactic(auto, using(std::proofs::lemmas::Bool::Decides::nat_tests), unfolding(crate::specs::Calendar::is_time))]
pub fn is_time(time: u64) -> bool
    ensures { result ≡ is_time time }
{
    time / 10_000 <= 23 && time / 100 % 100 <= 59 && time % 100 <= 59
}
