//! The civil calendar.
ghost use Rattle.std.specs.Prelude.{◌≡◌, ◌<◌, ◌+◌, pos, ◌+ℤ◌};
ghost use Rattle.jiff_core.specs.Calendar.{IsCivilDate, days_from_civil};
ghost use Rattle.time_texts.specs.Civil.{civil_date};

/// A day of the proleptic Gregorian calendar, in the years 1 to 9999.
#[derive(Clone, Copy, Debug, PartialEq, Eq)]
pub struct CivilDate {
    pub year: u32,
    pub month: u32,
    pub day: u32,
}

/// The date that lies so many days after 0001-01-01. The calendar has it, and numbers its days so.
pub fn civil_date(days: u32) -> CivilDate
    requires { days < 3_652_059 }
    ensures value { result ≡ civil_date days }
    ensures civil { IsCivilDate (pos result.year) result.month result.day }
    ensures day { days_from_civil (pos result.year) result.month result.day +ℤ pos 719_162 ≡ pos days }
{
    let march = days + 306;
    let scaled = 4 * march + 3;
    let in_century = scaled % 146_097 / 4 * 4 + 3;
    let year = 100 * (scaled / 146_097) + in_century / 1461;
    let of_year = 5 * (in_century % 1461 / 4) + 461;
    let (month, day) = (of_year / 153, of_year % 153 / 5 + 1);
    if month > 12 {
        CivilDate {
            year: year + 1,
            month: month - 12,
            day,
        }
    } else {
        CivilDate { year, month, day }
    }
}
