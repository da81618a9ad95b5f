//! ISO 8601, the basic form in UTC.
ghost use Rattle.std.specs.Prelude.{◌≡◌, ◌<◌, ◌++◌, OnOk};
ghost use Rattle.time_texts.specs.Texts.{basic_text, basic_date, day_text, time_text};

use crate::civil::{CivilDate, civil_date};
use crate::digits::{push_four_digits, push_two_digits};
use texts::{OutOfMemory, Text};

/// The end of the year 9999, in seconds since 1970.
const SECONDS_END: u64 = 253_402_300_800;

/// From 0001-01-01 to 1970-01-01, in days.
const DAYS_BEFORE_1970: u64 = 719_162;

/// Puts a moment in seconds since 1970, up to the year 9999, as YYYYMMDDTHHMMSSZ. Later ones have no text.
pub fn push_basic(out: &mut Text, seconds: u64) -> Result<(), OutOfMemory>
    ensures { OnOk result (out.new ≡ out.old ++ basic_text seconds) }
{
    if seconds >= SECONDS_END {
        return Ok(());
    }
    push_day(
        out,
        civil_date((DAYS_BEFORE_1970 + seconds / 86_400) as u32),
    )?;
    out.push_ascii("T")?;
    push_time(out, (seconds % 86_400) as u32)?;
    out.push_ascii("Z")
}

/// Puts the date of a moment in seconds since 1970, up to the year 9999, as YYYYMMDD. Later ones have no text.
pub fn push_basic_date(out: &mut Text, seconds: u64) -> Result<(), OutOfMemory>
    ensures { OnOk result (out.new ≡ out.old ++ basic_date seconds) }
{
    if seconds >= SECONDS_END {
        return Ok(());
    }
    push_day(
        out,
        civil_date((DAYS_BEFORE_1970 + seconds / 86_400) as u32),
    )
}

/// Puts YYYYMMDD.
fn push_day(out: &mut Text, date: CivilDate) -> Result<(), OutOfMemory>
    requires year { date.year < 10_000 }
    requires month { date.month < 100 }
    requires day { date.day < 100 }
    ensures { OnOk result (out.new ≡ out.old ++ day_text date) }
{
    push_four_digits(out, date.year)?;
    push_two_digits(out, date.month)?;
    push_two_digits(out, date.day)
}

/// Puts HHMMSS.
fn push_time(out: &mut Text, second: u32) -> Result<(), OutOfMemory>
    requires { second < 86_400 }
    ensures { OnOk result (out.new ≡ out.old ++ time_text second) }
{
    push_two_digits(out, second / 3600)?;
    push_two_digits(out, second / 60 % 60)?;
    push_two_digits(out, second % 60)
}
