//! ISO 8601, the extended form in UTC.
ghost use Rattle.std.specs.Prelude.{◌≡◌, ◌<◌, ◌++◌, OnOk};
ghost use Rattle.time_texts.specs.Texts.{iso8601_text, date_text, clock_text, fraction_text};

use crate::civil::{CivilDate, civil_date};
use crate::digits::{push_four_digits, push_two_digits};
use crate::moments::since_year_1;
use texts::{OutOfMemory, Text};

/// Puts a moment in the years 0001 to 9999 as YYYY-MM-DDTHH:MM:SSZ, with six decimals before the `Z` where
/// its microseconds aren't 0. Other moments have no text.
pub fn push_iso8601(out: &mut Text, moment: i64) -> Result<(), OutOfMemory>
    ensures { OnOk result (out.new ≡ out.old ++ iso8601_text moment) }
{
    let Some(since) = since_year_1(moment) else {
        return Ok(());
    };
    let seconds = since / 1_000_000;
    push_date(out, civil_date((seconds / 86_400) as u32))?;
    out.push_ascii("T")?;
    push_clock(out, (seconds % 86_400) as u32)?;
    push_fraction(out, (since % 1_000_000) as u32)?;
    out.push_ascii("Z")
}

/// Puts YYYY-MM-DD.
fn push_date(out: &mut Text, date: CivilDate) -> Result<(), OutOfMemory>
    requires year { date.year < 10_000 }
    requires month { date.month < 100 }
    requires day { date.day < 100 }
    ensures { OnOk result (out.new ≡ out.old ++ date_text date) }
{
    push_four_digits(out, date.year)?;
    out.push_ascii("-")?;
    push_two_digits(out, date.month)?;
    out.push_ascii("-")?;
    push_two_digits(out, date.day)
}

/// Puts HH:MM:SS.
fn push_clock(out: &mut Text, second: u32) -> Result<(), OutOfMemory>
    requires { second < 86_400 }
    ensures { OnOk result (out.new ≡ out.old ++ clock_text second) }
{
    push_two_digits(out, second / 3600)?;
    out.push_ascii(":")?;
    push_two_digits(out, second / 60 % 60)?;
    out.push_ascii(":")?;
    push_two_digits(out, second % 60)
}

/// Puts a point and six digits, where they aren't all 0.
fn push_fraction(out: &mut Text, micros: u32) -> Result<(), OutOfMemory>
    requires { micros < 1_000_000 }
    ensures { OnOk result (out.new ≡ out.old ++ fraction_text micros) }
{
    if micros == 0 {
        return Ok(());
    }
    out.push_ascii(".")?;
    push_two_digits(out, micros / 10_000)?;
    push_four_digits(out, micros % 10_000)
}
