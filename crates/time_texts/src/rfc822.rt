//! RFC 822 as HTTP writes it.
ghost use Rattle.std.specs.Prelude.{◌≡◌, ◌++◌, OnOk};
ghost use Rattle.httpdate.specs.Date.{date_text};
ghost use Rattle.time_texts.specs.Texts.{has_rfc822, rfc822_text};

use crate::moments::{MOMENTS_END, since_year_1};
use httpdate::HttpDate;
use texts::{OutOfMemory, Text};

/// From 0001-01-01 to 1970-01-01, in seconds.
const SECONDS_BEFORE_1970: u64 = 62_135_596_800;

/// Whether a moment lies in the years 1970 to 9999, and so has a text by RFC 822 here.
pub fn has_rfc822(moment: i64) -> bool
    ensures { result ≡ has_rfc822 moment }
{
    0 <= moment && moment < MOMENTS_END
}

/// Puts a moment in the years 1970 to 9999 by its second (RFC 9110, section 5.6.7: IMF-fixdate). Other
/// moments have no text.
pub fn push_rfc822(out: &mut Text, moment: i64) -> Result<(), OutOfMemory>
    ensures { OnOk result (out.new ≡ out.old ++ rfc822_text moment) }
{
    let Some(since) = since_year_1(moment) else {
        return Ok(());
    };
    let seconds = since / 1_000_000;
    if seconds < SECONDS_BEFORE_1970 {
        return Ok(());
    }
    match HttpDate::from_unix_secs(seconds - SECONDS_BEFORE_1970) {
        Ok(date) => push_date(out, date),
        Err(_) => unreachable!(),
    }
}

fn push_date(out: &mut Text, date: HttpDate) -> Result<(), OutOfMemory>
    ensures { OnOk result (out.new ≡ out.old ++ date_text date) }
{
    for b in date.to_bytes() {
        out.push(char::from(b))?;
    }
    Ok(())
}
