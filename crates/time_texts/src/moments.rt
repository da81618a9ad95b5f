ghost use Rattle.std.specs.Prelude.{◌≡◌, ◌<◌, true, false, IfSome, IfNone};
ghost use Rattle.time_texts.specs.Texts.{unix_seconds, is_in_years, since_year_1};

/// From 0001-01-01 to 1970-01-01, in microseconds.
const BEFORE_1970: i64 = 62_135_596_800_000_000;

/// The end of the year 9999.
pub(crate) const MOMENTS_END: i64 = 253_402_300_800_000_000;

/// The seconds since 1970 of a moment, rounded down.
pub fn unix_seconds(moment: i64) -> i64
    ensures { result ≡ unix_seconds moment }
{
    moment.div_euclid(1_000_000)
}

/// The microseconds since the year 1 begins, of a moment in the years 0001 to 9999.
pub(crate) fn since_year_1(moment: i64) -> Option<u64>
    ensures some { IfSome result (λ since. (is_in_years moment ≡ true) × (since ≡ since_year_1 moment)) }
    ensures small { IfSome result (λ since. since < 315_537_897_600_000_000) }
    ensures none { IfNone result (is_in_years moment ≡ false) }
{
    if -BEFORE_1970 <= moment && moment < MOMENTS_END {
        Some((moment + BEFORE_1970) as u64)
    } else {
        None
    }
}
