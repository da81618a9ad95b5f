//! Counts on a line.
ghost use Rattle.std.specs.Prelude.{◌≡◌, ◌<◌, ◌^◌};
ghost use Rattle.arg_table.specs.Counts.{count_of};

/// The value of decimal digits, where it lies in this range. Leading zeros are fine.
pub fn count_of(text: &str, least: u64, most: u64) -> Option<u64>
    ensures { result ≡ count_of least most text.now }
{
    if !text.bytes().all(|b| b.is_ascii_digit()) {
        return None;
    }
    match text.parse::<u64>() {
        Ok(count) if least <= count && count <= most => Some(count),
        _ => None,
    }
}
