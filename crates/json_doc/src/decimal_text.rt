ghost use Rattle.std.specs.Prelude.{◌≡◌, ◌<◌, ◌+◌, ◌/◌, ◌%◌, ◌^◌, [], ◌∷◌, ◌++◌, OnOk};
ghost use Rattle.std.specs.Fmt.{decimal};
ghost use Rattle.json_doc.specs.DecimalText.{sign_text, zero_filled, decimal_text};

use crate::powers::ten_to;
use crate::{Decimal, OutOfMemory, Text};

/// Writes a decimal fraction without an exponent.
pub(crate) fn write_decimal(out: &mut Text, n: Decimal) -> Result<(), OutOfMemory>
    ensures { OnOk result (out.new ≡ out.old ++ decimal_text n) }
{
    write_sign(out, n.is_negative)?;
    if n.scale == 0 {
        return write_whole(out, n.magnitude);
    }
    write_whole(out, n.magnitude / ten_to(n.scale))?;
    out.push('.')?;
    write_places(out, n.magnitude, n.scale)
}

fn write_sign(out: &mut Text, is_negative: bool) -> Result<(), OutOfMemory>
    ensures { OnOk result (out.new ≡ out.old ++ sign_text is_negative) }
{
    if is_negative {
        return out.push('-');
    }
    Ok(())
}

fn write_whole(out: &mut Text, n: u128) -> Result<(), OutOfMemory>
    ensures { OnOk result (out.new ≡ out.old ++ decimal n) }
{
    let (front, last) = split_last(n);
    if front == 0 {
        return write_digit(out, last);
    }
    write_whole(out, front)?;
    write_digit(out, last)
}

/// Writes the last digits of a number, this many.
fn write_places(out: &mut Text, n: u128, count: u8) -> Result<(), OutOfMemory>
    requires { 0 < count }
    ensures { OnOk result (out.new ≡ out.old ++ zero_filled count (decimal (n % 10 ^ count))) }
{
    let (front, last) = split_last(n);
    if count == 1 {
        return write_digit(out, last);
    }
    write_places(out, front, count - 1)?;
    write_digit(out, last)
}

/// A number without its last digit, and that digit. Most numbers fit `u64`, which divides faster.
fn split_last(n: u128) -> (u128, u8)
    ensures front { result.0 ≡ n / 10 }
    ensures last { result.1 ≡ n % 10 }
{
    if let Ok(small) = u64::try_from(n) {
        return (u128::from(small / 10), (small % 10) as u8);
    }
    (n / 10, (n % 10) as u8)
}

fn write_digit(out: &mut Text, digit: u8) -> Result<(), OutOfMemory>
    requires { digit < 10 }
    ensures { OnOk result (out.new ≡ out.old ++ (48 + digit) ∷ []) }
{
    out.push(char::from(b'0' + digit))
}
