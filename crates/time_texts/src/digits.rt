//! Numbers of two and four digits.
ghost use Rattle.std.specs.Prelude.{◌≡◌, ◌<◌, ◌++◌, OnOk};
ghost use Rattle.time_texts.specs.Texts.{two_digits, four_digits};

use texts::{OutOfMemory, Text};

pub(crate) fn push_four_digits(out: &mut Text, n: u32) -> Result<(), OutOfMemory>
    requires { n < 10_000 }
    ensures { OnOk result (out.new ≡ out.old ++ four_digits n) }
{
    push_two_digits(out, n / 100)?;
    push_two_digits(out, n % 100)
}

pub(crate) fn push_two_digits(out: &mut Text, n: u32) -> Result<(), OutOfMemory>
    requires { n < 100 }
    ensures { OnOk result (out.new ≡ out.old ++ two_digits n) }
{
    out.push(char::from(b'0' + (n / 10) as u8))?;
    out.push(char::from(b'0' + (n % 10) as u8))
}
