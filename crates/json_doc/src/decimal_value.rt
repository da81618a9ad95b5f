ghost use Rattle.std.specs.Prelude.{◌≡◌, ◌<◌, ◌≤◌, ◌+◌, ◌*◌, ◌^◌};
ghost use Rattle.std.specs.Ordering.{nat_cmp};
ghost use Rattle.json_doc.specs.DecimalValue.{signed, value_cmp, whole};

use crate::Decimal;
use crate::powers::{MOST_PLACES, ten_to};
use std::cmp::Ordering;

impl Decimal {
    /// The whole number `n`.
    pub fn of(n: i64) -> Decimal
        ensures value { signed result.is_negative result.magnitude ≡ n }
        ensures whole { result.scale ≡ 0 }
    {
        Decimal {
            is_negative: n < 0,
            magnitude: u128::from(n.unsigned_abs()),
            scale: 0,
        }
    }

    /// The whole number of 64 bits that this is, where its scale is 0 and it is one.
    pub fn whole(&self) -> Option<i64>
        ensures { result ≡ whole self.now }
    {
        if self.scale != 0 {
            return None;
        }
        let magnitude = i128::try_from(self.magnitude).ok()?;
        let value = if self.is_negative {
            -magnitude
        } else {
            magnitude
        };
        i64::try_from(value).ok()
    }

    /// The order by value.
    pub fn cmp(&self, other: &Decimal) -> Ordering
        ensures { result ≡ value_cmp self.now other.now }
    {
        match (self.is_negative, other.is_negative) {
            (false, false) => cmp_sizes(self, other),
            (false, true) => Ordering::Greater,
            (true, false) => Ordering::Less,
            (true, true) => cmp_sizes(other, self),
        }
    }
}

/// The order of the values without their signs.
fn cmp_sizes(a: &Decimal, b: &Decimal) -> Ordering
    ensures { result ≡ nat_cmp (a.now.magnitude * 10 ^ b.now.scale) (b.now.magnitude * 10 ^ a.now.scale) }
{
    let (a_whole, a_part) = whole_and_part(a);
    let (b_whole, b_part) = whole_and_part(b);
    if a_whole == b_whole {
        return a_part.cmp(&b_part);
    }
    a_whole.cmp(&b_whole)
}

/// The whole number below a value without its sign, and how many units of the last place a decimal
/// fraction may have are left.
fn whole_and_part(n: &Decimal) -> (u128, u128)
    ensures value { n.now.magnitude * 10 ^ 30 ≡ (result.0 * 10 ^ 30 + result.1) * 10 ^ n.now.scale }
    ensures below_one { result.1 < 10 ^ 30 }
{
    let unit = ten_to(n.scale);
    let part = n.magnitude % unit * ten_to(MOST_PLACES - n.scale);
    (n.magnitude / unit, part)
}
