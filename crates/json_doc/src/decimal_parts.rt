//! Decimals from their digits and powers of ten.
ghost use Rattle.std.specs.Prelude.{◌≡◌, ◌≢◌, ◌+◌, ◌*◌, ◌%◌, ◌^◌, ◌<◌, ◌≤◌, IfSome, IfNone};
ghost use Rattle.json_doc.specs.Exact.{exact, HasValue, HasNoDecimal, IsForm, IsTooWide};

use crate::Decimal;

// The magnitudes of decimals are below this: 36 digits.
pub const LIMIT: u128 = 1_000_000_000_000_000_000_000_000_000_000_000_000;

// The digits without the zeros at their end, and how many zeros there were.
fn trimmed(digits: u128) -> (u128, u128)
    requires { 0 < digits }
    ensures trimmed { result.0 % 10 ≢ 0 }
    ensures value { digits ≡ result.0 * 10 ^ result.1 }
    ensures few { result.1 < 39 }
{
    let mut front = digits;
    let mut zeros = 0;
    while front % 10 == 0 {
        front /= 10;
        zeros += 1;
    }
    (front, zeros)
}

// The decimal with these digits, if they are few enough.
fn with_digits(is_negative: bool, magnitude: u128, scale: u8) -> Option<Decimal>
    requires some { 0 < magnitude }
    requires least { 0 < scale → magnitude % 10 ≢ 0 }
    requires short { scale ≤ 30 }
    ensures some { IfSome result (λ d. (d.is_negative ≡ is_negative) × (d.magnitude ≡ magnitude) × (d.scale ≡ scale)) }
    ensures none { IfNone result (10 ^ 36 ≤ magnitude) }
{
    if LIMIT <= magnitude {
        return None;
    }
    Some(Decimal {
        is_negative,
        magnitude,
        scale,
    })
}

// The decimal `digits * 10^up / 10^down`, whose digits don't end in zero.
fn least_form(is_negative: bool, digits: u128, up: u128, down: u128) -> Option<Decimal>
    requires { digits % 10 ≢ 0 }
    ensures some { IfSome result (λ d. (d.is_negative ≡ is_negative) × IsForm d digits up down) }
    ensures none { IfNone result (IsTooWide digits up down) }
{
    if down <= up {
        let places = up - down;
        if 36 <= places {
            return None;
        }
        let power = 10u128.pow(places as u32);
        with_digits(is_negative, digits.checked_mul(power)?, 0)
    } else {
        let scale = down - up;
        if 30 < scale {
            return None;
        }
        with_digits(is_negative, digits, scale as u8)
    }
}

/// The decimal `digits * 10^up / 10^down`, perhaps negative: none where it takes more than 36 digits
/// or 30 places.
pub(crate) fn decimal_of_parts(
    is_negative: bool,
    digits: u128,
    up: u128,
    down: u128,
) -> Option<Decimal>
    requires { up < 2 ^ 127 }
    ensures some { IfSome result (λ d. HasValue d (exact is_negative digits up down)) }
    ensures none { IfNone result (HasNoDecimal (exact is_negative digits up down)) }
{
    if digits == 0 {
        return Some(Decimal {
            is_negative: false,
            magnitude: 0,
            scale: 0,
        });
    }
    let (front, zeros) = trimmed(digits);
    least_form(is_negative, front, up + zeros, down)
}
