//! The digits of a number, of which the zeros at the end are counted alone.
ghost use Rattle.std.specs.Prelude.{◌≡◌, ℕ, ◌+◌, ◌*◌, ◌%◌, ◌^◌, ◌<◌, ◌≤◌, length, IfSome, IfNone};
ghost use Rattle.std.specs.Str.Parse.{digits_value_after, AllDigits};
ghost use Rattle.json_doc.specs.Trimmed.{IsLong};

use crate::decimal_parts::LIMIT;

// A digit behind others that are moved to the left for it, unless there are too many.
fn joined(front: u128, power: u128, digit: u8) -> Option<u128>
    ensures some { IfSome result (λ n. (n ≡ front * power + digit) × (n < 10 ^ 36)) }
    ensures none { IfNone result (10 ^ 36 ≤ front * power + digit) }
{
    let moved = front.checked_mul(power)?;
    let whole = moved.checked_add(u128::from(digit))?;
    if whole < LIMIT { Some(whole) } else { None }
}

/// The number `front * 10^zeros`, with at most 36 digits before the zeros.
#[derive(Clone, Copy)]
pub struct Significand {
    pub front: u128,
    pub zeros: u128,
    pub ghost short: { front < 10 ^ 36 },
    pub ghost trimmed: { front % 10 ≡ 0 → front + zeros ≡ 0 },
}

impl Significand {
    pub fn zero() -> Significand
        ensures zero { result.front ≡ 0 }
        ensures none { result.zeros ≡ 0 }
    {
        Significand { front: 0, zeros: 0 }
    }

    /// The number with one digit more, unless it takes too many digits.
    fn with_digit(self, digit: u8) -> Option<Significand>
        requires digit { digit < 10 }
        requires room { self.zeros < 2 ^ 127 }
        ensures value { IfSome result (λ s. s.front * 10 ^ s.zeros ≡ self.front * 10 ^ self.zeros * 10 + digit) }
        ensures zeros { IfSome result (λ s. s.zeros ≤ self.zeros + 1) }
        ensures none { IfNone result ((0 < digit) × (10 ^ 36 ≤ self.front * 10 ^ self.zeros * 10 + digit)) }
    {
        if digit == 0 {
            return Some(self.with_zero());
        }
        if 36 <= self.zeros {
            return None;
        }
        let power = 10u128.pow(self.zeros as u32 + 1);
        let front = joined(self.front, power, digit)?;
        Some(Significand { front, zeros: 0 })
    }

    /// The number with these digits more, unless it takes too many digits.
    pub fn with_digits(self, digits: &[u8]) -> Option<Significand>
        requires digits { AllDigits 10 digits.now }
        requires room { self.zeros < 2 ^ 66 }
        ensures value { IfSome result (λ s. s.front * 10 ^ s.zeros ≡ digits_value_after 10 (self.front * 10 ^ self.zeros) digits.now) }
        ensures zeros { IfSome result (λ s. s.zeros ≤ self.zeros + length digits.now) }
        ensures none { IfNone result (IsLong (digits_value_after 10 (self.front * 10 ^ self.zeros) digits.now)) }
    {
        let mut whole = self;
        for b in digits {
            whole = whole.with_digit(*b - b'0')?;
        }
        Some(whole)
    }

    fn with_zero(self) -> Significand
        requires { self.zeros < 2 ^ 127 }
        ensures value { result.front * 10 ^ result.zeros ≡ self.front * 10 ^ self.zeros * 10 }
        ensures zeros { result.zeros ≤ self.zeros + 1 }
    {
        if self.front == 0 {
            return self;
        }
        Significand {
            front: self.front,
            zeros: self.zeros + 1,
        }
    }
}
