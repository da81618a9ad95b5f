ghost use Rattle.std.specs.Prelude.{◌≡◌, ◌≤◌, ◌+◌, ◌^◌, ◌+ℤ◌, IfSome, IfNone};
ghost use Rattle.json_doc.specs.declared.decimal.Decimal.{Decimal};
ghost use Rattle.json_doc.specs.DecimalValue.{signed, IsSum};

use crate::Decimal;
use crate::decimal_parts::decimal_of_parts;
use crate::powers::ten_to;

impl Decimal {
    /// The exact sum, or `None` where no decimal fraction has its value.
    pub fn add(&self, other: &Decimal) -> Option<Decimal>
        ensures some { IfSome result (λ sum. IsSum self.now other.now sum) }
        ensures none { IfNone result ((sum : Decimal) → IsSum self.now other.now sum → ⊥) }
    {
        if self.scale <= other.scale {
            return sum_in_order(self, other);
        }
        sum_in_order(other, self)
    }
}

/// The sum of two decimal fractions, of which the first has no more places.
fn sum_in_order(short: &Decimal, long: &Decimal) -> Option<Decimal>
    requires { short.now.scale ≤ long.now.scale }
    ensures some { IfSome result (λ sum. IsSum short.now long.now sum) }
    ensures none { IfNone result ((sum : Decimal) → IsSum short.now long.now sum → ⊥) }
{
    let raised = short
        .magnitude
        .checked_mul(ten_to(long.scale - short.scale))?;
    let (is_negative, size) = signed_sum(
        short.is_negative,
        raised,
        long.is_negative,
        long.magnitude,
    )?;
    decimal_of_parts(is_negative, size, 0, long.scale as u128)
}

/// The sum of two whole numbers with their signs, or `None` where it does not fit.
fn signed_sum(a_is_negative: bool, a: u128, b_is_negative: bool, b: u128) -> Option<(bool, u128)>
    ensures some { IfSome result
        (λ sum. signed sum.0 sum.1 ≡ signed a_is_negative a +ℤ signed b_is_negative b) }
    ensures none { IfNone result (2 ^ 128 ≤ a + b) }
{
    if a_is_negative == b_is_negative {
        let sum = a.checked_add(b)?;
        return Some((a_is_negative, sum));
    }
    if a < b {
        return Some((b_is_negative, b - a));
    }
    Some((a_is_negative, a - b))
}
