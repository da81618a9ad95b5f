ghost use Rattle.std.specs.Prelude.{◌≡◌, ◌<◌, ◌≤◌, ◌^◌, true};
ghost use Rattle.json_doc.specs.Least.{IsLeast};

/// A decimal fraction `magnitude / 10^scale`, perhaps negative, with at most 36 digits and 30
/// places, in its least form: no place fewer gives the value, and zero has no sign.
#[derive(Clone, Copy, Debug, PartialEq, Eq)]
pub struct Decimal {
    pub is_negative: bool,
    pub magnitude: u128,
    pub scale: u8,
    pub ghost small: { magnitude < 10 ^ 36 },
    pub ghost short: { scale ≤ 30 },
    pub ghost least: { IsLeast magnitude scale },
    pub ghost one_zero: { is_negative ≡ true → 0 < magnitude },
}
