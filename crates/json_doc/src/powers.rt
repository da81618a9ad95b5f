ghost use Rattle.std.specs.Prelude.{◌≡◌, ◌<◌, ◌≤◌, ◌^◌};

/// The most places that a decimal fraction has.
pub(crate) const MOST_PLACES: u8 = 30;

/// A power of ten.
pub(crate) fn ten_to(places: u8) -> u128
    requires { places ≤ 30 }
    ensures value { result ≡ 10 ^ places }
    ensures positive { 0 < result }
{
    10u128.pow(u32::from(places))
}
