//! The value of an argument by the kind that its place needs. Null is of every kind.
ghost use Rattle.std.specs.Prelude.{◌≡◌};
ghost use Rattle.std.specs.Option.{option_copied};
ghost use Rattle.texts.specs.Calls.{Gives};
ghost use Rattle.endpoint_rules.specs.Kinds.{text_or_null, flag_or_null, whole_or_null, whole_number, holds};

use crate::stop::Stop;
use json_doc::{Decimal, Doc};
use texts::Text;

/// The text that a value is, or none for null.
pub fn text(value: &Doc) -> Result<Option<&Text>, Stop>
    ensures { Gives option_copied result (text_or_null value.now) }
{
    match value {
        Doc::Null => Ok(None),
        Doc::Str(text) => Ok(Some(text)),
        _ => Err(Stop::Clash),
    }
}

/// The truth value that a value is, or none for null.
pub fn flag(value: &Doc) -> Result<Option<bool>, Stop>
    ensures { result ≡ flag_or_null value.now }
{
    match value {
        Doc::Null => Ok(None),
        Doc::Flag(flag) => Ok(Some(*flag)),
        _ => Err(Stop::Clash),
    }
}

/// The whole number that a value is, or none for null. A place in a text needs one from 0 on.
pub fn whole(value: &Doc) -> Result<Option<u128>, Stop>
    ensures { result ≡ whole_or_null value.now }
{
    match value {
        Doc::Null => Ok(None),
        Doc::Number(number) => match whole_number(number) {
            Some(whole) => Ok(Some(whole)),
            None => Err(Stop::Clash),
        },
        _ => Err(Stop::Clash),
    }
}

fn whole_number(number: &Decimal) -> Option<u128>
    ensures { result ≡ whole_number number.now }
{
    if number.scale == 0 && !number.is_negative {
        Some(number.magnitude)
    } else {
        None
    }
}

/// Whether a condition with this value holds: null and false don't.
pub fn holds(value: &Doc) -> bool
    ensures { result ≡ holds value.now }
{
    match value {
        Doc::Null => false,
        Doc::Flag(flag) => *flag,
        _ => true,
    }
}
