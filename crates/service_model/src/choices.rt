//! The texts of model files that name one of a few choices.
ghost use Rattle.std.specs.Prelude.{◌≡◌};
ghost use Rattle.service_model.specs.Choices.{kind_named, number_named, location_named, time_form_named};

use crate::{Kind, Location, TimeForm};
use json_doc::Text;

/// The kind that a `type` names.
pub fn kind_named(name: &Text) -> Option<Kind>
    ensures { result ≡ kind_named name.now }
{
    if name.is("structure") {
        return Some(Kind::Structure);
    }
    if name.is("list") {
        return Some(Kind::List);
    }
    if name.is("map") {
        return Some(Kind::Map);
    }
    if name.is("string") || name.is("character") {
        return Some(Kind::Str);
    }
    if name.is("boolean") {
        return Some(Kind::Boolean);
    }
    if name.is("blob") {
        return Some(Kind::Blob);
    }
    if name.is("timestamp") {
        return Some(Kind::Timestamp);
    }
    number_named(name)
}

/// The kind of numbers that a `type` names.
fn number_named(name: &Text) -> Option<Kind>
    ensures { result ≡ number_named name.now }
{
    if name.is("integer") {
        return Some(Kind::Integer);
    }
    if name.is("long") || name.is("bigInteger") {
        return Some(Kind::Long);
    }
    if name.is("float") {
        return Some(Kind::Float);
    }
    if name.is("double") || name.is("bigDecimal") {
        return Some(Kind::Double);
    }
    None
}

/// The place that a `location` names.
pub fn location_named(name: &Text) -> Option<Location>
    ensures { result ≡ location_named name.now }
{
    if name.is("uri") {
        return Some(Location::Uri);
    }
    if name.is("querystring") {
        return Some(Location::Querystring);
    }
    if name.is("header") {
        return Some(Location::Header);
    }
    if name.is("headers") {
        return Some(Location::Headers);
    }
    if name.is("statusCode") {
        return Some(Location::StatusCode);
    }
    None
}

/// The form that a `timestampFormat` names.
pub fn time_form_named(name: &Text) -> Option<TimeForm>
    ensures { result ≡ time_form_named name.now }
{
    if name.is("unixTimestamp") {
        return Some(TimeForm::Unix);
    }
    if name.is("rfc822") {
        return Some(TimeForm::Rfc822);
    }
    if name.is("iso8601") {
        return Some(TimeForm::Iso8601);
    }
    None
}
