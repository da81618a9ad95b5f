//! Names and values in pairs, and profiles in sections.
ghost use Rattle.std.specs.Prelude.{◌≡◌};
ghost use Rattle.std.specs.Option.{option_copied};
ghost use Rattle.std.specs.Str.{chars};
ghost use Rattle.config_file.specs.Lookups.{last_value, is_name, is_of, is_in, value_in};

use crate::Section;
use texts::Text;

/// The value of a name; where the name stands more than once, the last counts.
pub fn last_value<'a>(pairs: &'a [(Text, Text)], name: &str) -> Option<&'a Text>
    ensures { option_copied result ≡ last_value (chars name.now) pairs.now }
{
    let mut last = None;
    for (key, value) in pairs {
        if key.is(name) {
            last = Some(value);
        }
    }
    last
}

/// The value that a profile has at a key, in the sections of a file.
pub fn value_in<'a>(sections: &'a [Section], profile: &str, key: &str) -> Option<&'a Text>
    ensures { option_copied result ≡ value_in (chars profile.now) (chars key.now) sections.now }
{
    let mut value = None;
    for section in sections {
        if is_of(section, profile) {
            value = last_value(section.keys.as_slice(), key).or(value);
        }
    }
    value
}

/// Whether a profile is in the sections of a file.
pub fn is_in(sections: &[Section], profile: &str) -> bool
    ensures { result ≡ is_in (chars profile.now) sections.now }
{
    sections.iter().any(|section| is_of(section, profile))
}

fn is_of(section: &Section, profile: &str) -> bool
    ensures { result ≡ is_of (chars profile.now) section.now }
{
    match &section.profile {
        Some(name) => name.is(profile),
        None => false,
    }
}
