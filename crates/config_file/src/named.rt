//! Options, variables and keys by names that stand in the code, which are ASCII.
ghost use Rattle.std.specs.Prelude.{◌≡◌, IsTrue};
ghost use Rattle.std.specs.Option.{option_copied};
ghost use Rattle.std.specs.Str.{chars};
ghost use Rattle.aws_world.specs.Env.{value_of, unless_empty};
ghost use Rattle.config_file.specs.Lookups.{last_value, value_in, value_at};
ghost use Rattle.texts.specs.Ascii.{is_ascii_text};

use crate::lookups::{last_value, value_in};
use crate::{Profiles, Section};
use aws_world::Env;
use texts::Text;

/// The value of an option of the line.
#[tactic(auto, using(texts::proofs::Texts::chars_ascii))]
pub fn option<'a>(line: &'a [(Text, Text)], name: &str) -> Option<&'a Text>
    requires { IsTrue (is_ascii_text name.now) }
    ensures { option_copied result ≡ last_value name.now line.now }
{
    last_value(line, name)
}

/// The value of a variable of the environment.
#[tactic(auto, using(texts::proofs::Texts::chars_ascii))]
pub fn variable<'a>(env: &'a Env, name: &str) -> Option<&'a Text>
    requires { IsTrue (is_ascii_text name.now) }
    ensures { option_copied result ≡ value_of name.now env.now.pairs }
{
    env.get(name)
}

/// The value that a profile has at a key.
#[tactic(auto, using(texts::proofs::Texts::chars_ascii))]
pub fn value<'a>(profiles: &'a Profiles, profile: &str, key: &str) -> Option<&'a Text>
    requires { IsTrue (is_ascii_text key.now) }
    ensures { option_copied result ≡ value_at (chars profile.now) key.now profiles.now }
{
    profiles.value(profile, key)
}

/// The value that a profile has at a key in one file, where it isn't empty.
#[tactic(auto, using(texts::proofs::Texts::chars_ascii))]
pub fn set_value<'a>(sections: &'a [Section], profile: &str, key: &str) -> Option<&'a Text>
    requires { IsTrue (is_ascii_text key.now) }
    ensures { option_copied result ≡ unless_empty (value_in (chars profile.now) key.now sections.now) }
{
    unless_empty(value_in(sections, profile, key))
}

fn unless_empty(text: Option<&Text>) -> Option<&Text>
    ensures { option_copied result ≡ unless_empty (option_copied text.entry) }
{
    match text {
        Some(text) if !text.is_empty() => Some(text),
        _ => None,
    }
}
