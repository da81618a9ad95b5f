ghost use Rattle.std.specs.Prelude.{◌≡◌, Some, bytes_eq};
ghost use Rattle.std.specs.Option.{option_copied};
ghost use Rattle.std.specs.Str.{chars};
ghost use Rattle.aws_world.specs.Env.{value_of, unless_empty};

use texts::{List, Text};

/// The variables of the environment, as pairs of a name and a value.
#[derive(Debug, Drop)]
pub struct Env {
    pub pairs: List<(Text, Text)>,
}

impl Env {
    /// The value of a variable. The first pair of the name counts, and an empty value counts as
    /// unset.
    pub fn get(&self, name: &str) -> Option<&Text>
        ensures { option_copied result ≡ value_of (chars name.now) self.now.pairs }
    {
        for (key, value) in self.pairs.as_slice() {
            if key.is(name) {
                return value_set(value);
            }
        }
        None
    }
}

fn value_set(value: &Text) -> Option<&Text>
    ensures { option_copied result ≡ unless_empty (Some value.now) }
{
    if value.is_empty() { None } else { Some(value) }
}
