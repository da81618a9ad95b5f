//! The headers of a whole reply.
ghost use Rattle.std.specs.Prelude.{◌≡◌, option_copied};
ghost use Rattle.std.specs.Str.{chars, str_eq_ignore_ascii_case};
ghost use Rattle.aws_world.specs.Headers.{header_of};

use crate::Reply;
use texts::Text;

/// Whether a text is a name, without regard to the case of ASCII letters.
fn is_name(text: &Text, name: &str) -> bool
    ensures { result ≡ str_eq_ignore_ascii_case text.now (chars name.now) }
{
    text.as_str().eq_ignore_ascii_case(name)
}

/// The value of a header, whose name is sought without regard to the case of ASCII letters. Of a name
/// that stands more than once the first value counts.
pub fn header<'a>(reply: &'a Reply, name: &str) -> Option<&'a Text>
    ensures { option_copied result ≡ header_of (chars name.now) reply.now.headers }
{
    for field in reply.headers.as_slice() {
        if is_name(&field.0, name) {
            return Some(&field.1);
        }
    }
    None
}
