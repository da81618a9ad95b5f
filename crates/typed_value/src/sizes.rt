ghost use Rattle.std.specs.Prelude.{◌≡◌, length};

use json_doc::Text;

/// How many characters a text has.
pub(crate) fn characters(text: &Text) -> u64
    ensures { result ≡ length text.now }
{
    text.as_str().chars().count() as u64
}
