//! Which headers can stand behind others.
ghost use Rattle.std.specs.Prelude.{◌≡◌, IsTrue};
ghost use Rattle.std.specs.List.{list_all};
ghost use Rattle.std.specs.Str.{chars, str_eq_ignore_ascii_case};
ghost use Rattle.serializer.specs.HeaderNames.{is_header_byte, is_plain, is_token_byte, is_token, is_of_signing, is_of_sending, is_forbidden, is_among, is_bad_header};
ghost use Rattle.texts.specs.Ascii.{is_ascii_text};

use json_doc::Text;

/// Whether a header can't stand behind these.
pub(crate) fn is_bad_header(earlier: &[(Text, Text)], name: &Text, value: &Text) -> bool
    ensures { result ≡ is_bad_header earlier.now (name.now, value.now) }
{
    !is_plain(value) || !is_token(name) || is_forbidden(name) || is_among(earlier, name.as_str())
}

/// Whether no control character of ASCII stands in a value.
fn is_plain(value: &Text) -> bool
    ensures { result ≡ is_plain value.now }
{
    are_header_bytes(value.as_str().as_bytes())
}

fn are_header_bytes(bytes: &[u8]) -> bool
    ensures { result ≡ list_all is_header_byte bytes.now }
{
    for b in bytes {
        if !is_header_byte(*b) {
            return false;
        }
    }
    true
}

fn is_header_byte(b: u8) -> bool
    ensures { result ≡ is_header_byte b }
{
    b >= 0x20 && b != 0x7f
}

/// Whether a name is a token (RFC 9110, section 5.6.2).
fn is_token(name: &Text) -> bool
    ensures { result ≡ is_token name.now }
{
    let bytes = name.as_str().as_bytes();
    !bytes.is_empty() && are_token_bytes(bytes)
}

fn are_token_bytes(bytes: &[u8]) -> bool
    ensures { result ≡ list_all is_token_byte bytes.now }
{
    for b in bytes {
        if !is_token_byte(*b) {
            return false;
        }
    }
    true
}

fn is_token_byte(b: u8) -> bool
    ensures { result ≡ is_token_byte b }
{
    b.is_ascii_alphanumeric() || b"!#$%&'*+-.^_`|~".contains(&b)
}

/// Whether a name is that of a header which the client itself writes, or which says where a message ends.
fn is_forbidden(name: &Text) -> bool
    ensures { result ≡ is_forbidden name.now }
{
    is_of_signing(name) || is_of_sending(name)
}

fn is_of_signing(name: &Text) -> bool
    ensures { result ≡ is_of_signing name.now }
{
    is_name(name, "Host")
        || is_name(name, "Authorization")
        || is_name(name, "X-Amz-Date")
        || is_name(name, "X-Amz-Security-Token")
}

fn is_of_sending(name: &Text) -> bool
    ensures { result ≡ is_of_sending name.now }
{
    is_name(name, "Content-Length")
        || is_name(name, "Connection")
        || is_name(name, "User-Agent")
        || is_name(name, "Transfer-Encoding")
}

/// Whether a header of this name is there.
pub(crate) fn is_among(headers: &[(Text, Text)], name: &str) -> bool
    ensures { result ≡ is_among headers.now (chars name.now) }
{
    for header in headers {
        if is_name(&header.0, name) {
            return true;
        }
    }
    false
}

/// Whether a text is a name, without regard to the case of ASCII letters.
fn is_name(text: &Text, name: &str) -> bool
    ensures value { result ≡ str_eq_ignore_ascii_case text.now (chars name.now) }
    ensures ascii { IsTrue (is_ascii_text name.now) → result ≡ str_eq_ignore_ascii_case text.now name.now }
{
    text.as_str().eq_ignore_ascii_case(name)
}
