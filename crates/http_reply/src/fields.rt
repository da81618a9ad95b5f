//! The fields of a head, as spans of its bytes.
ghost use Rattle.std.specs.Prelude.{◌≡◌, length, All, codes, bytes_eq, option_copied};
ghost use Rattle.std.specs.List.{list_all};
ghost use Rattle.std.specs.Str.{str_eq_ignore_ascii_case};
ghost use Rattle.httparse.specs.Spans.{IsHeaderWithin, span_bytes};
ghost use Rattle.aws_world.specs.Headers.{named, first_of};
ghost use Rattle.http_reply.specs.Fields.{fields_in};

use httparse::spans::HeaderSpan;

/// Whether two words are one, without regard to letter case.
fn is_word(value: &[u8], word: &[u8]) -> bool
    ensures { result ≡ str_eq_ignore_ascii_case value.now word.now }
{
    value.eq_ignore_ascii_case(word)
}

/// Whether a field has this name, without regard to letter case.
fn is_named(bytes: &[u8], field: &HeaderSpan, name: &[u8]) -> bool
    requires { IsHeaderWithin (length bytes.now) field.now }
    ensures { result ≡ str_eq_ignore_ascii_case (span_bytes bytes.now field.now.name) name.now }
{
    is_word(field.name.of(bytes), name)
}

/// The first value of a name.
pub(crate) fn first_named<'a>(
    bytes: &'a [u8],
    fields: &[HeaderSpan],
    name: &[u8],
) -> Option<&'a [u8]>
    requires { All (IsHeaderWithin (length bytes.now)) fields.now }
    ensures { option_copied result ≡ first_of (named name.now (fields_in bytes.now fields.now)) }
{
    for field in fields {
        if is_named(bytes, field, name) {
            return Some(field.value.of(bytes));
        }
    }
    None
}

/// Whether each transfer coding is `chunked`, in any letter case.
pub(crate) fn are_chunked(bytes: &[u8], fields: &[HeaderSpan]) -> bool
    requires { All (IsHeaderWithin (length bytes.now)) fields.now }
    ensures { result ≡ list_all (λ coding. str_eq_ignore_ascii_case coding (codes "chunked"))
        (named (codes "transfer-encoding") (fields_in bytes.now fields.now)) }
{
    for field in fields {
        if is_named(bytes, field, b"transfer-encoding")
            && !is_word(field.value.of(bytes), b"chunked")
        {
            return false;
        }
    }
    true
}

/// Whether each length is this text.
pub(crate) fn are_copies(bytes: &[u8], fields: &[HeaderSpan], value: &[u8]) -> bool
    requires { All (IsHeaderWithin (length bytes.now)) fields.now }
    ensures { result ≡ list_all (λ copy. bytes_eq copy value.now)
        (named (codes "content-length") (fields_in bytes.now fields.now)) }
{
    for field in fields {
        if is_named(bytes, field, b"content-length") && field.value.of(bytes) != value {
            return false;
        }
    }
    true
}
