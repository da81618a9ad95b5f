ghost use Rattle.std.specs.Prelude.{◌≡◌, ◌<◌, ◌++◌, OnOk};
ghost use Rattle.std.specs.Char.{digit_char};
ghost use Rattle.std.specs.Char.Escape.{encode_utf16};
ghost use Rattle.std.specs.List.{flat_map, prefix_len};
ghost use Rattle.std.specs.Str.{chars};
ghost use Rattle.json_doc.specs.Escapes.{letter_of, is_bare, unit_escape, escaped, quoted};
ghost use Rattle.json_doc.specs.Plain.{is_plain};

use crate::layout::Layout;
use crate::{OutOfMemory, Text};

/// Writes a text in quotation marks, as it stands in a document of that layout: runs of plain characters
/// at once, the others one by one.
pub fn push_quoted(out: &mut Text, text: &str, layout: Layout) -> Result<(), OutOfMemory>
    ensures { OnOk result (out.new ≡ out.old ++ quoted layout (chars text.now)) }
{
    out.push('"')?;
    let mut rest = text;
    'runs: loop {
        let (run, more) = rest.split_at(plain_len(rest.as_bytes()));
        out.push_str(run)?;
        let mut others = more.chars();
        let Some(c) = others.next() else {
            return out.push('"');
        };
        write_escaped(out, c, layout)?;
        rest = others.as_str();
    }
}

/// How many bytes stand for themselves in every layout before the first that may not.
fn plain_len(bytes: &[u8]) -> usize
    ensures { result ≡ prefix_len is_plain bytes.now }
{
    for (i, b) in bytes.iter().enumerate() {
        if !is_plain(*b) {
            return i;
        }
    }
    bytes.len()
}

fn is_plain(b: u8) -> bool
    ensures { result ≡ is_plain b }
{
    32 <= b && b <= 126 && b != b'"' && b != b'\\'
}

fn write_escaped(out: &mut Text, c: char, layout: Layout) -> Result<(), OutOfMemory>
    ensures { OnOk result (out.new ≡ out.old ++ escaped layout c) }
{
    if let Some(letter) = letter_of(c) {
        out.push('\\')?;
        return out.push(letter);
    }
    if is_bare(layout, c) {
        return out.push(c);
    }
    write_units(out, c)
}

/// The second character of a two-character escape.
fn letter_of(c: char) -> Option<char>
    ensures { result ≡ letter_of c }
{
    match c {
        '"' | '\\' => Some(c),
        '\u{8}' => Some('b'),
        '\t' => Some('t'),
        '\n' => Some('n'),
        '\u{c}' => Some('f'),
        '\r' => Some('r'),
        _ => None,
    }
}

fn is_bare(layout: Layout, c: char) -> bool
    ensures { result ≡ is_bare layout c }
{
    match layout {
        Layout::Compact => ' ' <= c && c <= '~',
        Layout::Indented => ' ' <= c,
    }
}

/// Writes a character as the escapes of its one or two units of UTF-16.
fn write_units(out: &mut Text, c: char) -> Result<(), OutOfMemory>
    ensures { OnOk result (out.new ≡ out.old ++ flat_map unit_escape (encode_utf16 c)) }
{
    let mut units = [0u16; 2];
    for unit in c.encode_utf16(&mut units).iter() {
        write_unit(out, *unit)?;
    }
    Ok(())
}

fn write_unit(out: &mut Text, unit: u16) -> Result<(), OutOfMemory>
    ensures { OnOk result (out.new ≡ out.old ++ unit_escape unit) }
{
    out.push('\\')?;
    out.push('u')?;
    out.push(hex_digit(unit / 4096))?;
    out.push(hex_digit(unit / 256 % 16))?;
    out.push(hex_digit(unit / 16 % 16))?;
    out.push(hex_digit(unit % 16))
}

fn hex_digit(n: u16) -> char
    requires { n < 16 }
    ensures { result ≡ digit_char n }
{
    if n < 10 {
        char::from(b'0' + n as u8)
    } else {
        char::from(b'a' + (n as u8 - 10))
    }
}
