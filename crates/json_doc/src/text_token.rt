//! Texts of JSON behind their opening quotation mark (RFC 8259, section 7).
ghost use Rattle.std.specs.Prelude.{
  ◌≡◌,
  ◌≢◌,
  ℕ,
  ◌<◌,
  ◌≤◌,
  true,
  false,
  List,
  ◌∷◌,
  length,
  take,
  drop,
  slice_index,
  IfOk,
  IfErr,
  MatchResult,
  MatchOption,
};
ghost use Rattle.std.specs.Int.{IsInRange};
ghost use Rattle.std.specs.Str.{chars, IsUtf8};
ghost use Rattle.std.specs.Str.Lossy.{second_byte_min, second_byte_max};
ghost use Rattle.json_doc.specs.Reading.{byte_in, Stops};
ghost use Rattle.texts.specs.Calls.{Gives};
ghost use Rattle.json_doc.specs.TextToken.{
  ends_run,
  with_front,
  two_at,
  three_at,
  four_at,
  utf8_at,
  hex_in,
  low_half_at,
  unit_at,
  unicode_at,
  named_char,
  escape_at,
  char_at,
  text_at,
  BeginsWithText,
};
ghost use Rattle.json_doc.specs.declared.stop.Stop.TheVariants.{OutOfMemory as NoMemory};

use crate::Text;
use crate::stop::Stop;
use std::alloc::Global;
use std::str;

// By byte: `#` where a run of plain bytes ends, at the controls, the quotation mark and the backslash.
static RUN_ENDS: [u8; 256] = *b"\
    ################################\
    ..#.............................\
    ............................#...\
    ................................\
    ................................\
    ................................\
    ................................\
    ................................";

fn ends_run(b: u8) -> bool
    ensures { result ≡ ends_run b }
{
    RUN_ENDS[b as usize] == b'#'
}

// How many bytes stand before the first that ends a run.
fn run_len(bytes: &[u8]) -> usize
    ensures within { result ≤ length bytes.now }
    ensures plain { (k : ℕ) → k < result → ends_run (slice_index bytes.now k) ≡ false }
    ensures ends { result < length bytes.now → ends_run (slice_index bytes.now result) ≡ true }
{
    for (at, b) in bytes.iter().enumerate() {
        if ends_run(*b) {
            return at;
        }
    }
    bytes.len()
}

// The byte in front, which is to be in this range.
#[tactic(auto, unfolding(crate::specs::Reading::byte_in))]
fn byte_in(bytes: &[u8], low: u8, high: u8) -> Result<(u8, &[u8]), Stop>
    ensures read { Gives (λ x. (x.0, x.1.now)) result (byte_in low high bytes.now) }
    ensures range { IfOk result (λ x. IsInRange low high x.0) }
{
    let Some((b, rest)) = bytes.split_first() else {
        return Err(Stop::Syntax(0));
    };
    if low <= *b && *b <= high {
        Ok((*b, rest))
    } else {
        Err(Stop::Syntax(bytes.len()))
    }
}

// The rest of a character in two bytes behind its first.
#[tactic(auto, unfolding(crate::specs::TextToken::two_at))]
fn two_at(first: u8, bytes: &[u8]) -> Result<(u32, &[u8]), Stop>
    requires { 0xC0 ≤ first }
    ensures { Gives (λ x. (x.0, x.1.now)) result (two_at first bytes.now) }
{
    let (second, rest) = byte_in(bytes, 0x80, 0xBF)?;
    Ok((
        u32::from(first - 0xC0) * 64 + u32::from(second - 0x80),
        rest,
    ))
}

// The bytes that may stand behind the first of three or four.
fn second_min(first: u8) -> u8
    ensures { result ≡ second_byte_min first }
{
    match first {
        0xE0 => 0xA0,
        0xF0 => 0x90,
        _ => 0x80,
    }
}

fn second_max(first: u8) -> u8
    ensures { result ≡ second_byte_max first }
{
    match first {
        0xED => 0x9F,
        0xF4 => 0x8F,
        _ => 0xBF,
    }
}

// The rest of a character in three bytes.
#[tactic(auto, unfolding(crate::specs::TextToken::three_at))]
fn three_at(first: u8, bytes: &[u8]) -> Result<(u32, &[u8]), Stop>
    requires { 0xE0 ≤ first }
    ensures { Gives (λ x. (x.0, x.1.now)) result (three_at first bytes.now) }
{
    let (second, rest) = byte_in(bytes, second_min(first), second_max(first))?;
    let (third, rest) = byte_in(rest, 0x80, 0xBF)?;
    let high = u32::from(first - 0xE0) * 64 + u32::from(second - 0x80);
    Ok((high * 64 + u32::from(third - 0x80), rest))
}

// The rest of a character in four bytes.
#[tactic(auto, unfolding(crate::specs::TextToken::four_at))]
fn four_at(first: u8, bytes: &[u8]) -> Result<(u32, &[u8]), Stop>
    requires { 0xF0 ≤ first }
    ensures { Gives (λ x. (x.0, x.1.now)) result (four_at first bytes.now) }
{
    let (second, rest) = byte_in(bytes, second_min(first), second_max(first))?;
    let (third, rest) = byte_in(rest, 0x80, 0xBF)?;
    let (fourth, rest) = byte_in(rest, 0x80, 0xBF)?;
    let high = u32::from(first - 0xF0) * 64 + u32::from(second - 0x80);
    let high = high * 64 + u32::from(third - 0x80);
    Ok((high * 64 + u32::from(fourth - 0x80), rest))
}

// The code of a character in UTF-8, from the blank on.
#[tactic(auto, unfolding(crate::specs::TextToken::utf8_at))]
fn utf8_at(bytes: &[u8]) -> Result<(u32, &[u8]), Stop>
    ensures { Gives (λ x. (x.0, x.1.now)) result (utf8_at bytes.now) }
{
    let Some((first, rest)) = bytes.split_first() else {
        return Err(Stop::Syntax(0));
    };
    match *first {
        0x20..=0x7F => Ok((u32::from(*first), rest)),
        0xC2..=0xDF => two_at(*first, rest),
        0xE0..=0xEF => three_at(*first, rest),
        0xF0..=0xF4 => four_at(*first, rest),
        _ => Err(Stop::Syntax(bytes.len())),
    }
}

// The value of a hexadecimal digit, which is to be in this range.
#[tactic(auto, unfolding(crate::specs::TextToken::hex_in))]
fn hex_in(bytes: &[u8], low: u32, high: u32) -> Result<(u32, &[u8]), Stop>
    requires { high < 16 }
    ensures read { Gives (λ x. (x.0, x.1.now)) result (hex_in low high bytes.now) }
    ensures range { IfOk result (λ x. IsInRange low high x.0) }
{
    let Some((b, rest)) = bytes.split_first() else {
        return Err(Stop::Syntax(0));
    };
    match char::from(*b).to_digit(16) {
        Some(digit) if low <= digit && digit <= high => Ok((digit, rest)),
        _ => Err(Stop::Syntax(bytes.len())),
    }
}

// The code of the character of a surrogate pair, whose first half was read.
#[tactic(auto, unfolding(crate::specs::TextToken::low_half_at))]
fn low_half_at(high: u32, bytes: &[u8]) -> Result<(u32, &[u8]), Stop>
    requires low { 0xD800 ≤ high }
    requires high { high < 0xDC00 }
    ensures { Gives (λ x. (x.0, x.1.now)) result (low_half_at high bytes.now) }
{
    let (_, rest) = byte_in(bytes, b'\\', b'\\')?;
    let (_, rest) = byte_in(rest, b'u', b'u')?;
    let (a, rest) = hex_in(rest, 13, 13)?;
    let (b, rest) = hex_in(rest, 12, 15)?;
    let (c, rest) = hex_in(rest, 0, 15)?;
    let (d, rest) = hex_in(rest, 0, 15)?;
    let low = ((a * 16 + b) * 16 + c) * 16 + d;
    Ok((0x1_0000 + (high - 0xD800) * 0x400 + (low - 0xDC00), rest))
}

// The value of the digits behind `\u`, which don't begin with the second half of a pair.
#[tactic(auto, unfolding(crate::specs::TextToken::unit_at))]
fn unit_at(bytes: &[u8]) -> Result<(u32, &[u8]), Stop>
    ensures read { Gives (λ x. (x.0, x.1.now)) result (unit_at bytes.now) }
{
    let (a, rest) = hex_in(bytes, 0, 15)?;
    let (b, rest) = hex_in(rest, 0, if a == 13 { 11 } else { 15 })?;
    let (c, rest) = hex_in(rest, 0, 15)?;
    let (d, rest) = hex_in(rest, 0, 15)?;
    Ok((((a * 16 + b) * 16 + c) * 16 + d, rest))
}

#[tactic(auto, unfolding(crate::specs::TextToken::unicode_at))]
fn unicode_at(bytes: &[u8]) -> Result<(u32, &[u8]), Stop>
    ensures { Gives (λ x. (x.0, x.1.now)) result (unicode_at bytes.now) }
{
    let (unit, rest) = unit_at(bytes)?;
    if 0xD800 <= unit && unit < 0xDC00 {
        low_half_at(unit, rest)
    } else {
        Ok((unit, rest))
    }
}

// The character that a letter behind a backslash names.
fn named_char(letter: u8) -> Option<u32>
    ensures { result ≡ named_char letter }
{
    match letter {
        b'"' | b'\\' | b'/' => Some(u32::from(letter)),
        b'b' => Some(0x08),
        b'f' => Some(0x0C),
        b'n' => Some(0x0A),
        b'r' => Some(0x0D),
        b't' => Some(0x09),
        _ => None,
    }
}

// What is behind a backslash.
#[tactic(auto, unfolding(crate::specs::TextToken::escape_at))]
fn escape_at(bytes: &[u8]) -> Result<(u32, &[u8]), Stop>
    ensures { Gives (λ x. (x.0, x.1.now)) result (escape_at bytes.now) }
{
    let Some((letter, rest)) = bytes.split_first() else {
        return Err(Stop::Syntax(0));
    };
    if *letter == b'u' {
        return unicode_at(rest);
    }
    match named_char(*letter) {
        Some(c) => Ok((c, rest)),
        None => Err(Stop::Syntax(bytes.len())),
    }
}

// One character: an escape, or one that stands for itself, in UTF-8. The quotation mark is one too
// here; the caller looks for it before.
#[tactic(auto, unfolding(crate::specs::TextToken::char_at))]
fn code_at(bytes: &[u8]) -> Result<(u32, &[u8]), Stop>
    ensures { Gives (λ x. (x.0, x.1.now)) result (char_at bytes.now) }
{
    match bytes.split_first() {
        Some((b'\\', rest)) => escape_at(rest),
        _ => utf8_at(bytes),
    }
}

fn char_at(bytes: &[u8]) -> Result<(char, &[u8]), Stop>
    requires { slice_index bytes.now 0 ≢ 0x22 }
    ensures read { Gives (λ x. (x.0, x.1.now)) result (char_at bytes.now) }
    ensures shorter { IfOk result (λ x. length x.1.now < length bytes.now) }
{
    let (code, rest) = code_at(bytes)?;
    match char::from_u32(code) {
        Some(c) => Ok((c, rest)),
        None => unreachable!(),
    }
}

// What is behind the quotation mark, if the bytes begin with it.
fn behind_quote(bytes: &[u8]) -> Option<&[u8]>
    ensures { MatchOption result (slice_index bytes.now 0 ≢ 0x22) (λ rest. bytes.now ≡ 0x22 ∷ rest.now) }
{
    match bytes.split_first() {
        Some((b'"', rest)) => Some(rest),
        _ => None,
    }
}

// The bytes in front that stand for themselves, as far as they are UTF-8, and what is behind them.
fn plain_front(bytes: &[u8]) -> (&str, &[u8])
    ensures read { text_at bytes.now ≡ with_front (chars result.0.now) (text_at result.1.now) }
    ensures shorter { length result.1.now ≤ length bytes.now }
{
    let (run, rest) = bytes.split_at(run_len(bytes));
    match str::from_utf8(run) {
        Ok(text) => (text, rest),
        Err(e) => utf8_front(bytes, e.valid_up_to()),
    }
}

// The first bytes, which are UTF-8.
fn utf8_front(bytes: &[u8], len: usize) -> (&str, &[u8])
    requires within { len ≤ length bytes.now }
    requires utf8 { IsUtf8 (take len bytes.now) }
    ensures front { result.0.now ≡ take len bytes.now }
    ensures back { result.1.now ≡ drop len bytes.now }
{
    let (front, rest) = bytes.split_at(len);
    match str::from_utf8(front) {
        Ok(text) => (text, rest),
        Err(_) => unreachable!(),
    }
}

/// Reads a text from behind its opening quotation mark up to the closing one, and gives what is
/// behind that.
pub(crate) fn read_text(alloc: Global, bytes: &[u8]) -> Result<(Text, &[u8]), Stop>
    ensures read { IfOk result (λ x. text_at bytes.now ≡ Ok (x.0, x.1.now)) }
    ensures fault { IfErr result (Stops (λ stop. text_at bytes.now ≡ Err stop)) }
    ensures shorter { IfOk result (λ x. length x.1.now < length bytes.now) }
    // What is read is spelled in front, and what is spelled in front is read.
    ensures spelled { IfOk result (λ x. BeginsWithText bytes.now x.0 x.1.now) }
    ensures only { (text rest : List ℕ) → BeginsWithText bytes.now text rest
        → MatchResult result (λ x. (x.0 ≡ text) × (x.1.now ≡ rest)) (λ stop. stop ≡ NoMemory) }
{
    let mut text = Text::new(alloc);
    let mut rest = bytes;
    loop {
        let (run, more) = plain_front(rest);
        text.push_str(run)?;
        if let Some(behind) = behind_quote(more) {
            return Ok((text, behind));
        }
        let (c, others) = char_at(more)?;
        text.push(c)?;
        rest = others;
    }
}
