//! Values without parts, as texts.
ghost use Rattle.std.specs.Prelude.{◌≡◌, ◌++◌, IfOk, OnOk};
ghost use Rattle.std.specs.Fmt.{signed_decimal};
ghost use Rattle.typed_value.specs.declared.typed.Typed.{out-Typed};
ghost use Rattle.value_texts.specs.Scalars.{base64_text, moment_text, scalar_text, text_at};

use crate::slot::Slot;
use base64::engine::general_purpose::STANDARD;
use json_doc::{Doc, OutOfMemory, Text, compact};
use service_model::{Model, TimeForm};
use std::alloc::Global;
use time_texts::{push_iso8601, push_rfc822, unix_seconds};
use typed_value::Typed;

/// A value without parts, as it stands outside JSON.
pub fn text_at(
    alloc: Global,
    model: &Model,
    usual: TimeForm,
    slot: Slot,
    value: &Typed,
) -> Result<Text, OutOfMemory>
    ensures { IfOk result (λ text. text ≡ text_at model.now.shapes usual slot value.now) }
{
    scalar_text(alloc, slot.form(model, usual), value)
}

fn scalar_text(alloc: Global, form: TimeForm, value: &Typed) -> Result<Text, OutOfMemory>
    ensures { IfOk result (λ text. text ≡ scalar_text form (out-Typed value.now)) }
{
    match value {
        Typed::Text(text) => text.copy(alloc),
        Typed::Int(n) => whole_text(alloc, *n),
        Typed::Number(n) => compact(alloc, &Doc::Number(*n)),
        Typed::Flag(flag) => compact(alloc, &Doc::Flag(*flag)),
        Typed::Blob(bytes) => base64_text(alloc, bytes.as_slice()),
        Typed::Moment(moment) => moment_text(alloc, form, *moment),
        _ => Ok(Text::new(alloc)),
    }
}

fn whole_text(alloc: Global, n: i64) -> Result<Text, OutOfMemory>
    ensures { IfOk result (λ text. text ≡ signed_decimal n) }
{
    let mut text = Text::new(alloc);
    push_whole(alloc, &mut text, n)?;
    Ok(text)
}

/// Puts a whole number.
fn push_whole(alloc: Global, out: &mut Text, n: i64) -> Result<(), OutOfMemory>
    ensures { OnOk result (out.new ≡ out.old ++ signed_decimal n) }
{
    out.push_str(format!(in alloc; "{n}")?.as_str())
}

/// A moment in one of the three forms.
pub(crate) fn moment_text(alloc: Global, form: TimeForm, moment: i64) -> Result<Text, OutOfMemory>
    ensures { IfOk result (λ text. text ≡ moment_text form moment) }
{
    let mut text = Text::new(alloc);
    push_moment(alloc, &mut text, form, moment)?;
    Ok(text)
}

/// Puts a moment in one of the three forms.
fn push_moment(
    alloc: Global,
    out: &mut Text,
    form: TimeForm,
    moment: i64,
) -> Result<(), OutOfMemory>
    ensures { OnOk result (out.new ≡ out.old ++ moment_text form moment) }
{
    match form {
        TimeForm::Unix => push_whole(alloc, out, unix_seconds(moment)),
        TimeForm::Rfc822 => push_rfc822(out, moment),
        TimeForm::Iso8601 => push_iso8601(out, moment),
    }
}

/// Bytes in base64 (RFC 4648, section 4).
pub fn base64_text(alloc: Global, bytes: &[u8]) -> Result<Text, OutOfMemory>
    ensures { IfOk result (λ text. text ≡ base64_text bytes.now) }
{
    Ok(Text::from_string(STANDARD.encode(alloc, bytes)?))
}
