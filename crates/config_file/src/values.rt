//! The values that texts stand for.
ghost use Rattle.std.specs.Prelude.{◌≡◌, ◌<◌, ◌^◌, IfOk, None, Some};
ghost use Rattle.std.specs.Option.{option_copied};
ghost use Rattle.config_file.specs.Values.{output_named, number_up_to, flag_in, target_in, is_colon};

use crate::Output;
use aws_world::Target;
use std::alloc::Global;
use texts::{OutOfMemory, Text};

/// A format by its name.
pub fn output_named(name: &Text) -> Option<Output>
    ensures { result ≡ output_named name.now }
{
    if name.is("json") {
        return Some(Output::Json);
    }
    if name.is("text") {
        return Some(Output::Text);
    }
    if name.is("table") {
        return Some(Output::Table);
    }
    None
}

/// A number from 1 to the most, in decimal digits without a leading zero.
pub fn number_up_to(most: u16, digits: &str) -> Option<u16>
    ensures { result ≡ number_up_to most digits.now }
{
    if digits.starts_with('0') || !digits.bytes().all(|b| b.is_ascii_digit()) {
        return None;
    }
    match digits.parse::<u16>() {
        Ok(number) if number <= most => Some(number),
        _ => None,
    }
}

/// `true` or `false`, in any letter case.
pub fn flag_in(text: &str) -> Option<bool>
    ensures { result ≡ flag_in text.now }
{
    if text.eq_ignore_ascii_case("true") {
        return Some(true);
    }
    if text.eq_ignore_ascii_case("false") {
        return Some(false);
    }
    None
}

/// `host:port`, where the host has a character and no colon, and the port is from 1 to 65535.
pub fn target_in(alloc: Global, text: &str) -> Result<Option<Target>, OutOfMemory>
    ensures { IfOk result (λ target. target ≡ target_in text.now) }
{
    let Some((host, digits)) = text.split_once(':') else {
        return Ok(None);
    };
    if host.is_empty() {
        return Ok(None);
    }
    let Some(port) = number_up_to(u16::MAX, digits) else {
        return Ok(None);
    };
    let host = Text::from_str(alloc, host)?;
    Ok(Some(Target { host, port }))
}
