//! The constants of a query in a request's URI.
ghost use Rattle.std.specs.Prelude.{◌≡◌, IfOk};
ghost use Rattle.uri_texts.specs.Constants.{constants, constant};

use crate::escapes::{Slashes, escaped};
use std::alloc::Global;
use texts::{List, OutOfMemory, Text, around_first, cut};

/// The parameters behind the first `?` of a URI, names and values escaped as they stand. One without `=`
/// has an empty value.
pub fn constants(alloc: Global, uri: &Text) -> Result<List<(Text, Text)>, OutOfMemory>
    ensures { IfOk result (λ made. made ≡ constants uri.now) }
{
    let mut made = List::new(alloc);
    let Some((_, query)) = around_first(uri.as_str(), '?') else {
        return Ok(made);
    };
    for part in cut(alloc, query, &['&'])?.as_slice() {
        if part.is_empty() {
            continue;
        }
        made.push(constant(alloc, part)?)?;
    }
    Ok(made)
}

fn constant(alloc: Global, part: &Text) -> Result<(Text, Text), OutOfMemory>
    ensures { IfOk result (λ made. made ≡ constant part.now) }
{
    match around_first(part.as_str(), '=') {
        Some((name, value)) => Ok((
            escaped(alloc, name, Slashes::Escaped)?,
            escaped(alloc, value, Slashes::Escaped)?,
        )),
        None => Ok((
            escaped(alloc, part.as_str(), Slashes::Escaped)?,
            Text::new(alloc),
        )),
    }
}
