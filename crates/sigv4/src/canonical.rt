ghost use Rattle.std.specs.Prelude.{◌≡◌, map, IfOk};
ghost use Rattle.sigv4.specs.Canonical.{canonical_text};
ghost use Rattle.sigv4.specs.Parameters.{shown};

use crate::canonical_headers::CanonicalHeaders;
use crate::parameters::push_query;
use crate::paths::push_path;
use crate::pieces::{push_hash, push_joined};
use aws_world::Message;
use std::alloc::Global;
use texts::{OutOfMemory, Text};

/// The canonical request ("Create a signed AWS API request", step 1): method, path, query, these
/// headers, their names and the body's hash.
pub fn canonical_request(
    alloc: Global,
    message: &Message,
    query: &[(&str, &str)],
    headers: &CanonicalHeaders,
) -> Result<Text, OutOfMemory>
    ensures { IfOk result (λ request. request
        ≡ canonical_text message.now headers.now.fields (map shown query.now) headers.now.names) }
{
    let mut request = message.method.copy(alloc)?;
    request.push_ascii("\n")?;
    push_path(alloc, &mut request, &message.path)?;
    request.push_ascii("\n")?;
    push_query(&mut request, query)?;
    request.push_ascii("\n")?;
    headers.push_lines(&mut request)?;
    request.push_ascii("\n")?;
    push_joined(&mut request, ";", headers.names.as_slice())?;
    request.push_ascii("\n")?;
    push_hash(alloc, &mut request, message.body.as_slice())?;
    Ok(request)
}
