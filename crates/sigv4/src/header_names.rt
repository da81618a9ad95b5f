ghost use Rattle.std.specs.Prelude.{IfOk};
ghost use Rattle.sigv4.specs.Headers.{AreSignedNames};

use std::alloc::Global;
use texts::{List, OutOfMemory, Text, put_in_order};

/// The names of headers, each once, in the order of their bytes.
pub fn signed_names(alloc: Global, headers: &[(Text, Text)]) -> Result<List<Text>, OutOfMemory>
    ensures { IfOk result (AreSignedNames headers.now) }
{
    let mut names = Vec::new(alloc);
    for (name, _) in headers {
        put_in_order(&mut names, name.copy(alloc)?)?;
    }
    Ok(List::from_vec(names))
}
