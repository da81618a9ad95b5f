ghost use Rattle.std.specs.Prelude.{◌≡◌, ◌++◌, map, IfOk, OnOk};
ghost use Rattle.sigv4.specs.Parameters.{IsSortedQuery, canonical_query, shown};
ghost use Rattle.uri_texts.specs.Parameters.{parameter};
ghost use Rattle.std.specs.Str.{chars};

use std::alloc::Global;
use texts::{OutOfMemory, Text};

/// The parameters of a query in the order of their names, then of their values.
pub fn sorted_query<'a>(
    alloc: Global,
    query: &'a [(Text, Text)],
) -> Result<Vec<(&'a str, &'a str)>, OutOfMemory>
    ensures { IfOk result (λ sorted. IsSortedQuery query.now (map shown sorted.items)) }
{
    let mut sorted = Vec::new(alloc);
    for (name, value) in query {
        sorted.push((name.as_str(), value.as_str()))?;
    }
    sorted.sort()?;
    Ok(sorted)
}

/// Puts the parameters, already escaped, with `&` between each two.
pub fn push_query(out: &mut Text, sorted: &[(&str, &str)]) -> Result<(), OutOfMemory>
    ensures { OnOk result (out.new ≡ out.old ++ canonical_query (map shown sorted.now)) }
{
    let mut before = "";
    for (name, value) in sorted {
        out.push_ascii(before)?;
        push_parameter(out, name, value)?;
        before = "&";
    }
    Ok(())
}

fn push_parameter(out: &mut Text, name: &str, value: &str) -> Result<(), OutOfMemory>
    ensures { OnOk result (out.new ≡ out.old ++ parameter (chars name.now, chars value.now)) }
{
    out.push_str(name)?;
    out.push_ascii("=")?;
    out.push_str(value)
}
