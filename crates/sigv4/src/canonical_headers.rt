ghost use Rattle.std.specs.Prelude.{◌≡◌, ◌++◌, IfOk, OnOk, codes};
ghost use Rattle.sigv4.specs.Headers.{AreSignedNames, canonical_headers, values_of, header_line, header_lines};
ghost use Rattle.texts.specs.Joined.{joined};

use crate::header_names::signed_names;
use crate::header_values::{canonical_value, lowered};
use std::alloc::Global;
use texts::{List, OutOfMemory, Text};

/// The headers that are signed, as they are signed.
#[derive(Drop)]
pub struct CanonicalHeaders {
    /// Names in small letters with canonical values, in the message's order.
    pub fields: List<(Text, Text)>,
    /// Each name once, in order.
    pub names: List<Text>,
}

impl CanonicalHeaders {
    /// Those of a message with more headers behind its own.
    pub fn of(
        alloc: Global,
        headers: &[(Text, Text)],
        more: &[(Text, Text)],
    ) -> Result<CanonicalHeaders, OutOfMemory>
        ensures fields { IfOk result (λ signed. signed.fields ≡ canonical_headers (headers.now ++ more.now)) }
        ensures names { IfOk result (λ signed. AreSignedNames (canonical_headers (headers.now ++ more.now)) signed.names) }
    {
        let mut fields = List::new(alloc);
        push_canonical(alloc, &mut fields, headers)?;
        push_canonical(alloc, &mut fields, more)?;
        let names = signed_names(alloc, fields.as_slice())?;
        Ok(CanonicalHeaders { fields, names })
    }

    /// Puts a line for each name.
    pub fn push_lines(&self, out: &mut Text) -> Result<(), OutOfMemory>
        ensures { OnOk result (out.new ≡ out.old ++ header_lines self.now.fields self.now.names) }
    {
        for name in self.names.as_slice() {
            push_line(out, self.fields.as_slice(), name)?;
        }
        Ok(())
    }
}

/// Puts all headers but `Authorization`, with names in small letters and canonical values.
fn push_canonical(
    alloc: Global,
    fields: &mut List<(Text, Text)>,
    headers: &[(Text, Text)],
) -> Result<(), OutOfMemory>
    ensures { OnOk result (fields.new ≡ fields.old ++ canonical_headers headers.now) }
{
    for (name, value) in headers {
        let lower = lowered(alloc, name.as_str())?;
        if lower.is("authorization") {
            continue;
        }
        fields.push((lower, canonical_value(alloc, value.as_str())?))?;
    }
    Ok(())
}

/// Puts a name with its values and a line end.
fn push_line(out: &mut Text, fields: &[(Text, Text)], name: &Text) -> Result<(), OutOfMemory>
    ensures { OnOk result (out.new ≡ out.old ++ header_line fields.now name.now) }
{
    out.push_str(name.as_str())?;
    out.push_ascii(":")?;
    push_values(out, fields, name)?;
    out.push_ascii("\n")
}

/// Puts the values of a name with a comma between each two.
fn push_values(out: &mut Text, fields: &[(Text, Text)], name: &Text) -> Result<(), OutOfMemory>
    ensures { OnOk result (out.new ≡ out.old ++ joined (codes ",") (values_of fields.now name.now)) }
{
    let mut before = "";
    for (other, value) in fields {
        if other != name {
            continue;
        }
        out.push_ascii(before)?;
        out.push_str(value.as_str())?;
        before = ",";
    }
    Ok(())
}
