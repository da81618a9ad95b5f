//! Amazon Resource Names.
ghost use Rattle.std.specs.Prelude.{◌≡◌, IfOk};
ghost use Rattle.endpoint_rules.specs.Arns.{arn_of, arn_in, words_of};

use json_doc::{Doc, Pairs};
use rule_terms::{put, put_text};
use std::alloc::Global;
use texts::{List, OutOfMemory, Text, cut, cut_times};

/// The marks between the words of a resource.
const RESOURCE_MARKS: [char; 2] = [':', '/'];

/// An ARN as an object, or null where a text is none: `arn` and five more parts behind colons, of which
/// the last is the rest. The partition, the service and the resource aren't empty.
pub fn parse_arn(alloc: Global, text: &Text) -> Result<Doc, OutOfMemory>
    ensures { IfOk result (λ value. value ≡ arn_of text.now) }
{
    let parts = cut_times(alloc, text.as_str(), ':', 5)?;
    arn_in(alloc, parts.as_slice())
}

/// The ARN of these parts.
fn arn_in(alloc: Global, parts: &[Text]) -> Result<Doc, OutOfMemory>
    ensures { IfOk result (λ value. value ≡ arn_in parts.now) }
{
    match parts {
        [arn, partition, service, region, account, resource]
            if arn.is("arn")
                && !partition.is_empty()
                && !service.is_empty()
                && !resource.is_empty() => {
            let mut parts = Pairs::new(alloc);
            put_text(alloc, &mut parts, "partition", partition.as_str())?;
            put_text(alloc, &mut parts, "service", service.as_str())?;
            put_text(alloc, &mut parts, "region", region.as_str())?;
            put_text(alloc, &mut parts, "accountId", account.as_str())?;
            put(alloc, &mut parts, "resourceId", words_of(alloc, resource)?)?;
            Ok(Doc::Fields(parts))
        }
        _ => Ok(Doc::Null),
    }
}

/// The words of a resource, as a list.
fn words_of(alloc: Global, resource: &Text) -> Result<Doc, OutOfMemory>
    ensures { IfOk result (λ value. value ≡ words_of resource.now) }
{
    let words = cut(alloc, resource.as_str(), RESOURCE_MARKS.as_slice())?;
    let mut items = List::new(alloc);
    for word in words.into_vec() {
        items.push(Doc::Str(word))?;
    }
    Ok(Doc::Items(items))
}
