//! The first bad place of partitions, in the order of the document.
ghost use Rattle.std.specs.Prelude.{◌≡◌};
ghost use Rattle.rule_sets.specs.BadPartitions.{judged_partitions, judged_list, judged_outputs, judged_pattern, judged_partition, judged_partition_part, judged_output, is_text_output};
ghost use Rattle.rule_sets.specs.BadPlaces.{Judges};
ghost use Rattle.rule_sets.specs.BadRules.{any_text, any_flag};

use crate::judging::{any_flag, any_text, demand, need};
use json_doc::Doc;
use model_files::{ModelFault, inside, items, move_to, object, text};
use rule_terms::pattern_of;
use std::alloc::Global;
use texts::Text;

/// The first bad place of partitions.
pub fn judge_partitions(alloc: Global, doc: &Doc) -> Result<(), ModelFault>
    ensures { Judges result (judged_partitions doc.now) }
{
    let fields = object(doc)?;
    need(alloc, fields, "partitions")?;
    for field in fields.as_slice() {
        if field.key.is("partitions") {
            inside(alloc, "partitions", judge_list(alloc, &field.value))?;
        }
    }
    Ok(())
}

fn judge_list(alloc: Global, doc: &Doc) -> Result<(), ModelFault>
    ensures { Judges result (judged_list doc.now) }
{
    for (at, item) in items(doc)?.as_slice().iter().enumerate() {
        if let Err(fault) = judge_partition(alloc, item) {
            return Err(move_to(alloc, at, fault));
        }
    }
    Ok(())
}

fn judge_partition(alloc: Global, doc: &Doc) -> Result<(), ModelFault>
    ensures { Judges result (judged_partition doc.now) }
{
    let fields = object(doc)?;
    need(alloc, fields, "id")?;
    need(alloc, fields, "regionRegex")?;
    need(alloc, fields, "outputs")?;
    for field in fields.as_slice() {
        let judged = judge_part(alloc, &field.key, &field.value);
        inside(alloc, field.key.as_str(), judged)?;
    }
    Ok(())
}

fn judge_part(alloc: Global, key: &Text, doc: &Doc) -> Result<(), ModelFault>
    ensures { Judges result (judged_partition_part key.now doc.now) }
{
    if key.is("id") {
        return any_text(doc);
    }
    if key.is("regionRegex") {
        return judge_pattern(alloc, doc);
    }
    if key.is("regions") {
        let _ = object(doc)?;
        return Ok(());
    }
    if key.is("outputs") {
        return judge_outputs(alloc, doc);
    }
    Ok(())
}

fn judge_pattern(alloc: Global, doc: &Doc) -> Result<(), ModelFault>
    ensures { Judges result (judged_pattern doc.now) }
{
    let parts = pattern_of(alloc, text(doc)?.as_str())?;
    demand(parts.is_some())
}

/// What partitions say of their endpoints are texts and truth values.
fn judge_outputs(alloc: Global, doc: &Doc) -> Result<(), ModelFault>
    ensures { Judges result (judged_outputs doc.now) }
{
    for field in object(doc)?.as_slice() {
        inside(
            alloc,
            field.key.as_str(),
            judge_output(&field.key, &field.value),
        )?;
    }
    Ok(())
}

fn judge_output(key: &Text, doc: &Doc) -> Result<(), ModelFault>
    ensures { Judges result (judged_output key.now doc.now) }
{
    if key.is("supportsFIPS") || key.is("supportsDualStack") {
        return any_flag(doc);
    }
    if is_text_output(key) {
        return any_text(doc);
    }
    Ok(())
}

fn is_text_output(key: &Text) -> bool
    ensures { result ≡ is_text_output key.now }
{
    key.is("name")
        || key.is("dnsSuffix")
        || key.is("dualStackDnsSuffix")
        || key.is("implicitGlobalRegion")
}
