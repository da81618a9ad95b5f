//! The parameters of endpoint rules that operations set.
ghost use Rattle.std.specs.Prelude.{◌≡◌};
ghost use Rattle.json_doc.specs.declared.doc.Doc.TheViews.{out-Doc};
ghost use Rattle.texts.specs.Calls.{Answers};
ghost use Rattle.model_files.specs.Faults.{each, is_memory};
ghost use Rattle.service_model.specs.Operations.{is_fixed, fixed_value, fixed_in, fixed_params_of};

use json_doc::{Doc, List, Pair, Pairs, Text, copy};
use model_files::{ModelFault, inside, needed, object, wrong};
use std::alloc::Global;

/// The parameters of endpoint rules that an operation sets.
#[tactic(auto, using(model_files::proofs::Each::gives_inside), unfolding(crate::specs::Operations::fixed_params_of))]
pub fn read_fixed_params(
    alloc: Global,
    fields: &Pairs<Doc>,
) -> Result<List<(Text, Doc)>, ModelFault>
    ensures { Answers is_memory (λ x. x) result (fixed_params_of fields.now) }
{
    let Some(doc) = fields.get("staticContextParams") else {
        return Ok(List::new(alloc));
    };
    inside(alloc, "staticContextParams", fixed_params(alloc, doc))
}

#[tactic(auto, unfolding(crate::specs::Operations::fixed_in))]
fn fixed_params(alloc: Global, doc: &Doc) -> Result<List<(Text, Doc)>, ModelFault>
    ensures { Answers is_memory (λ x. x) result (fixed_in doc.now) }
{
    let pairs = object(doc)?;
    fixed_pairs(alloc, pairs)
}

fn fixed_pairs(alloc: Global, pairs: &Pairs<Doc>) -> Result<List<(Text, Doc)>, ModelFault>
    ensures { Answers is_memory (λ x. x) result (each fixed_value pairs.now) }
{
    let mut params = List::new(alloc);
    for pair in pairs.as_slice() {
        let param = inside(alloc, pair.key.as_str(), fixed_value(alloc, pair))?;
        params.push(param)?;
    }
    Ok(params)
}

/// The value of a parameter: a text or a flag.
#[tactic(auto, unfolding(crate::specs::Operations::fixed_value))]
fn fixed_value(alloc: Global, pair: &Pair<Doc>) -> Result<(Text, Doc), ModelFault>
    ensures { Answers is_memory (λ x. x) result (fixed_value pair.now) }
{
    let fields = object(&pair.value)?;
    let value = needed(alloc, fields, "value")?;
    if !is_fixed(value) {
        return Err(wrong(alloc, "value"));
    }
    Ok((pair.key.copy(alloc)?, copy(alloc, value)?))
}

fn is_fixed(value: &Doc) -> bool
    ensures { result ≡ is_fixed (out-Doc value.now) }
{
    match value {
        Doc::Str(_) | Doc::Flag(_) => true,
        _ => false,
    }
}
