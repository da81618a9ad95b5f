//! The values of a rule set's parameters.
ghost use Rattle.std.specs.Prelude.{◌≡◌, IfOk};
ghost use Rattle.std.specs.Option.{option_copied};
ghost use Rattle.endpoint_rules.specs.Free.{lacks_memory};
ghost use Rattle.texts.specs.Calls.{Answers};
ghost use Rattle.endpoint_rules.specs.declared.fault.EndpointFault.TheVariants as endpoint_fault;
ghost use Rattle.endpoint_rules.specs.Parameters.{given_of, value_for, param_for, param_named, param_value, missing_text};

use crate::endpoint::Param;
use crate::fault::EndpointFault;
use json_doc::{Doc, copy};
use rule_sets::Parameter;
use std::alloc::Global;
use texts::{OutOfMemory, Pairs, Text};

/// The parameters that have a value, or the fault of the first that needs one and has none.
pub fn given(
    alloc: Global,
    parameters: &[Parameter],
    params: &[(Text, Param)],
) -> Result<Pairs<Doc>, EndpointFault>
    ensures { Answers lacks_memory (λ given. given) result (given_of params.now parameters.now) }
{
    let mut given = Pairs::new(alloc);
    for parameter in parameters {
        match value_for(alloc, parameter, params)? {
            Some(value) => given.put(parameter.name.copy(alloc)?, value)?,
            None if parameter.required => {
                return Err(EndpointFault::RuleError(missing_text(alloc, &parameter.name)?));
            }
            None => {}
        }
    }
    Ok(given)
}

/// The value of a parameter: that under its name, else that under its built-in's, else its default.
fn value_for(
    alloc: Global,
    parameter: &Parameter,
    params: &[(Text, Param)],
) -> Result<Option<Doc>, OutOfMemory>
    ensures { IfOk result (λ value. value ≡ value_for params.now parameter.now) }
{
    if parameter.is_list {
        return Ok(None);
    }
    if let Some(param) = param_for(parameter, params) {
        return Ok(Some(param_value(alloc, param)?));
    }
    match &parameter.default {
        Some(default) => Ok(Some(copy(alloc, default)?)),
        None => Ok(None),
    }
}

fn param_for<'a>(parameter: &Parameter, params: &'a [(Text, Param)]) -> Option<&'a Param>
    ensures { option_copied result ≡ param_for params.now parameter.now }
{
    match param_named(params, &parameter.name) {
        Some(param) => Some(param),
        None => param_named(params, parameter.built_in.as_ref()?),
    }
}

/// The first value under a name.
fn param_named<'a>(params: &'a [(Text, Param)], name: &Text) -> Option<&'a Param>
    ensures { option_copied result ≡ param_named name.now params.now }
{
    for (key, param) in params {
        if key == name {
            return Some(param);
        }
    }
    None
}

fn param_value(alloc: Global, param: &Param) -> Result<Doc, OutOfMemory>
    ensures { IfOk result (λ value. value ≡ param_value param.now) }
{
    match param {
        Param::Str(text) => Ok(Doc::Str(text.copy(alloc)?)),
        Param::Flag(flag) => Ok(Doc::Flag(*flag)),
    }
}

fn missing_text(alloc: Global, name: &Text) -> Result<Text, OutOfMemory>
    ensures { IfOk result (λ text. text ≡ missing_text name.now) }
{
    let mut text = Text::new(alloc);
    text.push_ascii("Missing required parameter: ")?;
    text.push_str(name.as_str())?;
    Ok(text)
}
