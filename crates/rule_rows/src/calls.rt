//! Calls of the rules' language, asked in a rule set that is made here, with a text, two truth values, and two
//! parameters that have no value; and endpoints of URLs.
use crate::asking::{Asking, refused, shown};
use json_doc::{OutOfMemory, Text};
use row_words::text_of;
use std::alloc::Global;

/// Partitions of which the first lists a region, as do the rows of the whole command.
const PARTITIONS: &str = r#"{"partitions":[
{"id":"aws","regionRegex":"^(us|eu|ap)\\-\\w+\\-\\d+$","regions":{"aws-global":{}},"outputs":{"dnsSuffix":"amazonaws.com","supportsFIPS":true}},
{"id":"aws-cn","regionRegex":"^cn\\-\\w+\\-\\d+$","regions":{},"outputs":{"dnsSuffix":"amazonaws.com.cn","supportsFIPS":true}},
{"id":"dry","regionRegex":"^dry\\-\\w+\\-\\d+$","regions":{"us-dry-1":{}},"outputs":{"dnsSuffix":"dry.example","supportsFIPS":false}}]}"#;

/// The parameters of a rule set that is made here.
const PARAMETERS: &str =
    r#"{"parameters":{"Text":{"type":"String","default":"some-text"},"Yes":{"type":"Boolean","default":true},"No":{"type":"Boolean","default":false},"Unset":{"type":"String"},"List":{"type":"stringArray"}},"rules":"#;

/// The endpoint at a URL.
pub fn endpoint_of(alloc: Global, url: &[u8]) -> Result<Text, OutOfMemory> {
    match endpoint_rules::endpoint_of(alloc, &text_of(alloc, url)?) {
        Ok(endpoint) => shown(alloc, &endpoint),
        Err(fault) => refused(alloc, &fault),
    }
}

/// The text that a call gives.
pub fn rule_text(alloc: Global, call: &[u8]) -> Result<Text, OutOfMemory> {
    let call = text_of(alloc, call)?;
    let rules = format!(in alloc;
        r#"{PARAMETERS}[{{"conditions":[{{"fn":"isSet","argv":[{call}]}}],"type":"tree","rules":[{{"type":"error","error":{call}}}]}}]}}"#
    )?;
    endpoint(alloc, rules.as_bytes(), b"", b"")
}

/// Whether a call is true, false or null.
pub fn rule_truth(alloc: Global, call: &[u8]) -> Result<Text, OutOfMemory> {
    let call = text_of(alloc, call)?;
    let rules = format!(in alloc;
        r#"{PARAMETERS}[{{"conditions":[{call}],"type":"error","error":"true"}},{{"conditions":[{{"fn":"isSet","argv":[{call}]}}],"type":"error","error":"false"}},{{"type":"error","error":"null"}}]}}"#
    )?;
    endpoint(alloc, rules.as_bytes(), b"", b"")
}

/// The endpoint that a rule set gives for parameters, by these partitions, or by the ones here.
pub fn endpoint(
    alloc: Global,
    rules: &[u8],
    partitions: &[u8],
    parameters: &[u8],
) -> Result<Text, OutOfMemory> {
    let mut asking = Asking::new();
    let said = asking.take_rules(alloc, rules)?;
    if !said.is("read") {
        return Ok(said);
    }
    let partitions = if partitions.is_empty() {
        PARTITIONS.as_bytes()
    } else {
        partitions
    };
    let said = asking.take_partitions(alloc, partitions)?;
    if !said.is("read") {
        return Ok(said);
    }
    asking.resolve(alloc, parameters)
}
