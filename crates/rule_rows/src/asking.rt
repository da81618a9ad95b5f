//! A rule set and partitions that are asked for endpoints.
use endpoint_rules::{Endpoint, EndpointFault, Param, Partitions, RuleSet, Scheme};
use json_doc::{List, OutOfMemory, Text, read};
use row_words::{text_of, told};
use std::alloc::Global;

/// What was read last.
#[derive(Drop)]
pub struct Asking {
    rules: Option<RuleSet>,
    partitions: Option<Partitions>,
}

impl Asking {
    /// Nothing was read.
    pub fn new() -> Asking {
        Asking {
            rules: None,
            partitions: None,
        }
    }

    /// What is wrong with a rule set, if anything; where nothing is, it is asked from here on.
    pub fn take_rules(&mut self, alloc: Global, document: &[u8]) -> Result<Text, OutOfMemory> {
        self.rules = None;
        let Ok(doc) = read(alloc, document) else {
            return Text::from_str(alloc, "no document");
        };
        match RuleSet::read(alloc, &doc) {
            Ok(rules) => {
                self.rules = Some(rules);
                Text::from_str(alloc, "read")
            }
            Err(fault) => told(alloc, &fault),
        }
    }

    /// The same of partitions.
    pub fn take_partitions(&mut self, alloc: Global, document: &[u8]) -> Result<Text, OutOfMemory> {
        self.partitions = None;
        let Ok(doc) = read(alloc, document) else {
            return Text::from_str(alloc, "no document");
        };
        match Partitions::read(alloc, &doc) {
            Ok(partitions) => {
                self.partitions = Some(partitions);
                Text::from_str(alloc, "read")
            }
            Err(fault) => told(alloc, &fault),
        }
    }

    /// The endpoint for parameters, of which each line has a kind, a name and a value.
    pub fn resolve(&self, alloc: Global, parameters: &[u8]) -> Result<Text, OutOfMemory> {
        let (Some(rules), Some(partitions)) = (&self.rules, &self.partitions) else {
            return Text::from_str(alloc, "nothing was read");
        };
        let parameters = params(alloc, &text_of(alloc, parameters)?)?;
        match rules.resolve(alloc, partitions, &parameters) {
            Ok(endpoint) => shown(alloc, &endpoint),
            Err(fault) => refused(alloc, &fault),
        }
    }
}

fn params(alloc: Global, lines: &Text) -> Result<List<(Text, Param)>, OutOfMemory> {
    let mut params = List::new(alloc);
    for line in lines.as_str().split('\n') {
        if let Some((kind, rest)) = line.split_once(' ') {
            let (name, value) = rest.split_once(' ').unwrap_or((rest, ""));
            let value = if kind == "flag" {
                Param::Flag(value == "true")
            } else {
                Param::Str(Text::from_str(alloc, value)?)
            };
            params.push((Text::from_str(alloc, name)?, value))?;
        }
    }
    Ok(params)
}

/// Why there is no endpoint.
pub fn refused(alloc: Global, fault: &EndpointFault) -> Result<Text, OutOfMemory> {
    match fault {
        EndpointFault::RuleError(text) => {
            Ok(Text::from_string(format!(in alloc; "error: {text}")?))
        }
        _ => told(alloc, fault),
    }
}

/// An endpoint: its scheme, host, port and path, and how it is signed.
pub fn shown(alloc: Global, endpoint: &Endpoint) -> Result<Text, OutOfMemory> {
    let scheme = match endpoint.scheme {
        Scheme::Http => "http",
        Scheme::Https => "https",
    };
    let (host, port, path) = (&endpoint.host, endpoint.port, &endpoint.path);
    let mut text = Text::from_string(format!(in alloc; "{scheme} {host} {port} {path}")?);
    push_maybe(&mut text, " name=", &endpoint.signing_name)?;
    push_maybe(&mut text, " region=", &endpoint.signing_region)?;
    Ok(text)
}

fn push_maybe(text: &mut Text, label: &str, part: &Option<Text>) -> Result<(), OutOfMemory> {
    if let Some(part) = part {
        text.push_str(label)?;
        text.push_str(part.as_str())?;
    }
    Ok(())
}
