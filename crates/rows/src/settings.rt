//! Settings files, and the settings that they, an environment and a line come to.
//!
//! Some of the files were read by botocore 1.43.11's `configloader` too. `/` stands for a line end here:
//!
//! | File | botocore | Here |
//! |---|---|---|
//! | `[default]/region = eu/output:text/Key Name \t=\t a value` | three keys, `key name` among them | the same |
//! | the same with CR LF, an empty line and a comment | the keys | the same |
//! | `[default]/a = b = c/d = e#f;g ; h/i : j=k/l=m:n` | the first sign counts, no comment behind a value | the same |
//! | `[default]/a =/b=` | two empty values | the same |
//! | `[dev]/a=1/[sso-session x]/b=2/[services y]/c=3` | no profiles | the same |
//! | `[profile ""]` | a profile without a name | the same |
//! | `[dev`, `region = eu`, `[default]/region`, `[default]/= eu` | no config file | faulty at its line |
//! | bytes that aren't UTF-8, a byte order mark | no config file | faulty at its line |
//! | `[profile dev]/a=1/../[profile "dev"]/b=3` | the later section alone: `b` | both: `a` and `b` |
//! | `[default]/REGION = EU/Region = us` | no config file | the last value |
//! | `[default]/region = a/[default]/output = table` | no config file | both keys |
//! | `[default]/s3 =/  region = nested/  no sign/region = eu` | no config file | the block is skipped |
//! | `[default]/  region = eu/  output = text` | no config file | both keys |
//! | `[default] # no` | a profile `default` | faulty at line 1 |
//! | `[default]/[a] = b` | a section `a` | a key `[a]` |
//! | `[default]/ [profile dev]` | a profile `dev` | faulty at line 2 |
//! | `[profile 'a b']`, `[profile  c]` with two spaces | profiles `a b` and `c` | ignored |
//! | `a` and a value between no-break spaces | stripped | kept, as they are no blanks |
use aws_world::Env;
use config_file::{ConfigFault, Profiles, Section, Settings, config_path, credentials_path};
use json_doc::{List, OutOfMemory, Text};
use row_words::{text_of, told};
use std::alloc::Global;

/// The sections of both files, a line each, or the first faulty line.
pub fn sections(alloc: Global, config: &[u8], credentials: &[u8]) -> Result<Text, OutOfMemory> {
    let profiles = match Profiles::read(alloc, config, credentials) {
        Ok(profiles) => profiles,
        Err(fault) => return told(alloc, &fault),
    };
    let mut lines = Text::from_str(alloc, "config")?;
    write_sections(alloc, &mut lines, &profiles.config)?;
    lines.push_str("\ncredentials")?;
    write_sections(alloc, &mut lines, &profiles.credentials)?;
    Ok(lines)
}

fn write_sections(
    alloc: Global,
    lines: &mut Text,
    sections: &List<Section>,
) -> Result<(), OutOfMemory> {
    for section in sections.as_slice() {
        match &section.profile {
            Some(name) => lines.push_str(format!(in alloc; "\n  [{name}]")?.as_str())?,
            None => lines.push_str("\n  ignored")?,
        }
        for (key, value) in section.keys.as_slice() {
            lines.push_str(format!(in alloc; " {key}=<{value}>")?.as_str())?;
        }
    }
    Ok(())
}

/// The settings, or the fault, of two files, an environment and the options of a line. Of the last two each
/// line has a name, `=` and a value.
pub fn settings(
    alloc: Global,
    config: &[u8],
    credentials: &[u8],
    variables: &[u8],
    options: &[u8],
) -> Result<Text, OutOfMemory> {
    let env = Env {
        pairs: pairs(alloc, variables)?,
    };
    match resolved(alloc, config, credentials, &env, &pairs(alloc, options)?) {
        Ok(settings) => shown(alloc, &settings),
        Err(fault) => told(alloc, &fault),
    }
}

fn resolved(
    alloc: Global,
    config: &[u8],
    credentials: &[u8],
    env: &Env,
    line: &List<(Text, Text)>,
) -> Result<Settings, ConfigFault> {
    let profiles = Profiles::read(alloc, config, credentials)?;
    Settings::resolve(alloc, line, env, &profiles)
}

/// The names and values of a text, a line each.
fn pairs(alloc: Global, text: &[u8]) -> Result<List<(Text, Text)>, OutOfMemory> {
    let mut pairs = List::new(alloc);
    for line in text_of(alloc, text)?.as_str().lines() {
        if let Some((name, value)) = line.split_once('=') {
            pairs.push((Text::from_str(alloc, name)?, Text::from_str(alloc, value)?))?;
        }
    }
    Ok(pairs)
}

fn shown(alloc: Global, settings: &Settings) -> Result<Text, OutOfMemory> {
    let region = or_none(&settings.region);
    let output = settings.output;
    let mut text = format!(in alloc; "region {region}, {output:?}")?;
    if let Some(keys) = &settings.keys {
        let (access, secret, session) = (&keys.access, &keys.secret, or_none(&keys.session));
        text.push_str(format!(in alloc; ", keys {access} {secret} {session}")?.as_str())?;
    }
    let (attempts, fips, dual_stack) = (settings.attempts, settings.fips, settings.dual_stack);
    let url = or_none(&settings.endpoint_url);
    let query = or_none(&settings.query);
    text.push_str(format!(in alloc;
        ", {attempts} attempts, fips {fips}, dual stack {dual_stack}, endpoint {url}, query {query}"
    )?.as_str())?;
    if let Some(target) = &settings.gateway {
        let (host, port) = (&target.host, target.port);
        text.push_str(format!(in alloc; ", gateway {host} at {port}")?.as_str())?;
    }
    Ok(Text::from_string(text))
}

fn or_none(text: &Option<Text>) -> &str {
    match text {
        Some(text) => text.as_str(),
        None => "none",
    }
}

/// Where the two files are looked for in an environment.
pub fn paths(alloc: Global, variables: &[u8]) -> Result<Text, OutOfMemory> {
    let env = Env {
        pairs: pairs(alloc, variables)?,
    };
    let config = config_path(alloc, &env)?;
    let credentials = credentials_path(alloc, &env)?;
    let (config, credentials) = (or_none(&config), or_none(&credentials));
    let text = format!(in alloc; "{config}, {credentials}")?;
    Ok(Text::from_string(text))
}
